//! Slot view: a slot's own part of the caller's frame.
#![tactic(auto)]

ghost use Rattle.std.specs.Prelude.{◌≡◌};
ghost use Rattle.calls.specs.Refusals.{answered};
ghost use Rattle.calls.specs.Service.{view_number, view_start, view_size, viewed};
ghost use Rattle.view.specs.Asked.{checked, onward};
ghost use Rattle.view.specs.Parts.{part_number, part_start, part_size};

use calls::Refusal;
use checks::{bad_length, bad_slots, outside};
use numbers::Numbers;

// Slot view's checks: 1, 2, 4, 11.
fn check_slot(ports: usize, slots: usize, frame: &[u16], slot: usize) -> Result<(), Refusal>
    ensures { answered result ≡ checked ports slots frame.now slot }
{
    if outside(16, ports) {
        return Err(Refusal::Ports);
    }
    if bad_slots(slots) {
        return Err(Refusal::Slots);
    }
    if bad_length(frame.len(), slots, ports) {
        return Err(Refusal::FrameLength);
    }
    if outside(slots, slot) {
        return Err(Refusal::SlotNumber);
    }
    Ok(())
}

// Where a slot's part of a frame begins and how many entries it has.
#[derive(Clone, Copy, Debug, PartialEq, Eq)]
pub struct Part {
    pub start: usize,
    pub size: usize,
}

// The part of a slot.
pub fn part_of(ports: usize, slots: usize, frame: &[u16], slot: usize) -> Result<Part, Refusal>
    ensures number { part_number result ≡ view_number ports slots frame.now slot }
    ensures start { part_start result ≡ view_start ports slots frame.now slot }
    ensures size { part_size result ≡ view_size ports slots frame.now slot }
{
    check_slot(ports, slots, frame, slot)?;
    Ok(Part {
        start: (slot - 1) * ports,
        size: ports,
    })
}

// Slot view: the slot's part of the caller's frame itself, and an empty part on refusal. The refusal's number is lent, and no `Result`, since a
// refused view has a part too.
pub fn slot_view<'a>(
    ports: usize,
    slots: usize,
    frame: &'a [u16],
    slot: usize,
    refused: &mut usize,
) -> &'a [u16]
    ensures result_value { result.now ≡ viewed ports slots frame.now slot }
    ensures ref_ptr_value { result.ref_ptr ≡ onward frame.entry.ref_ptr (view_start ports slots frame.now slot) }
    ensures refused_after { refused.new ≡ view_number ports slots frame.now slot }
{
    match part_of(ports, slots, frame, slot) {
        Ok(part) => {
            *refused = 0;
            let end = part.start + part.size;
            &frame[part.start..end]
        }
        Err(refusal) => {
            *refused = Numbers::from(refusal).number;
            &frame[0..0]
        }
    }
}
