//! Turn: a frame by the other side, written to a second buffer.
#![tactic(auto)]

ghost use Rattle.std.specs.Prelude.{◌≡◌, ◌≤◌, length};
ghost use Rattle.rules.specs.Flows.{flows, other};
ghost use Rattle.calls.specs.Refusals.{answered};
ghost use Rattle.calls.specs.Sides.{side_of};
ghost use Rattle.sides.specs.Turn.{by_side, Turnable, turn_answer, second_after};
ghost use Rattle.turning.specs.Put.{put};

use calls::{Refusal, Side};
use checks::frames::{Frame, FrameOfFlows, check_frame};
use checks::reservations::{Reservations, check_list};
use entries::{first_twice, first_wrong};

// Puts an entry at its flow's port of the other side, if it is not 0.
fn put_entry(side: Side, of: &Reservations<'_>, entry: u16, new: &mut [u16])
    requires { (length new.old ≡ of.now.ports) × (entry ≤ flows of.now.list.now) }
    ensures { new.new ≡ put (other (side_of side)) of.now.list.now entry new.old }
{
    if entry != 0 {
        let flow = of.flow(usize::from(entry) - 1);
        new[flow.port(side.other())] = entry;
    }
}

// A slot by the other side.
fn turn_slot(side: Side, of: &Reservations<'_>, slot: &[u16], new: &mut [u16])
    requires { Turnable (side_of side) of.now.ports 1 of.now.list.now slot.now × (length new.old ≡ of.now.ports) }
    ensures { new.new ≡ by_side (other (side_of side)) of.now.ports of.now.list.now slot.now }
{
    new.fill(0);
    for &entry in slot {
        put_entry(side, of, entry, new);
    }
}

// Every slot by the other side.
fn turn_frame(side: Side, frame: &Frame<'_>, second: &mut [u16])
    requires { Turnable (side_of side) frame.now.of.ports frame.now.of.slots frame.now.of.list.now frame.now.entries.now × (length second.old ≡ length frame.now.entries.now) }
    ensures { second.new ≡ by_side (other (side_of side)) frame.now.of.ports frame.now.of.list.now frame.now.entries.now }
{
    for s in 0..frame.of.slots {
        let from = s * frame.of.ports;
        let end = from + frame.of.ports;
        turn_slot(side, &frame.of, frame.slot(s), &mut second[from..end]);
    }
}

// Turn: 1, 2, 3, 21, 22, 23, 4, 15, 14, and nothing is written until all have passed.
pub fn turn(
    side: Side,
    ports: usize,
    slots: usize,
    list: &[u16],
    frame: &[u16],
    second: &mut [u16],
) -> Result<(), Refusal>
    ensures { (answered result ≡ turn_answer (side_of side) ports slots list.now frame.now second.old)
        × (second.new ≡ second_after (side_of side) ports slots list.now frame.now second.old) }
{
    let of = check_list(ports, slots, list)?;
    let frame = check_frame(of, frame)?;
    if second.len() != frame.entries.len() {
        return Err(Refusal::SecondLength);
    }
    if first_wrong(side, &frame).is_some() {
        return Err(Refusal::Entries);
    }
    let frame = FrameOfFlows { frame };
    if first_twice(side, &frame).is_some() {
        return Err(Refusal::Entries);
    }
    turn_frame(side, &frame.frame, second);
    Ok(())
}
