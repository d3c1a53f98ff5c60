//! Inspect: a frame from anywhere, of either side, is clean, or has a first fault.
#![tactic(auto)]

ghost use Rattle.std.specs.Prelude.{◌≡◌};
ghost use Rattle.rules.specs.Words.{found};
ghost use Rattle.rules.specs.Flows.{flows};
ghost use Rattle.calls.specs.Sides.{side_of};
ghost use Rattle.calls.specs.Inspect.{finding, inspected, inspection_numbers};
ghost use Rattle.inspection.specs.Faults.{wrong_flow, faults};

use balance::unbalanced_block;
use calls::{Inspection, Refusal, Side};
use checks::frames::{Frame, FrameOfFlows, check_frame};
use checks::reservations::check_list;
use entries::{first_twice, first_wrong};
use tally::{Tally, tally_run};

// The first flow that is in the wrong number of slots.
fn first_wrong_count(frame: &FrameOfFlows<'_>) -> Option<usize>
    ensures { result ≡ found (wrong_flow frame.now.frame.of.list.now frame.now.frame.entries.now) 0 (flows frame.now.frame.of.list.now) }
{
    let of = &frame.frame.of;
    let mut tally = Tally::empty();
    tally_run(frame, 0, of.slots, &mut tally);
    (0..of.flows()).find(|&f| usize::from(tally.flows[f]) != of.flow(f).cells)
}

// The faults, in their order over the whole frame.
fn first_fault(side: Side, frame: &Frame<'_>) -> Inspection
    ensures { finding result ≡ faults (side_of side) frame.now.of.ports frame.now.of.slots frame.now.of.list.now frame.now.entries.now }
{
    let ports = frame.of.ports;
    if let Some(place) = first_wrong(side, frame) {
        return Inspection::WrongEntry {
            slot: place / ports + 1,
            port: place % ports + 1,
        };
    }
    let frame = &FrameOfFlows { frame: *frame };
    if let Some(place) = first_twice(side, frame) {
        return Inspection::PortTwice {
            slot: place / ports + 1,
            port: place % ports + 1,
        };
    }
    if let Some(f) = first_wrong_count(frame) {
        return Inspection::FlowCount { flow: f + 1 };
    }
    match unbalanced_block(frame) {
        Some(block) => Inspection::UnbalancedBlock {
            slot: block.slot,
            size: block.size,
        },
        None => Inspection::Clean,
    }
}

// Inspect: 1, 2, 3, 21, 22, 23, 4, then the faults.
pub fn inspect(
    side: Side,
    ports: usize,
    slots: usize,
    list: &[u16],
    frame: &[u16],
) -> Result<Inspection, Refusal>
    ensures { inspection_numbers result ≡ inspected (side_of side) ports slots list.now frame.now }
{
    let of = check_list(ports, slots, list)?;
    let frame = check_frame(of, frame)?;
    Ok(first_fault(side, &frame))
}
