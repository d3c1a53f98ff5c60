//! Entries of a frame: the first wrong one, and the first port of the other side that is used twice in a slot.
#![tactic(auto)]

pub mod usable;

ghost use Rattle.std.specs.Prelude.{◌≡◌, not, ◌*◌, ◌<◌};
ghost use Rattle.rules.specs.Words.{found};
ghost use Rattle.rules.specs.Flows.{flows};
ghost use Rattle.rules.specs.Frames.{right_on, run_of};
ghost use Rattle.calls.specs.Sides.{side_of};
ghost use Rattle.calls.specs.Inspect.{is_wrong, used_twice};
ghost use Rattle.entries.specs.Entries.{Used};

use calls::Side;
use checks::frames::{Frame, FrameOfFlows};
use checks::reservations::Reservations;

// The ports of a side, at most.
const PORTS_MOST: usize = 16;

// An entry at a port of the frame's side is neither 0 nor the number of a flow of that port.
fn is_wrong(side: Side, of: &Reservations<'_>, at: usize, entry: u16) -> bool
    ensures { result ≡ not (right_on (side_of side) of.now.list.now at entry) }
{
    let entry = usize::from(entry);
    entry != 0 && (of.flows() < entry || of.flow(entry - 1).port(side) != at)
}

// The place of the first wrong entry of a slot.
fn wrong_in(side: Side, frame: &Frame<'_>, slot: usize) -> Option<usize>
    requires { slot < frame.now.of.slots }
    ensures { result ≡ found (is_wrong (side_of side) frame.now.of.ports frame.now.of.list.now frame.now.entries.now) (slot * frame.now.of.ports) frame.now.of.ports }
{
    let from = slot * frame.of.ports;
    let end = from + frame.of.ports;
    (from..end).find(|&place| is_wrong(side, &frame.of, place - from, frame.entries[place]))
}

// The place of the first wrong entry.
pub fn first_wrong(side: Side, frame: &Frame<'_>) -> Option<usize>
    ensures { result ≡ found (is_wrong (side_of side) frame.now.of.ports frame.now.of.list.now frame.now.entries.now) 0 (frame.now.of.slots * frame.now.of.ports) }
{
    (0..frame.of.slots).find_map(|slot| wrong_in(side, frame, slot))
}

// How often a slot uses each port of the other side.
fn uses_of(side: Side, frame: &FrameOfFlows<'_>, slot: usize) -> [u8; PORTS_MOST]
    requires { slot < frame.now.frame.of.slots }
    ensures { Used (side_of side) frame.now.frame.of.list.now (run_of frame.now.frame.of.ports slot 1 frame.now.frame.entries.now) frame.now.frame.of.ports result }
{
    let mut uses = [0; PORTS_MOST];
    for &entry in frame.frame.slot(slot) {
        if entry != 0 {
            let flow = frame.frame.of.flow(usize::from(entry) - 1);
            uses[flow.port(side.other())] += 1;
        }
    }
    uses
}

// The place of the lowest port of the other side that a slot uses twice.
fn twice_in(side: Side, frame: &FrameOfFlows<'_>, slot: usize) -> Option<usize>
    requires { slot < frame.now.frame.of.slots }
    ensures { result ≡ found (used_twice (side_of side) frame.now.frame.of.ports frame.now.frame.of.list.now frame.now.frame.entries.now) (slot * frame.now.frame.of.ports) frame.now.frame.of.ports }
{
    let uses = uses_of(side, frame, slot);
    let from = slot * frame.frame.of.ports;
    let end = from + frame.frame.of.ports;
    (from..end).find(|&place| 1 < uses[place - from])
}

// The place of the first port of the other side that is used twice in a slot.
pub fn first_twice(side: Side, frame: &FrameOfFlows<'_>) -> Option<usize>
    ensures { result ≡ found (used_twice (side_of side) frame.now.frame.of.ports frame.now.frame.of.list.now frame.now.frame.entries.now) 0 (frame.now.frame.of.slots * frame.now.frame.of.ports) }
{
    (0..frame.frame.of.slots).find_map(|slot| twice_in(side, frame, slot))
}
