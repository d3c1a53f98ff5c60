//! Add: one more cell of a flow in a frame that is on air, by the exchange of two slots.
#![tactic(auto)]

ghost use Rattle.std.specs.Prelude.{◌≡◌, ◌<◌, ◌≤◌, IfOk, IfSome};
ghost use Rattle.rules.specs.Words.{Within};
ghost use Rattle.rules.specs.Flows.{flows, input};
ghost use Rattle.calls.specs.Added.{add_numbers};
ghost use Rattle.usable_frames.specs.Usable.{Usable};
ghost use Rattle.checks.specs.Fits.{FrameFits, FlowFrame};
ghost use Rattle.exchange.specs.Exchange.{cell_put};
ghost use Rattle.exchange.specs.Swaps.{moved_by, swapped, swaps};
ghost use Rattle.exchange.specs.Add.{add_answer, add_leaves};
ghost use Rattle.adding.specs.Placed.{Placed};

use calls::{Added, Refusal, Side};
use checks::frames::{Frame, FrameOfFlows, check_frame};
use checks::reservations::{Reservations, check_list};
use entries::usable::bad_entries;
use idle::{lowest_both, lowest_input, lowest_output, lowest_to, output_of};

// Puts a cell of a flow into a slot, at the flow's input.
fn put_cell(of: &Reservations<'_>, frame: &mut [u16], flow: usize, slot: usize)
    requires { FlowFrame of.now.ports of.now.slots of.now.list.now frame.old × Within 1 (flows of.now.list.now) flow × (slot < of.now.slots) }
    ensures { frame.new ≡ cell_put of.now.ports of.now.list.now frame.old flow slot }
{
    let i = of.flow(flow - 1).input;
    // By `as`: `try_from` would have a case that does not come.
    frame[slot * of.ports + i] = flow as u16;
}

// The entries of an input in two slots change places; answers how many cells that moves, where the input has one in the first.
fn swap_entries(of: &Reservations<'_>, frame: &mut [u16], s: usize, t: usize, j: usize) -> usize
    requires { FrameFits of.now.ports of.now.slots frame.old × (s < of.now.slots) × (t < of.now.slots) × (j < of.now.ports) }
    ensures { (result ≡ moved_by of.now.ports frame.old t j) × (frame.new ≡ swapped of.now.ports frame.old s t j) }
{
    let from = s * of.ports + j;
    let to = t * of.ports + j;
    let moved = 1 + usize::from(frame[to] != 0);
    frame.swap(from, to);
    moved
}

// Moves the displaced cells of two slots, where input f has the cell that came into the former last, and answers how many.
fn exchange_slots(
    of: &Reservations<'_>,
    frame: &mut [u16],
    former: usize,
    other: usize,
    f: usize,
) -> usize
    requires { FlowFrame of.now.ports of.now.slots of.now.list.now frame.old × (former < of.now.slots) × (other < of.now.slots) × (f < of.now.ports) }
    ensures { (result ≡ (swaps of.now.ports of.now.ports of.now.list.now frame.old former other f).moved)
        × (frame.new ≡ (swaps of.now.ports of.now.ports of.now.list.now frame.old former other f).frame) }
{
    let mut last = f;
    let mut moved: usize = 0;
    for _n in 0..of.ports {
        let o = output_of(of, frame[former * of.ports + last]);
        if o == 0 {
            return moved;
        }
        let now = FrameOfFlows {
            frame: Frame {
                of: *of,
                entries: frame,
            },
        };
        let Some(j) = lowest_to(&now, former, o, last) else {
            return moved;
        };
        moved += swap_entries(of, frame, former, other, j);
        last = j;
    }
    moved
}

// Puts the cell where its ports are idle, or refuses it with 17 or 18.
fn place(of: &Reservations<'_>, frame: &mut [u16], flow: usize) -> Result<Added, Refusal>
    requires { Usable input of.now.ports of.now.slots of.now.list.now frame.old × Within 1 (flows of.now.list.now) flow }
    ensures placed { Placed of.now.ports of.now.slots of.now.list.now frame.old flow (add_numbers result) frame.new }
    ensures other { IfOk result (λ added. IfSome added.other (λ slot. 1 ≤ slot)) }
{
    let now = FrameOfFlows {
        frame: Frame {
            of: *of,
            entries: frame,
        },
    };
    if let Some(both) = lowest_both(&now, flow) {
        put_cell(of, frame, flow, both);
        return Ok(Added {
            slot: both + 1,
            other: None,
            moved: 0,
        });
    }
    let Some(former) = lowest_input(&now, flow) else {
        return Err(Refusal::InputFull);
    };
    let Some(other) = lowest_output(&now, flow) else {
        return Err(Refusal::OutputFull);
    };
    let f = of.flow(flow - 1).input;
    put_cell(of, frame, flow, former);
    let moved = exchange_slots(of, frame, former, other, f);
    Ok(Added {
        slot: former + 1,
        other: Some(other + 1),
        moved,
    })
}

// Add: 1, 2, 3, 21, 22, 23, 4, 12, 16, 17, 18, and nothing is written until all have passed.
pub fn add(
    ports: usize,
    slots: usize,
    list: &[u16],
    frame: &mut [u16],
    flow: usize,
) -> Result<Added, Refusal>
    ensures answer { add_numbers result ≡ add_answer ports slots list.now frame.old flow }
    ensures entries { frame.new ≡ add_leaves ports slots list.now frame.old flow }
    ensures other { IfOk result (λ added. IfSome added.other (λ slot. 1 ≤ slot)) }
{
    let of = check_list(ports, slots, list)?;
    let lent = check_frame(of, frame)?;
    if checks::outside(of.flows(), flow) {
        return Err(Refusal::FlowOrPort);
    }
    if bad_entries(Side::Input, &lent) {
        return Err(Refusal::FrameEntries);
    }
    place(&of, frame, flow)
}
