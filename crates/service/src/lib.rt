//! Service count: the cells of a run of a frame that repeats, and how far ahead they are.
#![tactic(auto)]

ghost use Rattle.std.specs.Prelude.{◌≡◌, ◌+◌, ◌-◌, ◌*◌, ◌≤◌, ◌<◌, true, ltb, length, pos, ◌-ℤ◌};
ghost use Rattle.rules.specs.Flows.{port_on};
ghost use Rattle.rules.specs.Frames.{is_flow_of, cells_on, run_of, repeated};
ghost use Rattle.calls.specs.Sides.{side_of};
ghost use Rattle.calls.specs.Service.{class_of, who_within, lead_on, served, service};

use calls::{Count, Refusal, Side, Who};
use checks::frames::{Frame, check_frame};
use checks::reservations::{Reservations, check_list};

// Refusal 13.
fn too_long(len: usize) -> bool
    ensures { result ≡ ltb 1000000 len }
{
    1_000_000 < len
}

// Consecutive slots; the first is numbered from 0.
#[derive(Clone, Copy)]
struct Run {
    start: usize,
    len: usize,
}

// The entries of a run that stays inside the frame.
fn entries_in<'a>(frame: &Frame<'a>, run: Run) -> &'a [u16]
    requires { run.start + run.len ≤ frame.now.of.slots }
    ensures entries { result.now ≡ run_of frame.now.of.ports run.start run.len frame.now.entries.now }
    ensures few { length result.now ≤ 16384 }
{
    let from = run.start * frame.of.ports;
    let end = from + run.len * frame.of.ports;
    &frame.entries[from..end]
}

// An entry is a flow of a port of a side.
fn is_flow_of(of: &Reservations<'_>, side: Side, port: usize, entry: usize) -> bool
    ensures { result ≡ is_flow_of (port_on (side_of side) port) of.now.list.now entry }
{
    (1..=of.flows()).contains(&entry) && of.flow(entry - 1).port(side) == port
}

// The cells of a port, from 0, in a run inside a frame of a side. Those of the frame's own side stand at its place of each slot, those of the
// other anywhere.
fn port_cells(side: Side, frame: &Frame<'_>, run: Run, of: Side, port: usize) -> usize
    requires { (run.start + run.len ≤ frame.now.of.slots) × (port < frame.now.of.ports) }
    ensures { result ≡ cells_on (side_of side) frame.now.of.ports frame.now.of.list.now (port_on (side_of of) port)
        (run_of frame.now.of.ports run.start run.len frame.now.entries.now) }
{
    if side == of {
        let end = run.start + run.len;
        return (run.start..end)
            .map(|s| usize::from(frame.slot(s)[port] != 0))
            .sum();
    }
    let list = frame.of;
    entries_in(frame, run)
        .iter()
        .map(|entry| usize::from(is_flow_of(&list, of, port, usize::from(*entry))))
        .sum()
}

// Whom a count is for, in a frame of a side; refusal 12 does not turn it away.
#[derive(Clone, Copy)]
struct Asked<'a> {
    side: Side,
    frame: &'a Frame<'a>,
    who: Who,
    ghost within: { who_within frame.now.of.ports frame.now.of.list.now who ≡ true },
}

impl Asked<'_> {
    // The cells of a run that stays inside the frame.
    fn inside(&self, run: Run) -> usize
        requires { run.start + run.len ≤ self.now.frame.now.of.slots }
        ensures { let frame = self.now.frame.now in
            result ≡ cells_on (side_of self.now.side) frame.of.ports frame.of.list.now (class_of self.now.who)
            (run_of frame.of.ports run.start run.len frame.entries.now) }
    {
        match self.who {
            Who::Flow(flow) => entries_in(self.frame, run)
                .iter()
                .map(|entry| usize::from(usize::from(*entry) == flow))
                .sum(),
            Who::Input(port) => port_cells(self.side, self.frame, run, Side::Input, port - 1),
            Who::Output(port) => port_cells(self.side, self.frame, run, Side::Output, port - 1),
        }
    }

    // The cells of a run of the frame that repeats for ever, by what the whole frame holds.
    fn repeated(&self, run: Run, whole: usize) -> usize
        requires { let frame = self.now.frame.now in
            (run.start < frame.of.slots) × (run.len ≤ 1000000)
            × (whole ≡ cells_on (side_of self.now.side) frame.of.ports frame.of.list.now (class_of self.now.who) frame.entries.now) }
        ensures { let frame = self.now.frame.now in
            result ≡ cells_on (side_of self.now.side) frame.of.ports frame.of.list.now (class_of self.now.who)
            (repeated frame.of.ports frame.of.slots frame.entries.now run.start run.len) }
    {
        let slots = self.frame.of.slots;
        let rest = run.len % slots;
        let head = rest.min(slots - run.start);
        let tail = rest - head;
        let before = self.inside(Run {
            start: run.start,
            len: head,
        });
        let after = self.inside(Run {
            start: 0,
            len: tail,
        });
        run.len / slots * whole + (before + after)
    }

    // The count of a run and its lead; the whole frame is counted once, for both.
    fn count(&self, run: Run) -> Count
        requires { (run.start < self.now.frame.now.of.slots) × (run.len ≤ 1000000) }
        ensures cells { let frame = self.now.frame.now in
            result.cells ≡ cells_on (side_of self.now.side) frame.of.ports frame.of.list.now (class_of self.now.who)
            (repeated frame.of.ports frame.of.slots frame.entries.now run.start run.len) }
        ensures lead { let frame = self.now.frame.now in
            result.lead ≡ lead_on (side_of self.now.side) (class_of self.now.who) frame.of.ports frame.of.slots frame.of.list.now
            frame.entries.now run.start run.len }
    {
        let slots = self.frame.of.slots;
        let whole = self.inside(Run {
            start: 0,
            len: slots,
        });
        let cells = self.repeated(run, whole);
        Count {
            cells,
            lead: lead_of(slots, cells, run.len, whole),
        }
    }
}

// How far ahead a run is: two products, and their difference on either side of zero.
fn lead_of(slots: usize, cells: usize, len: usize, whole: usize) -> i64
    requires { (slots ≤ 1024) × (cells ≤ 16000000) × (len ≤ 1000000) × (whole ≤ 16000000) }
    ensures { result ≡ pos (slots * cells) -ℤ pos (len * whole) }
{
    let had = slots * cells;
    let share = len * whole;
    // By `as`: `try_from` would have a case that does not come.
    had as i64 - share as i64
}

// Service count: 1, 2, 3, 21, 22, 23, 4, 11, 12, 13.
pub fn service_count(
    side: Side,
    ports: usize,
    slots: usize,
    list: &[u16],
    frame: &[u16],
    who: Who,
    start: usize,
    len: usize,
) -> Result<Count, Refusal>
    ensures { served result ≡ service (side_of side) ports slots list.now frame.now who start len }
{
    let of = check_list(ports, slots, list)?;
    let frame = check_frame(of, frame)?;
    if checks::outside(slots, start) {
        return Err(Refusal::SlotNumber);
    }
    if checks::bad_who(ports, list, who) {
        return Err(Refusal::FlowOrPort);
    }
    if too_long(len) {
        return Err(Refusal::RunLength);
    }
    let asked = Asked {
        side,
        frame: &frame,
        who,
    };
    let run = Run {
        start: start - 1,
        len,
    };
    Ok(asked.count(run))
}
