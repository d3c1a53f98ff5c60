//! Slots of a frame in which the ports of a flow are idle.
#![tactic(auto)]

ghost use Rattle.std.specs.Prelude.{◌≡◌, ◌≤◌, ◌<◌};
ghost use Rattle.rules.specs.Words.{both, found, Within};
ghost use Rattle.rules.specs.Flows.{flows, input, output};
ghost use Rattle.exchange.specs.Add.{idle};
ghost use Rattle.exchange.specs.Swaps.{output_number, goes_to};

use checks::frames::FrameOfFlows;
use checks::reservations::Reservations;

// The output of the flow that an entry is the number of, from 1; 0 where it is idle. No Option: the law of the exchange (`output_number`) counts so.
pub fn output_of(of: &Reservations<'_>, entry: u16) -> usize
    requires { entry ≤ flows of.now.list.now }
    ensures { result ≡ output_number of.now.list.now entry }
{
    if entry == 0 {
        return 0;
    }
    of.flow(usize::from(entry) - 1).output + 1
}

// The lowest input of a slot, other than a given one, whose cell goes to an output, from 1. Where `but` is ports, no input is left out.
pub fn lowest_to(frame: &FrameOfFlows<'_>, slot: usize, output: usize, but: usize) -> Option<usize>
    requires { slot < frame.now.frame.of.slots }
    ensures { result ≡ found (goes_to frame.now.frame.of.ports frame.now.frame.of.list.now frame.now.frame.entries.now slot output but) 0 frame.now.frame.of.ports }
{
    let entries = frame.frame.slot(slot);
    (0..frame.frame.of.ports).find(|&i| i != but
        && output_of(&frame.frame.of, entries[i]) == output)
}

// The lowest slot in which the flow's input is idle.
pub fn lowest_input(frame: &FrameOfFlows<'_>, flow: usize) -> Option<usize>
    requires { Within 1 (flows frame.now.frame.of.list.now) flow }
    ensures { result ≡ found (idle input frame.now.frame.of.ports frame.now.frame.of.list.now frame.now.frame.entries.now flow) 0 frame.now.frame.of.slots }
{
    let i = frame.frame.of.flow(flow - 1).input;
    (0..frame.frame.of.slots).find(|&s| frame.frame.slot(s)[i] == 0)
}

// The lowest slot in which the flow's output is idle.
pub fn lowest_output(frame: &FrameOfFlows<'_>, flow: usize) -> Option<usize>
    requires { Within 1 (flows frame.now.frame.of.list.now) flow }
    ensures { result ≡ found (idle output frame.now.frame.of.ports frame.now.frame.of.list.now frame.now.frame.entries.now flow) 0 frame.now.frame.of.slots }
{
    let o = frame.frame.of.flow(flow - 1).output + 1;
    let ports = frame.frame.of.ports;
    (0..frame.frame.of.slots).find(|&s| lowest_to(frame, s, o, ports).is_none())
}

// The lowest slot in which both ports of the flow are idle. Only where its input is, its output is looked for.
pub fn lowest_both(frame: &FrameOfFlows<'_>, flow: usize) -> Option<usize>
    requires { Within 1 (flows frame.now.frame.of.list.now) flow }
    ensures { result ≡ found (λ s. both (idle input frame.now.frame.of.ports frame.now.frame.of.list.now frame.now.frame.entries.now flow s)
        (idle output frame.now.frame.of.ports frame.now.frame.of.list.now frame.now.frame.entries.now flow s)) 0 frame.now.frame.of.slots }
{
    let own = frame.frame.of.flow(flow - 1);
    let ports = frame.frame.of.ports;
    (0..frame.frame.of.slots).find(|&s| frame.frame.slot(s)[own.input] == 0
        && lowest_to(frame, s, own.output + 1, ports).is_none())
}
