// A list of flows that has passed the checks, and the flows in it.
ghost use Rattle.std.specs.Prelude.{◌≡◌, ◌+◌, ◌*◌, ◌/◌, ◌<◌, ◌≤◌, true, IfOk, IfErr};
ghost use Rattle.rules.specs.Flows.{flows, number_of, inputs, links, port_of, output_of};
ghost use Rattle.calls.specs.Sides.{side_of};
ghost use Rattle.checks.specs.Fits.{Clear, ListFits};
ghost use Rattle.checks.specs.Ports.{port_at};
ghost use Rattle.calls.specs.Refusals.{refusal, report, accepted, list_checks};

use crate::{bad_link, bad_port, bad_slots, outside};
use calls::{Refusal, Side};
use flows::{STRIDE, flows_of, numbers_of};

// A flow of such a list. Its ports and its link are numbered from 0, the links through all outputs, four to each.
#[derive(Clone, Copy, Debug, PartialEq, Eq)]
pub struct Flow {
    pub input: usize,
    pub output: usize,
    pub link: usize,
    pub cells: usize,
}

impl Flow {
    // Its port on a side.
    pub fn port(self, side: Side) -> usize
        ensures { result ≡ port_at (side_of side) self.input self.output }
    {
        match side {
            Side::Input => self.input,
            Side::Output => self.output,
        }
    }
}

// A list of flows that fits a switch of so many ports, with the slots of the frames that it is for.
#[derive(Clone, Copy)]
pub struct Reservations<'a> {
    pub ports: usize,
    pub slots: usize,
    pub list: &'a [u16],
    ghost fits: { ListFits ports list.now },
}

impl<'a> Reservations<'a> {
    // How many flows the list has.
    pub fn flows(&self) -> usize
        ensures { result ≡ flows self.now.list.now }
    {
        flows_of(self.list)
    }

    // Flow f, from 0.
    pub fn flow(&self, f: usize) -> Flow
        requires { f < flows self.now.list.now }
        ensures input { result.input ≡ port_of self.now.list.now inputs f }
        ensures output { result.output ≡ output_of (port_of self.now.list.now links f) }
        ensures link { result.link ≡ port_of self.now.list.now links f }
        ensures cells { result.cells ≡ number_of 2 self.now.list.now f }
        ensures low { (result.input < self.now.ports) × (result.output < self.now.ports) × (result.link < self.now.ports * 4) × (self.now.ports ≤ 16) × (result.cells ≤ 65535) }
    {
        let numbers = numbers_of(self.list, f);
        let output = usize::from(numbers.output) - 1;
        Flow {
            input: usize::from(numbers.input) - 1,
            output,
            link: output * 4 + (usize::from(numbers.link) - 1),
            cells: usize::from(numbers.cells),
        }
    }
}

// What is tried first wherever a list is taken: 1, 2, 3, 21, 22, 23.
pub fn check_list<'a>(
    ports: usize,
    slots: usize,
    list: &'a [u16],
) -> Result<Reservations<'a>, Refusal>
    ensures passed { IfOk result (λ of. (of.ports ≡ ports) × (of.slots ≡ slots) × (of.list.now ≡ list.now)) }
    ensures clear { IfOk result (λ of. Clear of.ports of.slots of.list.now) }
    ensures refused { IfErr result (λ r. refusal r ≡ report (list_checks ports slots list.now) accepted) }
{
    if outside(16, ports) {
        return Err(Refusal::Ports);
    }
    if bad_slots(slots) {
        return Err(Refusal::Slots);
    }
    if list.len() % STRIDE != 0 {
        return Err(Refusal::ListLength);
    }
    if 512 < flows_of(list) {
        return Err(Refusal::TooManyFlows);
    }
    if bad_port(ports, list) {
        return Err(Refusal::FlowPort);
    }
    if bad_link(list) {
        return Err(Refusal::FlowLink);
    }
    Ok(Reservations { ports, slots, list })
}
