//! Admit: every load in one pass over the list, and the refusals that are decided from it.
#![tactic(auto)]

ghost use Rattle.std.specs.Prelude.{◌≡◌, ◌<◌, ltb, length, IfSome};
ghost use Rattle.rules.specs.Words.{found};
ghost use Rattle.calls.specs.Refusals.{answered, admitted};
ghost use Rattle.admission.specs.Overloads.{value_at, NoLoad, EveryLoad, decided_ports, decided};

use calls::Refusal;
use checks::reservations::{Reservations, check_list};

// The load of each input, of each output and of each link, at its place from 0, and 0 at a place of no port.
#[derive(Drop)]
pub struct Loads {
    pub inputs: [usize; 16],
    pub outputs: [usize; 16],
    pub links: [usize; 64],
}

impl Loads {
    // Those of no flow.
    #[inline]
    pub fn new() -> Loads
        ensures { NoLoad result }
    {
        Loads {
            inputs: [0; 16],
            outputs: [0; 16],
            links: [0; 64],
        }
    }
}

// Every port's and every link's load, in one pass over the list, where all are 0 before. The loads are lent, since those that are handed back
// by value are copied.
pub fn add_loads(of: &Reservations<'_>, loads: &mut Loads)
    requires { NoLoad loads.old }
    ensures { EveryLoad of.now.ports of.now.list.now loads.new }
{
    for f in 0..of.flows() {
        let flow = of.flow(f);
        loads.inputs[flow.input] += flow.cells;
        loads.outputs[flow.output] += flow.cells;
        loads.links[flow.link] += flow.cells;
    }
}

// The lowest of sixteen ports whose load is above slots.
fn lowest_above(slots: usize, loads: &[usize; 16]) -> Option<usize>
    requires { length loads.now ≡ 16 }
    ensures first { result ≡ found (λ port. ltb slots (value_at loads.now port)) 0 16 }
    ensures low { IfSome result (λ port. port < 16) }
{
    (0..16).find(|&port| slots < loads[port])
}

// The lowest of the links of sixteen outputs whose load is above its limit.
fn lowest_past(loads: &[usize; 64], limits: [u16; 64]) -> Option<usize>
    requires { length loads.now ≡ 64 }
    ensures first { result ≡ found (λ link. ltb (value_at limits link) (value_at loads.now link)) 0 64 }
    ensures low { IfSome result (λ link. link < 64) }
{
    (0..64).find(|&link| usize::from(limits[link]) < loads[link])
}

// Refusals 5 and 6, decided from the loads of the ports and slots.
pub fn port_overload(slots: usize, loads: &Loads) -> Result<(), Refusal>
    ensures { answered result ≡ decided_ports slots loads.now }
{
    if let Some(input) = lowest_above(slots, &loads.inputs) {
        return Err(Refusal::InputLoad {
            port: input + 1,
            cells: loads.inputs[input],
        });
    }
    if let Some(output) = lowest_above(slots, &loads.outputs) {
        return Err(Refusal::OutputLoad {
            port: output + 1,
            cells: loads.outputs[output],
        });
    }
    Ok(())
}

// Refusals 5, 6 and 24, decided from every load, slots and the limits.
pub fn overload(slots: usize, loads: &Loads, limits: [u16; 64]) -> Result<(), Refusal>
    ensures { answered result ≡ decided slots loads.now limits }
{
    port_overload(slots, loads)?;
    if let Some(link) = lowest_past(&loads.links, limits) {
        return Err(Refusal::LinkLoad {
            output: link / 4 + 1,
            link: link % 4 + 1,
            cells: loads.links[link],
        });
    }
    Ok(())
}

// Admit: 1, 2, 3, 21, 22, 23, 5, 6, 24.
pub fn admit(ports: usize, slots: usize, list: &[u16], limits: [u16; 64]) -> Result<(), Refusal>
    ensures { answered result ≡ admitted ports slots list.now limits }
{
    let of = check_list(ports, slots, list)?;
    let mut loads = Loads::new();
    add_loads(&of, &mut loads);
    overload(slots, &loads, limits)
}
