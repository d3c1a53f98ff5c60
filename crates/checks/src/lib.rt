//! The conditions of the refusals that several calls share.
#![tactic(auto)]

pub mod frames;
pub mod reservations;

ghost use Rattle.std.specs.Prelude.{◌≡◌, not, ◌*◌, ◌<◌, ◌≤◌, eqb, length, Some, None};
ghost use Rattle.rules.specs.Words.{if, within};
ghost use Rattle.rules.specs.Flows.{flows};
ghost use Rattle.rules.specs.Frames.{levels};
ghost use Rattle.calls.specs.Refusals.{ports_within, port_outside, link_outside};
ghost use Rattle.calls.specs.Service.{who_within};

use calls::Who;
use flows::{flows_of, numbers_of};

// Not one of 1, 2, .., most: refusals 1, 11 and 12.
pub fn outside(most: usize, n: usize) -> bool
    ensures { result ≡ not (within 1 most n) }
{
    n < 1 || most < n
}

// The k of slots that are 2^k with k at most 10.
pub fn levels_of(slots: usize) -> Option<usize>
    ensures { result ≡ if (eqb (levels slots) 11) None (Some (levels slots)) }
{
    if slots == 0 {
        return None;
    }
    // By `as`: std has no `From` of a `u32` for a `usize`.
    let k = slots.ilog2() as usize;
    if k <= 10 && slots == 1 << k {
        return Some(k);
    }
    None
}

// Refusal 2.
pub fn bad_slots(slots: usize) -> bool
    ensures { result ≡ eqb (levels slots) 11 }
{
    levels_of(slots).is_none()
}

// Refusal 4: `length` is not rows × columns, or that product is past every length.
pub fn bad_length(length: usize, rows: usize, columns: usize) -> bool
    ensures { result ≡ not (eqb length (rows * columns)) }
{
    rows.checked_mul(columns).is_none_or(|size| length != size)
}

// The input or the output of flow f is not one of 1, 2, .., ports.
fn port_outside(ports: usize, list: &[u16], f: usize) -> bool
    requires { f < flows list.now }
    ensures { result ≡ not (ports_within ports list.now f) }
{
    let flow = numbers_of(list, f);
    outside(ports, usize::from(flow.input)) || outside(ports, usize::from(flow.output))
}

// Refusal 22: that is so of some flow.
pub(crate) fn bad_port(ports: usize, list: &[u16]) -> bool
    ensures { result ≡ (port_outside ports list.now).0 }
{
    (0..flows_of(list)).any(|f| port_outside(ports, list, f))
}

// Refusal 23: the link of some flow is not one of 1, 2, 3, 4.
pub(crate) fn bad_link(list: &[u16]) -> bool
    ensures { result ≡ (link_outside list.now).0 }
{
    (0..flows_of(list)).any(|f| outside(4, usize::from(numbers_of(list, f).link)))
}

// Refusal 12: the flow is not in the list, or the port is outside.
pub fn bad_who(ports: usize, list: &[u16], who: Who) -> bool
    ensures { result ≡ not (who_within ports list.now who) }
{
    match who {
        Who::Flow(flow) => outside(flows_of(list), flow),
        Who::Input(input) => outside(ports, input),
        Who::Output(output) => outside(ports, output),
    }
}
