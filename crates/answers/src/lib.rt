//! The answers of Service count and of Depth as numbers, written where the caller asks.
#![tactic(auto)]

ghost use Rattle.calls.specs.Service.{service};
ghost use Rattle.calls.specs.Depth.{depth};
ghost use Rattle.numbers.specs.Numbers.{Values2, Replied};
ghost use Rattle.numbers.specs.Sides.{side_numbered};

use calls::Who;
use depth::depth_of;
use numbers::{CountNumbers, Numbers, side_of};
use service::service_count;

// Service count in a frame of a side; the cells and the lead are 0 where it is refused.
pub fn count(
    side: usize,
    ports: usize,
    slots: usize,
    list: &[u16],
    frame: &[u16],
    who: Who,
    start: usize,
    len: usize,
    cells: &mut usize,
    lead: &mut i64,
) -> usize
    ensures { Replied (service (side_numbered side) ports slots list.now frame.now who start len) result cells.new lead.new }
{
    let counted = service_count(side_of(side), ports, slots, list, frame, who, start, len);
    let numbers = CountNumbers::from(counted);
    numbers.put(cells, lead)
}

// Depth: the bound and the cells to order; refusals 5 and 6 have the port and its load in their place.
pub fn bound(
    ports: usize,
    slots: usize,
    list: &[u16],
    who: Who,
    first: &mut usize,
    second: &mut usize,
) -> usize
    ensures { Values2 (depth ports slots list.now who) result first.new second.new }
{
    let numbers = Numbers::from(depth_of(ports, slots, list, who));
    numbers.put_two(first, second)
}
