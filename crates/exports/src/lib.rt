//! The C interface: numbers, slices and the limits of links only. Each answer is document 01's number, 0 for none, and up to two
//! values, of Admit and Build up to three; a count's second is signed.
#![tactic(auto)]

ghost use Rattle.std.specs.Prelude.{◌≡◌};
ghost use Rattle.calls.specs.Refusals.{admitted};
ghost use Rattle.calls.specs.Build.{built, frame_after};
ghost use Rattle.calls.specs.Inspect.{inspected};
ghost use Rattle.calls.specs.Service.{view_number, view_start, view_size, service};
ghost use Rattle.calls.specs.Depth.{depth};
ghost use Rattle.sides.specs.Turn.{turn_number, second_after};
ghost use Rattle.numbers.specs.Numbers.{Values2, Values3, Replied};
ghost use Rattle.numbers.specs.Sides.{side_numbered};

use admission::admit;
use answers::{bound, count};
use build::build;
use calls::Who;
use inspection::inspect;
use numbers::{Numbers, side_of};
use turning::turn;
use view::part_of;

// Admit.
#[unsafe(no_mangle)]
pub extern "C" fn frame_builder_admit(
    ports: usize,
    slots: usize,
    list: &[u16],
    limits: &[u16; 64],
    first: &mut usize,
    second: &mut usize,
    third: &mut usize,
) -> usize
    ensures { Values3 (admitted ports slots list.now limits.now) result
        first.new second.new third.new }
{
    let numbers = Numbers::from(admit(ports, slots, list, *limits));
    numbers.put_three(first, second, third)
}

// Inspect a frame of a side.
#[unsafe(no_mangle)]
pub extern "C" fn frame_builder_inspect(
    side: usize,
    ports: usize,
    slots: usize,
    list: &[u16],
    frame: &[u16],
    first: &mut usize,
    second: &mut usize,
) -> usize
    ensures { Values2 (inspected (side_numbered side) ports slots list.now frame.now) result first.new second.new }
{
    let numbers = Numbers::from(inspect(side_of(side), ports, slots, list, frame));
    numbers.put_two(first, second)
}

// Build.
#[unsafe(no_mangle)]
pub extern "C" fn frame_builder_build(
    ports: usize,
    slots: usize,
    list: &[u16],
    limits: &[u16; 64],
    frame: &mut [u16],
    first: &mut usize,
    second: &mut usize,
    third: &mut usize,
) -> usize
    ensures values3 { Values3 (built ports slots list.now limits.now frame.old) result
        first.new second.new third.new }
    ensures frame_after { frame.new ≡ frame_after ports slots list.now limits.now frame.old }
{
    let numbers = Numbers::from(build(ports, slots, list, *limits, frame));
    numbers.put_three(first, second, third)
}

// Turn a frame of a side; no answer of it has a value.
#[unsafe(no_mangle)]
pub extern "C" fn frame_builder_turn(
    side: usize,
    ports: usize,
    slots: usize,
    list: &[u16],
    frame: &[u16],
    second: &mut [u16],
) -> usize
    ensures value { result ≡ turn_number (side_numbered side) ports slots list.now frame.now second.old }
    ensures second_after { second.new ≡ second_after (side_numbered side) ports slots list.now frame.now second.old }
{
    Numbers::from(turn(side_of(side), ports, slots, list, frame, second)).number
}

// Service count for a flow.
#[unsafe(no_mangle)]
pub extern "C" fn frame_builder_count_flow(
    side: usize,
    ports: usize,
    slots: usize,
    list: &[u16],
    frame: &[u16],
    flow: usize,
    start: usize,
    len: usize,
    cells: &mut usize,
    lead: &mut i64,
) -> usize
    ensures { Replied (service (side_numbered side) ports slots list.now frame.now (Who.Flow flow) start len) result cells.new lead.new }
{
    let of = Who::Flow(flow);
    count(side, ports, slots, list, frame, of, start, len, cells, lead)
}

// Service count for an input.
#[unsafe(no_mangle)]
pub extern "C" fn frame_builder_count_input(
    side: usize,
    ports: usize,
    slots: usize,
    list: &[u16],
    frame: &[u16],
    input: usize,
    start: usize,
    len: usize,
    cells: &mut usize,
    lead: &mut i64,
) -> usize
    ensures { Replied (service (side_numbered side) ports slots list.now frame.now (Who.Input input) start len) result cells.new lead.new }
{
    let by = Who::Input(input);
    count(side, ports, slots, list, frame, by, start, len, cells, lead)
}

// Service count for an output.
#[unsafe(no_mangle)]
pub extern "C" fn frame_builder_count_output(
    side: usize,
    ports: usize,
    slots: usize,
    list: &[u16],
    frame: &[u16],
    output: usize,
    start: usize,
    len: usize,
    cells: &mut usize,
    lead: &mut i64,
) -> usize
    ensures { Replied (service (side_numbered side) ports slots list.now frame.now (Who.Output output) start len) result cells.new lead.new }
{
    let to = Who::Output(output);
    count(side, ports, slots, list, frame, to, start, len, cells, lead)
}

// Slot view: where in the frame the part begins, and how many entries it has, stand in for the part itself.
#[unsafe(no_mangle)]
pub extern "C" fn frame_builder_slot_view(
    ports: usize,
    slots: usize,
    frame: &[u16],
    slot: usize,
    start: &mut usize,
    size: &mut usize,
) -> usize
    ensures value { result ≡ view_number ports slots frame.now slot }
    ensures start_after { start.new ≡ view_start ports slots frame.now slot }
    ensures size_after { size.new ≡ view_size ports slots frame.now slot }
{
    match part_of(ports, slots, frame, slot) {
        Ok(part) => {
            *start = part.start;
            *size = part.size;
            0
        }
        Err(refusal) => {
            *start = 0;
            *size = 0;
            Numbers::from(refusal).number
        }
    }
}

// Depth for a flow.
#[unsafe(no_mangle)]
pub extern "C" fn frame_builder_depth_flow(
    ports: usize,
    slots: usize,
    list: &[u16],
    flow: usize,
    first: &mut usize,
    second: &mut usize,
) -> usize
    ensures { Values2 (depth ports slots list.now (Who.Flow flow)) result first.new second.new }
{
    bound(ports, slots, list, Who::Flow(flow), first, second)
}

// Depth for an input.
#[unsafe(no_mangle)]
pub extern "C" fn frame_builder_depth_input(
    ports: usize,
    slots: usize,
    list: &[u16],
    input: usize,
    first: &mut usize,
    second: &mut usize,
) -> usize
    ensures { Values2 (depth ports slots list.now (Who.Input input)) result first.new second.new }
{
    bound(ports, slots, list, Who::Input(input), first, second)
}

// Depth for an output.
#[unsafe(no_mangle)]
pub extern "C" fn frame_builder_depth_output(
    ports: usize,
    slots: usize,
    list: &[u16],
    output: usize,
    first: &mut usize,
    second: &mut usize,
) -> usize
    ensures { Values2 (depth ports slots list.now (Who.Output output)) result first.new second.new }
{
    bound(ports, slots, list, Who::Output(output), first, second)
}
