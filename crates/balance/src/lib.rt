//! Balance: the first block whose halves differ by more than one cell, in frames of flows, whose cells are counted by the flows alone.
#![tactic(auto)]

ghost use Rattle.std.specs.Prelude.{◌≡◌, not, ◌+◌, ◌/◌, ◌^◌, ◌≤◌, ◌<◌, [], ◌∷◌, suc};
ghost use Rattle.rules.specs.Words.{near};
ghost use Rattle.rules.specs.Frames.{levels};
ghost use Rattle.calls.specs.Refusals.{report};
ghost use Rattle.calls.specs.Inspect.{unbalanced, unbalanced_number, unbalanced_block};
ghost use Rattle.tally.specs.Tally.{flow_cells};
ghost use Rattle.balance.specs.Balance.{any_far, block_at, block_numbers};

use checks::frames::FrameOfFlows;
use tally::{Tally, tally_run};

// A block of slots, by its first slot, from 1, and its size.
#[derive(Clone, Copy, Debug, PartialEq, Eq)]
pub struct Block {
    pub slot: usize,
    pub size: usize,
}

// Two counts differ by more than 1.
fn apart(a: u16, b: u16) -> bool
    ensures { result ≡ not (near 1 a b) }
{
    1 < a.abs_diff(b)
}

// So do two like counts of two tallies.
fn any_apart(a: &[u16], b: &[u16]) -> bool
    ensures { result ≡ any_far a.now b.now }
{
    a.iter().zip(b).any(|(&a, &b)| apart(a, b))
}

// The two halves of a block, half slots each, differ by more than 1 for some flow, input, output or link, or in total.
fn unbalanced_at(frame: &FrameOfFlows<'_>, start: usize, half: usize) -> bool
    requires { start + half + half ≤ frame.now.frame.of.slots }
    ensures { result ≡ unbalanced (flow_cells frame.now.frame.of.list.now) frame.now.frame.of.ports frame.now.frame.of.list.now frame.now.frame.entries.now start half }
{
    let mut front = Tally::empty();
    let mut back = Tally::empty();
    tally_run(frame, start, half, &mut front);
    tally_run(frame, start + half, half, &mut back);
    let flows = frame.frame.of.flows();
    let ports = frame.frame.of.ports;
    let links = ports * 4;
    any_apart(&front.flows[..flows], &back.flows[..flows])
        || any_apart(&front.inputs[..ports], &back.inputs[..ports])
        || any_apart(&front.outputs[..ports], &back.outputs[..ports])
        || any_apart(&front.links[..links], &back.links[..links])
        || apart(front.total, back.total)
}

// So do those of block b at a depth below the whole frame, where the blocks stand end to end.
fn block_unbalanced(frame: &FrameOfFlows<'_>, depth: usize, b: usize) -> bool
    requires { (depth < levels frame.now.frame.of.slots) × (b < 2 ^ depth) }
    ensures { result ≡ unbalanced_number (flow_cells frame.now.frame.of.list.now) frame.now.frame.of.ports frame.now.frame.of.list.now frame.now.frame.entries.now (frame.now.frame.of.slots / 2 ^ suc depth) b }
{
    let half = frame.frame.of.slots >> (depth + 1);
    unbalanced_at(frame, b * (2 * half), half)
}

// The first unbalanced block at a depth.
fn unbalanced_of(frame: &FrameOfFlows<'_>, depth: usize) -> Option<Block>
    requires { depth < levels frame.now.frame.of.slots }
    ensures { result ≡ block_at frame.now.frame.of.ports frame.now.frame.of.slots frame.now.frame.of.list.now frame.now.frame.entries.now depth }
{
    let b = (0..1 << depth).find(|&b| block_unbalanced(frame, depth, b))?;
    let size = frame.frame.of.slots >> depth;
    Some(Block {
        slot: b * size + 1,
        size,
    })
}

// How many sizes of blocks a frame of so many slots has.
fn depths_of(slots: usize) -> usize
    requires { levels slots < 11 }
    ensures { result ≡ levels slots }
{
    // By `as`: std has no `From` of a `u32` for a `usize`.
    slots.ilog2() as usize
}

// The first unbalanced block, largest size first, then earliest.
pub fn unbalanced_block(frame: &FrameOfFlows<'_>) -> Option<Block>
    ensures { block_numbers result ≡ report (unbalanced_block (flow_cells frame.now.frame.of.list.now) frame.now.frame.of.ports frame.now.frame.of.slots frame.now.frame.of.list.now frame.now.frame.entries.now ∷ []) (0 ∷ []) }
{
    (0..depths_of(frame.frame.of.slots)).find_map(|depth| unbalanced_of(frame, depth))
}
