//! The split: which half of a block each odd count favours, by the rules, over planes of counts.
#![tactic(auto)]

mod partners;

ghost use Rattle.split.specs.Steps.{Sides, Splits};

use groups::settle;
use halves::mark::mark;
use partners::mate;
use planes::favours::Favour;
use planes::gather::gather;
use planes::{ENDS, PLANE_WORDS, POSITIONS, Planes};

// The input and the link of each position, and a word that has a digit for each output with positions on others than its first link.
// A split knows of inputs, links and outputs by these alone.
#[derive(Drop)]
pub struct EndTable {
    pub ends: [u8; ENDS],
    pub multi_link: u64,
}

// The lists that a split fills, in front for the odd counts. They are lent, for clearing them in every block would take longer than
// filling them.
#[derive(Drop)]
pub struct Scratch {
    pub odds: [u16; POSITIONS],
    pub mates: [u16; ENDS],
}

// The answer is how many counts were odd, and so settled; the mask has those that favour the first half.
pub fn split(
    planes: Planes<'_>,
    table: &EndTable,
    lists: &mut Scratch,
    mask: &mut [u64; PLANE_WORDS],
) -> usize
    requires { Sides planes.positions table.now.multi_link table.now.ends }
    ensures { Splits planes.entry.positions planes.entry.words.now table.now.ends lists.old.odds lists.old.mates mask.old
        result lists.new.odds lists.new.mates mask.new }
{
    let mut favoured = [Favour::Unsettled; POSITIONS];
    let k = gather(planes, &mut lists.odds);
    mate(&lists.odds[..k], table, &mut lists.mates);
    settle(&lists.odds[..k], &lists.mates, &mut favoured);
    mark(planes, &favoured, mask);
    k
}
