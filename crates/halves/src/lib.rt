//! The counts of the two halves of a block, as planes of bits: the masks of the odd counts that favour a half, and half of every count.
#![tactic(auto)]

pub mod halve;
pub mod mark;
