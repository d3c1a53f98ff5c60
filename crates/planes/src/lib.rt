//! Counts at up to 528 positions as planes of bits: plane b has digit b of every count, 64 counts to a word, 9 words to a plane.
#![tactic(auto)]

pub mod ends;
pub mod favours;
pub mod gather;
pub mod store;
pub mod words;

ghost use Rattle.std.specs.Prelude.{◌≡◌, length, take};
ghost use Rattle.planes.specs.Planes.{Ends, words_of};

use words::words_of;

// Positions of counts: 512 flows, and room for a flow more of each port.
pub const POSITIONS: usize = 528;

// Words that have a digit for each position: a plane, or a mask.
pub const PLANE_WORDS: usize = 9;

// Words of the eleven planes that counts of up to 1,024 take.
pub const PLANES_WORDS: usize = 11 * PLANE_WORDS;

// Ends of positions, two to each: a table of ends has those of all inputs first, and then those of all links. It is one array, for what
// a split keeps is promised of one list.
pub const ENDS: usize = 2 * POSITIONS;

// Where the places of inputs begin in such a table. It is one array, and not one for each end, since a walk goes on by an `End` that changes.
pub const INPUTS: usize = 0;

// Where the places of links begin.
pub const LINKS: usize = POSITIONS;

// The counts at the first positions, as planes that have nothing behind them in the lowest.
#[derive(Clone, Copy)]
pub struct Planes<'a> {
    pub words: &'a [u64; PLANES_WORDS],
    pub positions: usize,
    ghost ends: { Ends positions words.now },
}

impl<'a> Planes<'a> {
    // The words of the lowest plane, which has the odd counts.
    #[inline]
    pub fn lowest(self) -> &'a [u64]
        ensures len { length result.now ≡ words_of self.entry.positions }
        ensures words { result.now ≡ take (words_of self.entry.positions) self.entry.words.now }
    {
        let words = self.words;
        &words[..words_of(self.positions)]
    }
}
