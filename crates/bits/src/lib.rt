//! The binary digits of words.
#![tactic(auto)]

ghost use Rattle.std.specs.Prelude.{◌≡◌, ◌<◌, ◌≤◌, ◌^◌, eqb};
ghost use Rattle.std.specs.Iterator.{YieldsFirst, item_count};
ghost use Rattle.bits.specs.Digits.{digit, places, PutAt, FlippedAt};

// A word with d put at digit i.
pub fn put_digit(x: u64, i: usize, d: u64) -> u64
    requires { (i < 64) × (d ≤ 1) }
    ensures { PutAt x i d result }
{
    x | (d << i)
}

// A word with digit i flipped.
pub fn flip_digit(x: u64, i: usize) -> u64
    requires { i < 64 }
    ensures { FlippedAt x i result }
{
    x ^ (1 << i)
}

// Digit i of a word is 1.
pub fn has_digit(x: u64, i: usize) -> bool
    requires { i < 64 }
    ensures { result ≡ eqb (digit x i) 1 }
{
    (x >> i) % 2 == 1
}

// The places of the digits of a word that are 1, the lowest first.
#[derive(Clone, Copy, Debug, PartialEq, Eq)]
pub struct Ones {
    word: u64,
}

pub fn ones_of(word: u64) -> Ones
    ensures { result.word ≡ word }
{
    Ones { word }
}

impl Iterator for Ones {
    type Item = usize;

    ghost next_gives = { YieldsFirst (λ s. places 0 64 s.word) };

    ghost remaining = { item_count (λ s. places 0 64 s.word) };

    #[inline]
    fn next(&mut self) -> Option<usize> {
        if self.word == 0 {
            return None;
        }
        // By `as`: std has no `From` of a `u32` for a `usize`.
        let place = self.word.trailing_zeros() as usize;
        self.word &= self.word - 1;
        Some(place)
    }
}
