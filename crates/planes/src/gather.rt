// Positions of the odd counts.
ghost use Rattle.std.specs.Prelude.{◌≡◌, ◌+◌, ◌≤◌, length};
ghost use Rattle.bits.specs.Digits.{places};
ghost use Rattle.planes.specs.Steps.{PlacesListed, Gathered};

use crate::{POSITIONS, Planes};
use bits::ones_of;

// The places of the digits of a word, from place k of the list on.
fn place(x: u64, base: usize, k: usize, list: &mut [u16; POSITIONS]) -> usize
    requires { (base ≤ 512) × (k + length (places base 64 x) ≤ 528) }
    ensures { PlacesListed base x k list.old list.new result }
{
    let mut at = k;
    for t in ones_of(x) {
        // By `as`: `try_from` would have a case that does not come.
        list[at] = (base + t) as u16;
        at += 1;
    }
    at
}

// The answer is how many there are.
pub fn gather(planes: Planes<'_>, list: &mut [u16; POSITIONS]) -> usize
    ensures { Gathered planes.entry.positions planes.entry.words.now list.old list.new result }
{
    let mut k: usize = 0;
    for (w, &word) in planes.lowest().iter().enumerate() {
        k = place(word, w * 64, k, list);
    }
    k
}
