// Masks of the odd counts that favour a half.
ghost use Rattle.std.specs.Prelude.{◌≤◌, ◌<◌};
ghost use Rattle.rules.specs.Words.{Every};
ghost use Rattle.bits.specs.Digits.{places};
ghost use Rattle.planes.specs.Planes.{Mask};
ghost use Rattle.halves.specs.Steps.{Picked, Marked, Others};

use bits::{ones_of, put_digit};
use planes::favours::FavourTable;
use planes::{PLANE_WORDS, Planes};

// The word is made in a register: digits put into a mask one after the other would wait for each store.
fn pick<F: FavourTable>(x: u64, base: usize, favoured: &F) -> u64
    requires { (base ≤ 512) × Every (λ p. p < 528) (places base 64 x) }
    ensures { Picked x base (F.numbers favoured.now) result }
{
    let mut picked: u64 = 0;
    for t in ones_of(x) {
        picked = put_digit(picked, t, favoured.digit(base + t));
    }
    picked
}

// The odd counts that favour the first half.
pub fn mark<F: FavourTable>(planes: Planes<'_>, favoured: &F, mask: &mut [u64; PLANE_WORDS])
    ensures { Marked planes.entry.positions planes.entry.words.now (F.numbers favoured.now) mask.old mask.new }
{
    for (w, &word) in planes.lowest().iter().enumerate() {
        mask[w] = pick(word, w * 64, favoured);
    }
}

// The odd counts that are not in the mask.
pub fn others(planes: Planes<'_>, mask: &mut [u64; PLANE_WORDS])
    requires { Mask planes.positions planes.words.now mask.old }
    ensures { Others planes.entry.positions planes.entry.words.now mask.old mask.new }
{
    for (w, &word) in planes.lowest().iter().enumerate() {
        mask[w] = word ^ mask[w];
    }
}
