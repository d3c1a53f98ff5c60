// Half of every count.
ghost use Rattle.std.specs.Prelude.{◌≡◌, ◌<◌, ◌≤◌, length};
ghost use Rattle.planes.specs.Planes.{BlockPlanes, Mask};
ghost use Rattle.halves.specs.Steps.{Grown, HalfPlanes};

use planes::words::words_of;
use planes::{PLANE_WORDS, PLANES_WORDS, Planes};

// One word of every plane: the planes above the lowest, with one word added. Planes are told by number, for the words of a column stand
// a plane apart.
fn ripple(
    planes: &[u64; PLANES_WORDS],
    m: usize,
    w: usize,
    extra: u64,
    half: &mut [u64; PLANES_WORDS],
)
    requires { (m ≤ 10) × (w < 9) }
    ensures { Grown planes.now w extra m half.old half.new }
{
    let mut carry = extra;
    for b in 0..m {
        let at = b * PLANE_WORDS + w;
        let x = planes[at + PLANE_WORDS];
        half[at] = x ^ carry;
        carry = x & carry;
    }
}

// The mask has the odd counts that favour the half.
pub fn halve(
    planes: Planes<'_>,
    m: usize,
    mask: &[u64; PLANE_WORDS],
    half: &mut [u64; PLANES_WORDS],
)
    requires { (1 ≤ m) × (m ≤ 10) × BlockPlanes m planes.positions planes.words.now
        × Mask planes.positions planes.words.now mask.now }
    ensures { (length half.new ≡ 99)
        × HalfPlanes m planes.entry.positions planes.entry.words.now mask.now half.old half.new }
{
    for w in 0..words_of(planes.positions) {
        ripple(planes.words, m, w, mask[w], half);
    }
}
