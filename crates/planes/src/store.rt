// The counts of a list into planes.
ghost use Rattle.std.specs.Prelude.{ℕ, ◌%◌, ◌^◌, ◌<◌, ◌≤◌, ◌≡◌};
ghost use Rattle.rules.specs.Flows.{flows, number_of};
ghost use Rattle.planes.specs.Steps.{Blank, Stored, Loaded};

use crate::{PLANE_WORDS, PLANES_WORDS};
use bits::{ones_of, put_digit};
use flows::{flows_of, numbers_of};

// The two lowest digits of a count, whatever they are.
fn store_two(x: u64, p: usize, planes: &mut [u64; PLANES_WORDS])
    requires { p < 528 }
    ensures { Stored (x % 4) p planes.old planes.new }
{
    let w = p / 64;
    let i = p % 64;
    planes[w] = put_digit(planes[w], i, x % 2);
    planes[PLANE_WORDS + w] = put_digit(planes[PLANE_WORDS + w], i, x / 2 % 2);
}

// Those digits of a number that are 1: the planes of the others have nothing there.
fn store_ones(x: u64, p: usize, planes: &mut [u64; PLANES_WORDS])
    requires { (x < 2 ^ 11) × (p < 528) }
    ensures { Stored x p planes.old planes.new }
{
    let w = p / 64;
    let i = p % 64;
    for b in ones_of(x) {
        let at = b * PLANE_WORDS + w;
        planes[at] = put_digit(planes[at], i, 1);
    }
}

// One count. Its two lowest digits are put without a test: in a small frame most counts have no others, and a branch on them would be
// unpredictable.
fn store_count(count: u16, p: usize, planes: &mut [u64; PLANES_WORDS])
    requires { (count < 2 ^ 11) × (p < 528) }
    ensures { Stored count p planes.old planes.new }
{
    let x = u64::from(count);
    store_two(x, p, planes);
    store_ones(x / 4 * 4, p, planes);
}

// The cells of every flow, at the position of its place in the list.
pub fn store_list(list: &[u16], planes: &mut [u64; PLANES_WORDS])
    requires { (flows list.now ≤ 528) × Blank planes.old
        × ((f : ℕ) → f < flows list.now → number_of 2 list.now f < 2 ^ 11) }
    ensures { Loaded list.now planes.new }
{
    for f in 0..flows_of(list) {
        store_count(numbers_of(list, f).cells, f, planes);
    }
}
