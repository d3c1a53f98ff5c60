// Words of a plane.
ghost use Rattle.std.specs.Prelude.{◌≡◌, ◌≤◌};
ghost use Rattle.planes.specs.Planes.{words_of};

// The words that have the first n positions.
pub fn words_of(n: usize) -> usize
    requires { n ≤ 528 }
    ensures { (result ≡ words_of n) × (result ≤ 9) }
{
    (n + 63) / 64
}
