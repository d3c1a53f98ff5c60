// The half that a count favours.
ghost use Rattle.std.specs.Prelude.{ℕ, ◌≡◌, ◌%◌, ◌<◌, ◌≤◌, List, get_or, not, eqb};
ghost use Rattle.planes.specs.Favours.{favour_number, favour_numbers, other_half};

use crate::POSITIONS;

// An odd count favours a half once it is settled; an even one never does.
#[derive(Clone, Copy, Debug, PartialEq, Eq)]
pub enum Favour {
    Unsettled,
    First,
    Second,
}

impl Favour {
    #[inline]
    pub fn is_settled(self) -> bool
        ensures { result ≡ not (eqb (favour_number self) 0) }
    {
        match self {
            Favour::Unsettled => false,
            Favour::First | Favour::Second => true,
        }
    }

    // 1 for a count that favours the first half, 0 for any other.
    #[inline]
    pub fn digit(self) -> u64
        ensures { (result ≡ favour_number self % 2) × (result ≤ 1) }
    {
        match self {
            Favour::First => 1,
            Favour::Unsettled | Favour::Second => 0,
        }
    }

    // The half that is not this one.
    #[inline]
    pub fn other(self) -> Favour
        ensures { favour_number result ≡ other_half (favour_number self) }
    {
        match self {
            Favour::First => Favour::Second,
            Favour::Unsettled | Favour::Second => Favour::First,
        }
    }
}

// What tells the half that the count at each position favours by a number, odd for the first half: halves, or bytes that are the numbers.
pub trait FavourTable {
    ghost numbers: { Self → List ℕ };

    // 1 for an odd number at a position, 0 for any other.
    fn digit(&self, p: usize) -> u64
        requires { p < 528 }
        ensures { (result ≡ get_or (numbers self.now) p 0 % 2) × (result ≤ 1) };
}

impl FavourTable for [Favour; POSITIONS] {
    ghost numbers = { favour_numbers };

    #[inline]
    fn digit(&self, p: usize) -> u64 {
        self[p].digit()
    }
}

impl FavourTable for [u8; POSITIONS] {
    ghost numbers = { λ bytes. bytes };

    #[inline]
    fn digit(&self, p: usize) -> u64 {
        u64::from(self[p] % 2)
    }
}
