// The ends of a position.
ghost use Rattle.std.specs.Prelude.{◌≡◌, ◌≤◌};
ghost use Rattle.planes.specs.Tables.{end_of, across, first_place};

use crate::{INPUTS, LINKS};

// A flow is joined to its input and to its link.
#[derive(Clone, Copy, Debug, PartialEq, Eq)]
pub enum End {
    Input,
    Link,
}

impl End {
    // Where the places of the end begin in a table of both ends.
    #[inline]
    pub fn first(self) -> usize
        ensures { (result ≡ first_place (end_of self)) × (result ≤ 528) }
    {
        match self {
            End::Input => INPUTS,
            End::Link => LINKS,
        }
    }

    // The end across. `Side::other` has the same shape: a trait for the two would be longer than both.
    #[inline]
    pub fn other(self) -> End
        ensures { end_of result ≡ across (end_of self) }
    {
        match self {
            End::Input => End::Link,
            End::Link => End::Input,
        }
    }
}
