//! Build: the refusals in their order, then the frame.
#![tactic(auto)]

ghost use Rattle.std.specs.Prelude.{◌≡◌};
ghost use Rattle.calls.specs.Build.{outcome, built, frame_after};

use admission::{Loads, add_loads, overload};
use calls::Refusal;
use checks::frames::check_frame;
use checks::reservations::check_list;
use schedule::fill;

// Build: 1, 2, 3, 21, 22, 23, 4, 5, 6, 24, and nothing is written until all have passed.
pub fn build(
    ports: usize,
    slots: usize,
    list: &[u16],
    limits: [u16; 64],
    frame: &mut [u16],
) -> Result<usize, Refusal>
    ensures answer { outcome result ≡ built ports slots list.now limits frame.old }
    ensures entries { frame.new ≡ frame_after ports slots list.now limits frame.old }
{
    let of = check_list(ports, slots, list)?;
    check_frame(of, frame)?;
    let mut loads = Loads::new();
    add_loads(&of, &mut loads);
    overload(slots, &loads, limits)?;
    Ok(fill(&of, frame))
}
