// How strongly friction acts on water of some depth and speed.
ghost use Rattle.std.specs.Prelude.{◌≡◌};
ghost use Rattle.rules.specs.Limits.{fastest};
ghost use Rattle.rules.specs.Friction.{drag};
ghost use Rattle.reach.specs.Ranges.{UpTo};
ghost use Rattle.friction.specs.Given.{strength_given};
ghost use Rattle.friction.specs.Strength.{Ranged};

use crate::limits::{rough_fits, step_fits, wet_fits};
use reach::size::size;
use speeds::cube::cube;
use speeds::limits::speed_fits;

// Where friction acts: over a time step, on a bed of a Manning value in 1/1000, and in water of a depth
// and a speed. The four are of one type, so a caller gives each by its name.
#[derive(Clone, Copy, Debug, PartialEq, Eq)]
pub struct Rubbing {
    pub dt: i64,
    pub rough: i64,
    pub h: i64,
    pub u: i64,
}

// x, worked. Its product is the largest of the step, and fits only because the speed is within its
// limit. A depth within the limits has its cube-root number, c.
#[tactic(auto, unfolding(speeds::specs::Given::cube_given, speeds::specs::Given::depth_fits))]
fn drag_of(at: Rubbing) -> i64
    requires ranged { Ranged at }
    requires slow { UpTo fastest at.u }
    ensures { result ≡ drag at.dt at.rough at.h at.u }
{
    let c = cube(at.h).unwrap();
    let s = size(at.u);
    256 * 981 * at.dt * (at.rough * at.rough) * s / (390625 * at.h * c)
}

// x: how strongly friction acts, in 1/65536. Water at or below the least dry depth is refused: none so
// thin has a speed, and a divisor could be nought.
#[tactic(auto, unfolding(crate::specs::Given::strength_given, speeds::specs::Given::speed_fits, whole::specs::Choice::size_z))]
pub fn strength(at: Rubbing) -> Option<i64>
    ensures { result ≡ strength_given at.dt at.rough at.h at.u }
{
    if !step_fits(at.dt) || !rough_fits(at.rough) || !wet_fits(at.h) || !speed_fits(at.u) {
        return None;
    }
    Some(drag_of(at))
}
