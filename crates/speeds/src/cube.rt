// The cube-root number of a depth, by which friction divides.
ghost use Rattle.std.specs.Prelude.{◌≡◌};
ghost use Rattle.speeds.specs.Given.{cube_given};

use crate::limits::depth_fits;
use crate::search::cube_of;

// The cube root of the depth h, in the units of a depth.
#[tactic(auto, unfolding(crate::specs::Given::cube_given, crate::specs::Given::depth_fits))]
pub fn cube(h: i64) -> Option<i64>
    ensures { result ≡ cube_given h }
{
    if !depth_fits(h) {
        return None;
    }
    Some(cube_of(h))
}
