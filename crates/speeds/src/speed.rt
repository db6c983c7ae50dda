// The speed of a discharge.
ghost use Rattle.std.specs.Prelude.{◌≡◌};
ghost use Rattle.speeds.specs.Given.{speed_given};

use crate::limits::{depth_fits, discharge_fits, dry_fits};

// The speed of the discharge q at depth h: nought where that is at most the dry depth.
#[tactic(auto, unfolding(crate::specs::Given::speed_given, rules::specs::Face::speed))]
pub fn speed(q: i64, h: i64, dry: i64) -> Option<i64>
    ensures { result ≡ speed_given q h dry }
{
    if !discharge_fits(q) || !depth_fits(h) || !dry_fits(dry) {
        return None;
    }
    if h <= dry {
        return Some(0);
    }
    Some(q * 4096 / h)
}
