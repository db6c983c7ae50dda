// The limits of a depth, a discharge, a dry depth and a speed, beyond which the rules of water at one place
// give no number. They keep every product below 2^63.
ghost use Rattle.std.specs.Prelude.{◌≡◌};
ghost use Rattle.speeds.specs.Given.{depth_fits, discharge_fits, dry_fits, speed_fits};

use reach::limits::{DEEPEST, FASTEST, FULLEST, bad_dry, outside, past};

#[tactic(auto, unfolding(crate::specs::Given::depth_fits))]
pub fn depth_fits(h: i64) -> bool
    ensures { result ≡ depth_fits h }
{
    !outside(0, DEEPEST, h)
}

#[tactic(auto, unfolding(crate::specs::Given::discharge_fits))]
pub fn discharge_fits(q: i64) -> bool
    ensures { result ≡ discharge_fits q }
{
    !past(FULLEST, q)
}

#[tactic(auto, unfolding(crate::specs::Given::dry_fits))]
pub fn dry_fits(dry: i64) -> bool
    ensures { result ≡ dry_fits dry }
{
    !bad_dry(dry)
}

#[tactic(auto, unfolding(crate::specs::Given::speed_fits))]
pub fn speed_fits(u: i64) -> bool
    ensures { result ≡ speed_fits u }
{
    !past(FASTEST, u)
}
