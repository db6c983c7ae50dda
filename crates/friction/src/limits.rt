// The limits within which this crate answers, beside those of a speed and a discharge. They keep every
// product below 2^63.
ghost use Rattle.std.specs.Prelude.{◌≡◌};
ghost use Rattle.friction.specs.Given.{step_fits, rough_fits, wet_fits, strength_fits};

use reach::limits::{DEEPEST, LEAST_DRY, LONGEST_STEP, ROUGHEST, outside};

// The greatest strength there is, in 1/65536: that over the longest time step on the roughest bed, in
// water 2 deep at the greatest speed.
const STRONGEST: i64 = 21438427962;

#[tactic(auto, unfolding(crate::specs::Given::step_fits))]
pub fn step_fits(dt: i64) -> bool
    ensures { result ≡ step_fits dt }
{
    !outside(0, LONGEST_STEP, dt)
}

#[tactic(auto, unfolding(crate::specs::Given::rough_fits))]
pub fn rough_fits(rough: i64) -> bool
    ensures { result ≡ rough_fits rough }
{
    !outside(0, ROUGHEST as i64, rough)
}

#[tactic(auto, unfolding(crate::specs::Given::wet_fits))]
pub fn wet_fits(h: i64) -> bool
    ensures { result ≡ wet_fits h }
{
    LEAST_DRY < h && h <= DEEPEST
}

#[tactic(auto, unfolding(crate::specs::Given::strength_fits))]
pub fn strength_fits(x: i64) -> bool
    ensures { result ≡ strength_fits x }
{
    !outside(0, STRONGEST, x)
}
