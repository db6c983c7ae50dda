// One cell over its bed: its depth, whether it is in range, and its speed.
ghost use Rattle.std.specs.Prelude.{◌≡◌, pos, ◌≤ℤ◌};
ghost use Rattle.tables.specs.Pools.{as_pool};
ghost use Rattle.rules.specs.Limits.{highest_bed, deepest, fullest};
ghost use Rattle.rules.specs.Face.{speed};
ghost use Rattle.reach.specs.Ranges.{UpTo, DryDepth};
ghost use Rattle.sill_rules.specs.Reach.{depth};
ghost use Rattle.sill_rules.specs.Refusals.{off_pool};
ghost use Rattle.sill.specs.Ranges.{Wide};

use crate::rows::Pool;
use reach::limits::{DEEPEST, FULLEST, outside, past};

// The depth of a cell over the bed z.
#[tactic(auto, unfolding(sill_rules::specs::Reach::depth))]
pub fn depth_of(z: i64, x: Pool) -> i64
    requires { UpTo highest_bed z × Wide (as_pool x) }
    ensures { result ≡ depth z (as_pool x) }
{
    x[0] - z
}

// Is the cell out of range: its depth or its discharge?
#[tactic(auto, unfolding(sill_rules::specs::Refusals::off_pool, rules::specs::Refusals::any))]
pub fn off_pool(z: i64, x: Pool) -> bool
    requires { UpTo highest_bed z × Wide (as_pool x) }
    ensures { result ≡ off_pool z (as_pool x) }
{
    outside(0, DEEPEST, depth_of(z, x)) || past(FULLEST, x[1])
}

// The speed of a discharge at a depth. All are within the limits, so there always is one.
#[tactic(auto, using(speeds::proofs::Fits::speed_given_lem, rules::proofs::Laws::Speeds::speed_size))]
pub fn speed_of(q: i64, h: i64, dry: i64) -> i64
    requires up_to { UpTo fullest q }
    requires pos_bound { (pos 0 ≤ℤ h) × (h ≤ℤ deepest) }
    requires dry_depth { DryDepth dry }
    ensures { result ≡ speed dry q h }
{
    speeds::speed::speed(q, h, dry).unwrap()
}
