// Friction, which slows the discharge of a cell and leaves its level; and what the faces then see of it.
ghost use Rattle.std.specs.Prelude.{◌≡◌, false, ◌*◌, ◌≤◌, ◌<◌, get_or, length, pos, ◌≤ℤ◌};
ghost use Rattle.tables.specs.Pools.{as_pool, as_row, pool_in};
ghost use Rattle.rules.specs.Limits.{fullest, fastest, roughest};
ghost use Rattle.rules.specs.Friction.{drag, slowed};
ghost use Rattle.reach.specs.Ranges.{UpTo};
ghost use Rattle.friction.specs.Strength as strength;
ghost use Rattle.sill_rules.specs.Reach.{pace};
ghost use Rattle.sill_rules.specs.Step.{rubbed_pool};
ghost use Rattle.sill_rules.specs.Refusals.{fast_pool};
ghost use Rattle.sill.specs.Told.{reach_in, call_in};
ghost use Rattle.sill.specs.Rows.{row_by};
ghost use Rattle.sill.specs.Ranges.{Numbers, Grounds, Inside, Smooth, Ranged};
ghost use Rattle.sill.specs.Says.{RubSays};

use crate::crests::{crest_left, crest_right, over};
use crate::lent::pool_of;
use crate::pool::{depth_of, speed_of};
use crate::rows::{Call, Pool, Row};
use friction::slowed::slowed;
use friction::strength::{Rubbing, strength};
use reach::bed::bed_at;
use reach::friction::rough_at;
use reach::limits::{FASTEST, past};

// What friction leaves of a discharge q, at a place that is within the limits: there always is a strength, and what
// it leaves.
fn slowed_of(at: Rubbing, q: i64) -> i64
    requires ranged { strength.Ranged at }
    requires slow { UpTo fastest at.u }
    requires full { UpTo fullest q }
    ensures { result ≡ slowed (drag at.dt at.rough at.h at.u) q }
{
    let x = strength(at).unwrap();
    slowed(x, q).unwrap()
}

// A cell over the bed z after friction of the Manning value f, whose speed before it is u. Shallow and calm
// cells keep what they have, with no root and no division worked for them.
#[tactic(auto, unfolding(sill_rules::specs::Step::rubbed_pool, sill_rules::specs::Reach::pace))]
fn rubbed_pool(call: Call, f: i64, z: i64, x: Pool, u: i64) -> Pool
    requires numbers { Numbers call }
    requires rough { (pos 0 ≤ℤ f) × UpTo roughest f }
    requires inside { Inside z (as_pool x) }
    requires paced { u ≡ pace call.dry z (as_pool x) }
    requires slow { fast_pool call.dry z (as_pool x) ≡ false }
    ensures { result ≡ as_row (rubbed_pool call.dt call.dry f z (as_pool x)) }
{
    let h = depth_of(z, x);
    if h <= call.dry || x[1] == 0 {
        return x;
    }
    let at = Rubbing {
        dt: call.dt,
        rough: f,
        h,
        u,
    };
    [x[0], slowed_of(at, x[1])]
}

// The row of cell i, which is x after friction.
#[tactic(auto, using(crate::specs::Laws::CrestSizes::row_sizes), unfolding(sill_rules::specs::Reach::over, sill_rules::specs::Reach::pace))]
fn row_of(call: Call, bed: &[i32], i: usize, x: Pool) -> Row
    requires numbers { Numbers call }
    requires of_reach { i < call.n }
    requires grounds { Grounds bed.now call.n }
    requires inside { Inside (get_or bed.now i (pos 0)) (as_pool x) }
    ensures { result ≡ row_by (reach_in call bed.now) call.dry i (as_pool x) }
{
    Row {
        level: x[0],
        discharge: x[1],
        left_depth: over(crest_left(bed, call, i), x[0]),
        right_depth: over(crest_right(bed, call, i), x[0]),
        speed: speed_of(x[1], depth_of(bed_at(bed, i), x), call.dry),
    }
}

// 6: the rows of the cells of a lent state into b, up to the lowest that is too fast for friction, which it
// gives. Checked also where friction is 0. Friction speeds no water up, so no face is too fast then.
pub fn rub(state: &[i32], bed: &[i32], friction: &[u16], call: Call, b: &mut [Row]) -> Option<usize>
    requires numbers { Numbers call }
    requires room { (length state.now ≡ 2 * call.n) × (call.n ≤ length b.old) }
    requires grounds { Grounds bed.now call.n }
    requires smooth { Smooth friction.now call.n }
    requires ranged { Ranged bed.now call.n state.now }
    ensures { RubSays (reach_in call bed.now) (call_in call (λ i. pos (get_or friction.now i 0)))
        (pool_in call.n state.now) result b.new }
{
    for i in 0..call.n {
        let x = pool_of(state, call.n, i);
        let z = bed_at(bed, i);
        let u = speed_of(x[1], depth_of(z, x), call.dry);
        if past(FASTEST, u) {
            return Some(i);
        }
        b[i] = row_of(
            call,
            bed,
            i,
            rubbed_pool(call, rough_at(friction, i), z, x, u),
        );
    }
    None
}
