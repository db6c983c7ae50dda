// The checks of what is lent, each over the whole reach: one of places gives the lowest to which it
// applies, where there is one.
ghost use Rattle.std.specs.Prelude.{◌≡◌, List, ℕ, ◌*◌, ◌≤◌, get_or, length, cond, ltb, ℤ, pos, Some, None};
ghost use Rattle.tables.specs.Pools.{pool_in};
ghost use Rattle.rules.specs.Limits.{most_cells};
ghost use Rattle.rules.specs.Ends.{open_kind};
ghost use Rattle.reach.specs.Places.{first_place};
ghost use Rattle.sill_rules.specs.Refusals.{bad_call, bad_bed, off_pool};
ghost use Rattle.sill_rules.specs.Lent.{misfit};
ghost use Rattle.sill.specs.Told.{reach_given, call_given, end_by, call_by};
ghost use Rattle.sill.specs.Ranges.{Grounds};

use crate::Given;
use crate::lent::pool_of;
use crate::pool::off_pool;
use crate::rows::{Call, End};
use reach::bed::bed_at;
use reach::limits::{CELLS, HIGHEST_BED, LONGEST_CELL, LONGEST_STEP, OPEN, WALL, bad_dry, outside};

// 1: do the tables not fit the n cells?
#[tactic(auto, unfolding(sill_rules::specs::Lent::misfit, rules::specs::Refusals::any))]
pub fn bad_lengths(state: usize, next: usize, bed: usize, n: usize) -> bool
    ensures { result ≡ misfit state next bed n }
{
    n == 0 || CELLS < n || state != 2 * n || next != 2 * n || bed != n
}

// The end of a kind, where there is one: 0 is a wall, and 1 open.
fn end_of(kind: u32) -> Option<End>
    ensures { result ≡ cond (ltb open_kind kind) None (Some (end_by kind)) }
{
    match kind {
        WALL => Some(End::Wall),
        OPEN => Some(End::Open),
        _ => None,
    }
}

// 2: the call of n cells, where each of its numbers and the kinds of its two ends are in their lists. The bed and the
// friction are not read.
#[tactic(auto, unfolding(sill_rules::specs::Refusals::bad_call, rules::specs::Refusals::any))]
pub fn call_of(given: Given, n: usize) -> Option<Call>
    ensures { (bed : List ℤ) (ρ : ℕ → ℤ) →
        result ≡ cond (bad_call (reach_given n given bed) (call_given given ρ)) None (Some (call_by n given)) }
{
    let dx = i64::from(given.dx);
    let dt = i64::from(given.dt);
    let dry = i64::from(given.dry);
    if outside(1, LONGEST_CELL, dx) || outside(1, LONGEST_STEP, dt) || bad_dry(dry) {
        return None;
    }
    let left = end_of(given.left)?;
    let right = end_of(given.right)?;
    Some(Call {
        dx,
        dt,
        dry,
        n,
        left,
        right,
    })
}

// 3: the lowest bed value out of range.
#[tactic(auto, unfolding(sill_rules::specs::Refusals::bad_bed))]
pub fn bad_bed(bed: &[i32]) -> Option<usize>
    ensures { result ≡ first_place (λ i. bad_bed (get_or bed.now i (pos 0))) (length bed.now) }
{
    for i in 0..bed.len() {
        if outside(0, HIGHEST_BED, bed_at(bed, i)) {
            return Some(i);
        }
    }
    None
}

// 5: the lowest cell out of range.
pub fn off_state(state: &[i32], bed: &[i32], n: usize) -> Option<usize>
    requires { (n ≤ most_cells) × (length state.now ≡ 2 * n) × Grounds bed.now n }
    ensures { result ≡ first_place (λ i. off_pool (get_or bed.now i (pos 0)) (pool_in n state.now i)) n }
{
    for i in 0..n {
        if off_pool(bed_at(bed, i), pool_of(state, n, i)) {
            return Some(i);
        }
    }
    None
}
