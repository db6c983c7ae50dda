// The new state, written into the lent table: the last thing that an accepted step does.
ghost use Rattle.std.specs.Prelude.{◌≡◌, ℕ, ◌*◌, ◌≤◌, ◌<◌, length};
ghost use Rattle.tables.specs.Pools.{as_pool, pools_seen, pool_table, put_pool};
ghost use Rattle.rules.specs.Limits.{most_cells};
ghost use Rattle.sill.specs.Ranges.{Fits};

use crate::rows::Pool;

// Cell i of n: the others are as they were.
fn put_pool(next: &mut [i32], n: usize, i: usize, x: Pool)
    requires { (n ≤ most_cells) × (i < n) × (length next.old ≡ 2 * n) × Fits (as_pool x) }
    ensures { next.new ≡ put_pool n next.old i (as_pool x) }
{
    next[i] = x[0] as i32;
    next[n + i] = x[1] as i32;
}

// The first n cells of y, as the whole lent table.
#[tactic(auto, using(tables::specs::Pools::pools_all))]
pub fn store(y: &[Pool], n: usize, next: &mut [i32])
    requires room { (n ≤ length y.now) × (n ≤ most_cells) × (length next.old ≡ 2 * n) }
    requires fits { (i : ℕ) → i < n → Fits (pools_seen y.now i) }
    ensures { next.new ≡ pool_table n (pools_seen y.now) }
{
    for i in 0..n {
        put_pool(next, n, i, y[i]);
    }
}
