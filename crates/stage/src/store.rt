// The new state, written into the lent table: the last thing that an accepted step does.
ghost use Rattle.std.specs.Prelude.{◌≡◌, ◌+◌, ◌*◌, ◌≤◌, ◌<◌, get_or, set, length, pos};
ghost use Rattle.tables.specs.Cells.{as_cell, put_cell, table_of, seen};
ghost use Rattle.rules.specs.Limits.{most_cells};
ghost use Rattle.stage.specs.Stored.{Fits, AllFit};

use crate::lent::index;
use reach::Cell;

// Number m of x, which is cell i of n, to where it stands in column m.
fn put(next: &mut [i32], n: usize, m: usize, i: usize, x: Cell)
    requires { (n ≤ most_cells) × (m < 4) × (i < n) × (length next.old ≡ 4 * n) × Fits (as_cell x) }
    ensures { next.new ≡ set next.old (m * n + i) (get_or x m (pos 0)) }
{
    next[index(n, m, i)] = x[m] as i32;
}

// Cell i of n: the others are as they were.
fn put_cell(next: &mut [i32], n: usize, i: usize, x: Cell)
    requires { (n ≤ most_cells) × (i < n) × (length next.old ≡ 4 * n) × Fits (as_cell x) }
    ensures { next.new ≡ put_cell n next.old i (as_cell x) }
{
    put(next, n, 0, i, x);
    put(next, n, 1, i, x);
    put(next, n, 2, i, x);
    put(next, n, 3, i, x);
}

// The first n cells of y, as the whole lent table.
pub fn store(y: &[Cell], n: usize, next: &mut [i32])
    requires { (n ≤ length y.now) × (n ≤ most_cells) × (length next.old ≡ 4 * n) × AllFit n (seen y.now) }
    ensures { next.new ≡ table_of n (seen y.now) }
{
    for i in 0..n {
        put_cell(next, n, i, y[i]);
    }
}
