// A cell of the lent state, widened: that a number of a table is no larger than an i32 can be is known
// only where it is read.
ghost use Rattle.std.specs.Prelude.{◌≡◌, ◌*◌, ◌≤◌, ◌<◌, length};
ghost use Rattle.tables.specs.Pools.{as_row, pool_in};
ghost use Rattle.rules.specs.Limits.{most_cells};
ghost use Rattle.sill.specs.Ranges.{Wide};

use crate::rows::Pool;

// Cell i of a lent state of n cells: its level stands in the first column, its discharge in the second.
pub fn pool_of(s: &[i32], n: usize, i: usize) -> Pool
    requires { (n ≤ most_cells) × (i < n) × (length s.now ≡ 2 * n) }
    ensures { (result ≡ as_row (pool_in n s.now i)) × Wide (pool_in n s.now i) }
{
    [i64::from(s[i]), i64::from(s[n + i])]
}
