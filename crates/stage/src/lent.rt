// Numbers of the lent tables, widened: each cast is proved once, here. That a number of a table is no
// larger than an i32 can be is known only where it is read.
ghost use Rattle.std.specs.Prelude.{◌≡◌, ◌+◌, ◌*◌, ◌≤◌, ◌<◌, length};
ghost use Rattle.tables.specs.Columns.{in_column};
ghost use Rattle.tables.specs.Cells.{as_list, cell_in};
ghost use Rattle.rules.specs.Limits.{most_cells};
ghost use Rattle.reach.specs.Ranges.{UpTo, widest, Wide};
ghost use Rattle.stage.specs.Ranges.{Room};
ghost use Rattle.stage.specs.Says.{LoadSays};

use reach::{Cell, Reach};

// Where number m of cell i stands in a lent state of n cells: in column m.
pub fn index(n: usize, m: usize, i: usize) -> usize
    requires { (n ≤ most_cells) × (m < 4) × (i < n) }
    ensures { (result ≡ m * n + i) × (result < 4 * n) }
{
    m * n + i
}

// Number m of cell i of a lent state of n cells, which stands in column m.
fn lent_number(s: &[i32], n: usize, m: usize, i: usize) -> i64
    requires { (n ≤ most_cells) × (m < 4) × (i < n) × (length s.now ≡ 4 * n) }
    ensures { (result ≡ in_column n s.now m i) × UpTo widest (in_column n s.now m i) }
{
    s[index(n, m, i)] as i64
}

// Cell i of a lent state of n cells.
pub fn cell_of(s: &[i32], n: usize, i: usize) -> Cell
    requires { (n ≤ most_cells) × (i < n) × (length s.now ≡ 4 * n) }
    ensures { (result ≡ as_list (cell_in n s.now i)) × Wide (cell_in n s.now i) }
{
    let e0 = lent_number(s, n, 0, i);
    let e1 = lent_number(s, n, 1, i);
    let q0 = lent_number(s, n, 2, i);
    let q1 = lent_number(s, n, 3, i);
    [e0, e1, q0, q1]
}

// The cells of a lent state, into t.
pub fn load(state: &[i32], reach: Reach, t: &mut [Cell])
    requires { (reach.n ≤ most_cells) × (length state.now ≡ 4 * reach.n) × Room reach t.old }
    ensures { LoadSays reach.n state.now t.old t.new }
{
    let n = reach.n;
    for i in 0..n {
        t[i] = cell_of(state, n, i);
    }
}
