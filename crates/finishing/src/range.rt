// Is what is to be finished too large to be worked on? No stage leaves a table so.
ghost use Rattle.std.specs.Prelude.{◌≡◌, ◌≤◌, length};
ghost use Rattle.tables.specs.Some.{some};
ghost use Rattle.tables.specs.Cells.{as_cell};
ghost use Rattle.rules.specs.Reach.{bed_at};
ghost use Rattle.reach.specs.Told.{bed_in};
ghost use Rattle.finishing.specs.Unfit.{either_past, too_large, unfit};
ghost use Rattle.finishing.specs.UnfinishedTable.{state_of};

use crate::unfinished::UnfinishedTable;
use reach::Cell;
use reach::bed::{Bed, under};
use reach::limits::{CELLS, HIGHEST_BED, LARGEST_JUMP, bad_dry, outside, past};

// 2^46, `widest` in contracts: sums of a few such numbers fit in 64 bits with much to spare.
const WIDEST: i64 = 70368744177664;

// Is one of two numbers past a limit, either way?
fn either_past(most: i64, x: i64, y: i64) -> bool
    ensures { result ≡ either_past most x y }
{
    past(most, x) || past(most, y)
}

// Is a cell too large, or its bed?
fn too_large(b: Bed, x: Cell) -> bool
    ensures { result ≡ too_large (bed_in b) (as_cell x) }
{
    either_past(HIGHEST_BED, i64::from(b.zl), i64::from(b.zr))
        || either_past(WIDEST, x[0], x[1])
        || either_past(WIDEST, x[2], x[3])
}

impl UnfinishedTable<'_> {
    // Is some cell of the table too large, or its bed?
    fn has_too_large(self) -> bool
        requires { self.reach.n ≤ length self.cells.now }
        ensures { let u = self.entry in
            result ≡ some (λ i. too_large (bed_at u.bed.now i) (state_of u i)) u.reach.n }
    {
        (0..self.reach.n).any(|i| too_large(under(self.bed, i), self.cells[i]))
    }

    // Can the table not be finished: the lengths, the jump, the dry depth, or a number in it?
    pub fn is_unfit(self, room: usize) -> bool
        ensures { let u = self.entry in result ≡ unfit u.reach u.call u.bed.now u.cells.now room }
    {
        let n = self.reach.n;
        self.cells.len() < n
            || room < n
            || CELLS < n
            || self.bed.len() != n + 1
            || outside(0, LARGEST_JUMP, self.call.jump)
            || bad_dry(self.call.dry)
            || self.has_too_large()
    }
}
