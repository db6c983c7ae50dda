// Marks and the limiter. Every mark and slope is read from the unfinished table.
ghost use Rattle.std.specs.Prelude.{◌≡◌, cond, ℕ, suc, ◌<◌, ℤ, ◌-ℤ◌};
ghost use Rattle.tables.specs.Cells.{as_cell, as_list};
ghost use Rattle.rules.specs.Reach.{el, er};
ghost use Rattle.rules.specs.Finishing as rules;
ghost use Rattle.rules.specs.Refusals as refusals;
ghost use Rattle.reach.specs.Ranges.{Wide};
ghost use Rattle.finishing.specs.InTable.{Neighbours};
ghost use Rattle.finishing.specs.NumberOf.{number_of};
ghost use Rattle.finishing.specs.UnfinishedTable.{reach_of, call_of, state_of, HasCell};

use crate::unfinished::UnfinishedTable;
use reach::limits::past;
use reach::{Call, Cell};

// The one nearest nought if both are above or both below nought, else 0.
fn nearest(a: i64, b: i64) -> i64
    ensures { result ≡ rules.minmod a b }
{
    if 0 < a && 0 < b {
        a.min(b)
    } else if a < 0 && b < 0 {
        a.max(b)
    } else {
        0
    }
}

// Do the levels that two neighbours show at their face differ by more than the jump?
fn jumps(x: Cell, y: Cell, call: Call) -> bool
    requires { Wide (as_cell x) × Wide (as_cell y) }
    ensures { result ≡ refusals.past call.jump (el (as_cell y) -ℤ er (as_cell x)) }
{
    past(call.jump, y[0] - y[1] - (x[0] + x[1]))
}

impl UnfinishedTable<'_> {
    // Is the inner face right of cell i parted? The last cell has none.
    fn parted(self, i: usize) -> bool
        requires { HasCell self i }
        ensures { (ρ : ℕ → ℤ) → result ≡ rules.parted (reach_of self.entry) (call_of self.entry ρ) (state_of self.entry) i }
    {
        i + 1 != self.reach.n && jumps(self.cells[i], self.cells[i + 1], self.call)
    }

    // Is cell i marked: is one of its inner faces parted?
    fn marked(self, i: usize) -> bool
        requires { HasCell self i }
        ensures { (ρ : ℕ → ℤ) → result ≡ rules.marked (reach_of self.entry) (call_of self.entry ρ) (state_of self.entry) i }
    {
        if i == 0 {
            return self.parted(i);
        }
        self.parted(i - 1) || self.parted(i)
    }

    // A slope against the step from the mean of cell i to that of the next: m is 0 for levels, 2 for
    // discharges.
    fn against(self, m: usize, i: usize, slope: i64) -> i64
        requires { Neighbours self.cells.now i × (m < 4) }
        ensures { let mean = number_of self.entry.cells.now m in result ≡ rules.minmod slope (mean (suc i) -ℤ mean i) }
    {
        nearest(slope, self.cells[i + 1][m] - self.cells[i][m])
    }

    // A slope of cell i against its right neighbour, which the last cell lacks.
    fn with_right(self, m: usize, i: usize, slope: i64) -> i64
        requires { HasCell self i × (m < 4) }
        ensures { result ≡ rules.with_right (reach_of self.entry) (number_of self.entry.cells.now m) i slope }
    {
        if i + 1 == self.reach.n {
            return slope;
        }
        self.against(m, i, slope)
    }

    // And its left neighbour, which the first cell lacks.
    fn with_left(self, m: usize, i: usize, slope: i64) -> i64
        requires { HasCell self i × (m < 4) }
        ensures { result ≡ rules.with_left (number_of self.entry.cells.now m) i slope }
    {
        if i == 0 {
            return slope;
        }
        self.against(m, i - 1, slope)
    }

    // A slope of cell i, which is set against the means of the neighbours it has where the cell is limited.
    fn limited(self, limiting: bool, m: usize, i: usize, slope: i64) -> i64
        requires { HasCell self i × (m < 4) }
        ensures { result ≡
            cond limiting (rules.limited (reach_of self.entry) (number_of self.entry.cells.now m) i slope) slope }
    {
        if !limiting {
            return slope;
        }
        self.with_left(m, i, self.with_right(m, i, slope))
    }

    // Is cell i limited: is it marked, and not spared?
    fn is_limited(self, i: usize) -> bool
        requires { HasCell self i }
        ensures { (ρ : ℕ → ℤ) → result ≡ rules.is_limited (reach_of self.entry) (call_of self.entry ρ) (state_of self.entry) i }
    {
        self.marked(i) && !self.is_spared(i)
    }

    // Cell i after the limiter.
    pub fn limit(self, i: usize) -> Cell
        requires { HasCell self i }
        ensures { (ρ : ℕ → ℤ) →
            result ≡ as_list (rules.limit (reach_of self.entry) (call_of self.entry ρ) (state_of self.entry) i) }
    {
        let x = self.cells[i];
        let limiting = self.is_limited(i);
        let e1 = self.limited(limiting, 0, i, x[1]);
        let q1 = self.limited(limiting, 2, i, x[3]);
        [x[0], e1, x[2], q1]
    }
}
