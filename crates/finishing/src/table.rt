// Finishing of a table that is known to be workable.
ghost use Rattle.std.specs.Prelude.{◌≡◌, [], ℕ, ◌≤◌, length, ℤ};
ghost use Rattle.tables.specs.Rows.{Filled};
ghost use Rattle.reach.specs.Ranges.{AllUnfinished};
ghost use Rattle.finishing.specs.FinishedCell.{finished_cell};
ghost use Rattle.finishing.specs.UnfinishedTable.{state_of, HasCell};

use crate::cell::{cut_cell, dried_cell};
use crate::unfinished::UnfinishedTable;
use reach::Cell;
use reach::bed::under;

impl UnfinishedTable<'_> {
    // Cell i, finished.
    fn finished(self, i: usize) -> Cell
        requires { HasCell self i }
        ensures { (ρ : ℕ → ℤ) → let u = self.entry in result ≡ finished_cell u.reach u.call u.bed.now u.cells.now ρ i }
    {
        let b = under(self.bed, i);
        let cut = cut_cell(b, self.limit(i));
        dried_cell(b, cut, self.call.dry)
    }

    // Every cell, finished, into t.
    pub fn fill(self, t: &mut [Cell])
        requires n_in_bounds { (self.reach.n ≤ length self.cells.now) × (self.reach.n ≤ length t.old) }
        requires all_unfinished { AllUnfinished self.bed.now self.reach.n (state_of self) }
        ensures { (ρ : ℕ → ℤ) → let u = self.entry in
            Filled [] t.old t.new u.reach.n (finished_cell u.reach u.call u.bed.now u.cells.now ρ) }
    {
        for i in 0..self.reach.n {
            t[i] = self.finished(i);
        }
    }
}
