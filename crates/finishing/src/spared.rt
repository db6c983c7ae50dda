// Which cells the limiter leaves alone: those no deeper than the dry depth, and those beside one. The
// level of such a cell is only its bed, and a slope set against it would be set against the ground.
// Every depth is read from the unfinished table.
ghost use Rattle.std.specs.Prelude.{◌≡◌};
ghost use Rattle.rules.specs.Finishing as rules;
ghost use Rattle.finishing.specs.UnfinishedTable.{reach_of, state_of, HasCell};

use crate::cell::is_shallow;
use crate::unfinished::UnfinishedTable;
use reach::bed::under;

impl UnfinishedTable<'_> {
    // Is cell i shallow?
    fn shallow_at(self, i: usize) -> bool
        requires { HasCell self i }
        ensures { result ≡ rules.shallow_at self.entry.call.dry (reach_of self.entry) (state_of self.entry) i }
    {
        is_shallow(under(self.bed, i), self.cells[i], self.call.dry)
    }

    // Is the cell left of it? The first has none.
    fn shallow_left(self, i: usize) -> bool
        requires { HasCell self i }
        ensures { result ≡ rules.shallow_left self.entry.call.dry (reach_of self.entry) (state_of self.entry) i }
    {
        i != 0 && self.shallow_at(i - 1)
    }

    // Is the cell right of it? The last has none.
    fn shallow_right(self, i: usize) -> bool
        requires { HasCell self i }
        ensures { result ≡ rules.shallow_right self.entry.call.dry (reach_of self.entry) (state_of self.entry) i }
    {
        i + 1 != self.reach.n && self.shallow_at(i + 1)
    }

    // Is cell i spared: is it shallow, or a neighbour that it has?
    pub fn is_spared(self, i: usize) -> bool
        requires { HasCell self i }
        ensures { result ≡ rules.spared self.entry.call.dry (reach_of self.entry) (state_of self.entry) i }
    {
        self.shallow_at(i) || self.shallow_left(i) || self.shallow_right(i)
    }
}
