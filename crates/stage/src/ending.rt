// The end of a stage: its state is finished, and its range is checked.
ghost use Rattle.std.specs.Prelude.{◌≡◌, ℕ, ◌+◌, ◌≤◌, length, ℤ};
ghost use Rattle.tables.specs.Cells.{seen};
ghost use Rattle.rules.specs.Limits.{most_cells};
ghost use Rattle.reach.specs.Told.{reach_in, call_on, found_in};
ghost use Rattle.reach.specs.Ranges.{Numbers, Grounds};
ghost use Rattle.stage.specs.Ranges.{Room, Smalls};
ghost use Rattle.stage.specs.Says.{EndSays};

use crate::checks::off;
use crate::course::Course;
use reach::Cell;
use reach::answer::{Refusal, Refused};

// The unfinished state u, finished, into b; an 8 where that is out of range.
pub fn end(u: &[Cell], course: Course, b: &mut [Cell]) -> Result<(), Refused>
    requires n_le_most_cells { (course.reach.n ≤ most_cells) × (length course.bed.now ≡ course.reach.n + 1)
        × Room course.reach u.now × Room course.reach b.old }
    requires numbers { Numbers course.reach course.call }
    requires grounds { Grounds course.bed.now course.reach.n × Smalls course.reach.n (seen u.now) }
    ensures { let at = course.entry in (ρ : ℕ → ℤ) →
        EndSays (reach_in at.reach at.bed.now) (call_on at.call ρ) (seen u.now) (found_in result) b.new }
{
    // what a stage leaves is never too large to be finished
    finishing::finish(u, course.bed, course.reach, course.call, b).unwrap();
    Refusal::Stage.at(off(b, course))
}
