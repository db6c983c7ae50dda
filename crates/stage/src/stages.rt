// One stage, from a state that is in range.
ghost use Rattle.std.specs.Prelude.{ℕ, ◌≤◌, ◌<◌, ℤ};
ghost use Rattle.tables.specs.Cells.{seen};
ghost use Rattle.rules.specs.Limits.{most_cells};
ghost use Rattle.reach.specs.Told.{reach_in, call_on, found_in};
ghost use Rattle.reach.specs.Ranges.{Numbers};
ghost use Rattle.stage.specs.Ranges.{Room, FaceRoom, Ranged};
ghost use Rattle.stage.specs.Says.{StageSays};

use crate::course::Course;
use crate::face_speeds::face_speeds;
use crate::faces::faces;
use crate::points::points;
use crate::rows::FaceRow;
use crate::update::update;
use reach::Cell;
use reach::answer::{Refusal, Refused};

// A stage from the state t: a 6 or a 7 where it may not go on, else the rows of its faces are in f and the
// unfinished state in u. The momenta of its cells go into g. Their sides stand in u
// until the faces are worked, so that each call clears a table less.
pub fn stage(
    t: &[Cell],
    course: Course,
    g: &mut [i64],
    f: &mut [FaceRow],
    u: &mut [Cell],
) -> Result<(), Refused>
    requires n_nonzero { (0 < course.reach.n) × (course.reach.n ≤ most_cells) × Room course.reach t.now × Room course.reach g.old }
    requires face_room { FaceRoom course.reach f.old × Room course.reach u.old }
    requires numbers { Numbers course.reach course.call }
    requires ranged { Ranged course.bed.now course.reach.n (seen t.now) }
    ensures { let at = course.entry in (ρ : ℕ → ℤ) →
        StageSays (reach_in at.reach at.bed.now) (call_on at.call ρ) (seen t.now) (found_in result)
        f.new u.new }
{
    Refusal::Speed.at(face_speeds(t, course, u))?;
    Refusal::Speed.at(points(t, course, g))?;
    Refusal::TimeStep.at(faces(u, course, f))?;
    update(t, course, f, g, u);
    Ok(())
}
