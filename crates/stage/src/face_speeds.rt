// The speeds at the faces: that of each cell's sides, and at an end that of its inflow.
ghost use Rattle.std.specs.Prelude.{◌≡◌, cond, suc, ◌≤◌, ◌<◌};
ghost use Rattle.tables.specs.Cells.{seen};
ghost use Rattle.rules.specs.Limits.{most_cells};
ghost use Rattle.rules.specs.Refusals.{fast_side};
ghost use Rattle.reach.specs.Ranges.{Numbers};
ghost use Rattle.stage.specs.Rows.{left_of};
ghost use Rattle.stage.specs.Ranges.{Room, Ranged};
ghost use Rattle.stage.specs.Says.{FaceSpeedsSay};

use crate::course::Course;
use crate::ends::fast_inflow;
use crate::rows::{Sides, left_side, right_side};
use crate::sides::sides;
use reach::Cell;
use reach::limits::{FASTEST, past};

// Of cell i, which has the sides x, of which one is too fast, the lower face that shows it: the left one, or
// where the left side is slow the right one.
fn face_beside(x: Sides, i: usize) -> usize
    requires { i < most_cells }
    ensures { result ≡ cond (fast_side (left_of x)) i (suc i) }
{
    if past(FASTEST, x[1]) {
        return i;
    }
    i + 1
}

// 6, of the faces: the lowest at which a side or an inflow is too fast; where there is none the sides of all cells are in d.
pub fn face_speeds(t: &[Cell], course: Course, d: &mut [Sides]) -> Option<usize>
    requires n_nonzero { (0 < course.reach.n) × (course.reach.n ≤ most_cells) × Room course.reach t.now × Room course.reach d.old }
    requires numbers { Numbers course.reach course.call }
    requires ranged { Ranged course.bed.now course.reach.n (seen t.now) }
    ensures { let at = course.entry in FaceSpeedsSay at.reach at.call at.bed.now (seen t.now) result d.new }
{
    let n = course.reach.n;
    let call = course.call;
    let fast = sides(t, course, d);
    if fast_inflow(call.left, left_side(d[0]), call.dry) {
        return Some(0);
    }
    if let Some(i) = fast {
        return Some(face_beside(d[i], i));
    }
    if fast_inflow(call.right, right_side(d[n - 1]), call.dry) {
        return Some(n);
    }
    None
}
