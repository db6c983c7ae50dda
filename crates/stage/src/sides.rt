// The sides that each cell shows to its two faces: a depth, and the speed of the face discharge at it.
ghost use Rattle.std.specs.Prelude.{◌≡◌, [], ◌+ℤ◌, ◌-ℤ◌};
ghost use Rattle.tables.specs.Cells.{as_cell, seen};
ghost use Rattle.rules.specs.Limits.{fullest};
ghost use Rattle.rules.specs.Face.{speed};
ghost use Rattle.rules.specs.Reach.{side_l, side_r};
ghost use Rattle.reach.specs.Places.{FillStops};
ghost use Rattle.reach.specs.Told.{bed_in};
ghost use Rattle.reach.specs.Ranges.{UpTo, DryDepth};
ghost use Rattle.stage.specs.Ranges.{DepthIn, Room, Inside, Ranged, Around};
ghost use Rattle.stage.specs.Rows.{side_by, side_row, sides_at, fast_sides};

use crate::cell::{depths, either_fast};
use crate::course::Course;
use crate::rows::Sides;
use reach::Cell;
use reach::bed::{Bed, under};

// The speed of a discharge at a depth. All are within the limits, so there always is one.
#[tactic(auto, using(speeds::proofs::Fits::speed_given_lem))]
pub fn speed_of(q: i64, h: i64, dry: i64) -> i64
    requires up_to { UpTo fullest q }
    requires depth_in { DepthIn h }
    requires dry_depth { DryDepth dry }
    ensures { result ≡ speed dry q h }
{
    speeds::speed::speed(q, h, dry).unwrap()
}

// Depth and speed at two places of a cell, one on each side of its middle: at the depth m - d the
// discharge is p - q, at m + d it is p + q.
pub fn places_of(m: i64, d: i64, p: i64, q: i64, dry: i64) -> [i64; 4]
    requires around { Around m d p q }
    requires dry_depth { DryDepth dry }
    ensures { result ≡ side_row (side_by dry (m -ℤ d) (p -ℤ q)) (side_by dry (m +ℤ d) (p +ℤ q)) }
{
    let hl = m - d;
    let hr = m + d;
    let ul = speed_of(p - q, hl, dry);
    let ur = speed_of(p + q, hr, dry);
    [hl, ul, hr, ur]
}

// The two sides of a cell.
fn sides_of(b: Bed, x: Cell, dry: i64) -> Sides
    requires inside { Inside (bed_in b) (as_cell x) }
    requires dry_depth { DryDepth dry }
    ensures { result ≡ side_row (side_l dry (bed_in b) (as_cell x)) (side_r dry (bed_in b) (as_cell x)) }
{
    let h = depths(b, x);
    places_of(h[0], h[1], x[2], x[3], dry)
}

// The sides of the cells of t into d, up to the lowest cell with a side that is too fast, which it gives.
pub fn sides(t: &[Cell], course: Course, d: &mut [Sides]) -> Option<usize>
    requires room { Room course.reach t.now × Room course.reach d.old }
    requires ranged { Ranged course.bed.now course.reach.n (seen t.now) }
    requires dry_depth { DryDepth course.call.dry }
    ensures { let at = course.entry in FillStops [] at.reach.n (fast_sides at.call.dry at.bed.now (seen t.now))
        (sides_at at.call.dry at.bed.now (seen t.now)) result d.new }
{
    for i in 0..course.reach.n {
        let s = sides_of(under(course.bed, i), t[i], course.call.dry);
        d[i] = s;
        if either_fast(s[1], s[3]) {
            return Some(i);
        }
    }
    None
}
