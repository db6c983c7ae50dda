// The two Gauss points of each cell: their speeds, and the momentum that they carry.
ghost use Rattle.std.specs.Prelude.{◌≡◌, pos, ◌+ℤ◌, ◌-ℤ◌, ◌*ℤ◌};
ghost use Rattle.std.specs.Int.Signed.{quot_z};
ghost use Rattle.tables.specs.Cells.{as_cell, seen};
ghost use Rattle.rules.specs.Limits.{fullest};
ghost use Rattle.rules.specs.Stage.{share};
ghost use Rattle.reach.specs.Places.{FillStops};
ghost use Rattle.reach.specs.Told.{bed_in};
ghost use Rattle.reach.specs.Ranges.{UpTo, DryDepth};
ghost use Rattle.stage.specs.Ranges.{Room, Inside, Ranged, Around, thin_fastest};
ghost use Rattle.stage.specs.Rows.{points_by, point_row, fast_points_at, momentum_at};

use crate::cell::{depths, either_fast};
use crate::course::Course;
use crate::sides::places_of;
use reach::Cell;
use reach::bed::{Bed, under};

// The part of a slope at a Gauss point, 1/√3 of it.
fn share_of(x: i64) -> i64
    requires { UpTo fullest x }
    ensures { result ≡ share x }
{
    37837 * x / 65536
}

// The momentum of two points, each with its discharge and its speed.
fn carried_both(p: i64, u: i64, q: i64, w: i64) -> i64
    requires up_to { UpTo fullest p × UpTo thin_fastest u }
    requires up_to_2 { UpTo fullest q × UpTo thin_fastest w }
    ensures { result ≡ quot_z (p *ℤ u) (pos 4096) +ℤ quot_z (q *ℤ w) (pos 4096) }
{
    p * u / 4096 + q * w / 4096
}

// The row of a cell of mean depth m, mean discharge p, and their slopes' shares d and q.
fn pair_of(m: i64, d: i64, p: i64, q: i64, dry: i64) -> [i64; 3]
    requires around { Around m d p q }
    requires dry_depth { DryDepth dry }
    ensures { result ≡ points_by dry (m -ℤ d) (p -ℤ q) (m +ℤ d) (p +ℤ q) }
{
    let s = places_of(m, d, p, q, dry);
    let u = s[1];
    let w = s[3];
    [u, w, carried_both(p - q, u, p + q, w)]
}

// The two speeds of a cell's Gauss points, and the sum of their momenta.
fn points_of(b: Bed, x: Cell, dry: i64) -> [i64; 3]
    requires inside { Inside (bed_in b) (as_cell x) }
    requires dry_depth { DryDepth dry }
    ensures { result ≡ point_row dry (bed_in b) (as_cell x) }
{
    let h = depths(b, x);
    pair_of(h[0], share_of(h[1]), x[2], share_of(x[3]), dry)
}

// The momentum of the cells' Gauss points into g, up to the lowest cell with a point that is too fast, which it
// gives.
pub fn points(t: &[Cell], course: Course, g: &mut [i64]) -> Option<usize>
    requires room { Room course.reach t.now × Room course.reach g.old }
    requires ranged { Ranged course.bed.now course.reach.n (seen t.now) }
    requires dry_depth { DryDepth course.call.dry }
    ensures { let at = course.entry in FillStops (pos 0) at.reach.n (fast_points_at at.call.dry at.bed.now (seen t.now))
        (momentum_at at.call.dry at.bed.now (seen t.now)) result g.new }
{
    for i in 0..course.reach.n {
        let p = points_of(under(course.bed, i), t[i], course.call.dry);
        g[i] = p[2];
        if either_fast(p[0], p[1]) {
            return Some(i);
        }
    }
    None
}
