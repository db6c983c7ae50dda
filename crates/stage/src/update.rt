// The cells after a stage, from what crosses their faces.
ghost use Rattle.std.specs.Prelude.{◌≡◌, [], ◌∷◌, pos, ◌+ℤ◌, ◌-ℤ◌, ◌*ℤ◌};
ghost use Rattle.std.specs.Int.Signed.{quot_z};
ghost use Rattle.tables.specs.Cells.{as_cell, as_list, seen, Holds};
ghost use Rattle.rules.specs.Limits.{fullest};
ghost use Rattle.reach.specs.Told.{bed_in};
ghost use Rattle.reach.specs.Ranges.{UpTo, Numbers};
ghost use Rattle.stage.specs.Ranges.{Room, FaceRoom, Inside, Ranged, Row, FaceRows, Momenta, Pressed};
ghost use Rattle.stage.specs.Ranges.{highest_level, steepest_level, most_change, most_pressure, most_momentum};
ghost use Rattle.stage.specs.Rows.{slope_of, thrust, push_of, tilt_of, push_by, tilt_by, update_by, update_at};

use crate::cell::depths;
use crate::course::Course;
use crate::rows::FaceRow;
use reach::Cell;
use reach::bed::{Bed, under};

// dt/dx of three times a sum: how a slope changes.
fn slope_change(a: i64, course: Course) -> i64
    requires up_to { UpTo most_change a }
    requires numbers { Numbers course.reach course.call }
    ensures { result ≡ slope_of a course.entry.reach.dx course.entry.call.dt }
{
    3 * a * course.call.dt / course.reach.dx
}

// 981·e·dt/(819,200·dx): how the pressure e moves a discharge. The product is formed whole.
fn thrust_of(e: i64, course: Course) -> i64
    requires up_to { UpTo most_pressure e }
    requires numbers { Numbers course.reach course.call }
    ensures { result ≡ thrust e course.entry.reach.dx course.entry.call.dt }
{
    981 * e * course.call.dt / (819200 * course.reach.dx)
}

// E: the pressures kl and kr of the two faces against the bed, from zl to zr under the mean depth m
// and its slope s.
fn push_of(m: i64, s: i64, zl: i64, zr: i64, kl: i64, kr: i64) -> i64
    requires { Pressed m s zl zr kl kr }
    ensures { result ≡ push_of m s zl zr kl kr }
{
    let left = m - s;
    let right = m + s;
    kl - kr - (right + left) * (zr - zl)
}

// D: the same for the slope.
fn tilt_of(m: i64, s: i64, zl: i64, zr: i64, kl: i64, kr: i64) -> i64
    requires { Pressed m s zl zr kl kr }
    ensures { result ≡ tilt_of m s zl zr kl kr }
{
    3 * kr + 3 * kl - 6 * (m * m) - 2 * (s * s) + 4 * (s * ((zr - zl) / 2))
}

// E and D of a cell between the row l of its left face and the row f of its right.
fn pressures(b: Bed, x: Cell, l: FaceRow, f: FaceRow) -> [i64; 2]
    requires inside { Inside (bed_in b) (as_cell x) }
    requires row { Row l × Row f }
    ensures { result ≡ push_by (bed_in b) (as_cell x) l.pressure f.pressure
        ∷ tilt_by (bed_in b) (as_cell x) l.pressure f.pressure ∷ [] }
{
    let h = depths(b, x);
    let m = h[0];
    let s = h[1];
    let zl = b.zl as i64;
    let zr = b.zr as i64;
    let kl = l.pressure;
    let kr = f.pressure;
    [push_of(m, s, zl, zr, kl, kr), tilt_of(m, s, zl, zr, kl, kr)]
}

// The four lines of a cell between the row l of its left face and the row f of its right. Each asks
// for the sizes that keep its own numbers small. First the level's mean and slope.
fn level_mean(x: Cell, l: FaceRow, f: FaceRow) -> i64
    requires up_to { UpTo highest_level (as_cell x).e0 }
    requires row { Row l × Row f }
    ensures { result ≡ (as_cell x).e0 +ℤ l.volume -ℤ f.volume }
{
    x[0] + l.volume - f.volume
}

fn level_slope(x: Cell, l: FaceRow, f: FaceRow, course: Course) -> i64
    requires up_to { UpTo steepest_level (as_cell x).e1 × UpTo fullest (as_cell x).q0 }
    requires row { Row l × Row f }
    requires numbers { Numbers course.reach course.call }
    ensures { let at = course.entry in
        result ≡ (as_cell x).e1 -ℤ slope_of (f.mass +ℤ l.mass -ℤ pos 2 *ℤ (as_cell x).q0) at.reach.dx at.call.dt }
{
    x[1] - slope_change(f.mass + l.mass - 2 * x[2], course)
}

// Then the discharge's, which the pressures e and d move; g is the momentum of the Gauss points.
fn flow_mean(x: Cell, l: FaceRow, f: FaceRow, e: i64, course: Course) -> i64
    requires up_to { UpTo fullest (as_cell x).q0 × UpTo most_pressure e }
    requires row { Row l × Row f }
    requires numbers { Numbers course.reach course.call }
    ensures { let at = course.entry in
        result ≡ (as_cell x).q0 +ℤ quot_z ((l.advection -ℤ f.advection) *ℤ at.call.dt) at.reach.dx
        +ℤ thrust e at.reach.dx at.call.dt }
{
    x[2] + (l.advection - f.advection) * course.call.dt / course.reach.dx + thrust_of(e, course)
}

fn flow_slope(x: Cell, l: FaceRow, f: FaceRow, g: i64, d: i64, course: Course) -> i64
    requires up_to { UpTo fullest (as_cell x).q1 × UpTo most_momentum g × UpTo most_pressure d }
    requires row { Row l × Row f }
    requires numbers { Numbers course.reach course.call }
    ensures { let at = course.entry in
        result ≡ (as_cell x).q1 -ℤ slope_of (f.advection +ℤ l.advection -ℤ g) at.reach.dx at.call.dt
        -ℤ thrust d at.reach.dx at.call.dt }
{
    x[3] - slope_change(f.advection + l.advection - g, course) - thrust_of(d, course)
}

// A cell after the stage.
fn updated(b: Bed, x: Cell, l: FaceRow, f: FaceRow, g: i64, course: Course) -> Cell
    requires inside { Inside (bed_in b) (as_cell x) }
    requires row { Row l × Row f }
    requires up_to { UpTo most_momentum g }
    requires numbers { Numbers course.reach course.call }
    ensures { result ≡ as_list (update_by course.entry.reach.dx course.entry.call.dt (bed_in b) (as_cell x) l f g) }
{
    let p = pressures(b, x, l, f);
    let e0 = level_mean(x, l, f);
    let e1 = level_slope(x, l, f, course);
    let q0 = flow_mean(x, l, f, p[0], course);
    let q1 = flow_slope(x, l, f, g, p[1], course);
    [e0, e1, q0, q1]
}

// Every cell of t after the stage, into u, from the rows of its faces and the momenta g.
pub fn update(t: &[Cell], course: Course, f: &[FaceRow], g: &[i64], u: &mut [Cell])
    requires room { Room course.reach t.now × FaceRoom course.reach f.now × Room course.reach g.now × Room course.reach u.old }
    requires ranged { Ranged course.bed.now course.reach.n (seen t.now) }
    requires face_rows { FaceRows f.now course.reach.n }
    requires momenta { Momenta g.now course.reach.n }
    requires numbers { Numbers course.reach course.call }
    ensures { let at = course.entry in Holds u.new at.reach.n
        (update_at at.reach at.call at.bed.now (seen t.now) f.now g.now) }
{
    for i in 0..course.reach.n {
        u[i] = updated(under(course.bed, i), t[i], f[i], f[i + 1], g[i], course);
    }
}
