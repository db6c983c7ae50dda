// What crosses each face of the reach: worked once a stage, and kept with its volume.
ghost use Rattle.std.specs.Prelude.{◌≡◌, suc, ◌≤◌, ◌<◌};
ghost use Rattle.rules.specs.Laws.Sizes.{Sized};
ghost use Rattle.reach.specs.Places.{FillStops};
ghost use Rattle.reach.specs.Ranges.{Numbers};
ghost use Rattle.face.specs.Sides.{flux_in};
ghost use Rattle.stage.specs.Rows.{Sounds, SlowEnds, no_row, face_row, long_flux, cross_in, long_at, face_row_at};
ghost use Rattle.stage.specs.Ranges.{Room, FaceRoom};

use crate::course::Course;
use crate::ends::{crossing, left_end, right_end};
use crate::rows::{FaceRow, Sides, left_side, right_side};
use face::sides::Flux;

// What crosses face i, between the sides in d.
fn face_at(d: &[Sides], course: Course, i: usize) -> Flux
    requires n_nonzero { (0 < course.reach.n) × Room course.reach d.now × (i ≤ course.reach.n) }
    requires numbers { Numbers course.reach course.call }
    requires sounds { Sounds d.now course.reach.n }
    ensures { flux_in result ≡ cross_in course.entry.reach course.entry.call d.now i }
{
    let call = course.call;
    if i == 0 {
        return left_end(call.left, left_side(d[0]), call.dry);
    }
    let before = right_side(d[i - 1]);
    if i == course.reach.n {
        return right_end(call.right, before, call.dry);
    }
    crossing(before, left_side(d[i]))
}

// Is the step too long for the top speed of a face?
fn too_long(x: Flux, course: Course) -> bool
    requires sized { Sized (flux_in x) }
    requires numbers { Numbers course.reach course.call }
    ensures { result ≡ long_flux course.entry.reach.dx course.entry.call.dt (flux_in x) }
{
    4096 * course.reach.dx < 2 * course.call.dt * x.s
}

// What is kept of a face: F, K, A, and V = F·dt/dx.
fn face_row(x: Flux, course: Course) -> FaceRow
    requires sized { Sized (flux_in x) }
    requires numbers { Numbers course.reach course.call }
    ensures { result ≡ face_row course.entry.reach.dx course.entry.call.dt (flux_in x) }
{
    FaceRow {
        mass: x.f,
        pressure: x.k,
        advection: x.a,
        volume: x.f * course.call.dt / course.reach.dx,
    }
}

// 7: the rows of the n + 1 faces into f, up to the lowest at which the step is too long, which it gives.
pub fn faces(d: &[Sides], course: Course, f: &mut [FaceRow]) -> Option<usize>
    requires n_nonzero { (0 < course.reach.n) × Room course.reach d.now × FaceRoom course.reach f.old }
    requires numbers { Numbers course.reach course.call }
    requires sounds { Sounds d.now course.reach.n × SlowEnds course.reach course.call d.now }
    ensures { let at = course.entry in FillStops no_row (suc at.reach.n)
        (long_at at.reach at.call d.now) (face_row_at at.reach at.call d.now) result f.new }
{
    for i in 0..=course.reach.n {
        let x = face_at(d, course, i);
        f[i] = face_row(x, course);
        if too_long(x, course) {
            return Some(i);
        }
    }
    None
}
