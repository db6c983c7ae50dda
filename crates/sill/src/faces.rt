// What crosses each face of the reach: worked once, and kept with its volume.
ghost use Rattle.std.specs.Prelude.{◌≡◌, suc, ◌≤◌, ◌<◌, length};
ghost use Rattle.rules.specs.Face.{face};
ghost use Rattle.rules.specs.Ends as rules;
ghost use Rattle.rules.specs.Refusals.{is_long};
ghost use Rattle.rules.specs.Laws.Sizes.{Sound, Sized};
ghost use Rattle.reach.specs.Places.{FillStops};
ghost use Rattle.face.specs.Sides.{side_in, flux_in};
ghost use Rattle.sill.specs.Told.{kind_of};
ghost use Rattle.sill.specs.Rows.{no_face, face_row, cross_in, long_at, face_row_at};
ghost use Rattle.sill.specs.Ranges.{Numbers, Rows};

use crate::rows::{Call, End, FaceRow, Row};
use face::sides::{Flux, Side};

// What crosses between two sides. Both are within the limits, so there always is a flux. A side of
// no depth may have a speed: that of its cell, which does not reach over the crest.
#[tactic(auto, using(face::proofs::Fits::face_given_lem))]
fn crossing(l: Side, r: Side) -> Flux
    requires { Sound (side_in l) × Sound (side_in r) }
    ensures { flux_in result ≡ face (side_in l) (side_in r) }
{
    face::flux::face(l, r).unwrap()
}

// The outer side of an end: as deep as the inner; its speed is reversed at a wall, the same at an open end.
#[tactic(auto, unfolding(rules::specs::Ends::outer))]
fn outer(end: End, x: Side) -> Side
    requires { Sound (side_in x) }
    ensures { (side_in result ≡ rules.outer (kind_of end) (side_in x)) × Sound (side_in result) }
{
    match end {
        End::Wall => Side { h: x.h, u: -x.u },
        End::Open => x,
    }
}

// What crosses face i, between the cells in b.
#[tactic(auto, using(crate::specs::Laws::FaceSizes::at_each))]
fn face_at(b: &[Row], call: Call, i: usize) -> Flux
    requires numbers { Numbers call }
    requires room { (call.n ≤ length b.now) × (i ≤ call.n) }
    requires rows { Rows b.now call.n }
    ensures { flux_in result ≡ cross_in call b.now i }
{
    if i == 0 {
        let first = b[0].left_side();
        return crossing(outer(call.left, first), first);
    }
    let before = b[i - 1].right_side();
    if i == call.n {
        return crossing(before, outer(call.right, before));
    }
    crossing(before, b[i].left_side())
}

// Is the step too long for the top speed of a face?
fn too_long(x: Flux, call: Call) -> bool
    requires sized { Sized (flux_in x) }
    requires numbers { Numbers call }
    ensures { result ≡ is_long call.dx call.dt (flux_in x) }
{
    4096 * call.dx < 2 * call.dt * x.s
}

// What is kept of a face: V = F·dt/dx, K and A.
fn face_row(x: Flux, call: Call) -> FaceRow
    requires sized { Sized (flux_in x) }
    requires numbers { Numbers call }
    ensures { result ≡ face_row call.dx call.dt (flux_in x) }
{
    FaceRow {
        volume: x.f * call.dt / call.dx,
        pressure: x.k,
        advection: x.a,
    }
}

// 7: the rows of the n + 1 faces into f, up to the lowest at which the step is too long, which it gives.
pub fn faces(b: &[Row], call: Call, f: &mut [FaceRow]) -> Option<usize>
    requires numbers { Numbers call }
    requires room { (call.n ≤ length b.now) × (call.n < length f.old) }
    requires rows { Rows b.now call.n }
    ensures { FillStops no_face (suc call.n) (long_at call b.now) (face_row_at call b.now) result f.new }
{
    for i in 0..=call.n {
        let x = face_at(b, call, i);
        f[i] = face_row(x, call);
        if too_long(x, call) {
            return Some(i);
        }
    }
    None
}
