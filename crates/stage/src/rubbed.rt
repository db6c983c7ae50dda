// Friction, in the split implicit form: it slows the discharge of a cell and leaves its level.
ghost use Rattle.std.specs.Prelude.{◌≡◌, false, ◌&&◌, [], ◌∷◌, get_or, pos, ◌≤ℤ◌, ◌<ℤ◌};
ghost use Rattle.whole.specs.Equal.{eq_z};
ghost use Rattle.tables.specs.Rows.{Filled};
ghost use Rattle.tables.specs.Cells.{as_cell, as_list, seen};
ghost use Rattle.rules.specs.Limits.{least_dry, deepest, fullest, fastest, roughest, longest_step};
ghost use Rattle.rules.specs.Face.{speed};
ghost use Rattle.rules.specs.Friction.{drag, slowed};
ghost use Rattle.rules.specs.Step.{rubbed_cell};
ghost use Rattle.rules.specs.Refusals.{past, fast_cell};
ghost use Rattle.reach.specs.Told.{bed_in};
ghost use Rattle.reach.specs.Ranges.{UpTo, DryDepth, Numbers};
ghost use Rattle.friction.specs.Given.{strongest};
ghost use Rattle.stage.specs.Rows.{rubbed_at};
ghost use Rattle.stage.specs.Ranges.{Room, Inside, Ranged, Slows};

use crate::cell::depths;
use crate::course::Course;
use crate::sides::speed_of;
use friction::strength::Rubbing;
use reach::bed::{Bed, under};
use reach::friction::rough_at;
use reach::{Call, Cell};

// How strongly friction acts on a discharge q at a depth h, whose speed has been checked. All is within
// the limits, so there always is one.
#[tactic(auto, using(friction::proofs::Fits::strength_given_lem))]
fn strength(call: Call, f: i64, q: i64, h: i64) -> i64
    requires pos_bound { (pos 0 ≤ℤ call.dt) × UpTo longest_step call.dt }
    requires pos_bound_2 { (pos 0 ≤ℤ f) × UpTo roughest f }
    requires up_to { UpTo fullest q × DryDepth call.dry }
    requires least_dry_lt_h { (least_dry <ℤ h) × (h ≤ℤ deepest) }
    requires h_value { past fastest (speed call.dry q h) ≡ false }
    ensures { result ≡ drag call.dt f h (speed call.dry q h) }
{
    friction::strength::strength(Rubbing {
        dt: call.dt,
        rough: f,
        h,
        u: speed_of(q, h, call.dry),
    })
    .unwrap()
}

// What friction of strength x leaves of a discharge. Both are within the limits, so there always is one.
#[tactic(auto, using(friction::proofs::Fits::slowed_given_lem))]
fn slowed_by(x: i64, q: i64) -> i64
    requires pos_bound { (pos 0 ≤ℤ x) × UpTo strongest x }
    requires up_to { UpTo fullest q }
    ensures { result ≡ slowed x q }
{
    friction::slowed::slowed(x, q).unwrap()
}

// What friction of strength d leaves of a cell, whose level stays.
fn slowed_cell(d: i64, x: Cell) -> Cell
    requires pos_bound { (pos 0 ≤ℤ d) × UpTo strongest d }
    requires up_to { UpTo fullest (get_or x 2 (pos 0)) × UpTo fullest (get_or x 3 (pos 0)) }
    ensures { result ≡ get_or x 0 (pos 0) ∷ get_or x 1 (pos 0) ∷ slowed d (get_or x 2 (pos 0)) ∷ slowed d (get_or x 3 (pos 0)) ∷ [] }
{
    [x[0], x[1], slowed_by(d, x[2]), slowed_by(d, x[3])]
}

// No discharge, in the mean or in the slope: friction has nothing to slow.
fn calm(x: Cell) -> bool
    ensures { result ≡ (eq_z (as_cell x).q0 (pos 0) && eq_z (as_cell x).q1 (pos 0)) }
{
    x[2] == 0 && x[3] == 0
}

// A cell after friction of the Manning value f. Shallow and calm cells keep what they have, with no root and
// no division worked for them.
fn rubbed_cell(call: Call, f: i64, b: Bed, x: Cell) -> Cell
    requires pos_bound { (pos 0 ≤ℤ call.dt) × UpTo longest_step call.dt }
    requires pos_bound_2 { (pos 0 ≤ℤ f) × UpTo roughest f }
    requires inside { Inside (bed_in b) (as_cell x) × DryDepth call.dry }
    requires x_value { fast_cell call.dry (bed_in b) (as_cell x) ≡ false }
    ensures { result ≡ as_list (rubbed_cell call.dt call.dry f (bed_in b) (as_cell x)) }
{
    let h = depths(b, x);
    if h[0] <= call.dry || calm(x) {
        return x;
    }
    slowed_cell(strength(call, f, x[2], h[0]), x)
}

// The state in t after friction, in its place.
pub fn rub(t: &mut [Cell], course: Course, friction: &[u16])
    requires room { Room course.reach t.old × Room course.reach friction.now }
    requires numbers { Numbers course.reach course.call }
    requires ranged { Ranged course.bed.now course.reach.n (seen t.old) }
    requires slows { Slows course.call.dry friction.now course.bed.now course.reach.n (seen t.old) }
    ensures { let at = course.entry in Filled [] t.old t.new at.reach.n
        (λ i. as_list (rubbed_at at.call friction.now at.bed.now (seen t.old) i)) }
{
    for i in 0..course.reach.n {
        t[i] = rubbed_cell(
            course.call,
            rough_at(friction, i),
            under(course.bed, i),
            t[i],
        );
    }
}
