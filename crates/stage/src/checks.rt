// The checks of what is lent, and of a finished state, each over the whole reach: one of places gives the
// lowest to which it applies.
ghost use Rattle.std.specs.Prelude.{◌≡◌, List, ℕ, ◌*◌, get_or, length, ℤ, pos};
ghost use Rattle.tables.specs.Cells.{as_cell, seen};
ghost use Rattle.rules.specs.Refusals.{bad_end, bad_call, bad_bed, off_cell, fast_cell};
ghost use Rattle.rules.specs.Lent.{misfit};
ghost use Rattle.rules.specs.Reach.{bed_at};
ghost use Rattle.reach.specs.Places.{first_place};
ghost use Rattle.reach.specs.Told.{end_in, reach_in, call_on, bed_in};
ghost use Rattle.reach.specs.Ranges.{DryDepth, AllUnfinished};
ghost use Rattle.stage.specs.Ranges.{Room, Inside, Ranged};

use crate::cell::{depths, off_cell};
use crate::course::Course;
use crate::sides::speed_of;
use reach::bed::{Bed, bed_at, under};
use reach::limits::{
    CELLS, FASTEST, HIGHEST_BED, INFLOW, LARGEST_INFLOW, LARGEST_JUMP, LONGEST_CELL, LONGEST_STEP,
    bad_dry, outside, past,
};
use reach::{Call, Cell, End, Reach};

// 1: do the tables not fit the n cells?
pub fn bad_lengths(state: usize, next: usize, bed: usize, n: usize) -> bool
    ensures { result ≡ misfit state next bed n }
{
    if n == 0 {
        return true;
    }
    if CELLS < n {
        return true;
    }
    if state != 4 * n {
        return true;
    }
    if next != 4 * n {
        return true;
    }
    if bed != n + 1 {
        return true;
    }
    false
}

// Is the kind or the inflow of an end outside its list, or is there an inflow at an end of another kind?
fn bad_end(end: End) -> bool
    ensures { result ≡ bad_end (end_in end) }
{
    if INFLOW < end.kind {
        return true;
    }
    if LARGEST_INFLOW < end.q {
        return true;
    }
    if end.kind == INFLOW {
        return false;
    }
    end.q != 0
}

// 2: is a number or an end outside its list? It reads neither the bed nor the friction.
pub fn bad_numbers(reach: Reach, call: Call) -> bool
    ensures { (bed : List ℤ) (ρ : ℕ → ℤ) → result ≡ bad_call (reach_in reach bed) (call_on call ρ) }
{
    if outside(1, LONGEST_CELL, reach.dx) {
        return true;
    }
    if outside(1, LONGEST_STEP, call.dt) {
        return true;
    }
    if outside(0, LARGEST_JUMP, call.jump) {
        return true;
    }
    if bad_dry(call.dry) {
        return true;
    }
    if bad_end(call.left) {
        return true;
    }
    bad_end(call.right)
}

// Is a bed value out of range or odd?
fn bad_value(z: i64) -> bool
    ensures { result ≡ bad_bed z }
{
    if outside(0, HIGHEST_BED, z) {
        return true;
    }
    let size = z as u64;
    size % 2 != 0
}

// 3: the lowest bed value that is out of range or odd.
pub fn bad_bed(bed: &[i32]) -> Option<usize>
    ensures { result ≡ first_place (λ i. bad_bed (get_or bed.now i (pos 0))) (length bed.now) }
{
    for i in 0..bed.len() {
        if bad_value(bed_at(bed, i)) {
            return Some(i);
        }
    }
    None
}

// 5 and 8: the lowest cell out of range.
pub fn off(t: &[Cell], course: Course) -> Option<usize>
    requires room { Room course.reach t.now }
    requires all_unfinished { AllUnfinished course.bed.now course.reach.n (seen t.now) }
    ensures { let at = course.entry in result ≡ first_place (λ i. off_cell (bed_at at.bed.now i) (seen t.now i)) at.reach.n }
{
    for i in 0..course.reach.n {
        if off_cell(under(course.bed, i), t[i]) {
            return Some(i);
        }
    }
    None
}

// Is the speed of a cell's mean discharge too large? A shallow cell has none.
fn fast_cell(b: Bed, x: Cell, dry: i64) -> bool
    requires inside { Inside (bed_in b) (as_cell x) }
    requires dry_depth { DryDepth dry }
    ensures { result ≡ fast_cell dry (bed_in b) (as_cell x) }
{
    let h = depths(b, x);
    past(FASTEST, speed_of(x[2], h[0], dry))
}

// 6, of friction: the lowest cell that is too fast. Checked also where friction is 0.
pub fn fast(t: &[Cell], course: Course) -> Option<usize>
    requires room { Room course.reach t.now }
    requires ranged { Ranged course.bed.now course.reach.n (seen t.now) }
    requires dry_depth { DryDepth course.call.dry }
    ensures { let at = course.entry in
        result ≡ first_place (λ i. fast_cell at.call.dry (bed_at at.bed.now i) (seen t.now i)) at.reach.n }
{
    for i in 0..course.reach.n {
        if fast_cell(under(course.bed, i), t[i], course.call.dry) {
            return Some(i);
        }
    }
    None
}
