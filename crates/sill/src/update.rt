// The cells after the stage, from what crosses their faces.
ghost use Rattle.std.specs.Prelude.{◌≡◌, [], ◌≤◌, ◌<◌, get_or, length, pos, ◌+ℤ◌, ◌-ℤ◌, ◌*ℤ◌};
ghost use Rattle.std.specs.Int.Signed.{quot_z};
ghost use Rattle.tables.specs.Pools.{as_pool, as_row};
ghost use Rattle.rules.specs.Limits.{highest_bed};
ghost use Rattle.reach.specs.Places.{FillStops};
ghost use Rattle.reach.specs.Ranges.{UpTo};
ghost use Rattle.sill_rules.specs.Step.{dried_pool};
ghost use Rattle.sill_rules.specs.Refusals.{off_pool};
ghost use Rattle.sill.specs.Rows.{thrust, push_by, update_by, end_at};
ghost use Rattle.sill.specs.Ranges as ranges;
ghost use Rattle.sill.specs.Ranges.{most_pressure, Numbers, Wide, Grounds, Rows, FaceRows};

use crate::pool::{depth_of, off_pool};
use crate::rows::{Call, FaceRow, Pool, Row};
use reach::bed::bed_at;

// E: the pressure of each face beyond that of the cell's depth over the crest there.
#[tactic(auto, unfolding(crate::specs::Rows::push_by))]
fn push_of(x: Row, l: FaceRow, f: FaceRow) -> i64
    requires { ranges.Row x × ranges.FaceRow l × ranges.FaceRow f }
    ensures { result ≡ push_by x l f }
{
    (l.pressure - x.left_depth * x.left_depth) - (f.pressure - x.right_depth * x.right_depth)
}

// 981·e·dt/(819,200·dx): how the pressure e moves a discharge. The product is formed whole.
#[tactic(auto, unfolding(crate::specs::Rows::thrust))]
fn thrust_of(e: i64, call: Call) -> i64
    requires up_to { UpTo most_pressure e }
    requires numbers { Numbers call }
    ensures { result ≡ thrust e call.dx call.dt }
{
    981 * e * call.dt / (819200 * call.dx)
}

// The level and the discharge of a cell of the row x between the rows l and f of its faces.
fn level_of(x: Row, l: FaceRow, f: FaceRow) -> i64
    requires { ranges.Row x × ranges.FaceRow l × ranges.FaceRow f }
    ensures { result ≡ x.level +ℤ l.volume -ℤ f.volume }
{
    x.level + l.volume - f.volume
}

fn flow_of(x: Row, l: FaceRow, f: FaceRow, e: i64, call: Call) -> i64
    requires row { ranges.Row x × ranges.FaceRow l × ranges.FaceRow f }
    requires up_to { UpTo most_pressure e }
    requires numbers { Numbers call }
    ensures { result ≡ x.discharge +ℤ quot_z ((l.advection -ℤ f.advection) *ℤ call.dt) call.dx
        +ℤ thrust e call.dx call.dt }
{
    x.discharge + (l.advection - f.advection) * call.dt / call.dx + thrust_of(e, call)
}

fn updated(x: Row, l: FaceRow, f: FaceRow, call: Call) -> Pool
    requires row { ranges.Row x × ranges.FaceRow l × ranges.FaceRow f }
    requires numbers { Numbers call }
    ensures { result ≡ as_row (update_by call.dx call.dt x l f) }
{
    let e = push_of(x, l, f);
    let level = level_of(x, l, f);
    let flow = flow_of(x, l, f, e, call);
    [level, flow]
}

// A cell over the bed z, without discharge where it is no deeper than the dry depth.
#[tactic(auto, unfolding(sill_rules::specs::Step::dried_pool))]
fn dried(z: i64, x: Pool, dry: i64) -> Pool
    requires { UpTo highest_bed z × Wide (as_pool x) }
    ensures { result ≡ as_row (dried_pool dry z (as_pool x)) }
{
    if depth_of(z, x) <= dry {
        return [x[0], 0];
    }
    x
}

// 8: the cells at the end of the step into a, up to the lowest out of range, which it gives.
pub fn update(b: &[Row], bed: &[i32], f: &[FaceRow], call: Call, a: &mut [Pool]) -> Option<usize>
    requires numbers { Numbers call }
    requires grounds { Grounds bed.now call.n }
    requires room { (call.n ≤ length b.now) × (call.n < length f.now) × (call.n ≤ length a.old) }
    requires rows { Rows b.now call.n }
    requires face_rows { FaceRows f.now call.n }
    ensures { FillStops [] call.n
        (λ i. off_pool (get_or bed.now i (pos 0)) (end_at call bed.now b.now f.now i))
        (λ i. as_row (end_at call bed.now b.now f.now i)) result a.new }
{
    for i in 0..call.n {
        let z = bed_at(bed, i);
        let x = dried(z, updated(b[i], f[i], f[i + 1], call), call.dry);
        a[i] = x;
        if off_pool(z, x) {
            return Some(i);
        }
    }
    None
}
