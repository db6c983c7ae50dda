// What crosses the two ends of the reach: beside a wall or an open end as between two sides, at an
// inflow what is given.
ghost use Rattle.std.specs.Prelude.{◌≡◌, ◌≤◌, ◌+ℤ◌};
ghost use Rattle.whole.specs.Choice.{max_z, size_z};
ghost use Rattle.rules.specs.Limits.{largest_inflow};
ghost use Rattle.rules.specs.Face.{wave, face};
ghost use Rattle.rules.specs.Ends as rules;
ghost use Rattle.rules.specs.Refusals.{fast_inflow};
ghost use Rattle.rules.specs.Laws.Sizes.{Sound};
ghost use Rattle.reach.specs.Told.{end_in};
ghost use Rattle.reach.specs.Ranges.{UpTo, DryDepth};
ghost use Rattle.face.specs.Sides.{side_in, flux_in};
ghost use Rattle.stage.specs.Ranges.{thin_fastest, DepthIn};

use crate::sides::speed_of;
use face::sides::{Flux, Side};
use reach::End;
use reach::limits::{FASTEST, INFLOW, past};
use reach::size::size;

// What crosses between two sides. Both are within the limits, so there always is a flux.
#[tactic(auto, using(face::proofs::Fits::face_given_lem))]
pub fn crossing(l: Side, r: Side) -> Flux
    requires { Sound (side_in l) × Sound (side_in r) }
    ensures { flux_in result ≡ face (side_in l) (side_in r) }
{
    face::flux::face(l, r).unwrap()
}

// The outer side of a wall or an open end: as deep as the inner; its speed is reversed at a wall, the
// same at an open end.
#[tactic(auto, unfolding(rules::specs::Ends::outer))]
fn outer(kind: u32, x: Side) -> Side
    requires { Sound (side_in x) }
    ensures { side_in result ≡ rules.outer kind (side_in x) }
{
    if kind == 0 {
        return Side { h: x.h, u: -x.u };
    }
    x
}

// The wave speed of a depth within the limits.
#[tactic(auto, unfolding(speeds::specs::Given::wave_given, speeds::specs::Given::depth_fits))]
fn wave_of(h: i64) -> i64
    requires { DepthIn h }
    ensures { result ≡ wave h }
{
    speeds::wave::wave(h).unwrap()
}

// uQ: the speed of an end's inflow at the depth of its inner side.
#[tactic(auto, unfolding(rules::specs::Ends::inflow_speed))]
fn inflow_speed(end: End, x: Side, dry: i64) -> i64
    requires q_le_largest_inflow { end.q ≤ largest_inflow }
    requires depth_in { DepthIn x.h }
    requires dry_depth { DryDepth dry }
    ensures { result ≡ rules.inflow_speed dry (end_in end) (side_in x) }
{
    speed_of(i64::from(end.q), x.h, dry)
}

// 6, of an end: has it an inflow that is too fast?
#[tactic(auto, unfolding(rules::specs::Refusals::fast_inflow, rules::specs::Ends::is_inflow))]
pub fn fast_inflow(end: End, x: Side, dry: i64) -> bool
    requires q_le_largest_inflow { end.q ≤ largest_inflow }
    requires depth_in { DepthIn x.h }
    requires dry_depth { DryDepth dry }
    ensures { result ≡ fast_inflow dry (end_in end) (side_in x) }
{
    if end.kind != INFLOW {
        return false;
    }
    past(FASTEST, inflow_speed(end, x, dry))
}

// S of an inflow with the speed v: the greater of v and of a wave's speed against the inner side.
fn inflow_top(v: i64, x: Side) -> i64
    requires up_to { UpTo thin_fastest v }
    requires sound { Sound (side_in x) }
    ensures { result ≡ max_z v (size_z x.u +ℤ wave x.h) }
{
    let top = size(x.u) + wave_of(x.h);
    v.max(top)
}

// What crosses an inflow beside its inner side, as the mass f.
fn inflow(end: End, f: i64, x: Side, dry: i64) -> Flux
    requires q_le_largest_inflow { end.q ≤ largest_inflow }
    requires sound { Sound (side_in x) }
    requires dry_depth { DryDepth dry }
    ensures { flux_in result ≡ rules.inflow dry (end_in end) f (side_in x) }
{
    let v = inflow_speed(end, x, dry);
    let s = inflow_top(v, x);
    Flux {
        f,
        k: x.h * x.h,
        a: i64::from(end.q) * v / 4096,
        s,
    }
}

// What crosses the left and the right end beside the side that stands there.
pub fn left_end(end: End, x: Side, dry: i64) -> Flux
    requires q_le_largest_inflow { end.q ≤ largest_inflow }
    requires sound { Sound (side_in x) }
    requires dry_depth { DryDepth dry }
    ensures { flux_in result ≡ rules.left_end face dry (end_in end) (side_in x) }
{
    if end.kind == INFLOW {
        return inflow(end, i64::from(end.q), x, dry);
    }
    crossing(outer(end.kind, x), x)
}

pub fn right_end(end: End, x: Side, dry: i64) -> Flux
    requires q_le_largest_inflow { end.q ≤ largest_inflow }
    requires sound { Sound (side_in x) }
    requires dry_depth { DryDepth dry }
    ensures { flux_in result ≡ rules.right_end face dry (end_in end) (side_in x) }
{
    if end.kind == INFLOW {
        return inflow(end, -i64::from(end.q), x, dry);
    }
    crossing(x, outer(end.kind, x))
}
