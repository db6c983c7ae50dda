// What crosses a face between the water on its left, l, and on its right, r. Two sides of equal depth share
// one wave speed. A depth that has a wave speed is not below nought, so a depth of at most nought is none.
ghost use Rattle.std.specs.Prelude.{◌≡◌, true, ◌&&◌, pos, option_map};
ghost use Rattle.whole.specs.Equal.{eq_z};
ghost use Rattle.rules.specs.Limits.{deepest};
ghost use Rattle.rules.specs.Face.{none, mass, u_star, a_star, left_wave, right_wave, top, mixed, wet, alone, between, face};
ghost use Rattle.rules.specs.Laws.Sizes.{Sound};
ghost use Rattle.reach.specs.Ranges.{UpTo};
ghost use Rattle.speeds.specs.Given.{wave_given};
ghost use Rattle.face.specs.Given.{face_given};
ghost use Rattle.face.specs.Sides.{side_in, flux_in};
ghost use Rattle.face.specs.Waves.{Known, Bounded, Apart, Mixable, pressure_of, wet_of};

use crate::sides::{Flux, Side};
use reach::size::size;
use speeds::limits::speed_fits;
use speeds::wave::wave;

// The water on one side, with its wave speed: the one root of a side, worked once and passed on.
#[derive(Clone, Copy)]
struct Water {
    side: Side,
    a: i64,
}

// The two waves of a face: the speed sL of the one that runs left, and sR of the one that runs right.
#[derive(Clone, Copy)]
struct Waves {
    sl: i64,
    sr: i64,
}

// u*: the speed of the water between the two waves.
fn star_speed(l: Water, r: Water) -> i64
    requires { Known l × Known r }
    ensures { result ≡ u_star (side_in l.side) (side_in r.side) }
{
    (l.side.u + r.side.u) / 2 + l.a - r.a
}

// a*: the wave speed of that water.
fn star_wave(l: Water, r: Water) -> i64
    requires { Known l × Known r }
    ensures { result ≡ a_star (side_in l.side) (side_in r.side) }
{
    size((2 * (l.a + r.a) + l.side.u - r.side.u) / 4)
}

// sL: the wave that runs left. Into a dry left side runs the front of the right side's water.
fn left_wave(l: Water, r: Water) -> i64
    requires { Known l × Known r }
    ensures { result ≡ left_wave (side_in l.side) (side_in r.side) }
{
    if l.side.h <= 0 {
        return r.side.u - 2 * r.a;
    }
    let own = l.side.u - l.a;
    own.min(star_speed(l, r) - star_wave(l, r))
}

// sR: the wave that runs right. Into a dry right side runs the front of the left side's water.
fn right_wave(l: Water, r: Water) -> i64
    requires { Known l × Known r }
    ensures { result ≡ right_wave (side_in l.side) (side_in r.side) }
{
    if r.side.h <= 0 {
        return l.side.u + 2 * l.a;
    }
    let own = r.side.u + r.a;
    own.max(star_speed(l, r) + star_wave(l, r))
}

// S: the greatest size among the waves and the speeds, which bounds the time step.
fn top_speed(l: Side, r: Side, waves: Waves) -> i64
    requires sound { Sound (side_in l) × Sound (side_in r) }
    requires bounded { Bounded waves }
    ensures { result ≡ top (side_in l) (side_in r) waves.sl waves.sr }
{
    size(waves.sl)
        .max(size(waves.sr))
        .max(size(l.u))
        .max(size(r.u))
}

// m: the discharge of one side.
fn discharge(x: Side) -> i64
    requires { Sound (side_in x) }
    ensures { result ≡ mass (side_in x) }
{
    x.h * x.u / 4096
}

// The mixture of a from the left and b from the right: of depths it carries mass, of discharges
// advection. Dividing once, at the end, loses least.
fn mixed(waves: Waves, a: i64, b: i64, ul: i64, ur: i64) -> i64
    requires { Mixable waves a b ul ur }
    ensures { result ≡ mixed waves.sl waves.sr a b ul ur }
{
    let Waves { sl, sr } = waves;
    (sr * a * ul - sl * b * ur + sl * sr * (b - a)) / (4096 * (sr - sl))
}

// K between the waves: a mean of the two squares, so that equal depths give their square again.
fn pressure(waves: Waves, hl: i64, hr: i64) -> i64
    requires { Apart waves × (UpTo deepest hl × UpTo deepest hr) }
    ensures { result ≡ pressure_of waves.sl waves.sr hl hr }
{
    let Waves { sl, sr } = waves;
    (sr * (hl * hl) - sl * (hr * hr)) / (sr - sl)
}

// Both waves run one way: all comes from one side.
fn alone(x: Side, s: i64) -> Flux
    requires { Sound (side_in x) }
    ensures { flux_in result ≡ alone (side_in x) s }
{
    let m = discharge(x);
    Flux {
        f: m,
        k: x.h * x.h,
        a: m * x.u / 4096,
        s,
    }
}

// One wave runs left and one right: the face lies between them.
fn between(l: Side, r: Side, waves: Waves, s: i64) -> Flux
    requires sound { Sound (side_in l) × Sound (side_in r) }
    requires apart { Apart waves }
    ensures { flux_in result ≡ between (side_in l) (side_in r) waves.sl waves.sr s }
{
    let f = mixed(waves, l.h, r.h, l.u, r.u);
    let k = pressure(waves, l.h, r.h);
    let a = mixed(waves, discharge(l), discharge(r), l.u, r.u);
    Flux { f, k, a, s }
}

// If both waves run one way, all comes from the side behind them, else from both.
#[tactic(auto, unfolding(rules::specs::Face::wet, rules::specs::Face::sided))]
fn sided(l: Side, r: Side, waves: Waves) -> Flux
    requires sound { Sound (side_in l) × Sound (side_in r) }
    requires bounded { Bounded waves }
    ensures { flux_in result ≡ wet (side_in l) (side_in r) waves.sl waves.sr }
{
    let s = top_speed(l, r, waves);
    if 0 <= waves.sl {
        return alone(l, s);
    }
    if waves.sr <= 0 {
        return alone(r, s);
    }
    between(l, r, waves, s)
}

// Where at least one side has water.
#[tactic(auto, unfolding(crate::specs::Waves::wet_of))]
fn wet(l: Water, r: Water) -> Flux
    requires { Known l × Known r }
    ensures { flux_in result ≡ wet_of (side_in l.side) (side_in r.side) }
{
    let waves = Waves {
        sl: left_wave(l, r),
        sr: right_wave(l, r),
    };
    sided(l.side, r.side, waves)
}

// No water on either side: there is no wave, and nothing crosses.
fn both_dry(l: Side, r: Side) -> bool
    ensures { result ≡ (none l.h && none r.h) }
{
    l.h <= 0 && r.h <= 0
}

// Is the water level and still: equal depths, and no speed on either side?
#[tactic(auto, unfolding(whole::specs::Equal::eq_z))]
fn still(l: Side, r: Side) -> bool
    ensures { result ≡ (eq_z l.h r.h && eq_z l.u (pos 0) && eq_z r.u (pos 0)) }
{
    l.h == r.h && l.u == 0 && r.u == 0
}

// What crosses between two sides that are within the limits. In level and still water that is only
// the pressure, and nothing is divided.
#[tactic(auto, unfolding(rules::specs::Face::face, rules::specs::Face::nothing, crate::specs::Waves::wet_of))]
fn carried(l: Water, r: Water) -> Flux
    requires { Known l × Known r }
    ensures { flux_in result ≡ face (side_in l.side) (side_in r.side) }
{
    if still(l.side, r.side) {
        return Flux {
            f: 0,
            k: l.side.h * l.side.h,
            a: 0,
            s: l.a,
        };
    }
    if both_dry(l.side, r.side) {
        return Flux {
            f: 0,
            k: 0,
            a: 0,
            s: 0,
        };
    }
    wet(l, r)
}

// The wave speed of a depth h on the right of the water l: equal depths have one wave speed, and it is
// not worked again.
#[tactic(auto, unfolding(speeds::specs::Given::wave_given, speeds::specs::Given::depth_fits))]
fn wave_beside(l: Water, h: i64) -> Option<i64>
    requires { Known l }
    ensures { result ≡ wave_given h }
{
    if l.side.h == h {
        return Some(l.a);
    }
    wave(h)
}

// What crosses the face. A dry side's speed must be within the limits too, and enters S; a depth
// beyond the limits has no wave speed.
#[tactic(auto, unfolding(crate::specs::Given::face_given, crate::specs::Given::side_fits, speeds::specs::Given::wave_given))]
pub fn face(l: Side, r: Side) -> Option<Flux>
    ensures { option_map flux_in result ≡ face_given (side_in l) (side_in r) }
{
    if !speed_fits(l.u) || !speed_fits(r.u) {
        return None;
    }
    let al = wave(l.h)?;
    let left = Water { side: l, a: al };
    let ar = wave_beside(left, r.h)?;
    Some(carried(left, Water { side: r, a: ar }))
}
