// The step of a call whose lengths and numbers are in order, worked on tables of this crate's own and
// stored in the lent one at its end.
ghost use Rattle.std.specs.Prelude.{◌≡◌, suc, ◌*◌, ◌≤◌, ◌<◌, get_or, length, pos};
ghost use Rattle.tables.specs.Pools.{pool_in};
ghost use Rattle.rules.specs.Limits.{most_cells};
ghost use Rattle.rules.specs.Refusals.{Clear};
ghost use Rattle.rules.specs.Found.{found};
ghost use Rattle.reach.specs.Told.{found_in};
ghost use Rattle.reach.specs.Gives.{Gives};
ghost use Rattle.sill.specs.Told.{reach_in, call_in};
ghost use Rattle.sill.specs.Ranges.{Numbers, Grounds, Smooth, Ranged, Lengths};
ghost use Rattle.sill.specs.Says.{ready_checks, StageSays, tables_outcome};

use crate::checks::{bad_bed, off_state};
use crate::faces::faces;
use crate::rows::{Call, FaceRow, Pool, Row};
use crate::rubbing::rub;
use crate::store::store;
use crate::update::update;
use reach::answer::{Answer, Refusal, Refused, Volumes};
use reach::friction::bad_friction;
use reach::limits::{CELLS, FACES};

// A reach of at most so many cells is worked on short tables: they take an eighth of the room of the long
// ones, and clearing them an eighth of the time.
const SHORT_CELLS: usize = 128;

const SHORT_FACES: usize = SHORT_CELLS + 1;

// Checks 3 to 5 of the lent tables, in their order.
fn ready(state: &[i32], bed: &[i32], friction: &[u16], n: usize) -> Result<(), Refused>
    requires { (n ≤ most_cells) × (length state.now ≡ 2 * n) × (length bed.now ≡ n) × (length friction.now ≡ n) }
    ensures { found_in result ≡ found (ready_checks n bed.now friction.now state.now) }
{
    Refusal::Bed.at(bad_bed(bed))?;
    Refusal::Friction.at(bad_friction(friction))?;
    Refusal::State.at(off_state(state, bed, n))
}

// The stage from a lent state that is in range: the cells after friction go into b, the faces into f and
// the end state into a.
fn stage(
    state: &[i32],
    bed: &[i32],
    friction: &[u16],
    call: Call,
    b: &mut [Row],
    f: &mut [FaceRow],
    a: &mut [Pool],
) -> Result<(), Refused>
    requires numbers { Numbers call }
    requires lengths { length state.now ≡ 2 * call.n }
    requires room { (call.n ≤ length b.old) × (call.n < length f.old) × (call.n ≤ length a.old) }
    requires grounds { Grounds bed.now call.n }
    requires smooth { Smooth friction.now call.n }
    requires ranged { Ranged bed.now call.n state.now }
    ensures { StageSays (reach_in call bed.now) (call_in call (λ i. pos (get_or friction.now i 0)))
        (pool_in call.n state.now) (found_in result) f.new a.new }
{
    Refusal::Speed.at(rub(state, bed, friction, call, b))?;
    Refusal::TimeStep.at(faces(b, call, f))?;
    Refusal::Stage.at(update(b, bed, f, call, a))
}

// The step from a lent state that passed those checks, on the tables lent for it.
#[tactic(auto, using(crate::specs::Laws::LentChecks::lent))]
fn on_tables(
    state: &[i32],
    next: &mut [i32],
    bed: &[i32],
    friction: &[u16],
    call: Call,
    b: &mut [Row],
    f: &mut [FaceRow],
    a: &mut [Pool],
) -> Answer
    requires numbers { Numbers call }
    requires lengths { Lengths call state.now next.old bed.now friction.now }
    requires room { (call.n ≤ length b.old) × (call.n < length f.old) × (call.n ≤ length a.old) }
    requires clear { Clear (ready_checks call.n bed.now friction.now state.now) }
    ensures { Gives (tables_outcome call bed.now friction.now state.now)
        result next.old next.new }
{
    stage(state, bed, friction, call, b, f, a)?;
    store(a, call.n, next);
    Ok(Volumes {
        first: f[0].volume,
        last: f[call.n].volume,
    })
}

// The checks of the lent tables, and the step on tables made for a reach of at most N cells and F faces: no table is
// cleared for a call that they refuse. The compiler would merge it into its caller, long tables and all, and is told not
// to: that keeps them off the stack of a short reach.
#[inline(never)]
fn on_own_tables<const N: usize, const F: usize>(
    state: &[i32],
    next: &mut [i32],
    bed: &[i32],
    friction: &[u16],
    call: Call,
) -> Answer
    requires numbers { Numbers call }
    requires lengths { Lengths call state.now next.old bed.now friction.now }
    requires room { (call.n ≤ N) × (N ≤ most_cells) × (call.n < F) × (F ≤ suc most_cells) }
    ensures { Gives (tables_outcome call bed.now friction.now state.now)
        result next.old next.new }
{
    ready(state, bed, friction, call.n)?;
    let cell = Row {
        level: 0,
        discharge: 0,
        left_depth: 0,
        right_depth: 0,
        speed: 0,
    };
    let face = FaceRow {
        volume: 0,
        pressure: 0,
        advection: 0,
    };
    let mut b = [cell; N];
    let mut f = [face; F];
    let mut a = [[0i64; 2]; N];
    on_tables(state, next, bed, friction, call, &mut b, &mut f, &mut a)
}

// The step of a call that is in order, on short tables where they have room for its reach.
pub fn work(state: &[i32], next: &mut [i32], bed: &[i32], friction: &[u16], call: Call) -> Answer
    requires numbers { Numbers call }
    requires lengths { Lengths call state.now next.old bed.now friction.now }
    ensures { Gives (tables_outcome call bed.now friction.now state.now)
        result next.old next.new }
{
    if call.n <= SHORT_CELLS {
        return on_own_tables::<SHORT_CELLS, SHORT_FACES>(state, next, bed, friction, call);
    }
    on_own_tables::<CELLS, FACES>(state, next, bed, friction, call)
}
