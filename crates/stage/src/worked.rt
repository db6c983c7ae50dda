// The whole step, worked on tables of this crate's own and stored in the lent one at its end.
ghost use Rattle.std.specs.Prelude.{◌≡◌, ◌+◌, ◌*◌, ◌≤◌, ◌<◌, length};
ghost use Rattle.tables.specs.Cells.{seen};
ghost use Rattle.rules.specs.Limits.{most_cells};
ghost use Rattle.rules.specs.Found.{found};
ghost use Rattle.reach.specs.Told.{found_in};
ghost use Rattle.reach.specs.Ranges.{DryDepth, Wides};
ghost use Rattle.stage.specs.Ranges.{InOrder, Room, FaceRoom, Ranged, FaceRows};
ghost use Rattle.stage.specs.Says.{ready_checks, OneSays, TwoSays, BothSay};
ghost use Rattle.stage.specs.Worked.{TablesSay, lent_by, WorkedSays};

use crate::checks::{bad_bed, bad_lengths, bad_numbers, fast, off};
use crate::course::{Course, call_by, reach_by};
use crate::ending::end;
use crate::joining::{end_volume, join};
use crate::lent::load;
use crate::rows::FaceRow;
use crate::rubbed::rub;
use crate::stages::stage;
use crate::store::store;
use reach::answer::{Answer, Refusal, Refused, Volumes};
use reach::friction::bad_friction;
use reach::limits::{CELLS, FACES};
use reach::{Cell, Given};

// A reach of at most so many cells is worked on short tables: they take an eighth of the room of the long
// ones, and clearing them an eighth of the time.
const SHORT_CELLS: usize = 128;

const SHORT_FACES: usize = SHORT_CELLS + 1;

// Checks 3 to 5 and the friction speeds of the lent state in t, in their order.
fn ready(t: &[Cell], course: Course, friction: &[u16]) -> Result<(), Refused>
    requires room { Room course.reach t.now × (length course.bed.now ≡ course.reach.n + 1) × (length friction.now ≡ course.reach.n) }
    requires wides { Wides course.reach.n (seen t.now) × DryDepth course.call.dry }
    ensures { let at = course.entry in found_in result
        ≡ found (ready_checks at.call.dry at.reach.n at.bed.now friction.now (seen t.now)) }
{
    Refusal::Bed.at(bad_bed(course.bed))?;
    Refusal::Friction.at(bad_friction(friction))?;
    Refusal::State.at(off(t, course))?;
    Refusal::Speed.at(fast(t, course))
}

// Stage one from the state a after friction, finished, into b, with its faces in f. Of the tables that
// a stage works on, g has the momenta, and u the sides and then the unfinished state.
fn stage_one(
    a: &[Cell],
    course: Course,
    g: &mut [i64],
    f: &mut [FaceRow],
    u: &mut [Cell],
    b: &mut [Cell],
) -> Result<(), Refused>
    requires in_order { InOrder course.reach course.call course.bed.now }
    requires room { Room course.reach a.now × Room course.reach g.old × Room course.reach u.old × Room course.reach b.old }
    requires face_room { FaceRoom course.reach f.old }
    requires ranged { Ranged course.bed.now course.reach.n (seen a.now) }
    ensures { let at = course.entry in OneSays at.reach at.call at.bed.now a.now (found_in result) f.new b.new }
{
    stage(a, course, g, f, u)?;
    end(u, course, b)
}

// Stage two from b, with its faces in h, joined with a by the faces f and h, and finished, in place of b.
fn stage_two(
    a: &[Cell],
    f: &[FaceRow],
    course: Course,
    g: &mut [i64],
    h: &mut [FaceRow],
    u: &mut [Cell],
    b: &mut [Cell],
) -> Result<(), Refused>
    requires in_order { InOrder course.reach course.call course.bed.now }
    requires room { Room course.reach a.now × Room course.reach g.old × Room course.reach u.old × Room course.reach b.old }
    requires face_room { FaceRoom course.reach f.now × FaceRoom course.reach h.old }
    requires ranged { Ranged course.bed.now course.reach.n (seen a.now) × Ranged course.bed.now course.reach.n (seen b.old) }
    requires face_rows { FaceRows f.now course.reach.n }
    ensures { let at = course.entry in TwoSays at.reach at.call at.bed.now a.now f.now b.old
        (found_in result) h.new b.new }
{
    stage(b, course, g, h, u)?;
    join(a, u, f, h, course.reach);
    end(u, course, b)
}

// Both stages from the state a after friction: the end state in b, and the faces of the two in f and h.
fn both_stages(
    a: &[Cell],
    course: Course,
    g: &mut [i64],
    f: &mut [FaceRow],
    h: &mut [FaceRow],
    u: &mut [Cell],
    b: &mut [Cell],
) -> Result<(), Refused>
    requires in_order { InOrder course.reach course.call course.bed.now }
    requires room { Room course.reach a.now × Room course.reach g.old × Room course.reach u.old × Room course.reach b.old }
    requires face_room { FaceRoom course.reach f.old × FaceRoom course.reach h.old }
    requires ranged { Ranged course.bed.now course.reach.n (seen a.now) }
    ensures { let at = course.entry in BothSay at.reach at.call at.bed.now a.now (found_in result)
        f.new h.new b.new }
{
    stage_one(a, course, g, f, u, b)?;
    stage_two(a, f, course, g, h, u, b)
}

// The step of a reach and a call that are in order, on the tables lent for it: a has the lent state and
// then that after friction, b stage one and then the end state; the others are as both stages have them.
fn on_tables(
    state: &[i32],
    next: &mut [i32],
    course: Course,
    friction: &[u16],
    a: &mut [Cell],
    g: &mut [i64],
    f: &mut [FaceRow],
    h: &mut [FaceRow],
    u: &mut [Cell],
    b: &mut [Cell],
) -> Answer
    requires in_order { InOrder course.reach course.call course.bed.now × (length state.now ≡ 4 * course.reach.n)
        × (length next.old ≡ 4 * course.reach.n) × (length friction.now ≡ course.reach.n) }
    requires room { Room course.reach a.old × Room course.reach g.old × Room course.reach u.old × Room course.reach b.old }
    requires face_room { FaceRoom course.reach f.old × FaceRoom course.reach h.old }
    ensures { let at = course.entry in TablesSay at.reach at.call at.bed.now friction.now state.now
        result next.old next.new }
{
    load(state, course.reach, a);
    ready(a, course, friction)?;
    rub(a, course, friction);
    both_stages(a, course, g, f, h, u, b)?;
    store(b, course.reach.n, next);
    Ok(Volumes {
        first: end_volume(f, h, 0),
        last: end_volume(f, h, course.reach.n),
    })
}

// The same on tables made for a reach of at most N cells and F faces. The compiler would merge it into its caller, long
// tables and all, and is told not to: that keeps them off the stack of a short reach.
#[inline(never)]
fn on_own_tables<const N: usize, const F: usize>(
    state: &[i32],
    next: &mut [i32],
    course: Course,
    friction: &[u16],
) -> Answer
    requires in_order { InOrder course.reach course.call course.bed.now × (length state.now ≡ 4 * course.reach.n)
        × (length next.old ≡ 4 * course.reach.n) × (length friction.now ≡ course.reach.n) }
    requires room { (course.reach.n ≤ N) × (course.reach.n < F) × (N ≤ most_cells) × (F ≤ most_cells + 1) }
    ensures { let at = course.entry in TablesSay at.reach at.call at.bed.now friction.now state.now
        result next.old next.new }
{
    let mut a = [[0i64; 4]; N];
    let mut g = [0i64; N];
    let mut f = [FaceRow::default(); F];
    let mut h = [FaceRow::default(); F];
    let mut u = [[0i64; 4]; N];
    let mut b = [[0i64; 4]; N];
    on_tables(
        state, next, course, friction, &mut a, &mut g, &mut f, &mut h, &mut u, &mut b,
    )
}

// One step from the lent state, bed and friction: the refusal's number and place, or the two end volumes and
// the new state in `next`. Only an accepted step writes there.
pub fn work(state: &[i32], next: &mut [i32], bed: &[i32], friction: &[u16], given: Given) -> Answer
    ensures { WorkedSays
        (lent_by state.now (length next.old) bed.now friction.now given)
        result next.old next.new }
{
    let n = friction.len();
    if bad_lengths(state.len(), next.len(), bed.len(), n) {
        return Err(Refusal::Lengths.into());
    }
    let reach = reach_by(n, given);
    let call = call_by(given);
    if bad_numbers(reach, call) {
        return Err(Refusal::Numbers.into());
    }
    let course = Course { bed, reach, call };
    if n <= SHORT_CELLS {
        return on_own_tables::<SHORT_CELLS, SHORT_FACES>(state, next, course, friction);
    }
    on_own_tables::<CELLS, FACES>(state, next, course, friction)
}
