// The library for callers in C: numbers, tables, and a number for an answer. The crate editor_c exports these functions,
// and include/bassoonsun.h declares them.
#![tactic(auto)]

ghost use Rattle.std.specs.Prelude.{◌≡◌, ◌≤◌, length};
ghost use Rattle.rules.specs.Limits.{most_cells};
ghost use Rattle.rules.specs.Lent.{step_of};
ghost use Rattle.rules.specs.Sums.{making_of, between_of};
ghost use Rattle.sill_rules.specs.Lent as sills;
ghost use Rattle.face.specs.Given.{side, face_given};
ghost use Rattle.step.specs.Gives.{end, lend, placed};
ghost use Rattle.editor.specs.Told.{sill_lend, given_by, AnswerTold, StepTold, KeepingTold, MakingTold, QuestionTold};
ghost use Rattle.editor.specs.Told.{FaceTold, DoubleTold, RootTold};

use step::{Answer, End, Given};

// The numbers of a call, as the step takes them.
fn given(
    dx: u32,
    dt: u32,
    jump: u32,
    dry: u32,
    left: u32,
    right: u32,
    left_q: u32,
    right_q: u32,
) -> Given
    ensures { result ≡ given_by dx dt jump dry left right left_q right_q }
{
    let first = End {
        kind: left,
        q: left_q,
    };
    let last = End {
        kind: right,
        q: right_q,
    };
    Given {
        dx,
        dt,
        jump,
        dry,
        left: first,
        right: last,
    }
}

// What a step answered: its number, 0 when it is accepted; `volumes` is written only then, `place` in
// either case.
fn tell(a: Answer, volumes: &mut [i64; 2], place: &mut [u32; 1]) -> u32
    requires { placed a ≤ most_cells }
    ensures { AnswerTold a result volumes.old volumes.new place.old place.new }
{
    match a {
        Ok(crossed) => {
            volumes[0] = crossed.first;
            volumes[1] = crossed.last;
            place[0] = 0;
            0
        }
        Err(refused) => {
            place[0] = refused.place as u32;
            u32::from(refused.refusal)
        }
    }
}

// 0 when the step is accepted, else the refusal's number; `volumes`, W at face 0 and at face n, is
// written only when it is accepted, `place` in either case: 0, or the refusal's place.
pub fn bassoonsun_step(
    state: &[i32],
    next: &mut [i32],
    bed: &[i32],
    friction: &[u16],
    dx: u32,
    dt: u32,
    jump: u32,
    dry: u32,
    left: u32,
    right: u32,
    left_q: u32,
    right_q: u32,
    volumes: &mut [i64; 2],
    place: &mut [u32; 1],
) -> u32
    ensures { StepTold
        (step_of (lend state.now (length next.old) bed.now friction.now
        dx dt jump dry (end left left_q) (end right right_q)))
        result next.old next.new volumes.old volumes.new
        place.old place.new }
{
    let call = given(dx, dt, jump, dry, left, right, left_q, right_q);
    tell(step::step(state, next, bed, friction, call), volumes, place)
}

// The same step, which also leaves the sums of the new state in `sums` when it is accepted.
pub fn bassoonsun_step_sums(
    state: &[i32],
    next: &mut [i32],
    bed: &[i32],
    friction: &[u16],
    sums: &mut [i32],
    dx: u32,
    dt: u32,
    jump: u32,
    dry: u32,
    left: u32,
    right: u32,
    left_q: u32,
    right_q: u32,
    volumes: &mut [i64; 2],
    place: &mut [u32; 1],
) -> u32
    ensures { KeepingTold
        (lend state.now (length next.old) bed.now friction.now
        dx dt jump dry (end left left_q) (end right right_q))
        result next.old next.new sums.old sums.new
        volumes.old volumes.new place.old place.new }
{
    let call = given(dx, dt, jump, dry, left, right, left_q, right_q);
    tell(
        sums::step(state, next, bed, friction, sums, call),
        volumes,
        place,
    )
}

// The same over a stepped bed: 0 when the step is accepted, else the refusal's number; `volumes`, V at face 0
// and at face n, is written only when it is accepted, `place` in either case.
pub fn bassoonsun_sill_step(
    state: &[i32],
    next: &mut [i32],
    bed: &[i32],
    friction: &[u16],
    dx: u32,
    dt: u32,
    dry: u32,
    left: u32,
    right: u32,
    volumes: &mut [i64; 2],
    place: &mut [u32; 1],
) -> u32
    ensures { StepTold
        (sills.step_of (sill_lend state.now (length next.old) bed.now friction.now
        dx dt dry left right))
        result next.old next.new volumes.old volumes.new
        place.old place.new }
{
    let call = sill::Given {
        dx,
        dt,
        dry,
        left,
        right,
    };
    tell(sill::step(state, next, bed, friction, call), volumes, place)
}

// 0 when all of the sums are filled, else the refusal's number; they are then as they were.
pub fn bassoonsun_sums(state: &[i32], bed: &[i32], sums: &mut [i32]) -> u32
    ensures { MakingTold
        (making_of bed.now state.now (length sums.old))
        result sums.old sums.new }
{
    match sums::make(state, bed, sums) {
        Ok(()) => 0,
        Err(refusal) => u32::from(refusal),
    }
}

// 0 when the question is answered, else the refusal's number; `answer`, the water, the cells and the
// blocks that were read, is written only for 0.
pub fn bassoonsun_between(
    state: &[i32],
    bed: &[i32],
    sums: &[i32],
    a: u32,
    b: u32,
    answer: &mut [i64; 3],
) -> u32
    ensures { QuestionTold
        (between_of bed.now state.now sums.now a b)
        result answer.old answer.new }
{
    match sums::between(state, bed, sums, a, b) {
        Ok(water) => {
            answer[0] = water.depth;
            answer[1] = water.cells as i64;
            answer[2] = water.blocks as i64;
            0
        }
        Err(refusal) => u32::from(refusal),
    }
}

// 0 when the sides are within the limits, else 1; `flux`, F, K, A and S, is written only for 0.
pub fn bassoonsun_face(hl: i64, ul: i64, hr: i64, ur: i64, flux: &mut [i64; 4]) -> u32
    ensures { FaceTold (face_given (side hl ul) (side hr ur)) result flux.old flux.new }
{
    let left = face::sides::Side { h: hl, u: ul };
    let right = face::sides::Side { h: hr, u: ur };
    match face::flux::face(left, right) {
        Some(carried) => {
            flux[0] = carried.f;
            flux[1] = carried.k;
            flux[2] = carried.a;
            flux[3] = carried.s;
            0
        }
        None => 1,
    }
}

// 0 for a flux (mass, pressure, advection, top speed), 1 when both sides are dry, 2 when refused;
// `flux` is written only for 0.
pub fn bassoonsun_face_double(hl: f64, ul: f64, hr: f64, ur: f64, flux: &mut [f64; 4]) -> u32
    ensures { DoubleTold hl ul hr ur result flux.old flux.new }
{
    let left = double::face::Side { h: hl, u: ul };
    let right = double::face::Side { h: hr, u: ur };
    match double::face::face(left, right) {
        Ok(Some(carried)) => {
            flux[0] = carried.mass;
            flux[1] = carried.pressure;
            flux[2] = carried.advection;
            flux[3] = carried.top;
            0
        }
        Ok(None) => 1,
        Err(_) => 2,
    }
}

// 0 when x has a root, else 1; `root` is written only for 0.
pub fn bassoonsun_root(x: f64, root: &mut [f64; 1]) -> u32
    ensures { RootTold x result root.old root.new }
{
    let Some(y) = root::root(x) else {
        return 1;
    };
    root[0] = y;
    0
}
