// The library's exports: each call of include/bassoonsun.h hands its numbers and tables to the function of its name, with
// the same promise.
#![tactic(auto)]

ghost use Rattle.std.specs.Prelude.{◌≡◌, ◌≤◌, length};
ghost use Rattle.rules.specs.Limits.{most_cells};
ghost use Rattle.rules.specs.Lent.{step_of};
ghost use Rattle.rules.specs.Sums.{making_of, between_of};
ghost use Rattle.sill_rules.specs.Lent as sills;
ghost use Rattle.face.specs.Given.{side, face_given};
ghost use Rattle.step.specs.Gives.{end, lend, placed};
ghost use Rattle.editor.specs.Told.{sill_lend, given_by, AnswerTold, StepTold, KeepingTold, MakingTold, QuestionTold};
ghost use Rattle.editor.specs.Told.{FaceTold, DoubleTold, RootTold};

// 0 when the step is accepted, else the refusal's number; `volumes`, W at face 0 and at face n, is
// written only when it is accepted, `place` in either case: 0, or the refusal's place.
#[unsafe(no_mangle)]
pub extern "C" fn bassoonsun_step(
    state: &[i32],
    next: &mut [i32],
    bed: &[i32],
    friction: &[u16],
    dx: u32,
    dt: u32,
    jump: u32,
    dry: u32,
    left: u32,
    right: u32,
    left_q: u32,
    right_q: u32,
    volumes: &mut [i64; 2],
    place: &mut [u32; 1],
) -> u32
    ensures { StepTold
        (step_of (lend state.now (length next.old) bed.now friction.now
        dx dt jump dry (end left left_q) (end right right_q)))
        result next.old next.new volumes.old volumes.new
        place.old place.new }
{
    editor::bassoonsun_step(
        state, next, bed, friction, dx, dt, jump, dry, left, right, left_q, right_q, volumes, place,
    )
}

// The same step, which also leaves the sums of the new state in `sums` when it is accepted.
#[unsafe(no_mangle)]
pub extern "C" fn bassoonsun_step_sums(
    state: &[i32],
    next: &mut [i32],
    bed: &[i32],
    friction: &[u16],
    sums: &mut [i32],
    dx: u32,
    dt: u32,
    jump: u32,
    dry: u32,
    left: u32,
    right: u32,
    left_q: u32,
    right_q: u32,
    volumes: &mut [i64; 2],
    place: &mut [u32; 1],
) -> u32
    ensures { KeepingTold
        (lend state.now (length next.old) bed.now friction.now
        dx dt jump dry (end left left_q) (end right right_q))
        result next.old next.new sums.old sums.new
        volumes.old volumes.new place.old place.new }
{
    editor::bassoonsun_step_sums(
        state, next, bed, friction, sums, dx, dt, jump, dry, left, right, left_q, right_q, volumes,
        place,
    )
}

// The same over a stepped bed: 0 when the step is accepted, else the refusal's number; `volumes`, V at face 0
// and at face n, is written only when it is accepted, `place` in either case.
#[unsafe(no_mangle)]
pub extern "C" fn bassoonsun_sill_step(
    state: &[i32],
    next: &mut [i32],
    bed: &[i32],
    friction: &[u16],
    dx: u32,
    dt: u32,
    dry: u32,
    left: u32,
    right: u32,
    volumes: &mut [i64; 2],
    place: &mut [u32; 1],
) -> u32
    ensures { StepTold
        (sills.step_of (sill_lend state.now (length next.old) bed.now friction.now
        dx dt dry left right))
        result next.old next.new volumes.old volumes.new
        place.old place.new }
{
    editor::bassoonsun_sill_step(
        state, next, bed, friction, dx, dt, dry, left, right, volumes, place,
    )
}

// 0 when all of the sums are filled, else the refusal's number; they are then as they were.
#[unsafe(no_mangle)]
pub extern "C" fn bassoonsun_sums(state: &[i32], bed: &[i32], sums: &mut [i32]) -> u32
    ensures { MakingTold
        (making_of bed.now state.now (length sums.old))
        result sums.old sums.new }
{
    editor::bassoonsun_sums(state, bed, sums)
}

// 0 when the question is answered, else the refusal's number; `answer`, the water, the cells and the
// blocks that were read, is written only for 0.
#[unsafe(no_mangle)]
pub extern "C" fn bassoonsun_between(
    state: &[i32],
    bed: &[i32],
    sums: &[i32],
    a: u32,
    b: u32,
    answer: &mut [i64; 3],
) -> u32
    ensures { QuestionTold
        (between_of bed.now state.now sums.now a b)
        result answer.old answer.new }
{
    editor::bassoonsun_between(state, bed, sums, a, b, answer)
}

// 0 when the sides are within the limits, else 1; `flux`, F, K, A and S, is written only for 0.
#[unsafe(no_mangle)]
pub extern "C" fn bassoonsun_face(hl: i64, ul: i64, hr: i64, ur: i64, flux: &mut [i64; 4]) -> u32
    ensures { FaceTold (face_given (side hl ul) (side hr ur)) result flux.old flux.new }
{
    editor::bassoonsun_face(hl, ul, hr, ur, flux)
}

// 0 for a flux (mass, pressure, advection, top speed), 1 when both sides are dry, 2 when refused;
// `flux` is written only for 0.
#[unsafe(no_mangle)]
pub extern "C" fn bassoonsun_face_double(
    hl: f64,
    ul: f64,
    hr: f64,
    ur: f64,
    flux: &mut [f64; 4],
) -> u32
    ensures { DoubleTold hl ul hr ur result flux.old flux.new }
{
    editor::bassoonsun_face_double(hl, ul, hr, ur, flux)
}

// 0 when x has a root, else 1; `root` is written only for 0.
#[unsafe(no_mangle)]
pub extern "C" fn bassoonsun_root(x: f64, root: &mut [f64; 1]) -> u32
    ensures { RootTold x result root.old root.new }
{
    editor::bassoonsun_root(x, root)
}
