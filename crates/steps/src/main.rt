// The step over 100 blocks of 200 calls that are hard: dry depths of the whole list, cells about as
// deep and dry ones, steep beds, jumps, speeds, depths and discharges at their limits, ends of every
// kind with inflows of the whole list, a dt that closes in on the longest accepted, and faults. A line
// gives how many calls of a block were accepted, how many were refused with each number from 1 to 8,
// and the running sum of the numbers and places, the volumes and all that `next` held after each call. What it
// must write comes from tests/reference/steps.py.
#![tactic(auto)]

mod ends;
mod fill;
mod kinds;
mod spoil;

use draw::numbers::{SEED, above, following, pick};
use draw::sums::{mixed, summed};
use draw::tables::{Table, fill_pattern};
use ends::{Side, end};
use kinds::{cells, dry, seed};
use reach::answer::{Answer, Refusal, Refused, Volumes};
use spoil::{Number, given, lent, ready, ready_bed, ready_friction, second, third};
use std::io;
use step::Given;

// Where a block has come to: what the last call was drawn from, its refusal, if there was one, and the
// running sum; and the reach, which is tried again with another dt while tries are left: `low` is the longest
// that was accepted, `high` the shortest that was not.
#[derive(Clone, Copy)]
struct Turn {
    x: u64,
    refusal: Option<Refusal>,
    sum: u64,
    reach: u64,
    tries: u64,
    low: Option<u64>,
    high: Option<u64>,
}

impl Turn {
    // The next call, on another reach where no tries are left.
    fn begun(self) -> Turn {
        let x = following(self.x);
        if self.tries != 0 {
            return Turn { x, ..self };
        }
        Turn {
            x,
            reach: x,
            tries: times(x),
            low: None,
            high: None,
            ..self
        }
    }

    // The first of a reach, a far shorter dt until one is accepted, then the one halfway between the
    // longest that was accepted and the shortest that was not.
    fn dt(self) -> u64 {
        match (self.low, self.high) {
            (None, None) => first_dt(following(seed(self.reach))),
            (None, Some(high)) if 16 < high => high >> 4,
            (None, Some(high)) => high >> 1,
            // no dt beyond 4096 is ever accepted
            (Some(low), high) => low.wrapping_add(high.unwrap_or(4097)) >> 1,
        }
    }

    // One call, with its answer and the sum after it.
    fn called(self, state: &[i32], next: &mut [i32]) -> Turn {
        fill_pattern(next, second(self.x));
        let answer = answer(self.x, self.reach, self.dt(), state, next);
        Turn {
            refusal: answer.err().map(|refused| refused.refusal),
            sum: summed(told(self.sum, answer), next),
            ..self
        }
    }

    // What an answer leaves to be tried.
    fn ended(self) -> Turn {
        let tried = self.dt();
        let u = if self.refusal.is_none() {
            Turn {
                low: Some(tried),
                ..self
            }
        } else {
            Turn {
                high: Some(tried),
                ..self
            }
        };
        // none is left between the two, or below the shortest
        let tries = if u.dt() == u.low.unwrap_or(0) {
            0
        } else {
            tries_left(u.tries, u.refusal)
        };
        Turn { tries, ..u }
    }

    // A call more: on the same reach with another dt, or on another reach.
    fn another(self, state: &mut [i32]) -> Turn {
        let u = self.begun();
        ready(state, u.reach, self.tries, u.x);
        // some numbers of `next` beyond the lent part too
        let m = 8 + lent(Table::Next, u.reach, 4096, u.x);
        let mut next = [0i32; 4104];
        u.called(state, &mut next[..m]).ended()
    }
}

// Short ones mostly, as a long one is refused in nearly every reach.
fn first_dt(x: u64) -> u64 {
    match x % 8 {
        0..=1 => 1,
        2..=4 => above(x, 1, 19),
        5 => above(x, 1, 199),
        6 => above(x, 1, 4095),
        _ => 4096,
    }
}

fn times(reach: u64) -> u64 {
    let k = (second(seed(reach)) >> 8) % 4;
    if 16 < cells(reach) {
        1
    } else {
        [1u64, 3, 6, 14][k as usize]
    }
}

// Fewer tries are left. One is enough where no dt helps: a fault, or a state out of range.
fn tries_left(tries: u64, refusal: Option<Refusal>) -> u64 {
    match refusal {
        None | Some(Refusal::TimeStep | Refusal::Stage) => tries.saturating_sub(1),
        // in stage two a shorter dt helps, before it none does
        Some(Refusal::Speed) => tries >> 1,
        Some(_) => 0,
    }
}

fn dx(reach: u64) -> u64 {
    let a = following(seed(reach));
    1u64.wrapping_add(pick(a, 255 << (following(a) % 12)))
}

fn jump(x: u64) -> u64 {
    match x % 8 {
        0..=1 => 0,
        2 => 1,
        3 => pick(x, 10),
        4 => pick(x, 50),
        5 => pick(x, 3000),
        6 => pick(x, 262144),
        _ => 262144,
    }
}

// The step, on the parts of the tables that are lent.
fn made(
    x: u64,
    r: u64,
    dt: u64,
    state: &[i32],
    next: &mut [i32],
    bed: &[i32],
    friction: &[u16],
) -> Answer {
    let left = end(Side::Left, x, cells(r), state, bed);
    let right = end(Side::Right, x, cells(r), state, bed);
    let call = Given {
        dx: given(Number::Dx, dx(r), x),
        dt: given(Number::Dt, dt, x),
        jump: given(Number::Jump, jump(third(x)), x),
        dry: given(Number::Dry, dry(r), x),
        left,
        right,
    };
    step::step(state, next, bed, friction, call)
}

// The answer to the call drawn from x, with as much of each table lent as its faults leave.
fn answer(x: u64, r: u64, dt: u64, state: &[i32], next: &mut [i32]) -> Answer {
    // as long as the longest table that is lent, one with 1,025 cells, and a little more
    let mut bed = [0i32; 1032];
    ready_bed(&mut bed, r, x);
    let mut friction = [0u16; 1032];
    ready_friction(&mut friction, r, x);
    let a = lent(Table::State, r, state.len(), x);
    let b = lent(Table::Next, r, next.len(), x);
    let c = lent(Table::Bed, r, 1032, x);
    let d = lent(Table::Friction, r, 1032, x);
    made(
        x,
        r,
        dt,
        &state[..a],
        &mut next[..b],
        &bed[..c],
        &friction[..d],
    )
}

fn told(sum: u64, answer: Answer) -> u64 {
    match answer {
        Ok(Volumes { first, last }) => mixed(
            mixed(mixed(sum, 0), first.cast_unsigned()),
            last.cast_unsigned(),
        ),
        Err(Refused { refusal, place }) => {
            mixed(mixed(sum, u64::from(u32::from(refusal))), place as u64)
        }
    }
}

// How many calls were accepted, and how many refused with each number.
fn count(counts: &mut [u64; 9], refusal: Option<Refusal>) {
    let k = refusal.map_or(0, u32::from);
    if let Some(count) = counts.get_mut(k as usize) {
        *count = count.wrapping_add(1);
    }
}

fn show_counts(rt: &impl Print, counts: &[u64; 9]) -> io::Result<()> {
    for n in counts {
        print!(rt; " {n}")?;
    }
    Ok(())
}

fn line(rt: &impl Print, block: u64, counts: &[u64; 9], sum: u64) -> io::Result<()> {
    print!(rt; "steps {block}")?;
    show_counts(rt, counts)?;
    println!(rt; " {sum:016x}")
}

fn run(rt: &impl Print, block: u64) -> io::Result<()> {
    let mut t = Turn {
        x: SEED ^ (block << 32),
        refusal: None,
        sum: 1,
        reach: 0,
        tries: 0,
        low: None,
        high: None,
    };
    let mut counts = [0u64; 9];
    // kept from call to call, as a reach is tried again with what was spoilt in it; a spoilt bed or
    // friction ends its reach, so those are made anew
    let mut state = [0i32; 4112];
    for _ in 0..200 {
        t = t.another(&mut state);
        count(&mut counts, t.refusal);
    }
    line(rt, block, &counts, t.sum)
}

fn main(rt: HostRuntime) -> io::Result<()> {
    for block in 0..100 {
        run(&rt, block)?;
    }
    Ok(())
}
