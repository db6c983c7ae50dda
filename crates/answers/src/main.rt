// Answers of the step at the edges of its checks: the scope document's own cases, each refusal by each
// check that gives it and at each kind of place, calls to which two refusals apply, where the first in order is the answer, water
// beside a bank, where slopes are spared, thin water, with a dry depth other than 4 in each rule
// that reads it, and an inflow at either end. A line gives the number and the place or the volumes, and what
// `next` holds after the call: -77 where it is as it was. The cases are in the file stdin, which says how to read
// them. What it must write comes from tests/reference/answers.py.
#![tactic(auto)]

mod read;
mod show;

use reach::answer::Answer;
use read::{fill, fill_friction, fill_state, given, lent, take_line};
use show::line_of;
use std::io;
use std::io::Read;
use step::{End, Given};

fn called(line: &[u8], state: &[i32], next: &mut [i32], bed: &[i32], friction: &[u16]) -> Answer {
    let left = End {
        kind: given(line, 4),
        q: given(line, 6),
    };
    let right = End {
        kind: given(line, 5),
        q: given(line, 7),
    };
    let call = Given {
        dx: given(line, 0),
        dt: given(line, 1),
        jump: given(line, 2),
        dry: given(line, 3),
        left,
        right,
    };
    step::step(state, next, bed, friction, call)
}

// The answer to a case, with as much of each table lent as it says.
fn answer(line: &[u8], next: &mut [i32]) -> Answer {
    let a = lent(line, 0, 4100);
    let b = lent(line, 1, next.len());
    let c = lent(line, 2, 1026);
    let n = lent(line, 3, 1025);
    let mut state = [0i32; 4100];
    fill_state(&mut state, line, n);
    let mut bed = [0i32; 1026];
    fill(&mut bed, line, 5);
    let mut friction = [0u16; 1025];
    fill_friction(&mut friction, line);
    called(line, &state[..a], &mut next[..b], &bed[..c], &friction[..n])
}

fn case(rt: &impl Print, line: &[u8]) -> io::Result<()> {
    let mut next = [-77i32; 4100];
    let a = answer(line, &mut next);
    let n = lent(line, 4, 4100);
    line_of(rt, line, a, &next[..n])
}

// The next line of the cases; a remark has no case.
fn one(rt: &impl Print, input: &mut impl Read) -> io::Result<()> {
    let mut line = [0u8; 192];
    let n = take_line(input, &mut line)?;
    if 0 < n && line[0] != b'#' {
        case(rt, &line[..n])?;
    }
    Ok(())
}

fn main(rt: HostRuntime) -> io::Result<()> {
    let mut input = rt.reader();
    // as many lines as the file has, and more
    for _ in 0u64..1000 {
        one(&rt, &mut input)?;
    }
    Ok(())
}
