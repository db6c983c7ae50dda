// The water between two faces, of 96 reaches of twelve lengths: as they are, with a table of a wrong length, a bed or a
// level out of range, or numbers of any size. A line has the length of the reach and its fault; whether the sums were
// made; the water between four pairs of faces, by how many cells and blocks, or the refusal; what a step that keeps the
// sums answered; the water between the same faces of what `next` then holds; and the running sum of all that the calls
// may write, after each and beyond what was lent. What it must write comes from tests/reference/water.py.
#![tactic(auto)]

mod fill;
mod kinds;
mod show;

use draw::numbers::{above, below, drawn, pick};
use draw::sums::summed;
use draw::tables::fill_pattern;
use fill::{Table, fill_bed, fill_state, lent};
use kinds::{cells, fault_in};
use reach::answer::Answer;
use reach::{End, Given};
use show::{show_between, show_made, show_reach, show_step, show_sum};
use std::io;

// The faces of question j of a reach: its ends; about a block from either end; any in order; and any, or beyond it.
fn faces(r: u64, j: u64) -> (u32, u32) {
    let n = cells(r) as u64;
    let x = drawn(r, 7, j);
    let y = drawn(r, 8, j);
    let (a, b) = match j % 4 {
        0 => (0, n),
        1 => (above(x, 14, 3), below(y, n, (n / 2).min(17))),
        2 => (pick(x, n / 2), above(y, n / 2, n / 2)),
        _ => (pick(x, n.wrapping_add(2)), pick(y, n.wrapping_add(2))),
    };
    ((a % 0x1_0000_0000) as u32, (b % 0x1_0000_0000) as u32)
}

fn asked(rt: &impl Print, r: u64, state: &[i32], bed: &[i32], kept: &[i32]) -> io::Result<()> {
    for j in 0..4 {
        let (a, b) = faces(r, j);
        show_between(rt, a, b, sums::between(state, bed, kept, a, b))?;
    }
    Ok(())
}

// An inflow at the left and a wall at the right, cells of 1 m and 1/100 s.
fn stepped(
    state: &[i32],
    next: &mut [i32],
    bed: &[i32],
    friction: &[u16],
    kept: &mut [i32],
) -> Answer {
    let left = End { kind: 2, q: 300 };
    let right = End { kind: 0, q: 0 };
    let call = Given {
        dx: 4096,
        dt: 41,
        jump: 64,
        dry: 4,
        left,
        right,
    };
    sums::step(state, next, bed, friction, kept, call)
}

// The calls on what is lent of the tables; gives the running sum of all that the last two hold after each.
fn called(
    rt: &impl Print,
    r: u64,
    state: &[i32],
    bed: &[i32],
    friction: &[u16],
    next: &mut [i32],
    kept: &mut [i32],
) -> io::Result<u64> {
    let m = lent(Table::Next, r, next.len());
    let b = lent(Table::Sums, r, kept.len());
    show_made(rt, sums::make(state, bed, &mut kept[..b]))?;
    let made = summed(1, kept);
    asked(rt, r, state, bed, &kept[..b])?;
    show_step(
        rt,
        stepped(state, &mut next[..m], bed, friction, &mut kept[..b]),
    )?;
    asked(rt, r, &next[..m], bed, &kept[..b])?;
    Ok(summed(summed(made, next), kept))
}

// One reach. The tables are as long as the longest that are lent, and a little more.
fn reach(rt: &impl Print, r: u64) -> io::Result<()> {
    let n = cells(r);
    show_reach(rt, n, fault_in(r))?;
    let mut state = [0i32; 4104];
    fill_state(&mut state, r);
    let mut bed = [0i32; 1032];
    fill_bed(&mut bed, r);
    let friction = [30u16; 1032];
    let mut next = [0i32; 4104];
    fill_pattern(&mut next, drawn(r, 9, 0));
    let mut kept = [0i32; 72];
    fill_pattern(&mut kept, drawn(r, 10, 0));
    let a = lent(Table::State, r, 4104);
    let b = lent(Table::Bed, r, 1032);
    let sum = called(
        rt,
        r,
        &state[..a],
        &bed[..b],
        &friction[..n],
        &mut next,
        &mut kept,
    )?;
    show_sum(rt, sum)
}

fn main(rt: HostRuntime) -> io::Result<()> {
    for r in 0..96 {
        reach(&rt, r)?;
    }
    Ok(())
}
