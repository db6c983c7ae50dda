// The step over a stepped bed, on 576 reaches: over low sills and over ones that come out of the water, about as shallow
// as the dry depth is, over steps far higher than the water is deep, at the ends of the ranges, lakes, and with one fault
// or two. One step is made, or one after another until one is refused. A line has the length of the reach and how many
// steps were accepted; the water before them, what came in at the left, what went out at the right, and the water then;
// the refusal and its place, or that every number is as it was; and the running sum of the answers and of all that
// `next` held after each call. What it must write comes from tests/reference/sills.py.
#![tactic(auto)]

mod kinds;
mod numbers;

ghost use Rattle.std.specs.Prelude.{◌≤◌};

use draw::sums::{mixed, summed};
use draw::tables::{Table, narrow, put};
use kinds::{cells, drawn_cell, dry, dt, dx, has, roughness, times};
use numbers::drawn_apart;
use reach::answer::{Answer, Refusal, Refused, Volumes};
use sill::Given;
use std::io;

// What came of the steps of a reach: how many were accepted, what came in and went out, the refusal and its place, and
// the running sum.
#[derive(Clone, Copy)]
struct Tally {
    made: u64,
    came: i64,
    went: i64,
    refused: Option<Refused>,
    sum: u64,
}

impl Tally {
    fn told(self, answer: Answer) -> Tally {
        match answer {
            Ok(Volumes { first, last }) => Tally {
                made: self.made.wrapping_add(1),
                came: self.came.wrapping_add(first),
                went: self.went.wrapping_add(last),
                sum: mixed(mixed(self.sum, first.cast_unsigned()), last.cast_unsigned()),
                ..self
            },
            Err(refused) => Tally {
                refused: Some(refused),
                sum: mixed(
                    mixed(self.sum, u64::from(u32::from(refused.refusal))),
                    refused.place as u64,
                ),
                ..self
            },
        }
    }
}

// How long a table is for n cells.
fn right_length(table: Table, n: usize) -> usize
    requires { n ≤ 1025 }
{
    match table {
        Table::State | Table::Next => 2 * n,
        Table::Bed | Table::Friction => n,
    }
}

// One table of a length that is wrong by one, or all of them right for no cell or for 1,025.
fn spoilt_length(r: u64, table: Table, n: usize) -> usize
    requires { n ≤ 1025 }
{
    let x = drawn_apart(r, 11, 0) % 10;
    let spoilt = match x {
        0 | 1 => Table::State,
        2 | 3 => Table::Next,
        4 | 5 => Table::Bed,
        6 | 7 => Table::Friction,
        8 => return right_length(table, 0),
        _ => return right_length(table, 1025),
    };
    let right = right_length(table, n);
    if spoilt != table {
        right
    } else if x.is_multiple_of(2) {
        right.wrapping_sub(1)
    } else {
        right.wrapping_add(1)
    }
}

// How much of a table of m is lent.
fn lent(r: u64, table: Table, m: usize) -> usize
    ensures { result ≤ m }
{
    let n = cells(r);
    if has(r, Refusal::Lengths) {
        return spoilt_length(r, table, n).min(m);
    }
    right_length(table, n).min(m)
}

// Number k of a call: dx, dt, the dry depth and the kinds of the two ends. It is `right` where it has no fault.
fn given(r: u64, k: u64, right: u64) -> u32 {
    let x = drawn_apart(r, 12, 0) % 10;
    if has(r, Refusal::Numbers) && x / 2 == k {
        return [0u32, 1048577, 0, 4097, 0, 65, 2, 0xffff_ffff, 2, 3][x as usize];
    }
    (right % 0x1_0000_0000) as u32
}

fn fill(state: &mut [i32], bed: &mut [i32], friction: &mut [u16], r: u64) {
    let n = cells(r);
    for i in 0..n {
        let c = drawn_cell(r, i as u64);
        put(bed, i, narrow(c.z));
        put(state, i, narrow(c.e));
        put(state, n + i, narrow(c.q));
        put(friction, i, roughness(r, i as u64));
    }
}

// The water of n cells: the sum of their depths.
fn water(state: &[i32], bed: &[i32], n: usize) -> i64 {
    let mut water = 0i64;
    for (level, z) in state.iter().zip(bed).take(n) {
        water = water.wrapping_add(i64::from(*level) - i64::from(*z));
    }
    water
}

// A step on what is lent of the tables. What `next` has beyond that is summed too.
fn stepped(
    t: Tally,
    r: u64,
    state: &[i32],
    next: &mut [i32],
    bed: &[i32],
    friction: &[u16],
) -> Tally {
    let call = Given {
        dx: given(r, 0, dx(r)),
        dt: given(r, 1, dt(r)),
        dry: given(r, 2, dry(r)),
        left: given(r, 3, drawn_apart(r, 13, 0) % 2),
        right: given(r, 4, drawn_apart(r, 13, 1) % 2),
    };
    let a = lent(r, Table::State, state.len());
    let b = lent(r, Table::Next, next.len());
    let c = lent(r, Table::Bed, bed.len());
    let d = lent(r, Table::Friction, friction.len());
    let answer = sill::step(&state[..a], &mut next[..b], &bed[..c], &friction[..d], call);
    let u = t.told(answer);
    Tally {
        sum: summed(u.sum, next),
        ..u
    }
}

// A line of n cells: the water `before` the steps and `after` them, and whether the state is `still` as it was.
fn line(
    rt: &impl Print,
    n: usize,
    t: Tally,
    before: i64,
    after: i64,
    still: bool,
) -> io::Result<()> {
    print!(rt;
        "cells {n}, steps {}: {before} + {} - {} = {after}",
        t.made, t.came, t.went
    )?;
    match t.refused {
        Some(Refused { refusal, place }) => {
            print!(rt; ", refused {} at {place}", u32::from(refusal))?
        }
        None if still => print!(rt; ", as it was")?,
        None => {}
    }
    println!(rt; "; {:016x}", t.sum)
}

fn run(rt: &impl Print, r: u64) -> io::Result<()> {
    let n = cells(r);
    let a = lent(r, Table::State, 2056);
    let b = lent(r, Table::Next, 2056) + 8;
    let mut state = [0i32; 2064];
    let mut bed = [0i32; 1032];
    let mut friction = [0u16; 1032];
    fill(&mut state, &mut bed, &mut friction, r);
    let before = water(&state, &bed, n);
    let first = summed(1, &state[..a]);
    let mut t = Tally {
        made: 0,
        came: 0,
        went: 0,
        refused: None,
        sum: 1,
    };
    for i in 0..times(r) {
        // another number before each call, to be found again where it is refused
        let mut next = [narrow(drawn_apart(r, 14, i) >> 17); 2064];
        t = stepped(t, r, &state, &mut next[..b], &bed, &friction);
        if t.refused.is_some() {
            break;
        }
        state = next;
    }
    let after = water(&state, &bed, n);
    line(rt, n, t, before, after, summed(1, &state[..a]) == first)
}

fn main(rt: HostRuntime) -> io::Result<()> {
    for r in 0..576 {
        run(&rt, r)?;
    }
    Ok(())
}
