// What a reach is drawn from: its number r, from which its length, its fault and each number of its tables follow.
ghost use Rattle.std.specs.Prelude.{◌≤◌};

use draw::cell::{Cell, over};
use draw::numbers::{above, drawn, either, pick};

// About one block, two and three, so that the last is whole, or short by one cell or by all but one; and about
// the most cells.
pub fn cells(r: u64) -> usize
    ensures { result ≤ 1024 }
{
    match r % 12 {
        0 => 1,
        1 => 2,
        2 => 15,
        3 => 16,
        4 => 17,
        5 => 31,
        6 => 32,
        7 => 33,
        8 => 48,
        9 => 129,
        10 => 1023,
        _ => 1024,
    }
}

// What is wrong with a reach, by the number that is written of it.
#[derive(Clone, Copy, Debug, PartialEq, Eq)]
pub enum Fault {
    SumsShort = 1,
    SumsLong = 2,
    StateShort = 3,
    BedLong = 4,
    OddBed = 5,
    LowLevel = 6,
    // the numbers of the state and the bed are of any size
    AnyNumbers = 7,
}

pub fn fault_in(r: u64) -> Option<Fault> {
    match r / 12 % 8 {
        1 => Some(Fault::SumsShort),
        2 => Some(Fault::SumsLong),
        3 => Some(Fault::StateShort),
        4 => Some(Fault::BedLong),
        5 => Some(Fault::OddBed),
        6 => Some(Fault::LowLevel),
        7 => Some(Fault::AnyNumbers),
        _ => None,
    }
}

fn has(r: u64, one: Fault) -> bool {
    fault_in(r) == Some(one)
}

// Where a fault is among n: the first, the last or any.
fn place(r: u64) -> u64 {
    let n = cells(r) as u64;
    let x = drawn(r, 1, 0);
    match x % 3 {
        0 => 0,
        1 => n.wrapping_sub(1),
        _ => pick(x, n.wrapping_sub(1)),
    }
}

// Any number of an i32, many of them as wide as there are.
fn any(x: u64) -> u64 {
    match x % 8 {
        0 => 0xffff_ffff_8000_0000,
        1 => 0x7fff_ffff,
        2 => 1u64.wrapping_neg(),
        3 => 3u64.wrapping_neg(),
        _ => either(x, 0x3fff_ffff),
    }
}

// Half of the bed at face i, where the bed is even.
fn half_bed(r: u64, i: u64) -> u64 {
    pick(drawn(r, 2, i), 200)
}

// The bed at face i.
pub fn face(r: u64, i: u64) -> u64 {
    if has(r, Fault::AnyNumbers) {
        return any(drawn(r, 2, i));
    }
    let z = half_bed(r, i) << 1;
    if has(r, Fault::OddBed) && i == place(r) {
        z | 1
    } else {
        z
    }
}

// The cell of mean depth h0, slope h1 and discharge q0 between faces i and i + 1.
fn even_cell(r: u64, i: u64, h0: u64, h1: u64, q0: u64) -> Cell {
    let zl = half_bed(r, i);
    let zr = half_bed(r, i.wrapping_add(1));
    over(zl, zr, h0, h1, q0, 0)
}

// Cell i of the state.
pub fn drawn_cell(r: u64, i: u64) -> Cell {
    if has(r, Fault::AnyNumbers) {
        return Cell {
            e0: any(drawn(r, 3, i)),
            e1: any(drawn(r, 4, i)),
            q0: any(drawn(r, 5, i)),
            q1: any(drawn(r, 6, i)),
        };
    }
    if has(r, Fault::LowLevel) && i == place(r) {
        return even_cell(r, i, 1u64.wrapping_neg(), 0, 0);
    }
    even_cell(
        r,
        i,
        above(drawn(r, 3, i), 1500, 3000),
        either(drawn(r, 4, i), 60),
        either(drawn(r, 5, i), 300),
    )
}
