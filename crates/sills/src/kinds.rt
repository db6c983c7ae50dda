// What a reach is drawn from: its number r, from which its length, its kind, its faults and each cell follow.
ghost use Rattle.std.specs.Prelude.{◌≤◌};

use crate::numbers::{drawn_apart, either_way, ranging};
use draw::numbers::turned;
use reach::answer::Refusal;

const MINUS_ONE: u64 = u64::MAX; // the 64 bits of -1

// Bed, level and discharge, as 64 bits each.
#[derive(Clone, Copy)]
pub struct Cell {
    pub z: u64,
    pub e: u64,
    pub q: u64,
}

fn over(z: u64, h: u64, q: u64) -> Cell {
    Cell {
        z,
        e: z.wrapping_add(h),
        q,
    }
}

pub fn cells(r: u64) -> usize
    ensures { result ≤ 1024 }
{
    match r % 16 {
        0..=2 => 1,
        3..=4 => 2,
        5..=6 => 3,
        7 => 4,
        8 => 8,
        9 => 16,
        10 => 17,
        11 => 33,
        // the longest that is worked on short tables, and one more
        12..=13 => 128,
        14 => 129,
        _ => 1024,
    }
}

// To 11 one step over sills, and from 12 to 14 many; 15 and 16 a step at the ends of the ranges; from 17 to 19 lakes,
// for many steps; and from 20 on a step over sills with faults.
fn kind(r: u64) -> u64 {
    r / 16
}

// Has a reach the fault that is refused so? From kind 20 on each has one, and half of them another, so that the order of
// the refusals is tried. One in a stage is only made likely.
pub fn has(r: u64, refusal: Refusal) -> bool {
    let number = u64::from(u32::from(refusal));
    19 < kind(r) && (kind(r) % 8 + 1 == number || drawn_apart(r, 1, 0) % 16 + 1 == number)
}

// Is cell i at fault? The first is, the last or any, and in a third of the reaches the last besides, so that the lowest
// has to be told.
fn at_fault(r: u64, i: u64) -> bool {
    let last = (cells(r) as u64).wrapping_sub(1);
    let x = drawn_apart(r, 2, 0);
    i == [0, last, ranging(x, 0, last)][(x % 3) as usize] || (r % 3 == 0 && i == last)
}

fn many(r: u64) -> bool {
    matches!(kind(r), 12..=14 | 17..=19)
}

// How many steps are made, as long as none is refused.
pub fn times(r: u64) -> u64 {
    if !many(r) {
        return 1;
    }
    if cells(r) < 34 { 300 } else { 8 }
}

pub fn dry(r: u64) -> u64 {
    ranging(drawn_apart(r, 3, 0), 1, 63)
}

pub fn dx(r: u64) -> u64 {
    let x = drawn_apart(r, 4, 0);
    if 11 < kind(r) || x % 4 != 0 {
        return 4096;
    }
    ranging(x, 1, 255 << ((x >> 8) % 13))
}

pub fn dt(r: u64) -> u64 {
    let x = drawn_apart(r, 5, 0);
    if many(r) {
        return ranging(x, 1, 300);
    }
    if has(r, Refusal::TimeStep) || kind(r) < 12 {
        return ranging(x, 1, [200u64, 400, 800, 4095][(x % 4) as usize]);
    }
    ranging(x, 1, 30)
}

pub fn roughness(r: u64, i: u64) -> u16 {
    let x = drawn_apart(r, 6, i);
    if has(r, Refusal::Friction) && at_fault(r, i) {
        return [201u16, 256, 65535][(x % 3) as usize];
    }
    (ranging(x, 0, [0u64, 1, 60, 200][(r % 4) as usize]) % 65536) as u16
}

// About one level over a floor with sills: low ones, ones that come out of the water, water about as shallow as the dry
// depth is, and steps far higher than the water is deep. It runs at up to 1/16, 1/4, 1 or 4 m/s.
fn sills(r: u64, i: u64) -> Cell {
    let (rise, depth, more) = match kind(r) % 4 {
        0 => (900u64, 3000u64, 400u64),
        1 => (6000, 3000, 400),
        2 => (90, 10, 80),
        _ => (90000, 0, 9000),
    };
    let floor = ranging(drawn_apart(r, 7, 5000), 0, 900000);
    let x = drawn_apart(r, 7, i);
    let z = ranging(x, floor, rise >> (x % 4 * 6));
    let level = ranging(drawn_apart(r, 8, i), floor.wrapping_add(depth), more);
    if has(r, Refusal::Stage) && i % 3 == 1 {
        // water without a speed that any push makes too much, if it is not dried
        return over(z, ranging(x, 0, dry(r)), turned(8388608, x >> 8));
    }
    // a level below the bed leaves it dry
    let h = level.saturating_sub(z);
    let fast = drawn_apart(r, 9, 5000) % 4 * 2;
    over(z, h, either_way(drawn_apart(r, 9, i), (h << fast) >> 4))
}

// Pools of seven cells, with islands, each of its own level between walls that are dry.
fn lake(r: u64, i: u64) -> Cell {
    let low = if i % 8 == 7 { 8001 } else { 0 };
    let z = ranging(drawn_apart(r, 7, i), low, 9000);
    let level = ranging(drawn_apart(r, 8, i / 8), 2001, 6000);
    over(z, level.saturating_sub(z), 0)
}

// At the ends of the ranges, with the greatest speed, or the greatest discharge where there is none.
fn limits(r: u64, i: u64) -> Cell {
    let x = drawn_apart(r, 7, i);
    let z = [0u64, 1, 1048575, 1048576][(x % 4) as usize];
    let h = [0u64, 1, 262143, 262144][((x >> 2) % 4) as usize];
    let q = if h < 2 { 8388608 } else { h << 5 };
    over(z, h, turned([0, q][((x >> 4) % 2) as usize], x >> 5))
}

fn sound(r: u64, i: u64) -> Cell {
    match kind(r) {
        15..=16 => limits(r, i),
        17..=19 => lake(r, i),
        _ if has(r, Refusal::Stage) && r.is_multiple_of(2) => limits(r, i),
        _ => sills(r, i),
    }
}

// A depth or a discharge just out of range, or as wide as an i32.
fn beyond(z: u64, x: u64) -> Cell {
    match x % 6 {
        0 => over(z, MINUS_ONE, 0),
        1 => over(z, 262145, 0),
        2..=3 => over(z, 262144, turned(8388609, x)),
        4 => over(z, 0, 0x7fff_ffff),
        _ => over(z, 0xffff_ffff_8000_0000u64.wrapping_sub(z), 0),
    }
}

// Cell i of the reach r, with its faults.
pub fn drawn_cell(r: u64, i: u64) -> Cell {
    let mut c = sound(r, i);
    if !at_fault(r, i) {
        return c;
    }
    let x = drawn_apart(r, 10, 0);
    if has(r, Refusal::Speed) {
        let h = ranging(x, 65, 3000);
        c = over(c.z, h, turned((h << 5).wrapping_add(1), x));
    }
    if has(r, Refusal::State) {
        c = beyond(c.z, x);
    }
    if has(r, Refusal::Bed) {
        c.z = [MINUS_ONE, 1048577, 0x7fff_ffff, 0xffff_ffff_8000_0000][(x % 4) as usize];
    }
    c
}
