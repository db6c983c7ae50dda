// Faults, one or two in a call, so that the order of the refusals is tried too.
ghost use Rattle.std.specs.Prelude.{◌≤◌};

use crate::fill::{fill_bed, fill_friction, fill_state, found};
use crate::kinds::{cells, dry};
use draw::cell::{Cell, over, put_cell};
use draw::numbers::{above, following, pick, turned};
use draw::tables::{Table, narrow, put};

// The faults that a call may have, as the bits of a set, since a call may have two. An enum would be no plainer: each
// would still need its bit.
const LENGTHS: u64 = 1;

const NUMBERS: u64 = 2;

const BED: u64 = 4;

const FRICTION: u64 = 8;

const STATE: u64 = 16;

// Has a call this fault? In most calls there is none, else one or two.
fn has(x: u64, fault: u64) -> bool {
    let a = following(x);
    let faults = (1 << ((a >> 3) % 5)) | (1 << ((a >> 8) % 16));
    a.is_multiple_of(12) && faults & fault != 0
}

// What a call that is drawn from x draws the numbers in its tables from.
pub fn second(x: u64) -> u64 {
    following(following(x))
}

// What it draws its lengths and the numbers beside the tables from.
pub fn third(x: u64) -> u64 {
    following(second(x))
}

// How long a table is for n cells.
fn right_length(table: Table, n: usize) -> usize
    requires { n ≤ 1025 }
{
    match table {
        Table::State | Table::Next => 4 * n,
        Table::Bed => n + 1,
        Table::Friction => n,
    }
}

// A length that is wrong by one or by more, or none.
fn wrong_length(a: usize, x: u64) -> usize {
    match x % 8 {
        0..=2 => a.wrapping_sub(1),
        3..=5 => a.wrapping_add(1),
        6 => a.wrapping_add(4),
        _ => 0,
    }
}

// One table of a wrong length, or all of them right for no cell or for 1,025.
fn spoilt_length(table: Table, n: usize, x: u64) -> usize
    requires { n ≤ 1025 }
{
    let spoilt = match x % 8 {
        0 | 1 => Table::State,
        2 | 3 => Table::Next,
        4 => Table::Bed,
        5 => Table::Friction,
        6 => return right_length(table, 0),
        _ => return right_length(table, 1025),
    };
    let right = right_length(table, n);
    if spoilt == table {
        wrong_length(right, x >> 3)
    } else {
        right
    }
}

// How much of a table, which has m, is lent of the reach r.
pub fn lent(table: Table, r: u64, m: usize, x: u64) -> usize
    ensures { result ≤ m }
{
    let n = cells(r);
    if has(x, LENGTHS) {
        return spoilt_length(table, n, third(x)).min(m);
    }
    right_length(table, n).min(m)
}

// The numbers beside the tables.
#[derive(Clone, Copy, Debug, PartialEq, Eq)]
pub enum Number {
    Dx,
    Dt,
    Jump,
    Dry,
    LeftKind,
    RightKind,
    LeftQ,
    RightQ,
}

// A number, and what it may wrongly be: outside its list, just or by much, or a Q where none belongs.
fn wrong_number(x: u64) -> (Number, u64) {
    let (number, just, much) = match x % 13 {
        0 => (Number::Dx, 0, 0),
        1 => (Number::Dx, 1048577, 0x8000_0000),
        2 => (Number::Dt, 0, 0),
        3 => (Number::Dt, 4097, 65536),
        4 => (Number::Jump, 262145, 0xffff_ffff),
        5 => (Number::Dry, 0, 260),
        6 => (Number::Dry, 65, 0xffff_ffff),
        7 => (Number::LeftKind, 3, 0x8000_0002),
        8 => (Number::RightKind, 3, 0xffff_ffff),
        9 => (Number::LeftQ, 8388609, 0xffff_ffff),
        10 => (Number::RightQ, 8388609, 0x8000_0000),
        11 => (Number::LeftQ, 1, 4096),
        _ => (Number::RightQ, 1, 8388608),
    };
    (number, if x & 8 == 0 { just } else { much })
}

// What a call is given as one of its numbers; it is `right` where that number has no fault.
pub fn given(number: Number, right: u64, x: u64) -> u32 {
    let (spoilt, wrong) = wrong_number(third(x) >> 10);
    let g = if has(x, NUMBERS) && spoilt == number {
        wrong
    } else {
        right
    };
    (g % 0x1_0000_0000) as u32
}

// A bed value that is odd or out of range; z is half of what it was.
fn wrong_bed(z: u64, x: u64) -> u64 {
    match x % 8 {
        0 => 2u64.wrapping_neg(),
        1 => 1048575,
        2 => 1048578,
        3 => 1048577,
        4 => 0xffff_ffff_8000_0000,
        5 => 0x7fff_ffff,
        _ => (z << 1) | 1,
    }
}

// Where a call has a fault in a table of n and one more: the first, the last or any.
fn place(fault: u64, n: usize, x: u64) -> Option<usize> {
    if !has(x, fault) {
        return None;
    }
    let y = second(x) >> 3;
    Some(match y % 4 {
        0 => 0,
        1 => n,
        _ => pick(y, n as u64) as usize,
    })
}

// The bed of a call, with its fault.
pub fn ready_bed(bed: &mut [i32], r: u64, x: u64) {
    fill_bed(bed, r);
    if let Some(i) = place(BED, cells(r), x) {
        put(bed, i, narrow(wrong_bed(found(bed, i), second(x))));
    }
}

fn wrong_friction(x: u64) -> u16 {
    match x % 4 {
        0 => 65535,
        1 => 256,
        _ => 201,
    }
}

pub fn ready_friction(friction: &mut [u16], r: u64, x: u64) {
    fill_friction(friction, r);
    if let Some(i) = place(FRICTION, cells(r).wrapping_sub(1), x) {
        put(friction, i, wrong_friction(second(x)));
    }
}

// A cell with one face depth or discharge just out of range, or a number as wide as an i32.
fn wrong_cell(zl: u64, zr: u64, x: u64) -> Cell {
    let h = above(x, 8, 3000);
    match x % 8 {
        0..=1 => over(zl, zr, h, turned(h.wrapping_add(1), x), 0, 0),
        2 => over(zl, zr, 262136, turned(9, x >> 3), 0, 0),
        3 => over(zl, zr, 1u64.wrapping_neg(), 0, 0, 0),
        4 => over(zl, zr, 262144, 0, turned(8388609, x >> 3), 0),
        5 => over(
            zl,
            zr,
            262144,
            0,
            turned(8388600, x >> 3),
            turned(9, x >> 4),
        ),
        6 => over(
            zl,
            zr,
            0xffff_ffff_8000_0000u64.wrapping_sub(zl.wrapping_add(zr)),
            0,
            0,
            0,
        ),
        _ => over(zl, zr, h, 0, 0x7fff_ffff, 0x7fff_ffff),
    }
}

// A cell that is in range and has a speed over the limit: its mean, a face, or a Gauss point alone.
fn racing_cell(dry: u64, zl: u64, zr: u64, x: u64) -> Cell {
    let h = above(x, dry.wrapping_add(4), 3000);
    let fast = (h << 5).wrapping_sub(h);
    // as steep as leaves the shallow face at the dry depth, where it has no speed
    let steep = h.wrapping_sub(dry);
    match x % 4 {
        0 => over(zl, zr, h, 0, turned((h << 5).wrapping_add(1), x >> 3), 0),
        1 => over(zl, zr, h, steep.wrapping_sub(1), fast, 0),
        2 => over(zl, zr, h, 0, h << 4, (h << 4).wrapping_add(h)),
        _ => over(zl, zr, h, steep, turned(fast, x >> 3), 0),
    }
}

fn spoilt_cell(dry: u64, zl: u64, zr: u64, x: u64) -> Cell {
    if (x >> 32) % 2 == 0 {
        wrong_cell(zl, zr, x)
    } else {
        racing_cell(dry, zl, zr, x)
    }
}

fn spoil_state(state: &mut [i32], bed: &[i32], r: u64, x: u64) {
    let n = cells(r);
    if let Some(i) = place(STATE, n.wrapping_sub(1), x) {
        let zl = found(bed, i);
        let zr = found(bed, i.wrapping_add(1));
        put_cell(state, n, i, spoilt_cell(dry(r), zl, zr, second(x)));
    }
}

// The state of a call: of another reach where no tries are left of the last, and with its fault.
pub fn ready(state: &mut [i32], r: u64, tries: u64, x: u64) {
    let mut bed = [0i32; 1025];
    fill_bed(&mut bed, r);
    if tries == 0 {
        fill_state(state, &bed, r);
    }
    spoil_state(state, &bed, r, x);
}
