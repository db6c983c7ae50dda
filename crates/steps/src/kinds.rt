// What a reach is drawn from: one number, from which each of its kinds follows, and one face of its bed
// or one cell of its state.
ghost use Rattle.std.specs.Prelude.{◌≤◌};

use draw::cell::{Cell, over};
use draw::numbers::{above, below, either, following, pick, turned};

pub fn cells(r: u64) -> usize
    ensures { result ≤ 1024 }
{
    match r % 128 {
        0..=29 => 1,
        30..=65 => 2,
        66..=99 => 3,
        100..=126 => 16,
        _ => 1024,
    }
}

// A long reach drawn freely is refused nearly always.
fn calm(r: u64) -> bool {
    16 < cells(r) && following(r) % 8 != 0
}

// A kind of bed, depth or discharge, of 16; in a calm reach from `low` on, and m more.
fn kind(r: u64, at: u64, low: u64, m: u64) -> u64 {
    let a = following(r);
    if calm(r) {
        low.wrapping_add(a % (m % 16 + 1))
    } else {
        (a >> (at % 16)) % 16
    }
}

// Speeds reach about 2 to this power in 1/16 m/s.
fn fast(r: u64) -> u64 {
    let b = following(following(r));
    if calm(r) { b % 6 } else { b % 10 }
}

pub fn roughness(r: u64) -> u64 {
    let k = (following(r) >> 12) % 8;
    [0u64, 0, 0, 1, 30, 30, 200, 200][k as usize]
}

// The dry depth: 4 in a quarter of the reaches, else any of its list.
pub fn dry(r: u64) -> u64 {
    let x = following(r) >> 16;
    if x % 4 == 0 { 4 } else { above(x, 1, 63) }
}

// The depth or level that the cells share: near nought, near the dry depth, shallow, ordinary, deep.
fn shared(r: u64) -> u64 {
    let x = following(following(r)) >> 4;
    match x % 16 {
        0 => above(x, 0, 12),
        1..=3 => above(x, dry(r), 60),
        4..=7 => above(x, 0, 1000),
        8..=12 => above(x, 400, 8000),
        13..=14 => above(x, 400, 60000),
        _ => below(x, 262144, 40),
    }
}

// What the faces and cells are drawn from.
pub fn seed(r: u64) -> u64 {
    following(following(following(r)))
}

// Half a bed value moved by at most m either way, within the range of a bed.
fn rolled(z: u64, x: u64, m: u64) -> u64 {
    let y = z.wrapping_add(either(x, m));
    if 0x8000_0000 < y { 0 } else { y.min(524288) }
}

// Half the first bed value; under the kinds with a level, low enough for one that covers it.
pub fn first_face(r: u64) -> u64 {
    pick(seed(r), if 7 < kind(r, 4, 9, 0) { 9000 } else { 524288 })
}

// Half a bed value after z: flat, rolling, broken, free, or one of the limits.
pub fn face(r: u64, z: u64, x: u64) -> u64 {
    match kind(r, 0, 0, 6) {
        k @ 0..=10 => rolled(
            z,
            x,
            [0u64, 0, 0, 0, 0, 2, 2, 40, 40, 1000, 1000][k as usize],
        ),
        11..=12 => above(x, 9000, x % 2 * 3000),
        13..=14 => pick(x, 524288),
        _ => [0u64, 1, 524287, 524288][(x % 4) as usize],
    }
}

// Which kind of depth a cell has in a mix: one, or one of some.
fn kind_in(mix: u64, x: u64) -> u64 {
    match mix % 16 {
        0 => x % 2,
        1 => 1 + x % 2,
        2 => 2,
        3 => 3,
        4 => x % 4,
        5 => 2 + x % 2,
        6 => 4,
        7 => 3 + x % 2,
        8 => 5,
        9..=11 => 6,
        12 => 7,
        13..=14 => 8,
        _ => x % 9,
    }
}

// A depth about the dry depth.
fn thin(dry: u64, x: u64) -> u64 {
    above(x, dry.saturating_sub(4), 12)
}

// A depth at a face where half the bed is z.
fn depth(kind: u64, dry: u64, base: u64, z: u64, x: u64) -> u64 {
    match kind {
        0 => 0,
        1 => thin(dry, x),
        2 => pick(x, 400),
        3 => above(x, 400, 19600),
        4 => below(x, 262144, 3000),
        5 => below(x, 262144, 196608),
        6 => above(x, base, base / 32),
        7 => base,
        // under one level for all
        _ => base.wrapping_add(18000).saturating_sub(z << 1),
    }
}

// A discharge at a face of depth h, drawn from x or, in some reaches, the same at every face.
fn discharge(r: u64, h: u64, x: u64) -> u64 {
    let k = kind(r, 8, 3, 1);
    let most = (h << (fast(r) % 16)) >> 4;
    match k {
        0..=2 => 0,
        3..=9 => either(x, most),
        10..=12 => either(seed(r), most),
        _ => turned(greatest(k, h << 5, x), seed(r)),
    }
}

// At the greatest speed, or a little to either side of it, or at the greatest discharge that such a
// speed allows, or a little below.
fn greatest(kind: u64, most: u64, x: u64) -> u64 {
    if kind < 15 {
        below(x, most, 3).wrapping_add((x >> 9) % 8 / 7)
    } else {
        below(x, most.min(8388608), 2)
    }
}

// The right face's depth: its own, the left one's, or none.
fn right_depth(kind: u64, left: u64, own: u64, x: u64) -> u64 {
    if 7 < kind || 3 < x % 8 {
        return own;
    }
    if x % 8 < 3 {
        return left;
    }
    if kind < 4 { 0 } else { own }
}

// Half of a number with a sign, rounded downward.
fn half(x: u64) -> u64 {
    (x.wrapping_add(0x100_0000_0000) >> 1).wrapping_sub(0x80_0000_0000)
}

// A cell of the depths and discharges at its two faces; in some cells no slope of discharge.
fn between(zl: u64, zr: u64, hl: u64, hr: u64, ql: u64, qr: u64, x: u64) -> Cell {
    let h0 = hl.wrapping_add(hr).wrapping_add(1) >> 1;
    let q0 = half(ql.wrapping_add(qr));
    let q1 = if x % 4 == 0 { 0 } else { qr.wrapping_sub(q0) };
    over(zl, zr, h0, hr.wrapping_sub(h0), q0, q1)
}

// A cell between faces where half the bed is zl and zr.
pub fn drawn_cell(r: u64, zl: u64, zr: u64, x: u64) -> Cell {
    let k = kind_in(kind(r, 4, 9, 0), x);
    let a = following(x);
    let hl = depth(k, dry(r), shared(r), zl, a);
    let b = following(a);
    let own = depth(k, dry(r), shared(r), zr, b);
    let c = following(b);
    let hr = right_depth(k, hl, own, c);
    let d = following(c);
    between(zl, zr, hl, hr, discharge(r, hl, c), discharge(r, hr, d), d)
}
