// The root over 128 blocks of 1,000 doubles, or of 1,000 squares with their neighbours, and at the
// edges of its range. A line gives the running sum of a block's answers, so that a difference is
// found within that block. What it must write comes from tests/reference/roots.py.
#![tactic(auto)]

use draw::numbers::{SEED, following};
use draw::sums::{double_bits, rolled};
use root::root;
use std::io;

const TOP: u64 = 0x7ff0_0000_0000_0000; // the bits of an infinity

const SIGN: u64 = 0x8000_0000_0000_0000;

const FRACTION: u64 = 0xf_ffff_ffff_ffff; // every bit of the fraction

// The double with the bits b; the bits of every NaN give the one NaN.
#[tactic(auto, using(std::proofs::lemmas::Float::not_nan_f64_bits))]
fn double(b: u64) -> f64 {
    let size = b % SIGN;
    if TOP < size {
        return f64::NAN;
    }
    let x = f64::from_bits(size);
    if b < SIGN { x } else { -x }
}

// The bits of the root, or 1 where there is none: no root has those. No root is a NaN either; 2 would show one.
fn answer(b: u64) -> u64 {
    root(double(b)).map_or(1, double_bits)
}

// 32 exponents to a block, each with the ends of the fraction's range first. The last exponent is
// that of the infinities and the NaNs.
fn exponent(block: u64, i: u64, x: u64) -> u64 {
    let fraction = match i / 32 {
        0 => 0,
        1 => 1,
        2 => FRACTION - 1,
        3 => FRACTION,
        _ => x >> 12,
    };
    (block << 57) ^ ((i % 32) << 52) ^ fraction
}

// A subnormal: its length, 52 - block % 52 bits, is another in each of 52 blocks on end.
fn subnormal(block: u64, x: u64) -> u64 {
    (0x8_0000_0000_0000 | (x >> 13)) >> (block % 52)
}

// The square of a double of 26 bits, which is exact.
fn square(x: u64) -> f64 {
    let r = double(((512 + x % 1022) << 52) ^ ((x >> 39) << 27));
    r * r
}

// The roots of a square and of the doubles just below and just above it.
fn around(x: u64) -> u64 {
    let b = double_bits(square(x));
    let below = answer(b.wrapping_sub(1));
    let above = answer(b.wrapping_add(1));
    rolled(rolled(below, answer(b)), above)
}

fn item(block: u64, i: u64, x: u64) -> u64 {
    match block {
        0..=63 => answer(exponent(block, i, x)),
        64..=115 => answer(subnormal(block, x)),
        116..=125 => around(x),
        _ => answer((x >> 1) | SIGN),
    }
}

fn sum(block: u64) -> u64 {
    let mut x = SEED ^ (block << 32);
    let mut sum = 0u64;
    for i in 0..1000 {
        x = following(x);
        sum = rolled(sum, item(block, i, x));
    }
    sum
}

fn name(block: u64) -> &'static str {
    match block {
        0..=63 => "exponents",
        64..=115 => "subnormals",
        116..=125 => "squares",
        _ => "negatives",
    }
}

fn line(rt: &impl Print, block: u64) -> io::Result<()> {
    let sum = sum(block);
    println!(rt; "{} {block} {sum:016x}", name(block))
}

fn edge(rt: &impl Print, b: u64) -> io::Result<()> {
    let root = answer(b);
    println!(rt; "root of {b:016x} {root:016x}")
}

fn edges(rt: &impl Print) -> io::Result<()> {
    let edges = [
        // the two noughts, the smallest subnormal, the largest one, the smallest normal
        0,
        SIGN,
        1,
        FRACTION,
        FRACTION + 1,
        // 1, 2, the largest finite
        0x3ff0_0000_0000_0000,
        0x4000_0000_0000_0000,
        TOP - 1,
        // the two infinities, two NaNs, -1, the largest below nought
        TOP,
        TOP | SIGN,
        TOP + 1,
        0xffff_ffff_ffff_ffff,
        0xbff0_0000_0000_0000,
        SIGN + 1,
    ];
    for b in edges {
        edge(rt, b)?;
    }
    Ok(())
}

fn main(rt: HostRuntime) -> io::Result<()> {
    for block in 0..128 {
        line(&rt, block)?;
    }
    edges(&rt)
}
