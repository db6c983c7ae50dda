// Works 20,000 faces of ten kinds in 100 blocks of 200 and writes a sum over the answers after each
// block: an independent model of the rules writes the same lines (tests/reference/whole_faces.py).
#![tactic(auto)]

ghost use Rattle.std.specs.Prelude.{◌<◌, ◌≤◌};
ghost use Rattle.whole.specs.Parts.{Within};

use draw::numbers::{SEED, following};
use draw::sums::rolled;
use face::flux::face;
use face::sides::{Flux, Side};
use std::io;

// The top 31 bits of x, brought below span.
fn part(x: u64, span: u64) -> u64
    requires { 0 < span }
    ensures { result < span }
{
    (x >> 33) % span
}

// One of span values, `low` and on in steps of `unit`.
fn chosen(x: u64, span: u64, unit: i64, low: i64) -> i64
    requires { (0 < span) × (span ≤ 1048576) × (Within 1048576 unit) × (Within 1048576 low) }
{
    let r = part(x, span);
    r as i64 * unit + low
}

// A depth of a face of kind c; the kind `dry` has none.
fn depth(c: u64, dry: u64, x: u64) -> i64 {
    if c == dry {
        return 0;
    }
    match c {
        3 => chosen(x, 9, 1, 0),
        4 => chosen(x, 16385, 1, 0),
        5 => chosen(x, 4097, 1, 0),
        6 => chosen(x, 4097, 1, 0),
        7 => chosen(x, 2, 262144, 0),
        8 => chosen(x, 4, 1, 262142),
        9 => chosen(x, 16, 1, -1),
        _ => chosen(x, 262145, 1, 0),
    }
}

// A speed of a face of kind c; kind 8 has two sides that run at each other.
fn speed(c: u64, right: bool, x: u64) -> i64 {
    match c {
        3 => chosen(x, 8193, 1, -4096),
        4 => chosen(x, 8193, 1, -4096),
        5 => chosen(x, 131073, 1, 0),
        6 => chosen(x, 131073, -1, 0),
        7 => chosen(x, 3, 131072, -131072),
        8 => against(right, x),
        9 => chosen(x, 262147, 1, -131073),
        _ => chosen(x, 262145, 1, -131072),
    }
}

fn against(right: bool, x: u64) -> i64 {
    if right {
        return chosen(x, 4, -1, -131070);
    }
    chosen(x, 4, 1, 131070)
}

// The sum after one more face: its four values, or 1 for a refusal.
fn after(sum: u64, answer: Option<Flux>) -> u64 {
    match answer {
        Some(flux) => [flux.f, flux.k, flux.a, flux.s]
            .into_iter()
            .fold(sum, |s, x| rolled(s, x.cast_unsigned())),
        None => rolled(sum, 1),
    }
}

fn main(rt: HostRuntime) -> io::Result<()> {
    let mut x = SEED;
    let mut sum = 0u64;
    for i in 0u64..20000 {
        let x1 = following(x);
        let x2 = following(x1);
        let x3 = following(x2);
        x = following(x3);
        let kind = i % 10;
        let left = Side {
            h: depth(kind, 1, x1),
            u: speed(kind, false, x2),
        };
        let right = Side {
            h: depth(kind, 2, x3),
            u: speed(kind, true, x),
        };
        sum = after(sum, face(left, right));
        if i % 200 == 199 {
            println!(rt; "{sum}")?;
        }
    }
    Ok(())
}
