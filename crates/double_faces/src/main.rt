// The double face over 20 blocks of 1,000 faces that are wet, dry on either side or both, still,
// slow, fast, at the limits and beyond them. A line gives how many faces of a block had a flux, were
// dry and were refused, and the running sum of the answers. What it must write comes from
// tests/reference/double_faces.py.
#![tactic(auto)]

use double::face::{Side, face};
use draw::numbers::{SEED, following};
use draw::sums::{double_bits, rolled};
use std::io;

// What a block has come to.
#[derive(Clone, Copy, Default)]
struct Tally {
    fluxes: u64,
    dry: u64,
    refused: u64,
    sum: u64,
}

// From 0 up to 1, by 52 of the bits of x.
#[tactic(auto, using(std::proofs::lemmas::Float::not_nan_f64_bits))]
fn unit(x: u64) -> f64 {
    f64::from_bits(0x3ff0_0000_0000_0000 + (x >> 12)) - 1.0
}

// A depth: half of them shallow, so that the water may outrun its waves.
fn depth(x: u64) -> f64 {
    match x % 128 {
        0..=6 => 0.0,
        7..=13 => -0.0,
        14 => 64.0,
        15 => 64.00000000000001,
        16 => 5e-324,
        17 => -5e-324,
        18 => f64::NAN,
        19 => f64::INFINITY,
        20..=25 => 1.0,
        26..=76 => 0.5 * unit(x) * unit(following(x)),
        _ => 64.0 * unit(x),
    }
}

// A speed, either way.
fn speed(x: u64) -> f64 {
    match x % 128 {
        0..=5 => 0.0,
        6..=9 => -0.0,
        10 => 32.0,
        11 => -32.0,
        12 => 32.00000000000001,
        13 => -32.00000000000001,
        14 => f64::NAN,
        15 => f64::NEG_INFINITY,
        16..=60 => unit(x) - 0.5,
        _ => 64.0 * unit(x) - 32.0,
    }
}

impl Tally {
    fn add(&mut self, b: u64) {
        self.sum = rolled(self.sum, b);
    }

    // One more face, by its answer. No number of a flux is a NaN; 2 would show one.
    fn tell(&mut self, l: Side, r: Side) {
        match face(l, r) {
            Ok(Some(flux)) => {
                self.fluxes = self.fluxes.wrapping_add(1);
                self.add(double_bits(flux.mass));
                self.add(double_bits(flux.pressure));
                self.add(double_bits(flux.advection));
                self.add(double_bits(flux.top));
            }
            Ok(None) => {
                self.dry = self.dry.wrapping_add(1);
                self.add(1);
            }
            Err(_) => {
                self.refused = self.refused.wrapping_add(1);
                self.add(3);
            }
        }
    }
}

fn side(a: u64, b: u64) -> Side {
    Side {
        h: depth(a),
        u: speed(b),
    }
}

fn run(block: u64) -> Tally {
    let mut x = SEED ^ (block << 32);
    let mut t = Tally::default();
    for _ in 0..1000 {
        let a = following(x);
        let b = following(a);
        let c = following(b);
        x = following(c);
        t.tell(side(a, b), side(c, x));
    }
    t
}

fn line(rt: &impl Print, block: u64) -> io::Result<()> {
    let t = run(block);
    println!(rt;
        "faces {block} {} {} {} {:016x}",
        t.fluxes, t.dry, t.refused, t.sum
    )
}

fn main(rt: HostRuntime) -> io::Result<()> {
    for block in 0..20 {
        line(&rt, block)?;
    }
    Ok(())
}
