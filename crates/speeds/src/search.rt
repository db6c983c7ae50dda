// The wave speed and the cube-root number of a depth, each the largest number that passes a test. The
// wave speed is a square root, and its digits are worked where those of the double's root are. For the
// cube root a turn of Newton's method goes from a guess to it, or a little above it, and a search goes
// down from there.
ghost use Rattle.std.specs.Prelude.{◌≡◌, ◌+◌, ◌*◌, ◌^◌, ◌≤◌, ◌<◌, pos, ◌≤ℤ◌};
ghost use Rattle.rules.specs.Limits.{deepest};
ghost use Rattle.rules.specs.Face.{wave, wave_of};
ghost use Rattle.rules.specs.Friction.{cube, cube_of};

use digits::digits;

// The largest a with 100·a² at most 4,018,176·h, which is the whole root of a hundredth of that. The
// number is within the limits of the digits, so there always is one.
fn fastest_wave(h: u64) -> u64
    requires { h ≤ 262144 }
    ensures { result ≡ wave_of h }
{
    digits(4018176 * h / 100, 0).unwrap().whole
}

// 32,768 times the cube root of 2, of 4 and of 8.
fn cube_scale(part: u64) -> u64
    ensures { result ≤ 65536 }
{
    match part {
        0 => 41285,
        1 => 52016,
        _ => 65536,
    }
}

// A first guess at 256 times the cube root of h, within a thousandth of it and then rounded up. As a
// whole number it is from 0.08 % too small to 0.4 % too large, the most at h = 1, where it is 257
// for 256; 103 of the 262,144 depths, all below 1,800, are beyond a thousandth. The twelve bits of h
// from the first that is set are a number t from 2,048 to 4,095, and a polynomial of degree 2 comes
// near 2^36 times the cube root of t / 4,096. What is left is the cube root of a power of two. No
// proof rests on how near: it only decides how far the search still goes.
fn cube_guess(h: u64) -> u64
    requires { 0 < h }
    ensures { (0 < result) × (result < 2 ^ 32) }
{
    let zeros = h.leading_zeros() as u64;
    let t = (h << zeros) >> 52;
    let top = 63 - zeros;
    let near = 33898930000 + t * (11703300 - 784 * t);
    1 + (((near * cube_scale(top % 3)) << (top / 3)) >> 43)
}

// A turn of Newton's method toward the cube root of y, held to 16,384, whose cube is the largest y:
// it ends at the whole cube root or above it.
fn cube_turn(y: u64, x: u64) -> u64
    requires { (y ≤ 2 ^ 42) × ((0 < x) × (x < 2 ^ 32)) }
    ensures { (y < (result + 1) * (result + 1) * (result + 1)) × (result ≤ 16384) }
{
    let end = (2 * x + y / (x * x)) / 3;
    end.min(16384)
}

// The largest c whose cube is at most 16,777,216·h. One turn ends at it, or 1 above it at 787 of the
// 262,144 depths that are not dry.
fn largest_cube(h: u64) -> u64
    requires { h ≤ 262144 }
    ensures { result ≡ cube_of h }
{
    if h == 0 {
        return 0;
    }
    let y = 16777216 * h;
    let mut c = cube_turn(y, cube_guess(h));
    // a search and no count: it ends at a cube, in one turn nearly always
    while y < c * c * c {
        c -= 1;
    }
    c
}

pub fn wave_of(h: i64) -> i64
    requires { (pos 0 ≤ℤ h) × (h ≤ℤ deepest) }
    ensures { result ≡ wave h }
{
    fastest_wave(h as u64) as i64
}

pub fn cube_of(h: i64) -> i64
    requires { (pos 0 ≤ℤ h) × (h ≤ℤ deepest) }
    ensures { result ≡ cube h }
{
    largest_cube(h as u64) as i64
}
