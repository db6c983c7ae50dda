// Running sums, so that a difference anywhere is found in the last number written.
ghost use Rattle.std.specs.Prelude.{◌≡◌};
ghost use Rattle.draw.specs.Sums.{mixed, summed, rolled, double_bits};

use crate::numbers::following;

// The running sum with one more number.
#[tactic(auto, unfolding(crate::specs::Sums::mixed))]
pub fn mixed(sum: u64, bits: u64) -> u64
    ensures { result ≡ mixed sum bits }
{
    following(sum ^ bits)
}

// The running sum with the numbers of a table.
#[tactic(auto, unfolding(crate::specs::Sums::summed))]
pub fn summed(sum: u64, table: &[i32]) -> u64
    ensures { result ≡ summed sum table.now }
{
    let mut s = sum;
    for x in table {
        s = mixed(s, i64::from(*x).cast_unsigned());
    }
    s
}

// Another running sum, which turns by one bit before each number.
#[tactic(auto, unfolding(crate::specs::Sums::rolled))]
pub fn rolled(sum: u64, bits: u64) -> u64
    ensures { result ≡ rolled sum bits }
{
    sum.rotate_left(1) ^ bits
}

// The bits of a double; 2 stands for a NaN, as an answer that is none shows it.
#[tactic(auto, unfolding(crate::specs::Sums::double_bits))]
pub fn double_bits(x: f64) -> u64
    ensures { result ≡ double_bits x }
{
    if x.is_nan() { 2 } else { x.to_bits() }
}
