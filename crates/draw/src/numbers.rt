// Numbers that look drawn at random, and are the same on every run.
ghost use Rattle.std.specs.Prelude.{◌≡◌, ◌+◌, ◌<◌, ◌≤◌};
ghost use Rattle.draw.specs.Numbers.{following, drawn, pick, above, below, either, turned};

// What the first number is drawn from; not 0, which only 0 follows.
pub const SEED: u64 = 88172645463325252;

// The next number drawn, by shifts and exclusive ors.
#[tactic(auto, unfolding(crate::specs::Numbers::following))]
pub fn following(x: u64) -> u64
    ensures { result ≡ following x }
{
    let a = x ^ (x << 13);
    let b = a ^ (a >> 7);
    b ^ (b << 17)
}

// What number i of column `column` of the reach r is drawn from.
#[tactic(auto, unfolding(crate::specs::Numbers::drawn))]
pub fn drawn(r: u64, column: u64, i: u64) -> u64
    ensures { result ≡ drawn r column i }
{
    let x = following(SEED ^ (r << 40) ^ (column << 24) ^ i);
    following(following(x))
}

// From 0 to m.
#[tactic(auto, unfolding(crate::specs::Numbers::pick))]
pub fn pick(x: u64, m: u64) -> u64
    ensures value { result ≡ pick x m }
    ensures most { result ≤ m }
{
    (x >> 33) % (m % 0x8000_0000 + 1)
}

// From `low` on, and at most m more.
#[tactic(auto, unfolding(crate::specs::Numbers::above))]
pub fn above(x: u64, low: u64, m: u64) -> u64
    ensures value { result ≡ above x low m }
    ensures range { low + m < 18446744073709551616 → (low ≤ result) × (result ≤ low + m) }
{
    low.wrapping_add(pick(x, m))
}

// Up to `high`, and at most m less.
#[tactic(auto, unfolding(crate::specs::Numbers::below))]
pub fn below(x: u64, high: u64, m: u64) -> u64
    ensures value { result ≡ below x high m }
    ensures range { m ≤ high → (high ≤ result + m) × (result ≤ high) }
{
    high.wrapping_sub(pick(x, m))
}

// From -m to m.
#[tactic(auto, unfolding(crate::specs::Numbers::either))]
pub fn either(x: u64, m: u64) -> u64
    ensures { result ≡ either x m }
{
    pick(x, m.wrapping_add(m)).wrapping_sub(m)
}

// x where `side` is even, else -x.
#[tactic(auto, unfolding(crate::specs::Numbers::turned))]
pub fn turned(x: u64, side: u64) -> u64
    ensures { result ≡ turned x side }
{
    if side.is_multiple_of(2) {
        x
    } else {
        x.wrapping_neg()
    }
}
