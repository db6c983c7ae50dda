// How this program draws its numbers, which is not quite as the others do.
use draw::numbers::drawn;

// What number i of column `column` of the reach r is drawn from. The remainder mixes the bits, of which each would
// else be a plain sum of some of r, and small numbers drawn for one reach would go together.
pub fn drawn_apart(r: u64, column: u64, i: u64) -> u64 {
    drawn(r, column, i) % 0xb504_f333_f9df
}

// From `low` on, and at most m more.
pub fn ranging(x: u64, low: u64, m: u64) -> u64 {
    low.wrapping_add((x >> 16) % (m % 0x8000_0000 + 1))
}

// From -m to m.
pub fn either_way(x: u64, m: u64) -> u64 {
    ranging(x, m.wrapping_neg(), m.wrapping_add(m))
}
