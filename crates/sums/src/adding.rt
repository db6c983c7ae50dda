// Numbers of the lent tables, added as they stand. In 64 bits there is room for as many as a table has,
// whatever they are.
ghost use Rattle.std.specs.Prelude.{◌≡◌, ◌+◌, ◌≤◌, ◌<◌, get_or, length, pos};
ghost use Rattle.rules.specs.Limits.{most_cells};
ghost use Rattle.rules.specs.StateAndBed.{depth_in};
ghost use Rattle.sums.specs.Ranges.{Added, Addend};

use reach::bed::{under, z0};

// The mean depth of cell i. The bed at its two faces is lent alone, so that where the table ends is not asked at each cell.
fn depth(state: &[i32], bed: &[i32], i: usize) -> i64
    requires { (i < length state.now) × (i + 1 < length bed.now) }
    ensures { (result ≡ depth_in bed.now state.now i) × Addend result }
{
    let b = under(&bed[i..i + 2], 0);
    i64::from(state[i]) - z0(b)
}

// The sum of the mean depths of the cells from a up to b.
pub fn depths(state: &[i32], bed: &[i32], a: usize, b: usize) -> i64
    requires { (a ≤ b) × (b ≤ most_cells) × (b ≤ length state.now) × (b < length bed.now) }
    ensures { Added (depth_in bed.now state.now) a b result }
{
    let mut water = 0;
    for i in a..b {
        water += depth(state, bed, i);
    }
    water
}

// The sum of the entries from a up to b.
pub fn added(sums: &[i32], a: usize, b: usize) -> i64
    requires { (a ≤ b) × (b ≤ most_cells) × (b ≤ length sums.now) }
    ensures { Added (λ k. get_or sums.now k (pos 0)) a b result }
{
    let mut water = 0;
    for k in a..b {
        water += i64::from(sums[k]);
    }
    water
}
