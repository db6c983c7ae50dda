// The sums of a state, written into the lent table. An i32 holds each, as the depths of a block in range
// come to 2^22 at most.
ghost use Rattle.std.specs.Prelude.{◌≡◌, ◌*◌, ◌≤◌, ◌<◌, length};
ghost use Rattle.rules.specs.Limits.{most_cells};
ghost use Rattle.rules.specs.StateAndBed.{cells_over};
ghost use Rattle.rules.specs.Sums.{blocks_of, block_sum, sums_of};
ghost use Rattle.sums.specs.Ranges.{TablesFit, DepthsIn};

use crate::adding::depths;
use crate::blocks::block_to;
use reach::lengths::cells_over;
use reach::limits::BLOCK_CELLS;

// The sum of block k.
fn block_sum(state: &[i32], bed: &[i32], n: usize, k: usize) -> i32
    requires n_value { (n ≡ cells_over bed.now) × (n ≤ most_cells) × (length state.now ≡ 4 * n) × (k < blocks_of n) }
    requires depths_in { DepthsIn bed.now state.now }
    ensures { result ≡ block_sum bed.now state.now k }
{
    depths(state, bed, BLOCK_CELLS * k, block_to(n, k)) as i32
}

// The sums of all blocks.
pub fn fill(state: &[i32], bed: &[i32], sums: &mut [i32])
    requires { TablesFit bed.now state.now sums.old × DepthsIn bed.now state.now }
    ensures { sums.new ≡ sums_of bed.now state.now }
{
    let n = cells_over(bed);
    for k in 0..sums.len() {
        sums[k] = block_sum(state, bed, n, k);
    }
}
