// Blocks of sixteen cells, the last perhaps shorter than the others.
ghost use Rattle.std.specs.Prelude.{◌≡◌, ◌≤◌};
ghost use Rattle.rules.specs.Limits.{most_cells};
ghost use Rattle.rules.specs.Sums.{blocks_of, misfit_sums, block_to};

use reach::limits::BLOCK_CELLS;

// How many blocks n cells make.
pub fn blocks(n: usize) -> usize
    ensures { result ≡ blocks_of n }
{
    n.div_ceil(BLOCK_CELLS)
}

// 1: is a sums table of this length not that of n cells?
pub fn bad_sums(sums: usize, n: usize) -> bool
    ensures { result ≡ misfit_sums sums n }
{
    sums != blocks(n)
}

// The first cell after block k of n cells.
pub fn block_to(n: usize, k: usize) -> usize
    requires { k ≤ most_cells }
    ensures { result ≡ block_to n k }
{
    (BLOCK_CELLS * (k + 1)).min(n)
}
