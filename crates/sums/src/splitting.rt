// The cells between two faces, split into the blocks that lie whole between them and the cells before and
// behind these.
ghost use Rattle.std.specs.Prelude.{◌≤◌};
ghost use Rattle.rules.specs.Limits.{most_cells};
ghost use Rattle.rules.specs.Laws.Blocks.{Ended};
ghost use Rattle.sums.specs.Ranges.{SplitSays};

use crate::blocks::{block_to, blocks};
use reach::limits::BLOCK_CELLS;

// The cells up to `head`, the blocks from `first` up to `last`, and the cells from `tail` on. Where no
// block lies whole all cells are before it.
#[derive(Clone, Copy)]
pub struct Split {
    pub head: usize,
    pub first: usize,
    pub last: usize,
    pub tail: usize,
}

// How many blocks end at face b or before it. The last ends with the reach, short or not.
fn ended(n: usize, b: usize) -> usize
    requires { b ≤ n }
    ensures { Ended n b result }
{
    if b == n {
        return blocks(n);
    }
    b / BLOCK_CELLS
}

// The cells from a up to b of n.
pub fn split_between(n: usize, a: usize, b: usize) -> Split
    requires { (a ≤ b) × (b ≤ n) × (n ≤ most_cells) }
    ensures { SplitSays n a b result }
{
    let first = blocks(a);
    let last = ended(n, b);
    if first < last {
        return Split {
            head: BLOCK_CELLS * first,
            first,
            last,
            tail: block_to(n, last - 1),
        };
    }
    Split {
        head: b,
        first,
        last: first,
        tail: b,
    }
}
