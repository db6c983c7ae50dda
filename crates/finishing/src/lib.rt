// Finishing: the marks, the cells that are spared, the limiter, the cut and the drying that end each
// stage. Every number read is of the unfinished table, so that the order of the cells does not matter.
#![tactic(auto)]

mod cell;
mod limiter;
mod range;
mod spared;
mod table;
mod unfinished;
pub mod unfit;

ghost use Rattle.finishing.specs.FinishSays.{FinishSays};

use crate::unfinished::UnfinishedTable;
use crate::unfit::Unfit;
use reach::{Call, Cell, Reach};

// The finished state of the n cells in u over their bed, into the first n places of t. Unfit, and t as
// it was, where it cannot be worked: u or t has fewer than n cells, n is over 1,024, the bed is of
// another length than n + 1, the jump is not from 0 to 262,144, the dry depth not from 1 to 64, or a bed
// value is past 1,048,576 or a number past 2^46, either way.
pub fn finish(
    u: &[Cell],
    bed: &[i32],
    reach: Reach,
    call: Call,
    t: &mut [Cell],
) -> Result<(), Unfit>
    ensures { FinishSays reach call bed.now u.now result t.old t.new }
{
    let unfinished = UnfinishedTable {
        cells: u,
        bed,
        reach,
        call,
    };
    if unfinished.is_unfit(t.len()) {
        return Err(Unfit);
    }
    unfinished.fill(t);
    Ok(())
}
