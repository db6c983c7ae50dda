// A state that is lent with its bed and without a call: the checks of a step that it has to pass.
ghost use Rattle.std.specs.Prelude.{◌≡◌, ◌*◌, ◌≤◌, length};
ghost use Rattle.tables.specs.Cells.{cell_in};
ghost use Rattle.rules.specs.Limits.{most_cells};
ghost use Rattle.rules.specs.Reach.{bed_at};
ghost use Rattle.rules.specs.Refusals.{off_cell};
ghost use Rattle.rules.specs.StateAndBed.{state_refusal};
ghost use Rattle.reach.specs.Refusals.{told_number};
ghost use Rattle.reach.specs.Places.{first_place};
ghost use Rattle.reach.specs.Ranges.{Grounds};

use crate::cell::off_cell;
use crate::checks::bad_bed;
use crate::lent::cell_of;
use reach::answer::Refusal;
use reach::bed::under;
use reach::lengths::{bad_state, cells_over};

// 5: the lowest cell out of range.
fn off_state(state: &[i32], bed: &[i32], n: usize) -> Option<usize>
    requires { (n ≤ most_cells) × (length state.now ≡ 4 * n) × Grounds bed.now n }
    ensures { result ≡ first_place (λ i. off_cell (bed_at bed.now i) (cell_in n state.now i)) n }
{
    for i in 0..n {
        if off_cell(under(bed, i), cell_of(state, n, i)) {
            return Some(i);
        }
    }
    None
}

// The first of checks 1, 3 and 5 that applies.
pub fn check(state: &[i32], bed: &[i32]) -> Result<(), Refusal>
    ensures { told_number result ≡ state_refusal bed.now state.now }
{
    let n = cells_over(bed);
    if bad_state(state.len(), n) {
        return Err(Refusal::Lengths);
    }
    if bad_bed(bed).is_some() {
        return Err(Refusal::Bed);
    }
    if off_state(state, bed, n).is_some() {
        return Err(Refusal::State);
    }
    Ok(())
}
