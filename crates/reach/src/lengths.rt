// The lengths of a state and its bed, where they are lent without a call. Every call is answered.
ghost use Rattle.std.specs.Prelude.{◌≡◌};
ghost use Rattle.rules.specs.StateAndBed.{cells_over, misfit_state};

use crate::limits::CELLS;

// The cells over a bed that has a value for each of their faces.
pub fn cells_over(bed: &[i32]) -> usize
    ensures { result ≡ cells_over bed.now }
{
    bed.len().saturating_sub(1)
}

// 1: is there no such number of cells, or does a state of this length not fit them?
#[tactic(auto, unfolding(rules::specs::StateAndBed::misfit_state, rules::specs::Refusals::any))]
pub fn bad_state(state: usize, n: usize) -> bool
    ensures { result ≡ misfit_state state n }
{
    n == 0 || CELLS < n || state != 4 * n
}
