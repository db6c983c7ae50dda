// One step of a reach over a stepped bed, of the first order: a bed value a cell, a level and a discharge,
// and no slopes. It checks all that it is lent, and `next` is written only when nothing can stop the step
// any more.
//
// Some small functions stand here as they stand in crate stage (`crossing`, `outer`, `too_long`, `thrust_of`,
// `speed_of`): each asks its caller for ranges, and what does so is private to its crate, since a public function
// answers every call.
#![tactic(auto)]

mod checks;
mod crests;
mod faces;
mod lent;
mod pool;
mod rows;
mod rubbing;
mod store;
mod update;
mod worked;

ghost use Rattle.std.specs.Prelude.{length};
ghost use Rattle.sill_rules.specs.Lent.{step_of};
ghost use Rattle.reach.specs.Gives.{Gives};
ghost use Rattle.sill.specs.Told.{lent_by};

use crate::checks::{bad_lengths, call_of};
use crate::worked::work;
pub use reach::answer::Answer;
use reach::answer::Refusal;

// The numbers of a call as its caller gives them, each still to be held against its list. The kinds of the
// two ends are 0 a wall and 1 open.
#[derive(Clone, Copy, Debug, PartialEq, Eq)]
pub struct Given {
    pub dx: u32,
    pub dt: u32,
    pub dry: u32,
    pub left: u32,
    pub right: u32,
}

// The step of E10: `state` is now, `next` where the new state goes, each in two columns of n: levels and
// discharges; n is the length of `friction`, and `bed` has n values. The volumes of the answer are V.
pub fn step(state: &[i32], next: &mut [i32], bed: &[i32], friction: &[u16], given: Given) -> Answer
    ensures { Gives
        (step_of (lent_by state.now (length next.old) bed.now friction.now given))
        result next.old next.new }
{
    let n = friction.len();
    if bad_lengths(state.len(), next.len(), bed.len(), n) {
        return Err(Refusal::Lengths.into());
    }
    let Some(call) = call_of(given, n) else {
        return Err(Refusal::Numbers.into());
    };
    work(state, next, bed, friction, call)
}
