// One step of a reach: the call itself, which answers what was worked. It checks all that it is lent, and
// `next` is written only when nothing can stop the step any more.
#![tactic(auto)]

ghost use Rattle.std.specs.Prelude.{length};
ghost use Rattle.rules.specs.Lent.{step_of};
ghost use Rattle.stage.specs.Worked.{lent_by};
ghost use Rattle.step.specs.Gives.{Gives};

pub use reach::answer::{Answer, Refusal, Refused, Volumes};
pub use reach::{End, Given};
use stage::worked::work;

// The step of 01: `state` is now, `next` where the new state goes, each in four columns of n: level means,
// level slopes, discharge means, discharge slopes; n is the length of `friction`, and `bed` has n + 1 values. The
// volumes of the answer are W.
pub fn step(state: &[i32], next: &mut [i32], bed: &[i32], friction: &[u16], call: Given) -> Answer
    ensures { Gives
        (step_of (lent_by state.now (length next.old) bed.now friction.now call))
        result next.old next.new }
{
    work(state, next, bed, friction, call)
}
