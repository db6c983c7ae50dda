// What every part of a step reads: the reach with the bed under it, and the call.
ghost use Rattle.std.specs.Prelude.{◌≡◌};
ghost use Rattle.stage.specs.Laws.LentNumber.{reach_by, call_by};

use reach::{Call, Given, Reach};

// Lent whole, and never written to: the tables of a step are handed on beside it.
#[derive(Clone, Copy)]
pub struct Course<'a> {
    pub bed: &'a [i32],
    pub reach: Reach,
    pub call: Call,
}

// The numbers that a caller gave, widened: those of a reach of n cells, and those of the call.
pub fn reach_by(n: usize, given: Given) -> Reach
    ensures { result ≡ reach_by n given }
{
    Reach {
        n,
        dx: i64::from(given.dx),
    }
}

pub fn call_by(given: Given) -> Call
    ensures { result ≡ call_by given }
{
    Call {
        dt: i64::from(given.dt),
        jump: i64::from(given.jump),
        dry: i64::from(given.dry),
        left: given.left,
        right: given.right,
    }
}
