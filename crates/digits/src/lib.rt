// A square root in whole numbers, worked digit by digit: the one search behind the wave speed of a
// depth and the root of a double. The public function answers every call: beyond its limits there is none.
#![tactic(auto)]

ghost use Rattle.std.specs.Prelude.{◌*◌, ◌/◌, ◌^◌, ◌≤◌, ◌<◌};
ghost use Rattle.digits.specs.Root.{RootOf, DigitsSay};
ghost use Rattle.digits.specs.Turns.{Small, Turned};

// The pairs of bits that a number may have: what is left under its root takes two bits more, and so 64.
const PAIRS: u64 = 31;

// The numbers of so many pairs lie below this.
const BEYOND: u64 = 1 << 62;

// The place of the first pair's digit.
const FIRST: u64 = 1 << 61;

// The pairs of nought that may stand behind a number. With them it has at most 61 digits, as many as
// there are places from the first down.
const MOST_NOUGHTS: u64 = 30;

// The largest number whose square is at most a number, and what is left of that number beside the square.
#[derive(Clone, Copy, Debug, PartialEq, Eq)]
pub struct Root {
    pub whole: u64,
    pub rest: u64,
}

// Between two turns: the place of the next digit, twice the root so far, and what is left of the number
// beside its square. No pairs are brought down: where the place halves, what is left doubles.
#[derive(Clone, Copy)]
struct SoFar {
    bit: u64,
    twice: u64,
    rest: u64,
}

// One digit: a one where what is left is as much as the square grows by, which is the trial in the place of
// this digit. Asked this way round, the test compiles to moves on the carry alone, and to no branch.
#[tactic(auto, using(crate::specs::Turns::nought, crate::specs::Turns::one))]
fn turn(t: SoFar) -> SoFar
    requires { Small t.bit t.twice t.rest }
    ensures { Turned t.bit t.twice t.rest result.bit result.twice result.rest }
{
    let trial = t.twice + t.bit;
    if t.rest < trial {
        return SoFar {
            bit: t.bit / 2,
            twice: t.twice,
            rest: t.rest * 2,
        };
    }
    SoFar {
        bit: t.bit / 2,
        twice: trial + t.bit,
        rest: (t.rest - trial) * 2,
    }
}

// The root of the first pairs of a number, as many as there are turns. Where these are more than it has,
// pairs of nought follow.
fn first_digits(number: u64, turns: u64) -> Root
    requires pairs { number < 4 ^ 31 }
    requires places { turns ≤ 61 }
    ensures { RootOf (number * 4 ^ turns / 4 ^ 31) result.whole result.rest }
{
    let last = FIRST >> turns;
    let mut t = SoFar {
        bit: FIRST,
        twice: 0,
        rest: number * 2,
    };
    // no index is counted: the place of the digit says when the last is had, and a count beside it would be one number more
    while last < t.bit {
        t = turn(t);
    }
    let unit = 63 - turns;
    Root {
        whole: t.twice >> unit,
        rest: t.rest >> unit,
    }
}

// The root of a number with pairs of nought behind it, or nothing beyond the limits. The pairs of nought above
// its first one are passed over, as their digits are noughts: shallow water needs fewer turns.
pub fn digits(number: u64, noughts: u64) -> Option<Root>
    ensures { DigitsSay number noughts result }
{
    if BEYOND <= number || MOST_NOUGHTS < noughts {
        return None;
    }
    let above = (number.leading_zeros() as u64 - 2) / 2;
    Some(first_digits(number << (2 * above), PAIRS - above + noughts))
}
