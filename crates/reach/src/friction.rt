// The lent friction, a Manning value for each cell. Every call is answered: past its end the table counts as
// nought.
ghost use Rattle.std.specs.Prelude.{◌≡◌, get_or, length, pos};
ghost use Rattle.rules.specs.Refusals.{bad_rough};
ghost use Rattle.reach.specs.Places.{first_place};

use crate::limits::ROUGHEST;

// The Manning value of cell i.
pub fn rough_at(friction: &[u16], i: usize) -> i64
    ensures { result ≡ pos (get_or friction.now i 0) }
{
    match friction.get(i) {
        Some(rough) => i64::from(*rough),
        None => 0,
    }
}

// 4: the lowest friction value over 200, where there is one.
pub fn bad_friction(friction: &[u16]) -> Option<usize>
    ensures { result ≡ first_place (λ i. bad_rough (pos (get_or friction.now i 0))) (length friction.now) }
{
    for (i, rough) in friction.iter().enumerate() {
        if ROUGHEST < *rough {
            return Some(i);
        }
    }
    None
}
