// What friction leaves of a discharge.
ghost use Rattle.std.specs.Prelude.{◌≡◌};
ghost use Rattle.friction.specs.Given.{slowed_given};

use crate::limits::strength_fits;
use speeds::limits::discharge_fits;

// What friction of strength x leaves of the discharge q.
#[tactic(auto, unfolding(crate::specs::Given::slowed_given, crate::specs::Given::strength_fits))]
pub fn slowed(x: i64, q: i64) -> Option<i64>
    ensures { result ≡ slowed_given x q }
{
    if !strength_fits(x) || !discharge_fits(q) {
        return None;
    }
    Some(q * (65536 + x) / (65536 + 2 * x))
}
