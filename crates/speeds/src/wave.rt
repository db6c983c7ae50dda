// The wave speed of a depth.
ghost use Rattle.std.specs.Prelude.{◌≡◌};
ghost use Rattle.speeds.specs.Given.{wave_given};

use crate::limits::depth_fits;
use crate::search::wave_of;

// How fast a small wave runs over still water of depth h.
#[tactic(auto, unfolding(crate::specs::Given::wave_given, crate::specs::Given::depth_fits))]
pub fn wave(h: i64) -> Option<i64>
    ensures { result ≡ wave_given h }
{
    if !depth_fits(h) {
        return None;
    }
    Some(wave_of(h))
}
