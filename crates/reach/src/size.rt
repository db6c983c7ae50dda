// The size of a number, whatever its sign. Every call is answered.
ghost use Rattle.std.specs.Prelude.{◌≡◌};
ghost use Rattle.reach.specs.Size.{held_size};

const MOST: u64 = 9223372036854775807;

// With a sign the least number has no size: it is held to the largest.
pub fn size(x: i64) -> i64
    ensures { result ≡ held_size x }
{
    x.unsigned_abs().min(MOST) as i64
}
