// One cell over its bed: its depths, and whether it is in range.
ghost use Rattle.std.specs.Prelude.{◌≡◌, ◌||◌, [], ◌∷◌, pos, ◌+ℤ◌, ◌-ℤ◌};
ghost use Rattle.tables.specs.Cells.{as_cell};
ghost use Rattle.rules.specs.Limits.{deepest, fullest, fastest};
ghost use Rattle.rules.specs.Reach.{h0, h1};
ghost use Rattle.rules.specs.Refusals as rules;
ghost use Rattle.rules.specs.Refusals.{off_cell};
ghost use Rattle.reach.specs.Told.{bed_in};
ghost use Rattle.reach.specs.Ranges.{UpTo, Ground, Wide};
ghost use Rattle.finishing.specs.Depths.{widest_depth};

use reach::Cell;
use reach::bed::{Bed, z0, z1};
use reach::limits::{DEEPEST, FASTEST, FULLEST, outside, past};

// The mean depth h0 and the depth's slope h1.
pub fn depths(b: Bed, x: Cell) -> [i64; 2]
    requires grounded { Ground (bed_in b) }
    requires wide { Wide (as_cell x) }
    ensures { result ≡ h0 (bed_in b) (as_cell x) ∷ h1 (bed_in b) (as_cell x) ∷ [] }
{
    [x[0] - z0(b), x[1] - z1(b)]
}

// Is one of the two depths that a mean m with the slope s shows at the faces out of range?
fn off_depths(m: i64, s: i64) -> bool
    requires { UpTo widest_depth m × UpTo widest_depth s }
    ensures { result ≡ (rules.outside (pos 0) deepest (m -ℤ s) || rules.outside (pos 0) deepest (m +ℤ s)) }
{
    if outside(0, DEEPEST, m - s) {
        return true;
    }
    outside(0, DEEPEST, m + s)
}

// Is one of the two discharges out of range?
fn off_flows(m: i64, s: i64) -> bool
    requires { UpTo widest_depth m × UpTo widest_depth s }
    ensures { result ≡ (rules.past fullest (m -ℤ s) || rules.past fullest (m +ℤ s)) }
{
    if past(FULLEST, m - s) {
        return true;
    }
    past(FULLEST, m + s)
}

// Is the cell out of range: a face depth or a face discharge?
pub fn off_cell(b: Bed, x: Cell) -> bool
    requires grounded { Ground (bed_in b) }
    requires wide { Wide (as_cell x) }
    ensures { result ≡ off_cell (bed_in b) (as_cell x) }
{
    let h = depths(b, x);
    if off_depths(h[0], h[1]) {
        return true;
    }
    off_flows(x[2], x[3])
}

// Is one of two speeds too large?
pub fn either_fast(u: i64, w: i64) -> bool
    ensures { result ≡ (rules.past fastest u || rules.past fastest w) }
{
    if past(FASTEST, u) {
        return true;
    }
    past(FASTEST, w)
}
