// One cell over its bed: the cut and the drying.
ghost use Rattle.std.specs.Prelude.{◌≡◌, cond, pos};
ghost use Rattle.tables.specs.Cells.{as_cell, as_list};
ghost use Rattle.rules.specs.Reach.{shallow};
ghost use Rattle.rules.specs.Finishing.{beyond, clipped, cut, dried};
ghost use Rattle.reach.specs.Told.{bed_in};
ghost use Rattle.reach.specs.Ranges.{UpTo, widest, Ground, Unfinished};
ghost use Rattle.finishing.specs.Depths.{widest_depth};

use reach::Cell;
use reach::bed::{Bed, z0, z1};

// Is a slope larger than the mean, either way?
fn is_beyond(mean: i64, slope: i64) -> bool
    requires { UpTo widest_depth mean }
    ensures { result ≡ beyond mean slope }
{
    mean < slope || slope < -mean
}

// The slope cut to lie within the mean. Not by `clamp`, which asks for a mean that is not below nought.
fn clip(mean: i64, slope: i64) -> i64
    requires { UpTo widest_depth mean }
    ensures { result ≡ clipped mean slope }
{
    if mean < slope {
        return mean;
    }
    if slope < -mean {
        return -mean;
    }
    slope
}

// The discharge slope, which goes where the cut changes the slope.
fn uncut(mean: i64, slope: i64, q1: i64) -> i64
    requires { UpTo widest_depth mean }
    ensures { result ≡ cond (beyond mean slope) (pos 0) q1 }
{
    if is_beyond(mean, slope) {
        return 0;
    }
    q1
}

// The depth slope cut to lie within the mean depth; where that changes the level slope, the
// discharge slope goes.
pub fn cut_cell(b: Bed, x: Cell) -> Cell
    requires { Unfinished (bed_in b) (as_cell x) }
    ensures { result ≡ as_list (cut (bed_in b) (as_cell x)) }
{
    let tilt = z1(b);
    let mean = x[0] - z0(b);
    let slope = x[1] - tilt;
    let e1 = clip(mean, slope) + tilt;
    let q1 = uncut(mean, slope, x[3]);
    [x[0], e1, x[2], q1]
}

// Is the mean depth of a cell at most the dry depth? No slope is read, whose range a cut does not keep.
pub fn is_shallow(b: Bed, x: Cell, dry: i64) -> bool
    requires { Ground (bed_in b) × UpTo widest (as_cell x).e0 }
    ensures { result ≡ shallow dry (bed_in b) (as_cell x) }
{
    x[0] - z0(b) <= dry
}

// No discharge where a cell is shallow.
pub fn dried_cell(b: Bed, x: Cell, dry: i64) -> Cell
    requires { Ground (bed_in b) × UpTo widest (as_cell x).e0 }
    ensures { result ≡ as_list (dried dry (bed_in b) (as_cell x)) }
{
    if is_shallow(b, x, dry) {
        return [x[0], x[1], 0, 0];
    }
    x
}
