// The end of the step: what friction left and what stage two gives, joined by the volumes of the faces.
ghost use Rattle.std.specs.Prelude.{◌≡◌, ◌<◌, get_or, length, ◌+ℤ◌, ◌-ℤ◌};
ghost use Rattle.tables.specs.Cells.{as_cell, as_list, seen};
ghost use Rattle.rules.specs.Step.{half, joined_cell};
ghost use Rattle.reach.specs.Ranges.{UpTo, widest, Wide, Wides};
ghost use Rattle.stage.specs.Ranges.{Room, FaceRoom, Row, FaceRows};
ghost use Rattle.stage.specs.Rows.{no_row, volume_at};
ghost use Rattle.stage.specs.Says.{JoinSays};

use crate::rows::FaceRow;
use reach::{Cell, Reach};

// Half of what two stages give.
fn half_of(x: i64, y: i64) -> i64
    requires { UpTo widest x × UpTo widest y }
    ensures { result ≡ half x y }
{
    (x + y) / 2
}

// A level after what came in at one face and went out at the other.
fn end_level(e: i64, wl: i64, wr: i64) -> i64
    requires { UpTo widest e × UpTo widest wl × UpTo widest wr }
    ensures { result ≡ e +ℤ wl -ℤ wr }
{
    e + wl - wr
}

// A cell's end, from its value x after friction, its value y after stage two, and W at its faces.
fn joined_cell(x: Cell, y: Cell, wl: i64, wr: i64) -> Cell
    requires wide { Wide (as_cell x) × Wide (as_cell y) }
    requires up_to { UpTo widest wl × UpTo widest wr }
    ensures { result ≡ as_list (joined_cell (as_cell x) (as_cell y) wl wr) }
{
    let e0 = end_level(x[0], wl, wr);
    let e1 = half_of(x[1], y[1]);
    let q0 = half_of(x[2], y[2]);
    let q1 = half_of(x[3], y[3]);
    [e0, e1, q0, q1]
}

// W at face i, from its rows in the two stages.
pub fn end_volume(f: &[FaceRow], g: &[FaceRow], i: usize) -> i64
    requires i_in_bounds { (i < length f.now) × (i < length g.now) }
    requires row { Row (get_or f.now i no_row) × Row (get_or g.now i no_row) }
    ensures { result ≡ volume_at f.now g.now i }
{
    half_of(f[i].volume, g[i].volume)
}

// The unfinished end state, in place of u after stage two: x after friction, f and g the two stages' faces.
pub fn join(x: &[Cell], u: &mut [Cell], f: &[FaceRow], g: &[FaceRow], reach: Reach)
    requires room { Room reach x.now × Room reach u.old × FaceRoom reach f.now × FaceRoom reach g.now }
    requires wides { Wides reach.n (seen x.now) × Wides reach.n (seen u.old) }
    requires face_rows { FaceRows f.now reach.n × FaceRows g.now reach.n }
    ensures { JoinSays reach.n (seen x.now) (seen u.old)
        f.now g.now u.new }
{
    for i in 0..reach.n {
        let wl = end_volume(f, g, i);
        let wr = end_volume(f, g, i + 1);
        u[i] = joined_cell(x[i], u[i], wl, wr);
    }
}
