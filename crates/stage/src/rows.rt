// The rows that a stage keeps in its tables, and what is made of them: each has one meaning.
ghost use Rattle.std.specs.Prelude.{◌≡◌};
ghost use Rattle.face.specs.Sides.{side_in};
ghost use Rattle.stage.specs.Rows.{left_of, right_of};

use face::sides::Side;

// What a cell shows to its two faces: depth and speed at its left face, depth and speed at its right. An array, as a
// cell is: it shares its table with the unfinished state, so that a stage clears one table less.
pub type Sides = [i64; 4];

// What is kept of a face: mass F, pressure K, advection A and the volume V.
#[derive(Clone, Copy, Default)]
pub struct FaceRow {
    pub mass: i64,
    pub pressure: i64,
    pub advection: i64,
    pub volume: i64,
}

// The two sides of a cell's row.
pub fn left_side(row: Sides) -> Side
    ensures { side_in result ≡ left_of row }
{
    Side {
        h: row[0],
        u: row[1],
    }
}

pub fn right_side(row: Sides) -> Side
    ensures { side_in result ≡ right_of row }
{
    Side {
        h: row[2],
        u: row[3],
    }
}
