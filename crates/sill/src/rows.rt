// The numbers that travel together, and the rows that the step keeps in its tables: each has one meaning.
ghost use Rattle.std.specs.Prelude.{◌≡◌};
ghost use Rattle.face.specs.Sides.{side_in};
ghost use Rattle.sill.specs.Rows.{left_of, right_of};

use face::sides::Side;

// A cell: its level and its discharge. An array, and no struct: what crates/tables says of a lent table in columns it says of
// rows as lists of numbers.
pub type Pool = [i64; 2];

// A cell after friction: its level and its discharge, its depths over the crests at its left and at its
// right face, and its speed.
#[derive(Clone, Copy)]
pub struct Row {
    pub level: i64,
    pub discharge: i64,
    pub left_depth: i64,
    pub right_depth: i64,
    pub speed: i64,
}

// What it shows to its two faces.
impl Row {
    pub fn left_side(self) -> Side
        ensures { side_in result ≡ left_of self }
    {
        Side {
            h: self.left_depth,
            u: self.speed,
        }
    }

    pub fn right_side(self) -> Side
        ensures { side_in result ≡ right_of self }
    {
        Side {
            h: self.right_depth,
            u: self.speed,
        }
    }
}

// What is kept of a face: V, K and A.
#[derive(Clone, Copy)]
pub struct FaceRow {
    pub volume: i64,
    pub pressure: i64,
    pub advection: i64,
}

// An end: a wall, which turns water back, or open, which lets it through.
#[derive(Clone, Copy, Debug, PartialEq, Eq)]
pub enum End {
    Wall,
    Open,
}

// The numbers of a call, each in its list: the length of a cell, the time step, the dry depth and how many cells
// there are; and the two ends.
#[derive(Clone, Copy, Debug, PartialEq, Eq)]
pub struct Call {
    pub dx: i64,
    pub dt: i64,
    pub dry: i64,
    pub n: usize,
    pub left: End,
    pub right: End,
}
