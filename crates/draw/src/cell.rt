// A cell of a reach over a sloping bed, and where it stands in the four columns of a state.
ghost use Rattle.std.specs.Prelude.{◌≡◌};
ghost use Rattle.draw.specs.Cell.{over, put_cell};

use crate::tables::{narrow, put};

// Level and discharge, means and slopes, as 64 bits each.
#[derive(Clone, Copy)]
pub struct Cell {
    pub e0: u64,
    pub e1: u64,
    pub q0: u64,
    pub q1: u64,
}

// A cell of the given depths and discharges over half beds zl and zr.
#[tactic(auto, unfolding(crate::specs::Cell::over))]
pub fn over(zl: u64, zr: u64, h0: u64, h1: u64, q0: u64, q1: u64) -> Cell
    ensures { result ≡ over zl zr h0 h1 q0 q1 }
{
    Cell {
        e0: h0.wrapping_add(zl.wrapping_add(zr)),
        e1: h1.wrapping_add(zr.wrapping_sub(zl)),
        q0,
        q1,
    }
}

// Cell i of n, a number in each of the four columns.
#[tactic(auto, unfolding(crate::specs::Cell::put_cell))]
pub fn put_cell(state: &mut [i32], n: usize, i: usize, cell: Cell)
    ensures { state.new ≡ put_cell state.old n i cell }
{
    let numbers = [cell.e0, cell.e1, cell.q0, cell.q1];
    for (column, x) in numbers.into_iter().enumerate() {
        put(state, column.wrapping_mul(n).wrapping_add(i), narrow(x));
    }
}
