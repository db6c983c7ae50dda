// The lent tables: how long they are, and filled from what was drawn.
ghost use Rattle.std.specs.Prelude.{◌≤◌};

use crate::kinds::{Fault, cells, drawn_cell, face, fault_in};
use draw::cell::put_cell;
use draw::tables::narrow;

// The lent tables, but for the one of friction, which is always as long as the reach.
#[derive(Clone, Copy)]
pub enum Table {
    State,
    Next,
    Bed,
    Sums,
}

// How long a table is for n cells.
fn right_length(table: Table, n: usize) -> usize
    requires { n ≤ 1024 }
{
    match table {
        Table::State | Table::Next => 4 * n,
        Table::Bed => n + 1,
        Table::Sums => n.div_ceil(16),
    }
}

// How much of a table of m is lent. It is one more or less than fits where the reach has a fault that says so.
pub fn lent(table: Table, r: u64, m: usize) -> usize
    ensures { result ≤ m }
{
    let right = right_length(table, cells(r));
    let length = match (table, fault_in(r)) {
        (Table::State, Some(Fault::StateShort)) | (Table::Sums, Some(Fault::SumsShort)) =>
            right.saturating_sub(1),
        (Table::Bed, Some(Fault::BedLong)) | (Table::Sums, Some(Fault::SumsLong)) =>
            right.wrapping_add(1),
        _ => right,
    };
    length.min(m)
}

pub fn fill_bed(bed: &mut [i32], r: u64) {
    for (i, value) in bed.iter_mut().take(cells(r) + 1).enumerate() {
        *value = narrow(face(r, i as u64));
    }
}

pub fn fill_state(state: &mut [i32], r: u64) {
    let n = cells(r);
    for i in 0..n {
        put_cell(state, n, i, drawn_cell(r, i as u64));
    }
}
