// The lent tables, filled from what was drawn. What is behind a reach in a table stays as it was.
use crate::kinds::{cells, drawn_cell, face, first_face, roughness, seed};
use draw::cell::put_cell;
use draw::numbers::{following, pick};
use draw::tables::narrow;

// Beyond a table's end 0 is found.
pub fn at(table: &[i32], i: usize) -> u64 {
    table.get(i).map_or(0, |x| i64::from(*x).cast_unsigned())
}

// Half of a bed value.
pub fn found(bed: &[i32], i: usize) -> u64 {
    at(bed, i) >> 1
}

pub fn fill_bed(bed: &mut [i32], r: u64) {
    let mut x = seed(r);
    let mut z = first_face(r);
    for value in bed.iter_mut().take(cells(r) + 1) {
        x = following(x);
        z = face(r, z, x);
        *value = narrow(z << 1);
    }
}

fn friction_at(r: u64, x: u64) -> u16 {
    let most = roughness(r);
    let rough = if x.is_multiple_of(2) {
        most
    } else {
        pick(x, most)
    };
    (rough % 65536) as u16
}

pub fn fill_friction(friction: &mut [u16], r: u64) {
    let mut x = following(seed(r) ^ 1);
    for value in friction.iter_mut().take(cells(r)) {
        x = following(x);
        *value = friction_at(r, x);
    }
}

pub fn fill_state(state: &mut [i32], bed: &[i32], r: u64) {
    let n = cells(r);
    let mut x = following(seed(r) ^ 2);
    for i in 0..n {
        x = following(x);
        let cell = drawn_cell(r, found(bed, i), found(bed, i + 1), x);
        put_cell(state, n, i, cell);
    }
}
