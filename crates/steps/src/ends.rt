// The two ends of a call: their kinds, and a Q where an inflow is given.
use crate::fill::at;
use crate::spoil::{Number, given, third};
use draw::numbers::{above, below, following, pick};
use step::End;

// What the ends of a call that is drawn from x are drawn from.
fn fourth(x: u64) -> u64 {
    following(third(x))
}

#[derive(Clone, Copy)]
pub enum Side {
    Left,
    Right,
}

// The depth that the cell at an end of n cells shows there; the greatest where that is out of range.
fn depth_at(side: Side, state: &[i32], bed: &[i32], n: usize) -> u64 {
    let last = n.wrapping_sub(1);
    let (level, z) = match side {
        Side::Left => (at(state, 0).wrapping_sub(at(state, n)), at(bed, 0)),
        Side::Right => (
            at(state, last).wrapping_add(at(state, n.wrapping_add(last))),
            at(bed, n),
        ),
    };
    level.wrapping_sub(z).min(262144)
}

// An inflow into water of depth h: none, little, one of ordinary water so deep, one that does not look
// at the depth, at the greatest speed or a little beyond, any, or about the greatest.
fn inflow(h: u64, x: u64) -> u64 {
    match x % 32 {
        0..=3 => 0,
        4..=6 => above(x, 1, 60),
        7..=25 => pick(x, (h << ((x >> 8) % 7)) >> 4),
        26..=27 => pick(x, 9000),
        28..=29 => above(x, h << 5, 3u64.wrapping_add(h >> 12)),
        30 => pick(x, 8388608),
        _ => below(x, 8388608, 1),
    }
}

// Q at an end of some kind, where the water is h deep.
fn q_at(kind: u64, h: u64, x: u64) -> u64 {
    if kind == 2 {
        inflow(h, x).min(8388608)
    } else {
        0
    }
}

pub fn end(side: Side, x: u64, n: usize, state: &[i32], bed: &[i32]) -> End {
    let y = fourth(x);
    let z = following(y);
    // its kind, what its Q is drawn from, and which numbers of a call they are
    let (kind, from, its_kind, its_q) = match side {
        Side::Left => ((y >> 8) % 3, z, Number::LeftKind, Number::LeftQ),
        Side::Right => (
            (y >> 16) % 3,
            following(z),
            Number::RightKind,
            Number::RightQ,
        ),
    };
    let q = q_at(kind, depth_at(side, state, bed, n), from);
    End {
        kind: given(its_kind, kind, x),
        q: given(its_q, q, x),
    }
}
