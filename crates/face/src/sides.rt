// The two sides of a face, and what crosses it.

// One side of a face: its depth and its speed.
#[derive(Clone, Copy, Debug, PartialEq, Eq)]
pub struct Side {
    pub h: i64,
    pub u: i64,
}

// What crosses a face: mass F, pressure K, advection A, and the top speed S.
#[derive(Clone, Copy, Debug, PartialEq, Eq)]
pub struct Flux {
    pub f: i64,
    pub k: i64,
    pub a: i64,
    pub s: i64,
}
