// What finishing reads. It writes into another table, so that the order of the cells does not matter.
use reach::{Call, Cell, Reach};

// An unfinished table, the bed under it, and the reach and the call that it is of.
#[derive(Clone, Copy)]
pub struct UnfinishedTable<'a> {
    pub cells: &'a [Cell],
    pub bed: &'a [i32],
    pub reach: Reach,
    pub call: Call,
}
