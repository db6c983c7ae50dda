// What crosses one face between two cells, in whole numbers. The public function answers every call:
// beyond the limits of depth and speed there is no number.
#![tactic(auto)]

pub mod flux;
pub mod sides;
