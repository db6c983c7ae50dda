// The three numbers of water at one place: the speed of a discharge, the wave speed of a depth, and
// the cube-root number by which friction divides. Each public function answers every call: beyond
// the limits of depth, discharge and dry depth there is no number.
#![tactic(auto)]

pub mod cube;
pub mod limits;
mod search;
pub mod speed;
pub mod wave;
