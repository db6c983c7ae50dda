// What the programs that hold the library to stored texts draw their cases from, and how they add up what came of them.
//
// A number with a sign is mostly kept as its 64 bits, so that its sums wrap and none of them can fail.
#![tactic(auto)]

pub mod cell;
pub mod numbers;
pub mod sums;
pub mod tables;
