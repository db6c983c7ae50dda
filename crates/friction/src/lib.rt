// Friction at one place, in the split implicit form: how strongly it acts, and what that strength leaves
// of a discharge. Each public function answers every call: beyond the limits it refuses.
#![tactic(auto)]

mod limits;
pub mod slowed;
pub mod strength;
