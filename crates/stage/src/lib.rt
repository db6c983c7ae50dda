// The two stages of a step, worked on tables of their own: friction, the speeds at faces and Gauss
// points, the fluxes, the updates and finishing. The two public functions, `worked::work` and
// `state_and_bed::check`, check all that they are lent and answer every call; what they call stands in
// modules that are not public.
#![tactic(auto)]

mod cell;
mod checks;
mod course;
mod ending;
mod ends;
mod face_speeds;
mod faces;
mod joining;
mod lent;
mod points;
mod rows;
mod rubbed;
mod sides;
mod stages;
pub mod state_and_bed;
mod store;
mod update;
pub mod worked;
