// Plays, what a run tells, and escapes, as values, and the check points of a segment.
#![tactic(auto)]

mod cutting;
mod escapes;
mod joining;
mod places;
mod plays;
mod spoils;
#[cfg(test)]
mod tests;
mod traces;

pub use cutting::cut;
pub use escapes::Escape;
pub use joining::join_flow;
pub use lhg_plant::StateSet;
pub use places::point_at;
pub use plays::{Move, Play};
pub use spoils::SpoilStep;
pub use traces::{Step, Trace};
