//! Three proved callers of the library: what a controller may do at a state, the report of a plant's text, and the verdict on a
//! controller that was built from rows. They are examples to copy, and show what the clauses of the crates below are enough for.
#![tactic(auto)]

mod advising;
mod judging;
mod reporting;
#[cfg(test)]
mod tests;

pub use advising::{Advice, advise};
pub use judging::{Judged, judge};
pub use reporting::{NoReport, report};
