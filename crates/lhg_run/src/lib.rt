//! What a controller does with a log: its run, entry by entry.
#![tactic(auto)]

mod copies;
mod doing;
mod flows;
mod moves;
mod rows;
mod running;
mod runs;
mod sights;
mod stops;
mod ways;

pub use runs::run;
pub use stops::RunStop;
