// The rounds of the game, one after the other, until one removes nothing.
#![tactic(auto)]

mod carried;
mod causes;
mod computing;
pub mod laws;
mod limits;
mod passing;
mod places;
mod records;
mod rounds;
mod seeking;
mod solving;
mod stages;
mod stops;
mod telling;
#[cfg(test)]
mod tests;

pub use computing::round;
pub use laws::law_largest;
pub use limits::{RECORD_LIMIT, RECORD_ROW_LIMIT};
pub use rounds::Round;
pub use seeking::{SeekStop, Sought, seek};
pub use solving::{Solved, solve};
pub use stops::Stop;
