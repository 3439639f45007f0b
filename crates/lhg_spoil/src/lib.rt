// How the plant wins from a lost state, whatever the controller does: exchanges, each of which is a play of the plant, a move of the controller, and what comes of it.
#![tactic(auto)]

mod acts;
mod answers;
mod copies;
mod ctl_moves;
#[cfg(test)]
mod exchange_tests;
mod exchanges;
mod fibres;
mod holding;
pub mod laws;
mod move_lines;
mod open_moves;
mod plays;
mod reading;
mod spoiling;
mod stops;
mod tellers;
#[cfg(test)]
mod tests;
pub mod text_laws;

pub use ctl_moves::CtlMove;
pub use reading::read_moves;
pub use spoiling::spoil;
pub use stops::{SpoilStop, Spoiled};
pub use tellers::{Teller, Told};
