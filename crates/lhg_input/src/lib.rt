//! Whole inputs of the commands: a plant, and what follows it.
#![tactic(auto)]

mod controllers;
mod inits;
pub mod laws;
mod logs;
mod plants;
mod spoils;
mod states;
#[cfg(test)]
mod tests;

pub use controllers::read_controller_input;
pub use inits::{InitInput, read_init_input};
pub use logs::{LogInput, read_log_input};
pub use plants::read_plant_input;
pub use spoils::{SpoilInput, read_spoil_input};
pub use states::read_state_input;
