//! Controllers and logs: their values and their texts.
#![tactic(auto)]

mod controller_lines;
mod controllers;
mod draft_printing;
mod entries;
pub mod laws;
mod log_lines;
mod logs;
mod making;
mod name_lists;
mod open_drafts;
mod open_logs;
mod printing;
mod reading;
#[cfg(test)]
mod tests;
mod versions;

pub use controller_lines::MOST_ROUNDS;
pub use controllers::{Controller, Draft};
pub use draft_printing::print_draft;
pub use entries::Entry;
pub use logs::read_log;
pub use making::controller_of;
pub use printing::{print_controller, push_controller, push_pieces};
pub use reading::read_controller;
