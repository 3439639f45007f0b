//! Plants, reports, traces, explanations, forward sets and exchanges as texts.
#![tactic(auto)]

#[cfg(test)]
mod escape_tests;
mod escapes;
mod forwards;
pub mod laws;
mod losses;
mod moves;
mod plants;
#[cfg(test)]
mod report_tests;
mod reports;
#[cfg(test)]
mod spoil_tests;
mod spoils;
mod telling;
#[cfg(test)]
mod tests;
#[cfg(test)]
mod trace_tests;
mod traces;
mod words;

pub use escapes::print_escape;
pub use forwards::print_forward;
pub use plants::print_plant;
pub use reports::print_report;
pub use spoils::print_spoil;
pub use telling::{tell_pieces, tell_places};
pub use traces::print_trace;
