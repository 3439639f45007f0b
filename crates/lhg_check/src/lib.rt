//! Whether a controller is valid, and a state that shows it where it is not.
#![tactic(auto)]

mod checking;
mod escaping;
mod firsts;
mod guarding;
pub mod laws;
mod safety;
#[cfg(test)]
mod tests;
mod verdicts;

pub use checking::check;
pub use verdicts::Verdict;
