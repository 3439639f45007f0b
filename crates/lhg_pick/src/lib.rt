//! Which result of a switch is picked: the sample of the first piece that holds one.
#![tactic(auto)]

mod picks;

pub use picks::{first_result, result_rows, results_in};
