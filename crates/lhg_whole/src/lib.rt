// Exact whole numbers in 128 bits, and rows of them.
#![tactic(auto)]

mod contents;
pub mod laws;
mod lifting;
mod numbers;
#[cfg(test)]
mod tests;
mod whole;

pub use contents::content;
pub use lifting::{lift, lower};
pub use whole::Whole;
