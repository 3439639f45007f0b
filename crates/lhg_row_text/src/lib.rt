//! Numbers, rows and points as texts.
#![tactic(auto)]

pub mod laws;
mod numbers;
mod points;
mod rows;
mod terms;
#[cfg(test)]
mod tests;

pub use numbers::push_number;
pub use points::{push_point, push_state};
pub use rows::{push_jump_rows, push_rows};
