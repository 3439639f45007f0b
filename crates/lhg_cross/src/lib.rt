// One crossing: the points of a piece from which one straight flow leads through a second piece into a third.
#![tactic(auto)]

mod assembling;
mod crossing;
pub mod laws;
mod middles;
mod relaxing;
mod speeds;
mod tallies;
#[cfg(test)]
mod tests;

pub use assembling::cross_rows;
pub use crossing::cross;
pub use tallies::Tally;
