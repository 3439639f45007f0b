// Guesses at whether a system has a point, and their exact confirmation.
//
// A guess is a point, or multipliers of the rows, that a tableau of whole numbers gives. Nothing rests on it: a guess counts
// only once it is confirmed, by the rows themselves.
#![tactic(auto)]

mod bounds;
mod boxes;
mod confirming;
mod guesses;
mod guessing;
mod hints;
pub mod laws;
mod lifting;
mod mixing;
mod orders;
mod reading;
mod solving;
mod tableau;
#[cfg(test)]
mod tests;
mod thinning;
mod whole;

pub use bounds::{Bound, chosen};
pub use confirming::confirm;
pub use guesses::Guess;
pub use guessing::{decide, guess};
pub use thinning::Thinning;
