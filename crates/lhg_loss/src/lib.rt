// Records of what is lost, rounds, and the iteration.
#![tactic(auto)]

mod covering;
mod holding;
pub mod laws;
mod losses;
#[cfg(test)]
mod tests;

pub use covering::covers;
pub use holding::first_holding;
pub use losses::{Cause, Loss};
