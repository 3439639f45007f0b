//! Guards cut to the rim: the states of a region that the plant may leave at once, and the controller that switches there alone.
#![tactic(auto)]

mod cutting;
pub mod laws;
mod outside;
mod rims;
#[cfg(test)]
mod tests;

pub use cutting::candidate;
pub use outside::away;
pub use rims::rim;
