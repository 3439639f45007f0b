// The pieces from which a play inside some pieces leads into bad ones.
#![tactic(auto)]

mod found;
mod kept;
pub mod laws;
mod layer;
mod neighbours;
mod openings;
mod reaching;
mod search;
#[cfg(test)]
mod tests;

pub use found::{Found, Reached};
pub use reaching::reach;
