// Pieces: trimmed lists of rows that have a point, none of which follows from the others, and what is made of them.
#![tactic(auto)]

mod asking;
mod clashing;
mod entailing;
pub mod laws;
mod making;
mod meeting;
mod polys;
mod projecting;
#[cfg(test)]
mod tests;

pub use asking::are_refuted;
pub use entailing::{entails, includes};
pub use making::make;
pub use meeting::{are_apart, closure, meet};
pub use polys::Poly;
pub use projecting::project;
