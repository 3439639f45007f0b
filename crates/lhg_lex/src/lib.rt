// The lines of a text, their tokens as slices of it, and its first token error.
#![tactic(auto)]

mod classes;
mod contents;
mod cursor;
mod kinds;
pub mod laws;
mod lengths;
mod line_tokens;
mod literals;
mod stops;
#[cfg(test)]
mod tests;
mod tokens;

pub use cursor::{Lines, TEXT_LIMIT};
pub use stops::{ReadStop, What};
pub use tokens::{Line, Tok, Token};
