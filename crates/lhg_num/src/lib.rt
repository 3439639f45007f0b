// Exact fractions in 128 bits, and what every number type offers.
#![tactic(auto)]

mod divisors;
mod fraction;
pub mod laws;
mod number_type;
mod parts;
mod quotients;
mod refusals;
mod scaling;
#[cfg(test)]
mod tests;

pub use divisors::gcd;
pub use fraction::Frac;
pub use number_type::Scalar;
pub use quotients::divided;
pub use refusals::{DivError, Halt, Wide};
