//! Generated plants.
#![tactic(auto)]

mod plants;
mod reading;
mod stops;
#[cfg(test)]
mod tests;

pub use plants::plant_of;
pub use reading::generate;
pub use stops::GenStop;
