// Forward reachable sets: the states to which legal flows and switches lead from given ones.
#![tactic(auto)]

mod flows;
mod forwarding;
mod growing;
mod growth;
mod init_lines;
mod invariants;
mod joining;
pub mod laws;
mod making;
mod open_inits;
mod reading;
mod sets;
mod stages;
mod stops;
mod switches;
#[cfg(test)]
mod tests;

pub use flows::after_flow;
pub use forwarding::forward;
pub use making::init_of;
pub use reading::read_init;
pub use sets::Forward;
pub use stops::{ForwardStop, halted};
pub use switches::after_switch;
