// Which locations a round may pass over, and what it needs of the others.
#![tactic(auto)]

pub mod laws;
mod marks;
mod outside;
mod sets;

pub use marks::{none_quiet, quiet_after};
pub use outside::renew_away;
pub use sets::{busy_back, busy_hits};
