// Plants, their states, and the safety game on them.
#![tactic(auto)]

mod flow_rows;
mod jump_rows;
pub mod laws;
mod legal;
mod limits;
mod names;
mod plants;
mod safe_lines;
mod sets;
mod states;
#[cfg(test)]
mod tests;

pub use legal::{in_invariant, is_uncontrollable, legal_flow, legal_switch};
pub use limits::{
    MOST_LINE_ROWS, MOST_LOCATIONS, MOST_NAME_BYTES, MOST_SAFE_LINES, MOST_SWITCHES,
    MOST_VARIABLES, law_limits,
};
pub use names::Name;
pub use plants::{Location, Plant, Side, Switch};
pub use safe_lines::is_safe;
pub use sets::StateSet;
pub use states::State;
