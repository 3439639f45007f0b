// What switches do to sets of states: the safe states, the states from which a switch leads into pieces, those from which the
// plant leaves a region, and those from which the controller keeps it.
#![tactic(auto)]

mod backs;
mod hits;
mod invariant_lists;
mod near;
mod outs;
mod predecessors;
mod safe;
#[cfg(test)]
mod tests;

pub use backs::{back, back_by, guards, guards_with};
pub use hits::{Hit, hits_at};
pub use invariant_lists::{invariant_list, invariants};
pub use near::near_at;
pub use outs::{Outs, away_of, out, out_with};
pub use predecessors::pre;
pub use safe::{safe_pieces, safe_region};
