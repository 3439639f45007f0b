// Why a state was lost: a play by which the plant leaves a round from it, made of the loss records.
//
// A record names one move from each of its states, and the pieces that show it. The move from one of them is the sample of the
// rows of all such moves, with the state put in. It leaves the round, or leads to a state of a record with a smaller number, so the play ends.
#![tactic(auto)]

mod explaining;
mod following;
pub mod laws;
mod moves;
mod samples;
mod telling;

pub use explaining::explain;
pub use lhg_play::Escape;
