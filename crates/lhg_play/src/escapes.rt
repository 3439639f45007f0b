// How the plant leaves a set of states, as a value.
use crate::plays::Play;
use lhg_plant::State;

/// A play from a state that was removed in a round, and where its last point is left by an uncontrollable switch, the place of that switch in the
/// plant's list, with its result.
#[derive(Drop)]
pub struct Escape {
    pub round: u32,
    pub play: Play,
    pub last: Option<(u32, State)>,
}
