// What an entry does.
use lhg_plant::State;
use lhg_play::Step;

/// The steps of the trace, the state after them, and the switch that is then pending.
#[derive(Drop)]
pub(crate) struct Done {
    pub(crate) steps: Vec<Step>,
    pub(crate) state: State,
    pub(crate) pending: Option<u32>,
}
