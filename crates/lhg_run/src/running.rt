// Where a run stands.
use lhg_plant::State;
use lhg_play::Step;

/// The steps so far, the state, and the switch that is pending.
#[derive(Drop)]
pub(crate) struct Running {
    pub(crate) steps: Vec<Step>,
    pub(crate) state: State,
    pub(crate) pending: Option<u32>,
}
