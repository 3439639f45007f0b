// What a run tells, as a value.
use lhg_num::Frac;
use lhg_plant::State;
use lhg_row::Point;

/// One step of a run. A switch is named by its place in the plant's list.
#[derive(Drop)]
pub enum Step {
    /// The state at which the run starts.
    Start(State),
    /// A flow, as far as it was run.
    Flow { time: Frac, to: Point<Frac> },
    /// The controller takes a switch.
    Switch { number: u32 },
    /// The result of the switch that was taken.
    Land(State),
    /// The plant takes a switch.
    Env { number: u32, to: State },
}

/// All steps of a run, in order.
#[derive(Drop)]
pub struct Trace {
    pub steps: Vec<Step>,
}
