// What the plant and the controller do on the way from a lost state to an unsafe one, as a value.
use lhg_num::Frac;
use lhg_plant::State;
use lhg_row::Point;

/// One step of the exchanges from a lost state. A switch is named by its place in the plant's list.
#[derive(Drop)]
pub enum SpoilStep {
    /// An exchange begins at a state that was removed in this round.
    Round(u32),
    /// A flow of the plant's play, as far as it was run.
    Flow { time: Frac, to: Point<Frac> },
    /// The controller takes a switch.
    Act { switch: u32 },
    /// The result of the switch that was taken.
    Land(State),
    /// The plant takes a switch.
    Env { number: u32, to: State },
}
