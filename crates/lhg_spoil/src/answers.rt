// What the plant answers to a move.
use lhg_num::Frac;
use lhg_plant::State;
use lhg_play::SpoilStep;
use lhg_row::Point;

/// A switch that was asked for and is answered again, with its named result.
#[derive(Drop)]
pub(crate) struct Again {
    pub(crate) switch: u32,
    pub(crate) to: Option<Point<Frac>>,
}

/// The steps of an exchange after its rank, the state at which it ends, and what is answered again there.
#[derive(Drop)]
pub(crate) struct Answer {
    pub(crate) steps: Vec<SpoilStep>,
    pub(crate) state: State,
    pub(crate) again: Option<Again>,
}
