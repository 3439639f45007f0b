// Plays in one location, as values.
use lhg_num::Frac;
use lhg_plant::State;
use lhg_row::Point;

/// One flow of a play: its time and its end.
#[derive(Drop)]
pub struct Move {
    pub time: Frac,
    pub to: Point<Frac>,
}

/// A state, and flows from it, each of which begins where the one before it ended.
#[derive(Drop)]
pub struct Play {
    pub start: State,
    pub moves: Vec<Move>,
}
