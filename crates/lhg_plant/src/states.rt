// States of a plant.
use lhg_num::Frac;
use lhg_row::Point;

/// A location, which is a place in the plant's list, and a point. Whether the point is in the location's invariant is a
/// question of its own.
#[derive(Drop)]
pub struct State {
    pub loc: u32,
    pub at: Point<Frac>,
}
