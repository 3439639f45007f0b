// What may be guessed of a system.
use lhg_num::Frac;
use lhg_row::Point;

/// A hint at whether a system has a point.
#[derive(Drop)]
pub enum Guess {
    /// A point that may be one of the system.
    Point(Point<Frac>),
    /// One number per row: the sum of the rows so multiplied may be false everywhere.
    Multipliers(Vec<Frac>),
    /// No hint.
    Undecided,
}
