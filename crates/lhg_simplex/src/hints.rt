// What a search tells, in the numbers of the rows.
use lhg_num::Scalar;
use lhg_row::Point;

/// A guess in the numbers of the rows.
#[derive(Drop)]
pub(crate) enum Hint<N: Scalar> {
    /// A point that may be one of the rows.
    Point(Point<N>),
    /// One number per row: the sum of the rows so multiplied may be false everywhere.
    Multipliers(Vec<N>),
    /// No hint.
    Undecided,
}

/// A row of a sum, by its place, and its multiplier.
#[derive(Clone, Copy)]
pub(crate) struct Part<N: Scalar> {
    pub(crate) row: usize,
    pub(crate) by: N,
}
