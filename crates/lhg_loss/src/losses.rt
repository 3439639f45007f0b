// Loss records: the states that a round removes, and the move by which the plant leaves from each of them.
use lhg_num::Frac;
use lhg_poly::Poly;

/// The move, with the pieces that show it.
#[derive(Drop)]
pub enum Cause {
    /// An uncontrollable switch, by its place in the plant's list, leads to the states of a piece.
    Env {
        switch: u32,
        into: Poly<Frac>,
    },
    /// A flow leads through one piece to another.
    Leave {
        through: Poly<Frac>,
        into: Poly<Frac>,
    },
    /// A flow leads through a piece to the states of the record with this number.
    Flow {
        to: u32,
        through: Poly<Frac>,
    },
}

/// A record: its number, counted from 1 over all rounds, its round, the location, a piece of it, and the cause.
#[derive(Drop)]
pub struct Loss {
    pub number: u32,
    pub round: u32,
    pub loc: u32,
    pub piece: Poly<Frac>,
    pub cause: Cause,
}
