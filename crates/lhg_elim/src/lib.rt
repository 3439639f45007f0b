// Elimination of one variable from a list of rows, of all later ones, and whether a list has a point.
//
// A row over variable k is, at fixed values of the other variables, an upper or a lower bound on k. Some value of k lies
// between all lower and all upper bounds exactly where each lower bound fits each upper one, since between two different
// numbers lies a third. That a lower bound fits an upper one is the combination of the two rows in which k cancels; it is
// strict where either is. So the rows without k and all these combinations say what some value of k would say. Where two
// weak rows are an equation, they fix the value of k, and the combinations of the other rows with them say all that is left.
//
// The work is done over rows of whole numbers, positive multiples of the given ones, each new row divided by its content: their
// numbers stay small where those of fractions meet their limit. What is left is turned back, which gives the list that the
// number type itself would give. Where a number has no place on this way, that type does the work.
#![tactic(auto)]

mod by_pair;
mod by_sides;
mod by_whole;
mod combining;
mod elimination;
mod emptiness;
mod entries;
pub mod laws;
mod leveling;
mod lifting;
mod narrowing;
mod over_rows;
mod pairing;
mod sides;
#[cfg(test)]
mod tests;
mod turning;

pub use by_sides::{push_sides, push_upper};
pub use combining::comb;
pub use elimination::{eliminate, eliminate_last};
pub use emptiness::is_empty;
pub use leveling::levels;
pub use lifting::lifted_rows;
pub use over_rows::eliminate_later;
pub use pairing::pair;
pub use turning::turned_rows;
