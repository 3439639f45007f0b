// The projection of a system where the plain way forms many rows.
//
// The piece that a projection makes keeps few of the rows that the last elimination forms, which are hundreds or thousands. So the rows before it are made a piece, which
// has the same points and few rows; this piece is projected; and for each row of what is left a point is guessed at which the row has no room, and as few others as may be. A row of the last
// elimination that has room at all of these points does not tell whether one that has none at some of them follows from others: near enough to the point, where the one still holds, the other
// fails as it does farther off. So the directions alone of rows without room are kept, in the order in which rows are formed. Of rows with one direction trim keeps the tightest in the place of
// the first; so what is kept is the list that trim would leave of all rows, without those of other directions, which follow from the rest.
#![tactic(auto)]

mod directions;
mod forming;
mod fractions;
mod kinds;
pub mod laws;
mod projecting;
mod pruning;
mod seats;
#[cfg(test)]
mod tests;
mod touching;

pub use projecting::project_further;
