// Lists of pieces: regions, differences, intersections and covers.
#![tactic(auto)]

mod cutting;
mod differences;
mod intersections;
mod limits;
mod regions;
mod telling;
#[cfg(test)]
mod tests;

pub use cutting::push_some;
pub use differences::{copies, covered, minus};
pub use intersections::meet_lists;
pub use limits::{LIST_ROW_LIMIT, PIECE_LIMIT, gather, is_within};
pub use regions::Region;
pub use telling::{tell_lists, tell_pieces};
