//! Plants from their texts.
#![tactic(auto)]

mod axes;
mod constraints;
mod digits;
mod draft;
mod forms;
mod heads;
pub mod laws;
mod names;
mod next_lines;
mod operators;
mod pairs;
mod parts;
mod places;
mod plant;
mod plant_lines;
mod points;
mod refusal;
mod rest;
mod rows;
mod signs;
mod states;
mod sums;
mod switches;
mod terms;
#[cfg(test)]
mod tests;

pub use axes::still_rows;
pub use digits::{counted_in, numbered};
pub use forms::Form;
pub use heads::is_head;
pub use names::read_name;
pub use next_lines::needed_line;
pub use places::{controllable_named, location_named, uncontrollable_named};
pub use plant::read_plant;
pub use points::{point_from, read_point};
pub use refusal::{Refusal, stop_at};
pub use rest::finish;
pub use rows::{read_rows, rows_from};
pub use signs::is_word;
pub use states::{read_state, state_by};
pub use switches::place_in;
