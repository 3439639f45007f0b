// Rows and points, pieces, and the calculus of rows.
#![tactic(auto)]

pub mod calculus_laws;
mod coding;
mod copies;
mod forms;
pub mod laws;
pub mod piece_laws;
mod putting;
mod rows;
pub mod scaling;
mod sides;
mod systems;
#[cfg(test)]
mod tests;
mod trimming;
mod values;
mod widening;

pub use copies::{append_rows, copy_row, copy_rows};
pub use forms::{negate, relax, rename, whole_row};
pub use putting::{first_value, put_in, put_in_each};
pub use rows::{Kind, Point, Row};
pub use sides::{is_level, is_lower, is_upper};
pub use systems::System;
pub use trimming::{ROW_LIMIT, is_constant, same_direction, trim};
pub use values::{all_hold, fits, holds, plus_product, shift, value_from};
pub use widening::{append_widened, widen};
