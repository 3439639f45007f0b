// What the controller does in an exchange, as a value.
use lhg_num::Frac;
use lhg_row::Point;

/// One move of the controller against the plant's play. Flows are counted from 1; a place is a number from 0 to below 1; a switch is
/// named by its place in the plant's list. A result is named exactly where the controller picks it.
#[derive(Drop)]
pub enum CtlMove {
    /// The controller lets the plant's play run.
    Wait,
    /// It takes a switch at a place of a flow.
    Act {
        flow: u32,
        place: Frac,
        switch: u32,
        to: Option<Point<Frac>>,
    },
}
