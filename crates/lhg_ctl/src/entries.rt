// Entries of a log.

use lhg_num::Frac;
use lhg_row::Point;

/// An entry of a log.
#[derive(Drop)]
pub enum Entry {
    /// A flow, with its time and its end.
    Flow { time: Frac, to: Point<Frac> },
    /// An uncontrollable switch, with its result.
    Env { switch: u32, to: Point<Frac> },
    /// The result of the switch that is pending.
    Land { to: Point<Frac> },
}
