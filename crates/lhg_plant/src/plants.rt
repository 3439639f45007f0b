// Plants as values.
ghost use Rattle.lhg_plant.specs.Parts.{plain_parts};
ghost use Rattle.lhg_plant.specs.Proper.{IsProper};
ghost use Rattle.lhg_plant.specs.ProperOnce.{proper-prop};

use crate::names::Name;
use lhg_num::Frac;
use lhg_row::Row;

/// Who takes a switch, and who picks its result.
#[derive(Clone, Copy, Debug, PartialEq, Eq)]
pub enum Side {
    /// The controller may take it, and the plant picks the result.
    Ctl,
    /// The plant may take it, and picks the result.
    Env,
    /// The controller may take it, and picks the result.
    Pick,
}

/// A location. Each row has one coefficient per variable of the plant; those of `flow` are over the derivatives.
#[derive(Drop)]
pub struct Location {
    pub name: Name,
    /// Rows that hold at each state of the location.
    pub inv: Vec<Row<Frac>>,
    /// Rows that hold at each speed with which a state may move.
    pub flow: Vec<Row<Frac>>,
    /// Safe lines: a state is safe where all rows of at least one of them hold.
    pub safe: Vec<Vec<Row<Frac>>>,
}

/// A switch between two locations, which are places in the plant's list.
#[derive(Drop)]
pub struct Switch {
    pub name: Name,
    pub from: u32,
    pub to: u32,
    pub side: Side,
    /// Rows over the old values of the variables and then the new ones.
    pub jump: Vec<Row<Frac>>,
}

/// A linear hybrid automaton. Its names differ within each list, its places are in range, the lengths of its rows agree, and
/// it is not too large.
#[derive(Drop)]
pub struct Plant {
    pub vars: Vec<Name>,
    pub locs: Vec<Location>,
    pub switches: Vec<Switch>,
    pub ghost proper: { IsProper (plain_parts vars.items locs.items switches.items) } by { proper-prop (plain_parts vars.items locs.items switches.items) },
}
