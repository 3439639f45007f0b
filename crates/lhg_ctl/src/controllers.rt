// Controllers as values: as they are written, and as lists of pieces.

use lhg_num::Frac;
use lhg_plant::Name;
use lhg_poly::Poly;
use lhg_row::Row;
use lhg_union::Region;

/// A controller as a text: pieces by the places of their locations, guards by the places of their switches, in the order of the
/// lines.
#[derive(Drop)]
pub struct Draft {
    pub pieces: Vec<(u32, Vec<Row<Frac>>)>,
    pub guards: Vec<(u32, Vec<Row<Frac>>)>,
    /// The number of rounds in which it was found, 0 where that is not known.
    pub rounds: u32,
    /// A name for each guard, in order.
    pub names: Vec<Name>,
}

/// A controller: the region that it keeps the plant in, and for each switch of the plant, in order, the states at which it may
/// take it.
#[derive(Drop)]
pub struct Controller {
    pub region: Region<Frac>,
    pub guards: Vec<Vec<Poly<Frac>>>,
}
