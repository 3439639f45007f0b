// Cells of side 1 in rows along each variable, through which a plant flows to a wall behind the last ones.
ghost use Rattle.std.specs.Prelude.{◌≡◌, ◌<◌, IfOk, OnOk};
ghost use Rattle.lhg_row.specs.Width.{AllWide};
ghost use Rattle.lhg_reach.specs.FoundParts.{AllFoundVars};
ghost use Rattle.lhg_union.specs.PolyLists.{AllVars};

use crate::bounds::side;
use lhg_cross::Tally;
use lhg_num::{Frac, Halt};
use lhg_poly::{Poly, make};
use lhg_reach::{Found, reach};
use lhg_row::{Kind, Row};
use lhg_union::push_some;
use std::alloc::Global;

/// So many cells along each of so many variables.
#[derive(Clone, Copy)]
pub struct Lattice {
    pub vars: u8,
    pub cells: u8,
}

// The rows of the cell with this number, whose digits are the places of the cell along each variable: from the place on, and below the next one.
fn cell_rows(alloc: Global, vars: usize, cells: u32, number: u32) -> Result<Vec<Row<Frac>>, Halt>
    requires { 0 < cells }
    ensures { IfOk result (λ v. AllWide vars v.items) }
{
    let mut out = Vec::new(alloc);
    let mut rest = number;
    for k in 0..vars {
        let low = i64::from(rest % cells);
        rest /= cells;
        out.push(side(alloc, vars, k, -1, Kind::Weak, -low)?)?;
        out.push(side(alloc, vars, k, 1, Kind::Strict, low + 1)?)?;
    }
    Ok(out)
}

// Puts the cell with this number at the end of the list.
fn push_cell(
    alloc: Global,
    out: &mut Vec<Poly<Frac>>,
    vars: usize,
    cells: u32,
    number: u32,
) -> Result<(), Halt>
    requires cells { 0 < cells }
    requires vars { AllVars vars out.old.items }
    ensures { OnOk result (AllVars vars out.new.items) }
{
    let rows = cell_rows(alloc, vars, cells, number)?;
    let piece = make(alloc, vars, rows)?;
    push_some(out, piece)
}

impl Lattice {
    /// The number of variables.
    pub fn width(&self) -> usize
        ensures vars { result ≡ self.now.vars }
        ensures few { result < 256 }
    {
        usize::from(self.vars)
    }

    /// All cells.
    pub fn all(&self, alloc: Global) -> Result<Vec<Poly<Frac>>, Halt>
        ensures { IfOk result (λ v. AllVars self.now.vars v.items) }
    {
        let cells = u32::from(self.cells);
        let mut out = Vec::new(alloc);
        if cells == 0 {
            return Ok(out);
        }
        let count = cells.checked_pow(u32::from(self.vars)).ok_or(Halt::Pieces)?;
        for number in 0..count {
            push_cell(alloc, &mut out, self.width(), cells, number)?;
        }
        Ok(out)
    }

    // The rows of the wall, which stands where the last cells along the first variable end.
    fn wall_rows(&self, alloc: Global) -> Result<Vec<Row<Frac>>, Halt>
        ensures { IfOk result (λ v. AllWide self.now.vars v.items) }
    {
        let vars = self.width();
        let end = i64::from(self.cells);
        let mut out = Vec::new(alloc);
        for k in 0..vars {
            let low = if k == 0 { -end } else { 0 };
            out.push(side(alloc, vars, k, -1, Kind::Weak, low)?)?;
            out.push(side(alloc, vars, k, 1, Kind::Weak, end)?)?;
        }
        Ok(out)
    }

    /// The wall.
    pub fn wall(&self, alloc: Global) -> Result<Vec<Poly<Frac>>, Halt>
        ensures { IfOk result (λ v. AllVars self.now.vars v.items) }
    {
        let rows = self.wall_rows(alloc)?;
        let piece = make(alloc, self.width(), rows)?;
        let mut out = Vec::new(alloc);
        push_some(&mut out, piece)?;
        Ok(out)
    }

    /// The flow rows: the first variable grows at a speed from 1 to 2, and each other one changes at a speed of at most 1 either way.
    pub fn speeds(&self, alloc: Global) -> Result<Vec<Row<Frac>>, Halt>
        ensures { IfOk result (λ v. AllWide self.now.vars v.items) }
    {
        let vars = self.width();
        let mut out = Vec::new(alloc);
        for k in 0..vars {
            let low = if k == 0 { -1 } else { 1 };
            out.push(side(alloc, vars, k, -1, Kind::Weak, low)?)?;
            let high = if k == 0 { 2 } else { 1 };
            out.push(side(alloc, vars, k, 1, Kind::Weak, high)?)?;
        }
        Ok(out)
    }

    /// The pieces of the cells from which the plant reaches the wall, with a count of the crossings.
    pub fn found(&self, alloc: Global, tally: &mut Tally) -> Result<Vec<Found<Frac>>, Halt>
        ensures { IfOk result (λ v. AllFoundVars self.now.vars v.items) }
    {
        let near = self.all(alloc)?;
        let bad = self.wall(alloc)?;
        let flow = self.speeds(alloc)?;
        let reached = reach(alloc, &bad, &near, &flow, tally)?;
        Ok(reached.found)
    }

    /// How many crossings this takes.
    pub fn crossings(&self, alloc: Global) -> Result<u64, Halt> {
        let mut tally = Tally::new();
        let _ = self.found(alloc, &mut tally)?;
        Ok(tally.count())
    }
}
