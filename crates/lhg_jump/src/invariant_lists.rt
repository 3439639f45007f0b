// The invariants of locations as pieces.
ghost use Rattle.std.specs.Prelude.{length, IfOk};
ghost use Rattle.lhg_num.specs.Halting.{IsHaltedByRows};
ghost use Rattle.lhg_row.specs.Width.{AllWide};
ghost use Rattle.lhg_plant.specs.Invariants as calculus;
ghost use Rattle.lhg_plant.specs.Views.{plain_location, plain_plant};
ghost use Rattle.lhg_union.specs.PolyLists.{lines_of, AllVars};
ghost use Rattle.lhg_union.specs.Regions.{plain_region};
ghost use Rattle.lhg_jump.specs.PlantLists.{AreListsOf};

use lhg_num::{Frac, Halt};
use lhg_plant::{Location, Plant};
use lhg_poly::{Poly, make};
use lhg_row::copy_rows;
use lhg_union::push_some;
use std::alloc::Global;

/// The invariant of each location as a list of at most one piece: it is empty where no state of the location is in the invariant.
/// It halts for `Wide` only where fractions refuse an operation of the calculus of this call, for `Rows` only where it has a
/// list of rows past `ROW_LIMIT`, never for `Pieces`, and for `Memory`.
pub fn invariants(alloc: Global, plant: &Plant) -> Result<Vec<Vec<Poly<Frac>>>, Halt>
    ensures calculus { IsHaltedByRows result (calculus.invariants (plain_plant plant.now)) (λ v. plain_region v.items) }
    ensures lists { IfOk result (λ v. AreListsOf plant.now v.items) }
{
    let mut pieces = Vec::with_capacity(alloc, plant.locs.len())?;
    for location in &plant.locs {
        let inv = invariant_list(alloc, plant.vars.len(), location)?;
        pieces.push(inv)?;
    }
    Ok(pieces)
}

/// That of one location over this many variables. It halts as `invariants` does.
pub fn invariant_list(
    alloc: Global,
    vars: usize,
    location: &Location,
) -> Result<Vec<Poly<Frac>>, Halt>
    requires { AllWide vars (plain_location location.now).inv }
    ensures calculus { IsHaltedByRows result (calculus.invariant_list vars (plain_location location.now)) (λ v. lines_of v.items) }
    ensures vars { IfOk result (λ v. AllVars vars v.items) }
{
    let rows = copy_rows(alloc, &location.inv)?;
    let piece = make(alloc, vars, rows)?;
    let mut pieces = Vec::new(alloc);
    push_some(&mut pieces, piece)?;
    Ok(pieces)
}
