// The safe states of a plant as pieces.
ghost use Rattle.std.specs.Prelude.{◌≡◌, ◌↔◌, ◌++◌, [], length, IfOk, OnOk};
ghost use Rattle.lhg_num.specs.FracArithmetic.{frac_arithmetic};
ghost use Rattle.lhg_num.specs.Halting.{IsHaltedByRows};
ghost use Rattle.lhg_num.specs.Marked.{valued};
ghost use Rattle.lhg_row.specs.Width.{AllWide};
ghost use Rattle.lhg_row.specs.Lists.{listed, meet_each};
ghost use Rattle.lhg_row.specs.Pieces.{meet};
ghost use Rattle.lhg_plant.specs.Proper.{IsLocation};
ghost use Rattle.lhg_plant.specs.Region.{InRegion};
ghost use Rattle.lhg_plant.specs.SafeRegion as calculus;
ghost use Rattle.lhg_plant.specs.State.{PlainState, IsSafe};
ghost use Rattle.lhg_plant.specs.Views.{plain_location, plain_plant};
ghost use Rattle.lhg_union.specs.PolyLists.{lines_of, AllVars};
ghost use Rattle.lhg_union.specs.Regions.{plain_region};
ghost use Rattle.lhg_jump.specs.PlantLists.{IsRegionOf};

use crate::invariant_lists::invariant_list;
use lhg_num::{Frac, Halt};
use lhg_plant::{Location, Plant};
use lhg_poly::{Poly, make};
use lhg_row::{Row, append_rows, copy_rows};
use lhg_union::{Region, push_some};
use std::alloc::Global;

/// The safe states: for each location and each of its safe lines, in order, the piece of the invariant's rows followed by
/// the line's, where there is one. The invariant's own piece is made first; a location without one gets an empty list.
/// It halts for `Wide` only where fractions refuse an operation of the calculus of this call, for `Rows` only where it has a
/// list of rows past `ROW_LIMIT`, never for `Pieces`, and for `Memory`.
pub fn safe_region(alloc: Global, plant: &Plant) -> Result<Region<Frac>, Halt>
    ensures calculus { IsHaltedByRows result (calculus.safe_region (plain_plant plant.now)) (λ r. plain_region r.pieces.items) }
    ensures region { IfOk result (λ r. IsRegionOf plant.now r.pieces.items) }
    ensures points { IfOk result (λ r. (s : PlainState) → InRegion (plain_plant plant.now) (plain_region r.pieces.items) s ↔ IsSafe (plain_plant plant.now) s) }
{
    let mut pieces = Vec::with_capacity(alloc, plant.locs.len())?;
    for location in &plant.locs {
        let safe = safe_pieces(alloc, plant.vars.len(), location)?;
        pieces.push(safe)?;
    }
    Ok(Region { pieces })
}

/// Those of one location over this many variables. It halts as `safe_region` does.
pub fn safe_pieces(alloc: Global, vars: usize, location: &Location) -> Result<Vec<Poly<Frac>>, Halt>
    requires { IsLocation vars (plain_location location.now) }
    ensures calculus { IsHaltedByRows result (calculus.safe_list vars (plain_location location.now)) (λ v. lines_of v.items) }
    ensures vars { IfOk result (λ v. AllVars vars v.items) }
{
    let inv = invariant_list(alloc, vars, location)?;
    if inv.is_empty() {
        Ok(inv)
    } else {
        safe_lines(alloc, vars, location)
    }
}

// Those of a location whose invariant has a piece: one for each safe line that has a point with it.
fn safe_lines(alloc: Global, vars: usize, location: &Location) -> Result<Vec<Poly<Frac>>, Halt>
    requires { IsLocation vars (plain_location location.now) }
    ensures calculus { IsHaltedByRows result (meet_each frac_arithmetic vars (plain_location location.now).inv (plain_location location.now).safe) (λ v. lines_of v.items) }
    ensures vars { IfOk result (λ v. AllVars vars v.items) }
{
    let mut pieces = Vec::new(alloc);
    for line in &location.safe {
        push_safe(alloc, vars, &location.inv, line, &mut pieces)?;
    }
    Ok(pieces)
}

// Puts the piece of an invariant and a safe line at the end of the list, where there is one.
fn push_safe(
    alloc: Global,
    vars: usize,
    inv: &[Row<Frac>],
    line: &[Row<Frac>],
    pieces: &mut Vec<Poly<Frac>>,
) -> Result<(), Halt>
    requires inv { AllWide vars inv.now }
    requires line { AllWide vars line.now }
    requires vars { AllVars vars pieces.old.items }
    ensures list { IsHaltedByRows result (valued (λ o. lines_of pieces.old.items ++ listed o []) (meet frac_arithmetic vars inv.now line.now)) (λ _. lines_of pieces.new.items) }
    ensures vars { OnOk result (AllVars vars pieces.new.items) }
{
    let mut rows = copy_rows(alloc, inv)?;
    append_rows(alloc, &mut rows, line)?;
    let piece = make(alloc, vars, rows)?;
    push_some(pieces, piece)
}
