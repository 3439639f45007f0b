// The rim of a region: its states from which some flow leaves it at once.
//
// A flow all of whose later points are outside the region goes at first through one piece outside, since it meets the rows of these pieces
// finitely often, and it may be cut short there. So the rim is what has a crossing from a piece of the region through a piece outside
// into the same piece.
ghost use Rattle.std.specs.Prelude.{◌≡◌, ◌<◌, ◌++◌, [], length, IfOk, OnOk};
ghost use Rattle.lhg_num.specs.FracArithmetic.{frac_arithmetic};
ghost use Rattle.lhg_num.specs.Halting.{IsHaltedBy, IsHaltedByRows};
ghost use Rattle.lhg_num.specs.Marked.{valued};
ghost use Rattle.lhg_row.specs.Lists.{listed};
ghost use Rattle.lhg_row.specs.Width.{AllWide};
ghost use Rattle.lhg_motion.specs.CrossCalculus.{cross};
ghost use Rattle.lhg_plant.specs.SwitchFacts.{IsOutside};
ghost use Rattle.lhg_plant.specs.Views.{plain_plant};
ghost use Rattle.lhg_union.specs.PolyLists.{lines_of, AllVars};
ghost use Rattle.lhg_union.specs.Regions.{plain_region};
ghost use Rattle.lhg_jump.specs.PlantLists.{AreListsOf, IsRegionOf};
ghost use Rattle.lhg_lazy.specs.RimCalculus as calculus;
ghost use Rattle.lhg_lazy.specs.RimFacts.{IsRim};

use lhg_cross::{Tally, cross};
use lhg_num::{Frac, Halt};
use lhg_plant::Plant;
use lhg_poly::Poly;
use lhg_row::Row;
use lhg_union::{Region, gather, push_some, tell_lists};
use std::alloc::Global;

/// The states of the region from which some legal flow leads so that none of its points after the start is in the region, location by
/// location, where `away` is the states outside it.
/// It halts for `Wide` only where fractions refuse an operation of the calculus of this call,
/// for `Rows` and `Pieces` only where it has a list past `ROW_LIMIT`, `PIECE_LIMIT` or `LIST_ROW_LIMIT`, and for `Memory`.
pub fn rim(
    alloc: Global,
    plant: &Plant,
    region: &Region<Frac>,
    away: &Region<Frac>,
) -> Result<Vec<Vec<Poly<Frac>>>, Halt>
    requires region { IsRegionOf plant.now region.now.pieces.items }
    requires away { AreListsOf plant.now away.now.pieces.items }
    requires outside { IsOutside (plain_plant plant.now) (plain_region region.now.pieces.items) (plain_region away.now.pieces.items) }
    ensures calculus { IsHaltedBy result (calculus.rim (plain_plant plant.now) (plain_region region.now.pieces.items) (plain_region away.now.pieces.items)) (λ v. plain_region v.items) }
    ensures lists { IfOk result (λ v. IsRegionOf plant.now v.items) }
    ensures points { IfOk result (λ v. IsRim (plain_plant plant.now) (plain_region region.now.pieces.items) (plain_region v.items)) }
{
    tell_lists(&region.pieces);
    tell_lists(&away.pieces);
    rims_of(alloc, plant, &region.pieces, &away.pieces)
}

// The rim in each location.
fn rims_of(
    alloc: Global,
    plant: &Plant,
    region: &[Vec<Poly<Frac>>],
    away: &[Vec<Poly<Frac>>],
) -> Result<Vec<Vec<Poly<Frac>>>, Halt>
    requires region { AreListsOf plant.now region.now }
    requires away { AreListsOf plant.now away.now }
    ensures calculus { IsHaltedBy result (calculus.rim (plain_plant plant.now) (plain_region region.now) (plain_region away.now)) (λ v. plain_region v.items) }
    ensures lists { IfOk result (λ v. AreListsOf plant.now v.items) }
{
    let mut rims = Vec::with_capacity(alloc, plant.locs.len())?;
    for l in 0..plant.locs.len() {
        let here = rim_of(alloc, plant, l, &region[l], &away[l])?;
        rims.push(here)?;
    }
    Ok(rims)
}

// The rim in one location, where the pieces of the region and those outside it are given.
fn rim_of(
    alloc: Global,
    plant: &Plant,
    l: usize,
    here: &[Poly<Frac>],
    outside: &[Poly<Frac>],
) -> Result<Vec<Poly<Frac>>, Halt>
    requires there { l < length plant.now.locs.items }
    requires here { AllVars (length plant.now.vars.items) here.now }
    requires outside { AllVars (length plant.now.vars.items) outside.now }
    ensures calculus { IsHaltedBy result (calculus.rim_list (length plant.now.vars.items) (calculus.flow_at (plain_plant plant.now) l) (lines_of here.now) (lines_of outside.now)) (λ v. lines_of v.items) }
    ensures vars { IfOk result (λ v. AllVars (length plant.now.vars.items) v.items) }
{
    let flow = &plant.locs[l].flow;
    let mut rim = Vec::new(alloc);
    for piece in here {
        let left = rim_from(alloc, piece, outside, flow)?;
        gather(&mut rim, left)?;
    }
    Ok(rim)
}

// The points of a piece with a flow through one of the others into the same piece.
fn rim_from(
    alloc: Global,
    from: &Poly<Frac>,
    outside: &[Poly<Frac>],
    flow: &[Row<Frac>],
) -> Result<Vec<Poly<Frac>>, Halt>
    requires outside { AllVars from.now.width outside.now }
    requires flow { AllWide from.now.width flow.now }
    ensures calculus { IsHaltedByRows result (calculus.rim_from from.now.width flow.now (lines_of outside.now) from.now.lines) (λ v. lines_of v.items) }
    ensures vars { IfOk result (λ v. AllVars from.now.width v.items) }
{
    let mut out = Vec::new(alloc);
    for past in outside {
        push_crossing(alloc, &mut out, from, past, flow)?;
    }
    Ok(out)
}

// Puts those with a flow through one piece into it at the end of the list, where there are some.
fn push_crossing(
    alloc: Global,
    out: &mut Vec<Poly<Frac>>,
    from: &Poly<Frac>,
    past: &Poly<Frac>,
    flow: &[Row<Frac>],
) -> Result<(), Halt>
    requires past { past.now.width ≡ from.now.width }
    requires flow { AllWide from.now.width flow.now }
    requires vars { AllVars from.now.width out.old.items }
    ensures list { IsHaltedByRows result (valued (λ o. lines_of out.old.items ++ listed o []) (cross frac_arithmetic from.now.width from.now.lines past.now.lines past.now.lines flow.now)) (λ _. lines_of out.new.items) }
    ensures vars { OnOk result (AllVars from.now.width out.new.items) }
{
    let mut tally = Tally::new();
    let crossing = cross(alloc, from, past, past, flow, &mut tally)?;
    push_some(out, crossing)
}
