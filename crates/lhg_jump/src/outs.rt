// The states from which the plant leaves a region.
ghost use Rattle.std.specs.Prelude.{length, map, IfOk};
ghost use Rattle.std.specs.List.{range_with_len};
ghost use Rattle.lhg_num.specs.Marked.{each};
ghost use Rattle.lhg_num.specs.Halting.{IsHaltedBy};
ghost use Rattle.lhg_plant.specs.OutCalculus as calculus;
ghost use Rattle.lhg_plant.specs.Region.{InRegion};
ghost use Rattle.lhg_plant.specs.SwitchFacts.{IsOutOf};
ghost use Rattle.lhg_plant.specs.Views.{plain_plant};
ghost use Rattle.lhg_union.specs.Regions.{plain_region};
ghost use Rattle.lhg_jump.specs.HitViews.{plain_hits, AreHitsOf};
ghost use Rattle.lhg_jump.specs.OutViews.{plain_outs};
ghost use Rattle.lhg_jump.specs.PlantLists.{AreListsOf, AreInvariantsOf};

use crate::hits::{Hit, hits_at};
use crate::invariant_lists::invariants;
use lhg_num::{Frac, Halt};
use lhg_plant::Plant;
use lhg_poly::Poly;
use lhg_union::{Region, minus, tell_lists};
use std::alloc::Global;

/// The states outside a region, and those of the region from which an uncontrollable switch leads there, location by location.
#[derive(Drop)]
pub struct Outs {
    pub away: Region<Frac>,
    pub hits: Vec<Vec<Hit>>,
}

/// The states that are not in the region, and the hits: together they are `Out` of the region.
/// It halts for `Wide` only where fractions refuse an operation of the calculus of this call,
/// for `Rows` and `Pieces` only where it has a list past `ROW_LIMIT`, `PIECE_LIMIT` or `LIST_ROW_LIMIT`, and for `Memory`.
pub fn out(alloc: Global, plant: &Plant, region: &Region<Frac>) -> Result<Outs, Halt>
    requires { AreListsOf plant.now region.now.pieces.items }
    ensures calculus { IsHaltedBy result (calculus.out (plain_plant plant.now) (plain_region region.now.pieces.items)) plain_outs }
    ensures away { IfOk result (λ o. AreListsOf plant.now o.away.pieces.items) }
    ensures hits { IfOk result (λ o. AreHitsOf plant.now o.hits.items) }
    ensures points { IfOk result (λ o. IsOutOf (plain_plant plant.now) (InRegion (plain_plant plant.now) (plain_region region.now.pieces.items)) (plain_outs o)) }
{
    let invs = invariants(alloc, plant)?;
    out_with(alloc, plant, &invs, region)
}

/// The same, where the invariants are there.
pub fn out_with(
    alloc: Global,
    plant: &Plant,
    invs: &[Vec<Poly<Frac>>],
    region: &Region<Frac>,
) -> Result<Outs, Halt>
    requires invs { AreInvariantsOf plant.now invs.now }
    requires region { AreListsOf plant.now region.now.pieces.items }
    ensures calculus { IsHaltedBy result (calculus.out (plain_plant plant.now) (plain_region region.now.pieces.items)) plain_outs }
    ensures away { IfOk result (λ o. AreListsOf plant.now o.away.pieces.items) }
    ensures hits { IfOk result (λ o. AreHitsOf plant.now o.hits.items) }
    ensures points { IfOk result (λ o. IsOutOf (plain_plant plant.now) (InRegion (plain_plant plant.now) (plain_region region.now.pieces.items)) (plain_outs o)) }
{
    tell_lists(&region.pieces);
    let away = away_of(alloc, plant, invs, &region.pieces)?;
    let hits = all_hits(alloc, plant, invs, &away, &region.pieces)?;
    Ok(Outs {
        away: Region { pieces: away },
        hits,
    })
}

/// The states outside a region, location by location: each invariant without the region's pieces there.
/// It halts for `Wide` only where fractions refuse an operation of the calculus of this call,
/// for `Rows` and `Pieces` only where it has a list past `ROW_LIMIT`, `PIECE_LIMIT` or `LIST_ROW_LIMIT`, and for `Memory`.
pub fn away_of(
    alloc: Global,
    plant: &Plant,
    invs: &[Vec<Poly<Frac>>],
    region: &[Vec<Poly<Frac>>],
) -> Result<Vec<Vec<Poly<Frac>>>, Halt>
    requires invs { AreListsOf plant.now invs.now }
    requires region { AreListsOf plant.now region.now }
    ensures calculus { IsHaltedBy result (calculus.away (length plant.now.vars.items) (plain_region invs.now) (plain_region region.now)) (λ v. plain_region v.items) }
    ensures lists { IfOk result (λ v. AreListsOf plant.now v.items) }
{
    let mut away = Vec::with_capacity(alloc, plant.locs.len())?;
    for l in 0..invs.len() {
        let outside = minus(alloc, &invs[l], &region[l])?;
        away.push(outside)?;
    }
    Ok(away)
}

// The hits in all locations.
fn all_hits(
    alloc: Global,
    plant: &Plant,
    invs: &[Vec<Poly<Frac>>],
    away: &[Vec<Poly<Frac>>],
    region: &[Vec<Poly<Frac>>],
) -> Result<Vec<Vec<Hit>>, Halt>
    requires invs { AreListsOf plant.now invs.now }
    requires away { AreListsOf plant.now away.now }
    requires region { AreListsOf plant.now region.now }
    ensures calculus { IsHaltedBy result (each (calculus.hits_at (plain_plant plant.now) (plain_region invs.now) (plain_region away.now) (plain_region region.now)) (range_with_len 0 (length (plain_plant plant.now).locs))) (λ v. map (λ hs. plain_hits hs.items) v.items) }
    ensures lists { IfOk result (λ v. AreHitsOf plant.now v.items) }
{
    let mut hits = Vec::with_capacity(alloc, plant.locs.len())?;
    for l in 0..plant.locs.len() {
        let here = hits_at(alloc, plant, invs, away, region, l)?;
        hits.push(here)?;
    }
    Ok(hits)
}
