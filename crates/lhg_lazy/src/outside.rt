// The states outside a region.
ghost use Rattle.std.specs.Prelude.{IfOk};
ghost use Rattle.lhg_num.specs.Halting.{IsHaltedBy};
ghost use Rattle.lhg_plant.specs.SwitchFacts.{IsOutside};
ghost use Rattle.lhg_plant.specs.Views.{plain_plant};
ghost use Rattle.lhg_union.specs.Regions.{plain_region};
ghost use Rattle.lhg_jump.specs.PlantLists.{AreListsOf, IsRegionOf};
ghost use Rattle.lhg_lazy.specs.RimCalculus as calculus;

use lhg_jump::{away_of, invariants};
use lhg_num::{Frac, Halt};
use lhg_plant::Plant;
use lhg_union::{Region, tell_lists};
use std::alloc::Global;

/// The states that are not in the region, location by location.
/// It halts for `Wide` only where fractions refuse an operation of the calculus of this call,
/// for `Rows` and `Pieces` only where it has a list past `ROW_LIMIT`, `PIECE_LIMIT` or `LIST_ROW_LIMIT`, and for `Memory`.
pub fn away(alloc: Global, plant: &Plant, region: &Region<Frac>) -> Result<Region<Frac>, Halt>
    requires { AreListsOf plant.now region.now.pieces.items }
    ensures calculus { IsHaltedBy result (calculus.away (plain_plant plant.now) (plain_region region.now.pieces.items)) (λ r. plain_region r.pieces.items) }
    ensures lists { IfOk result (λ r. IsRegionOf plant.now r.pieces.items) }
    ensures points { IfOk result (λ r. IsOutside (plain_plant plant.now) (plain_region region.now.pieces.items) (plain_region r.pieces.items)) }
{
    tell_lists(&region.pieces);
    let invs = invariants(alloc, plant)?;
    let pieces = away_of(alloc, plant, &invs, &region.pieces)?;
    Ok(Region { pieces })
}
