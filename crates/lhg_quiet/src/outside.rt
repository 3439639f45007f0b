// The states outside a region, where those of some locations are there from an earlier round.
ghost use Rattle.std.specs.Prelude.{◌≡◌, ◌<◌, length, OnOk};
ghost use Rattle.lhg_num.specs.Halting.{IsHaltedBy};
ghost use Rattle.lhg_plant.specs.Invariants.{invariants};
ghost use Rattle.lhg_plant.specs.OutCalculus as calculus;
ghost use Rattle.lhg_plant.specs.Views.{plain_plant};
ghost use Rattle.lhg_union.specs.Regions.{plain_region};
ghost use Rattle.lhg_jump.specs.PlantLists.{AreListsOf, AreInvariantsOf, AreAwayOf};
ghost use Rattle.lhg_quiet.specs.Outside.{AreStillOutside};

use lhg_jump::away_of;
use lhg_num::{Frac, Halt};
use lhg_plant::Plant;
use lhg_poly::Poly;
use lhg_union::minus;
use std::alloc::Global;

/// Makes the states outside the region: in each location if there is no list yet, and else in each location that is marked as changed.
/// It halts for `Wide` only where fractions refuse an operation of the calculus of this call,
/// for `Rows` and `Pieces` only where it has a list past `ROW_LIMIT`, `PIECE_LIMIT` or `LIST_ROW_LIMIT`, and for `Memory`.
pub fn renew_away(
    alloc: Global,
    plant: &Plant,
    invs: &[Vec<Poly<Frac>>],
    region: &[Vec<Poly<Frac>>],
    changed: &[bool],
    away: &mut Vec<Vec<Poly<Frac>>>,
) -> Result<(), Halt>
    requires invs { AreInvariantsOf plant.now invs.now }
    requires region { AreListsOf plant.now region.now }
    requires changed { length changed.now ≡ length plant.now.locs.items }
    requires away { 0 < length away.old.items → AreStillOutside plant.now region.now changed.now away.old.items }
    ensures calculus { IsHaltedBy result (calculus.away (length plant.now.vars.items) (invariants (plain_plant plant.now)).value (plain_region region.now)) (λ _. plain_region away.new.items) }
    ensures outside { OnOk result (AreAwayOf plant.now region.now away.new.items) }
{
    if away.is_empty() {
        *away = away_of(alloc, plant, invs, region)?;
        return Ok(());
    }
    for l in 0..plant.locs.len() {
        if changed[l] {
            let outside = minus(alloc, &invs[l], &region[l])?;
            away[l] = outside;
        }
    }
    Ok(())
}
