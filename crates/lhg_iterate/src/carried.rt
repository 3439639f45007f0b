// What rounds hand on to the next one, so that it need not be formed again.
ghost use Rattle.std.specs.Prelude.{List, IfOk};
ghost use Rattle.std.specs.Global.{Vec};
ghost use Rattle.lhg_num.specs.Halting.{IsHaltedByRows};
ghost use Rattle.lhg_row.specs.System.{PlainSystem};
ghost use Rattle.lhg_union.specs.Regions.{plain_region};
ghost use Rattle.lhg_plant.specs.Invariants as calculus;
ghost use Rattle.lhg_plant.specs.Views.{plain_plant};
ghost use Rattle.lhg_iterate.specs.Carrying.{IsCarriedTo};

use lhg_jump::{Outs, invariants};
use lhg_num::{Frac, Halt};
use lhg_plant::Plant;
use lhg_poly::Poly;
use lhg_quiet::none_quiet;
use lhg_union::Region;
use std::alloc::Global;

/// The invariants; what was outside the region before the last round, and its hits; and the locations that this round has changed.
#[derive(Drop)]
pub(crate) struct Carried {
    pub(crate) invs: Vec<Vec<Poly<Frac>>>,
    pub(crate) outs: Outs,
    pub(crate) changed: Vec<bool>,
}

/// Before the first round: nothing is outside yet.
pub(crate) fn first_carried(alloc: Global, plant: &Plant) -> Result<Carried, Halt>
    ensures calculus { IsHaltedByRows result (calculus.invariants (plain_plant plant.now)) (λ c. plain_region c.invs.items) }
    ensures carried { (region : List (Vec PlainSystem)) → IfOk result (IsCarriedTo plant.now region) }
{
    let invs = invariants(alloc, plant)?;
    let changed = none_quiet(alloc, plant)?;
    Ok(Carried {
        invs,
        outs: Outs {
            away: Region {
                pieces: Vec::new(alloc),
            },
            hits: Vec::new(alloc),
        },
        changed,
    })
}
