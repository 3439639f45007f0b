// The stages of the iteration: the pieces after a level.
ghost use Rattle.std.specs.Prelude.{ℕ, IfOk};
ghost use Rattle.lhg_num.specs.Marked.{done};
ghost use Rattle.lhg_num.specs.Halting.{IsHaltedBy, IsHaltedByMemory};
ghost use Rattle.lhg_plant.specs.Inside.{AllInside};
ghost use Rattle.lhg_plant.specs.Invariants.{pieces_at};
ghost use Rattle.lhg_plant.specs.Views.{plain_plant};
ghost use Rattle.lhg_union.specs.Regions.{plain_region};
ghost use Rattle.lhg_jump.specs.PlantLists.{AreListsOf};
ghost use Rattle.lhg_forward.specs.Growth as calculus;
ghost use Rattle.lhg_forward.specs.Views.{plain_stage, IsStageOf};

use crate::growing::growth_of;
use crate::joining::{counts, joined};
use lhg_num::{Frac, Halt};
use lhg_plant::Plant;
use lhg_union::{Region, copies};
use std::alloc::Global;

/// After a level: the pieces of each location, how many of them are older than the newest ones, and the location of the first of
/// these to be found.
#[derive(Drop)]
pub(crate) struct Stage {
    pub(crate) region: Region<Frac>,
    pub(crate) older: Vec<usize>,
    pub(crate) first: Option<u32>,
}

/// The stage before the first level, with all pieces as the newest.
pub(crate) fn first_stage(alloc: Global, plant: &Plant, init: &Region<Frac>) -> Result<Stage, Halt>
    requires { AreListsOf plant.now init.now.pieces.items }
    ensures stage { IsHaltedByMemory result (done (calculus.first_stage (plain_region init.now.pieces.items))) plain_stage }
    ensures lists { IfOk result (IsStageOf plant.now) }
{
    let mut pieces = Vec::with_capacity(alloc, plant.locs.len())?;
    let mut older = Vec::with_capacity(alloc, plant.locs.len())?;
    for list in &init.pieces {
        let copy = copies(alloc, list)?;
        pieces.push(copy)?;
        older.push(0)?;
    }
    Ok(Stage {
        region: Region { pieces },
        older,
        first: None,
    })
}

/// The stage after a level, on the stage before it.
pub(crate) fn next_stage(alloc: Global, plant: &Plant, stage: Stage) -> Result<Stage, Halt>
    requires stage { IsStageOf plant.now stage }
    requires inside { (l : ℕ) → AllInside (plain_plant plant.now) l (pieces_at (plain_region stage.region.pieces.items) l) }
    ensures calculus { IsHaltedBy result (calculus.staged (plain_plant plant.now) (plain_stage stage)) plain_stage }
    ensures lists { IfOk result (IsStageOf plant.now) }
{
    let growth = growth_of(alloc, plant, &stage)?;
    let older = counts(alloc, &stage.region.pieces)?;
    let pieces = joined(alloc, plant, &stage.region.pieces, &growth.pieces)?;
    Ok(Stage {
        region: Region { pieces },
        older,
        first: growth.first,
    })
}
