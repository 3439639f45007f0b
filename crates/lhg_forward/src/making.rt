// The region of the first states.
ghost use Rattle.std.specs.Prelude.{◌≡◌, ◌↔◌, map, length, IfOk};
ghost use Rattle.lhg_math.specs.Tests.{AllOf};
ghost use Rattle.lhg_num.specs.Marked.{done};
ghost use Rattle.lhg_num.specs.Halting.{IsHaltedBy, IsHaltedByMemory};
ghost use Rattle.lhg_plant.specs.Region.{InRegion};
ghost use Rattle.lhg_plant.specs.State.{PlainState};
ghost use Rattle.lhg_plant.specs.Views.{plain_plant};
ghost use Rattle.lhg_union.specs.Regions.{plain_region};
ghost use Rattle.lhg_jump.specs.PlantLists.{IsRegionOf};
ghost use Rattle.lhg_ctl.specs.DraftStates.{IsPlaced};
ghost use Rattle.lhg_ctl.specs.Views.{plain_placed};
ghost use Rattle.lhg_forward.specs.InitStates as calculus;

use lhg_ctl::{Draft, controller_of};
use lhg_num::{Frac, Halt};
use lhg_plant::Plant;
use lhg_row::{Row, copy_rows};
use lhg_union::Region;
use std::alloc::Global;

/// The states of the lines: for each line in order the piece of its location's invariant followed by its rows, where there is one.
/// It halts for `Wide`, `Rows` and `Pieces` only where the calculus of this call does, and for `Memory`.
pub fn init_of(
    alloc: Global,
    plant: &Plant,
    lines: &[(u32, Vec<Row<Frac>>)],
) -> Result<Region<Frac>, Halt>
    requires { AllOf (IsPlaced (length plant.now.vars.items) (length plant.now.locs.items)) (map plain_placed lines.now) }
    ensures calculus { IsHaltedBy result (calculus.init_of (plain_plant plant.now) (map plain_placed lines.now)) (λ r. plain_region r.pieces.items) }
    ensures region { IfOk result (λ r. IsRegionOf plant.now r.pieces.items) }
    ensures states { IfOk result (λ r. (s : PlainState) → InRegion (plain_plant plant.now) (plain_region r.pieces.items) s ↔ calculus.InInit (plain_plant plant.now) (map plain_placed lines.now) s) }
{
    let pieces = copies(alloc, lines)?;
    let draft = Draft {
        pieces,
        guards: Vec::new(alloc),
        rounds: 0,
        names: Vec::new(alloc),
    };
    let controller = controller_of(alloc, plant, &draft)?;
    Ok(controller.region)
}

// Copies of the lines.
fn copies(
    alloc: Global,
    lines: &[(u32, Vec<Row<Frac>>)],
) -> Result<Vec<(u32, Vec<Row<Frac>>)>, Halt>
    ensures { IsHaltedByMemory result (done (map plain_placed lines.now)) (λ v. map plain_placed v.items) }
{
    let mut out = Vec::with_capacity(alloc, lines.len())?;
    for i in 0..lines.len() {
        let rows = copy_rows(alloc, &lines[i].1)?;
        out.push((lines[i].0, rows))?;
    }
    Ok(out)
}
