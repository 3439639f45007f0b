// The first part of validity: each state of the region is safe.
ghost use Rattle.std.specs.Prelude.{length, IfOk, IfSome};
ghost use Rattle.lhg_num.specs.Halting.{IsHaltedBy};
ghost use Rattle.lhg_num.specs.Marked.{valued};
ghost use Rattle.lhg_plant.specs.Views.{plain_plant};
ghost use Rattle.lhg_union.specs.Regions.{plain_region};
ghost use Rattle.lhg_jump.specs.PlantLists.{AreListsOf};
ghost use Rattle.lhg_check.specs.Check as calculus;
ghost use Rattle.lhg_check.specs.Views.{plain_first, IsFirstAmong};

use crate::firsts::{First, first_left};
use lhg_jump::safe_region;
use lhg_num::{Frac, Halt};
use lhg_plant::Plant;
use lhg_union::Region;
use std::alloc::Global;

/// The first piece of the states of the region that are not safe, in the order of the locations.
pub(crate) fn first_unsafe(
    alloc: Global,
    plant: &Plant,
    region: &Region<Frac>,
) -> Result<Option<First>, Halt>
    requires { AreListsOf plant.now region.now.pieces.items }
    ensures calculus { IsHaltedBy result (valued calculus.first_piece (calculus.unsafe_pieces (plain_plant plant.now) (plain_region region.now.pieces.items))) plain_first }
    ensures among { IfOk result (λ o. IfSome o (IsFirstAmong (length plant.now.vars.items) (length plant.now.locs.items))) }
{
    let safe = safe_region(alloc, plant)?;
    for l in 0..plant.locs.len() {
        let piece = first_left(alloc, &region.pieces[l], &safe.pieces[l])?;
        if let Some(piece) = piece {
            return Ok(Some(First {
                place: l as u32,
                piece,
            }));
        }
    }
    Ok(None)
}
