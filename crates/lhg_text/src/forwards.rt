// Prints forward sets.
ghost use Rattle.std.specs.Prelude.{◌≡◌, ◌++◌, ℕ, OnOk, IfOk, length};
ghost use Rattle.lhg_math.specs.Tests.{AllOf};
ghost use Rattle.lhg_num.specs.Halting.{IsHaltedByMemory};
ghost use Rattle.lhg_num.specs.Marked.{done};
ghost use Rattle.lhg_plant.specs.Region.{PlainRegion};
ghost use Rattle.lhg_plant.specs.Views.{plain_plant};
ghost use Rattle.lhg_union.specs.PolyLists.{AllVars};
ghost use Rattle.lhg_union.specs.Regions.{plain_region};
ghost use Rattle.lhg_text.specs.ForwardText.{forward_text, IsWrittenForward, SameForward};

use crate::words::push_whole;
use lhg_ctl::push_pieces;
use lhg_num::{Frac, Halt};
use lhg_plant::Plant;
use lhg_union::Region;
use std::alloc::{AllocError, Global};

// The lines of forward sets.
fn push_forward(
    text: &mut Vec<u8>,
    plant: &Plant,
    region: &Region<Frac>,
    rounds: u32,
) -> Result<(), AllocError>
    requires same_length { length region.now.pieces.items ≡ length plant.now.locs.items }
    requires vars { AllOf (λ ps. AllVars (length plant.now.vars.items) ps.items) region.now.pieces.items }
    ensures text { OnOk result (text.new.items ≡ text.old.items ++ forward_text (plain_plant plant.now) (plain_region region.now.pieces.items) rounds) }
    ensures written { OnOk result (IsWrittenForward (plain_plant plant.now) (plain_region region.now.pieces.items) rounds) }
{
    text.extend_from_slice(b"reach 1\nrounds")?;
    push_whole(text, rounds)?;
    text.extend_from_slice(b"\n")?;
    push_pieces(text, plant, &region.pieces)?;
    text.extend_from_slice(b"end\n")
}

/// The text of forward sets: the number of rounds, and the pieces in the order of locations and then of the list. It halts for
/// `Memory` alone.
pub fn print_forward(
    alloc: Global,
    plant: &Plant,
    region: &Region<Frac>,
    rounds: u32,
) -> Result<Vec<u8>, Halt>
    // a list for each location, of pieces over the plant's variables
    requires same_length { length region.now.pieces.items ≡ length plant.now.locs.items }
    requires vars { AllOf (λ ps. AllVars (length plant.now.vars.items) ps.items) region.now.pieces.items }
    ensures text { IsHaltedByMemory result (done (forward_text (plain_plant plant.now) (plain_region region.now.pieces.items) rounds)) (λ v. v.items) }
    // all forward sets of the plant with these bytes have the same pieces and number of rounds
    ensures one_reading { IfOk result (λ v. (s : PlainRegion) (r : ℕ) → IsWrittenForward (plain_plant plant.now) s r → forward_text (plain_plant plant.now) s r ≡ v.items → SameForward (plain_region region.now.pieces.items) rounds s r) }
{
    let mut text = Vec::new(alloc);
    push_forward(&mut text, plant, region, rounds)?;
    Ok(text)
}
