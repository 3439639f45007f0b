// The pieces of a region with the new ones of a level behind them, and how many there were.
ghost use Rattle.std.specs.Prelude.{◌≡◌, ◌++◌, length, map, IfOk};
ghost use Rattle.lhg_num.specs.Halting.{IsHaltedBy, IsHaltedByPieces};
ghost use Rattle.lhg_row.specs.Lists.{counted_pieces};
ghost use Rattle.lhg_union.specs.PolyLists.{lines_of};
ghost use Rattle.lhg_union.specs.Regions.{plain_region};
ghost use Rattle.lhg_jump.specs.PlantLists.{AreListsOf};
ghost use Rattle.lhg_forward.specs.Growth as calculus;

use lhg_num::{Frac, Halt};
use lhg_plant::Plant;
use lhg_poly::Poly;
use lhg_union::{copies, gather};
use std::alloc::{AllocError, Global};

/// The pieces of each location with its new ones behind them, where these are within the limits of a list.
pub(crate) fn joined(
    alloc: Global,
    plant: &Plant,
    region: &[Vec<Poly<Frac>>],
    new: &[Vec<Poly<Frac>>],
) -> Result<Vec<Vec<Poly<Frac>>>, Halt>
    requires region { AreListsOf plant.now region.now }
    requires new { AreListsOf plant.now new.now }
    ensures calculus { IsHaltedBy result (calculus.joined (length plant.now.locs.items) (plain_region region.now) (plain_region new.now)) (λ v. plain_region v.items) }
    ensures lists { IfOk result (λ v. AreListsOf plant.now v.items) }
{
    let mut out = Vec::with_capacity(alloc, plant.locs.len())?;
    for l in 0..plant.locs.len() {
        let list = both(alloc, &region[l], &new[l])?;
        out.push(list)?;
    }
    Ok(out)
}

// Copies of the pieces of two lists, one after the other, where these are within the limits of a list.
fn both(alloc: Global, older: &[Poly<Frac>], newer: &[Poly<Frac>]) -> Result<Vec<Poly<Frac>>, Halt>
    ensures calculus { IsHaltedByPieces result (counted_pieces (lines_of older.now ++ lines_of newer.now)) (λ v. lines_of v.items) }
    ensures items { IfOk result (λ v. v.items ≡ older.now ++ newer.now) }
{
    let mut list = copies(alloc, older)?;
    let more = copies(alloc, newer)?;
    gather(&mut list, more)?;
    Ok(list)
}

/// How many pieces each location has.
pub(crate) fn counts(alloc: Global, region: &[Vec<Poly<Frac>>]) -> Result<Vec<usize>, AllocError>
    ensures { IfOk result (λ v. v.items ≡ map length (plain_region region.now)) }
{
    let mut out = Vec::with_capacity(alloc, region.len())?;
    for list in region {
        out.push(list.len())?;
    }
    Ok(out)
}
