// The new pieces of a level, as they are found.
ghost use Rattle.std.specs.Prelude.{◌≡◌, ◌<◌, ◌++◌, ◌∷◌, [], false, length, set, option_map, Some, IfOk, IfSome, OnOk};
ghost use Rattle.lhg_num.specs.FracArithmetic.{frac_arithmetic};
ghost use Rattle.lhg_num.specs.Halting.{IsHaltedBy};
ghost use Rattle.lhg_row.specs.Lists as differences;
ghost use Rattle.lhg_plant.specs.Views.{plain_plant};
ghost use Rattle.lhg_union.specs.PolyLists.{lines_of, AllVars};
ghost use Rattle.lhg_union.specs.Regions.{polys_of, polys_at, plain_region};
ghost use Rattle.lhg_jump.specs.PlantLists.{AreListsOf};
ghost use Rattle.lhg_forward.specs.Growth as calculus;
ghost use Rattle.lhg_forward.specs.Views.{plain_growth};

use lhg_num::{Frac, Halt};
use lhg_plant::Plant;
use lhg_poly::Poly;
use lhg_union::minus;
use std::alloc::{AllocError, Global};
use std::slice;

/// For each location its new pieces, in the order in which they were found, and the location of the first of all.
#[derive(Drop)]
pub(crate) struct Growth {
    pub(crate) pieces: Vec<Vec<Poly<Frac>>>,
    pub(crate) first: Option<u32>,
}

/// Nothing is new yet in so many locations.
pub(crate) fn no_growth(alloc: Global, plant: &Plant) -> Result<Growth, AllocError>
    ensures plain { IfOk result (λ g. plain_growth g ≡ calculus.no_growth (length plant.now.locs.items)) }
    ensures lists { IfOk result (λ g. AreListsOf plant.now g.pieces.items) }
{
    let mut pieces = Vec::with_capacity(alloc, plant.locs.len())?;
    for _l in 0..plant.locs.len() {
        pieces.push(Vec::new(alloc))?;
    }
    Ok(Growth {
        pieces,
        first: None,
    })
}

/// A result in the location, where there is one: it is new unless the pieces of the location and the new ones there cover it.
pub(crate) fn add_new(
    alloc: Global,
    plant: &Plant,
    region: &[Vec<Poly<Frac>>],
    loc: u32,
    piece: Option<Poly<Frac>>,
    growth: &mut Growth,
) -> Result<(), Halt>
    requires there { loc < length plant.now.locs.items }
    requires region { AreListsOf plant.now region.now }
    requires piece { IfSome piece (λ p. p.width ≡ length plant.now.vars.items) }
    requires growth { AreListsOf plant.now growth.old.pieces.items }
    ensures calculus { IsHaltedBy result (calculus.add_new (length plant.now.vars.items) (plain_region region.now) loc (plain_growth growth.old) (option_map (λ p. p.lines) piece)) (λ _. plain_growth growth.new) }
    ensures lists { OnOk result (AreListsOf plant.now growth.new.pieces.items) }
{
    match piece {
        None => Ok(()),
        Some(piece) => add_piece(alloc, plant, region, loc, piece, growth),
    }
}

// The piece is new unless it is covered.
fn add_piece(
    alloc: Global,
    plant: &Plant,
    region: &[Vec<Poly<Frac>>],
    loc: u32,
    piece: Poly<Frac>,
    growth: &mut Growth,
) -> Result<(), Halt>
    requires there { loc < length plant.now.locs.items }
    requires region { AreListsOf plant.now region.now }
    requires piece { piece.width ≡ length plant.now.vars.items }
    requires growth { AreListsOf plant.now growth.old.pieces.items }
    ensures calculus { IsHaltedBy result (calculus.add_new (length plant.now.vars.items) (plain_region region.now) loc (plain_growth growth.old) (Some piece.lines)) (λ _. plain_growth growth.new) }
    ensures lists { OnOk result (AreListsOf plant.now growth.new.pieces.items) }
{
    let older = &region[loc as usize];
    let newer = &growth.pieces[loc as usize];
    let is_known = is_covered(alloc, &piece, older, newer)?;
    if is_known {
        return Ok(());
    }
    push_new(growth, loc, piece)?;
    Ok(())
}

// Whether the pieces of two lists cover the piece.
fn is_covered(
    alloc: Global,
    piece: &Poly<Frac>,
    older: &[Poly<Frac>],
    newer: &[Poly<Frac>],
) -> Result<bool, Halt>
    requires older { AllVars piece.now.width older.now }
    requires newer { AllVars piece.now.width newer.now }
    ensures { IsHaltedBy result (differences.covered frac_arithmetic piece.now.width (piece.now.lines ∷ []) (lines_of older.now ++ lines_of newer.now)) (λ b. b) }
{
    let beside = minus(alloc, slice::from_ref(piece), older)?;
    let left = minus(alloc, &beside, newer)?;
    Ok(left.is_empty())
}

// Puts the new piece at the end of the location's list.
fn push_new(growth: &mut Growth, loc: u32, piece: Poly<Frac>) -> Result<(), AllocError>
    requires { loc < length growth.old.pieces.items }
    ensures plain { OnOk result (plain_growth growth.new ≡ calculus.grown_unless (plain_growth growth.old) loc piece.lines false) }
    ensures list { OnOk result (polys_of growth.new.pieces.items ≡ set (polys_of growth.old.pieces.items) loc (polys_at growth.old.pieces.items loc ++ piece ∷ [])) }
    ensures many { OnOk result (length growth.new.pieces.items ≡ length growth.old.pieces.items) }
{
    let list = &mut growth.pieces[loc as usize];
    list.push(piece)?;
    if growth.first.is_none() {
        growth.first = Some(loc);
    }
    Ok(())
}
