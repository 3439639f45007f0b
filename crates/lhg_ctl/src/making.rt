// Makes controllers of what is written.
ghost use Rattle.std.specs.Prelude.{◌≡◌, ◌<◌, ◌↔◌, ◌++◌, [], ℕ, length, map, replicate, option_map, IfOk, IfSome, OnOk};
ghost use Rattle.lhg_math.specs.Tests.{AllOf};
ghost use Rattle.lhg_num.specs.Halting.{IsHaltedBy, IsHaltedByRows, IsHaltedByPieces};
ghost use Rattle.lhg_row.specs.Width.{AllWide};
ghost use Rattle.lhg_plant.specs.Region.{InRegion, InGuard};
ghost use Rattle.lhg_plant.specs.State.{PlainState};
ghost use Rattle.lhg_plant.specs.Views.{plain_plant};
ghost use Rattle.lhg_union.specs.Regions.{plain_region};
ghost use Rattle.lhg_ctl.specs.AllOver.{AreAllOver};
ghost use Rattle.lhg_ctl.specs.Conditions.{IsControllerOf, IsInsideController};
ghost use Rattle.lhg_ctl.specs.DraftStates.{IsPlaced, IsDraft, InDraft, InDraftGuard};
ghost use Rattle.lhg_ctl.specs.Making.{made_in, put, source_at, line_at, all_made, controller_of};
ghost use Rattle.lhg_ctl.specs.Views.{plain_placed, plain_controller, plain_draft};

use crate::controllers::{Controller, Draft};
use lhg_num::{Frac, Halt};
use lhg_plant::Plant;
use lhg_poly::{Poly, make};
use lhg_row::{Row, append_rows, copy_rows};
use lhg_union::Region;
use std::alloc::{AllocError, Global};

// So many empty lists.
fn empty_lists(alloc: Global, count: usize) -> Result<Region<Frac>, AllocError>
    ensures { IfOk result (λ r. plain_region r.pieces.items ≡ replicate count []) }
{
    let mut pieces = Vec::with_capacity(alloc, count)?;
    for _i in 0..count {
        pieces.push(Vec::new(alloc))?;
    }
    Ok(Region { pieces })
}

// The piece of the rows of an invariant followed by those of a line; the invariant's own piece is made first.
fn made(
    alloc: Global,
    vars: usize,
    inv: &[Row<Frac>],
    rows: &[Row<Frac>],
) -> Result<Option<Poly<Frac>>, Halt>
    requires inv { AllWide vars inv.now }
    requires rows { AllWide vars rows.now }
    ensures calculus { IsHaltedByRows result (made_in vars inv.now rows.now) (option_map (λ p. p.lines)) }
    ensures vars { IfOk result (λ o. IfSome o (λ p. p.width ≡ vars)) }
{
    if make(alloc, vars, copy_rows(alloc, inv)?)?.is_none() {
        return Ok(None);
    }
    let mut all = copy_rows(alloc, inv)?;
    append_rows(alloc, &mut all, rows)?;
    make(alloc, vars, all)
}

// Puts the piece, where there is one, at the end of the list at a place.
fn put(lists: &mut Region<Frac>, place: u32, piece: Option<Poly<Frac>>) -> Result<(), Halt>
    requires { place < length lists.old.pieces.items }
    ensures calculus { IsHaltedByPieces result (put (plain_region lists.old.pieces.items) place (option_map (λ p. p.lines) piece)) (λ _. plain_region lists.new.pieces.items) }
    ensures count { OnOk result (length lists.new.pieces.items ≡ length lists.old.pieces.items) }
    ensures vars { (n : ℕ) → AreAllOver n lists.old.pieces.items → IfSome piece (λ p. p.width ≡ n) → OnOk result (AreAllOver n lists.new.pieces.items) }
{
    match piece {
        None => Ok(()),
        Some(piece) => lists.add(place, piece),
    }
}

// Puts the piece of a location's invariant and a line's rows, where there is one, at the end of the list at a place.
fn put_line(
    alloc: Global,
    plant: &Plant,
    lists: &mut Region<Frac>,
    location: u32,
    place: u32,
    rows: &[Row<Frac>],
) -> Result<(), Halt>
    requires location { location < length plant.now.locs.items }
    requires place { place < length lists.old.pieces.items }
    requires rows { AllWide (length plant.now.vars.items) rows.now }
    requires vars { AreAllOver (length plant.now.vars.items) lists.old.pieces.items }
    ensures calculus { IsHaltedBy result (line_at (plain_plant plant.now) location (plain_region lists.old.pieces.items) (place, rows.now)) (λ _. plain_region lists.new.pieces.items) }
    ensures count { OnOk result (length lists.new.pieces.items ≡ length lists.old.pieces.items) }
    ensures vars { OnOk result (AreAllOver (length plant.now.vars.items) lists.new.pieces.items) }
{
    let inv = &plant.locs[location as usize].inv;
    let piece = made(alloc, plant.vars.len(), inv, rows)?;
    put(lists, place, piece)
}

// The location that a switch leaves.
fn source(plant: &Plant, place: u32) -> u32
    requires { place < length plant.now.switches.items }
    ensures source { result ≡ source_at (plain_plant plant.now) place }
    ensures below { result < length plant.now.locs.items }
{
    plant.switches[place as usize].from
}

// The pieces of all locations, line by line.
fn made_pieces(
    alloc: Global,
    plant: &Plant,
    pieces: &[(u32, Vec<Row<Frac>>)],
) -> Result<Region<Frac>, Halt>
    requires { AllOf (IsPlaced (length plant.now.vars.items) (length plant.now.locs.items)) (map plain_placed pieces.now) }
    ensures calculus { IsHaltedBy result (all_made (plain_plant plant.now) (λ l. l) (length plant.now.locs.items) (map plain_placed pieces.now)) (λ r. plain_region r.pieces.items) }
    ensures count { IfOk result (λ r. length r.pieces.items ≡ length plant.now.locs.items) }
    ensures vars { IfOk result (λ r. AreAllOver (length plant.now.vars.items) r.pieces.items) }
{
    let mut lists = empty_lists(alloc, plant.locs.len())?;
    for i in 0..pieces.len() {
        let place = pieces[i].0;
        put_line(alloc, plant, &mut lists, place, place, &pieces[i].1)?;
    }
    Ok(lists)
}

// The guards of all switches, line by line.
fn made_guards(
    alloc: Global,
    plant: &Plant,
    guards: &[(u32, Vec<Row<Frac>>)],
) -> Result<Region<Frac>, Halt>
    requires { AllOf (IsPlaced (length plant.now.vars.items) (length plant.now.switches.items)) (map plain_placed guards.now) }
    ensures calculus { IsHaltedBy result (all_made (plain_plant plant.now) (source_at (plain_plant plant.now)) (length plant.now.switches.items) (map plain_placed guards.now)) (λ r. plain_region r.pieces.items) }
    ensures count { IfOk result (λ r. length r.pieces.items ≡ length plant.now.switches.items) }
    ensures vars { IfOk result (λ r. AreAllOver (length plant.now.vars.items) r.pieces.items) }
{
    let mut lists = empty_lists(alloc, plant.switches.len())?;
    for i in 0..guards.len() {
        let place = guards[i].0;
        let from = source(plant, place);
        put_line(alloc, plant, &mut lists, from, place, &guards[i].1)?;
    }
    Ok(lists)
}

/// The controller of what is written: for each piece and each guard the piece of its location's invariant followed by its
/// rows, in order; those without a point are dropped. The piece of the invariant is made first, and where it has none
/// nothing more is formed.
/// It halts for `Wide`, `Rows` and `Pieces` only where the calculus of this call does, and for `Memory`.
pub fn controller_of(alloc: Global, plant: &Plant, draft: &Draft) -> Result<Controller, Halt>
    requires { IsDraft (plain_plant plant.now) (plain_draft draft.now) }
    ensures calculus { IsHaltedBy result (controller_of (plain_plant plant.now) (plain_draft draft.now)) plain_controller }
    ensures controller { IfOk result (λ c. IsControllerOf (plain_plant plant.now) c) }
    ensures inside { IfOk result (λ c. IsInsideController (plain_plant plant.now) (plain_controller c)) }
    // it keeps exactly the states of the pieces and of the guards
    ensures region { IfOk result (λ c. (s : PlainState) → InRegion (plain_plant plant.now) (plain_controller c).region s ↔ InDraft (plain_plant plant.now) (plain_draft draft.now) s) }
    ensures guards { IfOk result (λ c. (e : ℕ) (s : PlainState) → InGuard (plain_plant plant.now) (plain_controller c).guards e s ↔ InDraftGuard (plain_plant plant.now) (plain_draft draft.now) e s) }
{
    let region = made_pieces(alloc, plant, &draft.pieces)?;
    let guards = made_guards(alloc, plant, &draft.guards)?;
    Ok(Controller {
        region,
        guards: guards.pieces,
    })
}
