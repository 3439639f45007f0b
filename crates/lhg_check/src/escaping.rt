// The third part of validity: no state of the region has an escape from it past the guards.
ghost use Rattle.std.specs.Prelude.{◌≡◌, ◌<◌, ℕ, length, slice_get, Some, IfOk, IfSome, OnOk};
ghost use Rattle.lhg_num.specs.FracArithmetic.{frac_arithmetic};
ghost use Rattle.lhg_num.specs.Halting.{IsHaltedBy};
ghost use Rattle.lhg_num.specs.Marked.{valued};
ghost use Rattle.lhg_motion.specs.Found.{pieces_of};
ghost use Rattle.lhg_plant.specs.Views.{plain_plant, plain_location};
ghost use Rattle.lhg_union.specs.PolyLists.{lines_of, AllVars};
ghost use Rattle.lhg_reach.specs.FoundParts.{plain_founds, AllFoundVars};
ghost use Rattle.lhg_jump.specs.HitViews.{AreHitsOf};
ghost use Rattle.lhg_jump.specs.OutViews.{plain_outs};
ghost use Rattle.lhg_jump.specs.PlantLists.{AreListsOf};
ghost use Rattle.lhg_ctl.specs.Views.{plain_controller};
ghost use Rattle.lhg_check.specs.Check as calculus;
ghost use Rattle.lhg_check.specs.CheckFacts.{IsReachedFrom, IsReachedPast, HasReachedFor};
ghost use Rattle.lhg_check.specs.Views.{plain_piece, plain_first, IsFirstAmong, IsChecked};

use crate::firsts::First;
use lhg_cross::Tally;
use lhg_ctl::Controller;
use lhg_jump::{Outs, near_at};
use lhg_num::{Frac, Halt};
use lhg_plant::{Location, Plant};
use lhg_poly::Poly;
use lhg_reach::{Found, reach};
use std::alloc::Global;

/// The first piece of the states of the region with an escape past the guards, in the order of the locations, where the states outside
/// the region and the hits are given.
pub(crate) fn first_lost(
    alloc: Global,
    plant: &Plant,
    controller: &Controller,
    outs: &Outs,
) -> Result<Option<First>, Halt>
    requires controller { IsChecked plant.now controller.now }
    requires away { AreListsOf plant.now outs.now.away.pieces.items }
    requires hits { AreHitsOf plant.now outs.now.hits.items }
    ensures calculus { IsHaltedBy result (valued calculus.first_piece (calculus.lost_pieces (plain_plant plant.now) (plain_controller controller.now) (plain_outs outs.now))) plain_first }
    ensures among { IfOk result (λ o. IfSome o (IsFirstAmong (length plant.now.vars.items) (length plant.now.locs.items))) }
    ensures reached { IfOk result (λ o. HasReachedFor (plain_plant plant.now) (plain_controller controller.now) (plain_outs outs.now) (plain_first o)) }
{
    for l in 0..plant.locs.len() {
        let location = &plant.locs[l];
        let piece = lost_at(alloc, plant, controller, outs, l, location)?;
        if let Some(piece) = piece {
            return Ok(Some(First {
                place: l as u32,
                piece,
            }));
        }
    }
    Ok(None)
}

// The same in one location. The piece of a hit is lost whatever is reached.
fn lost_at(
    alloc: Global,
    plant: &Plant,
    controller: &Controller,
    outs: &Outs,
    l: usize,
    location: &Location,
) -> Result<Option<Poly<Frac>>, Halt>
    requires controller { IsChecked plant.now controller.now }
    requires away { AreListsOf plant.now outs.now.away.pieces.items }
    requires hits { AreHitsOf plant.now outs.now.hits.items }
    requires location { slice_get (plain_plant plant.now).locs l ≡ Some (plain_location location.now) }
    ensures calculus { IsHaltedBy result (valued calculus.first_of (calculus.lost_at (plain_plant plant.now) (plain_controller controller.now) (plain_outs outs.now) (l, plain_location location.now))) plain_piece }
    ensures vars { IfOk result (λ o. IfSome o (λ p. p.width ≡ length plant.now.vars.items)) }
    ensures reached { OnOk result (IsReachedPast (plain_plant plant.now) (plain_controller controller.now) (plain_outs outs.now) l) }
{
    if let Some(hit) = outs.hits[l].first() {
        let piece = hit.piece.copy(alloc)?;
        return Ok(Some(piece));
    }
    found_from(alloc, plant, controller, &outs.away.pieces[l], l, location)
}

// The first piece that is found from bad pieces, past the guards.
fn found_from(
    alloc: Global,
    plant: &Plant,
    controller: &Controller,
    bad: &[Poly<Frac>],
    l: usize,
    location: &Location,
) -> Result<Option<Poly<Frac>>, Halt>
    requires controller { IsChecked plant.now controller.now }
    requires bad { AllVars (length plant.now.vars.items) bad.now }
    requires location { slice_get (plain_plant plant.now).locs l ≡ Some (plain_location location.now) }
    ensures calculus { IsHaltedBy result (valued calculus.first_of (calculus.found_from (plain_plant plant.now) (plain_controller controller.now) (lines_of bad.now) (l, plain_location location.now))) plain_piece }
    ensures vars { IfOk result (λ o. IfSome o (λ p. p.width ≡ length plant.now.vars.items)) }
    ensures reached { OnOk result (IsReachedFrom (plain_plant plant.now) (plain_controller controller.now) (lines_of bad.now) l (plain_location location.now)) }
{
    let near = near_at(alloc, plant, &controller.region, &controller.guards, l)?;
    let mut tally = Tally::new();
    let reached = reach(alloc, bad, &near, &location.flow, &mut tally)?;
    Ok(first_found(reached.found))
}

// The first piece of those that are found.
fn first_found(found: Vec<Found<Frac>>) -> Option<Poly<Frac>>
    ensures piece { plain_piece result ≡ calculus.first_of (pieces_of (plain_founds found.items)) }
    ensures vars { (n : ℕ) → AllFoundVars n found.items → IfSome result (λ p. p.width ≡ n) }
{
    match found.into_iter().next() {
        Some(found) => Some(found.piece),
        None => None,
    }
}
