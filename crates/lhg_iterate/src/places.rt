// What a round does in one location.
ghost use Rattle.std.specs.Prelude.{◌≡◌, ◌+◌, ◌<◌, ◌≤◌, ◌++◌, ℕ, length, slice_get, Some, IfOk, OnOk};
ghost use Rattle.lhg_math.specs.Tests.{AllOf};
ghost use Rattle.lhg_num.specs.Marked.{done};
ghost use Rattle.lhg_num.specs.Halting.{IsHaltedBy, IsHaltedByMemory};
ghost use Rattle.lhg_num.specs.FracArithmetic.{frac_arithmetic};
ghost use Rattle.lhg_row.specs.Lists.{piece_limit};
ghost use Rattle.lhg_row.specs.Width.{AllWide};
ghost use Rattle.lhg_motion.specs.ReachCalculus.{reach};
ghost use Rattle.lhg_union.specs.PolyLists.{lines_of, AllVars};
ghost use Rattle.lhg_union.specs.Regions.{plain_region};
ghost use Rattle.lhg_plant.specs.Plant.{PlainLocation};
ghost use Rattle.lhg_plant.specs.OutCalculus.{hit_pieces};
ghost use Rattle.lhg_plant.specs.Views.{plain_plant};
ghost use Rattle.lhg_jump.specs.HitViews.{plain_hits, HasVars};
ghost use Rattle.lhg_jump.specs.OutViews.{plain_outs};
ghost use Rattle.lhg_loss.specs.Records as calculus;
ghost use Rattle.lhg_loss.specs.RoundFacts.{AreReached, IsReachedAt};
ghost use Rattle.lhg_loss.specs.Views.{plain_losses, AllHaveVars};
ghost use Rattle.lhg_iterate.specs.RoundViews.{plain_round, IsOverPlant, AreRoundLists};

use crate::records::{Site, records};
use crate::rounds::Round;
use lhg_cross::Tally;
use lhg_jump::{Hit, Outs, near_at};
use lhg_loss::Loss;
use lhg_num::{Frac, Halt};
use lhg_plant::Plant;
use lhg_poly::Poly;
use lhg_reach::reach;
use lhg_row::Row;
use lhg_union::{Region, copies, minus};
use std::alloc::Global;

/// One location of a round: its records, and what is left of the region there, are put behind those of the locations before it.
/// `first` is the number of the round's first record.
pub(crate) fn add_place(
    alloc: Global,
    plant: &Plant,
    region: &Region<Frac>,
    outs: &Outs,
    backs: &[Vec<Poly<Frac>>],
    site: Site,
    so_far: &mut Round,
) -> Result<(), Halt>
    requires there { site.loc < length plant.now.locs.items }
    requires lists { AreRoundLists plant.now region.now.pieces.items outs.now backs.now }
    requires fits { site.first + length so_far.old.losses.items < 1048576 }
    ensures step { (place : PlainLocation) → slice_get (plain_plant plant.now).locs site.loc ≡ Some place → IsHaltedBy result (calculus.round_at (plain_plant plant.now) (plain_region region.now.pieces.items) (plain_outs outs.now) (plain_region backs.now) site.round site.first (plain_round so_far.old) (site.loc, place)) (λ _. plain_round so_far.new) }
    ensures reached { (place : PlainLocation) → slice_get (plain_plant plant.now).locs site.loc ≡ Some place → OnOk result (IsReachedAt (plain_plant plant.now) (plain_region region.now.pieces.items) (plain_outs outs.now) (plain_region backs.now) site.loc place) }
    ensures few { OnOk result (length so_far.new.losses.items ≤ length so_far.old.losses.items + piece_limit) }
    ensures many { OnOk result (length so_far.new.next.pieces.items ≡ length so_far.old.next.pieces.items + 1) }
    ensures vars { IsOverPlant plant.now so_far.old.next.pieces.items → OnOk result (IsOverPlant plant.now so_far.new.next.pieces.items) }
    ensures losses_vars { AllHaveVars (length plant.now.vars.items) so_far.old.losses.items → OnOk result (AllHaveVars (length plant.now.vars.items) so_far.new.losses.items) }
{
    let here = Site {
        round: site.round,
        loc: site.loc,
        first: site.first + so_far.losses.len() as u32,
    };
    let mut losses = losses_at(alloc, plant, region, outs, backs, here)?;
    let lost = pieces_lost(alloc, &losses)?;
    let rest = minus(alloc, &region.pieces[site.loc as usize], &lost)?;
    so_far.next.pieces.push(rest)?;
    so_far.losses.append(&mut losses)?;
    Ok(())
}

// The records of a location.
fn losses_at(
    alloc: Global,
    plant: &Plant,
    region: &Region<Frac>,
    outs: &Outs,
    backs: &[Vec<Poly<Frac>>],
    site: Site,
) -> Result<Vec<Loss>, Halt>
    requires there { site.loc < length plant.now.locs.items }
    requires lists { AreRoundLists plant.now region.now.pieces.items outs.now backs.now }
    requires fits { site.first < 1048576 }
    ensures losses { (place : PlainLocation) → slice_get (plain_plant plant.now).locs site.loc ≡ Some place → IsHaltedBy result (calculus.losses_at (plain_plant plant.now) (plain_region region.now.pieces.items) (plain_outs outs.now) (plain_region backs.now) site.round site.first (site.loc, place)) (λ v. plain_losses v.items) }
    ensures reached { (place : PlainLocation) → slice_get (plain_plant plant.now).locs site.loc ≡ Some place → OnOk result (IsReachedAt (plain_plant plant.now) (plain_region region.now.pieces.items) (plain_outs outs.now) (plain_region backs.now) site.loc place) }
    ensures few { IfOk result (λ v. length v.items ≤ piece_limit) }
    ensures vars { IfOk result (λ v. AllHaveVars (length plant.now.vars.items) v.items) }
{
    let l = site.loc as usize;
    let near = near_at(alloc, plant, region, backs, l)?;
    let flow = &plant.locs[l].flow;
    let away = &outs.away.pieces[l];
    let hits = &outs.hits[l];
    losses_from(alloc, site, plant.vars.len(), flow, away, hits, near)
}

// The records of the hits, and of what is found from the pieces outside and from the hits.
fn losses_from(
    alloc: Global,
    site: Site,
    vars: usize,
    flow: &[Row<Frac>],
    away: &[Poly<Frac>],
    hits: &[Hit],
    near: Vec<Poly<Frac>>,
) -> Result<Vec<Loss>, Halt>
    requires flow { AllWide vars flow.now }
    requires away { AllVars vars away.now }
    requires hits { AllOf (HasVars vars) hits.now }
    requires near { AllVars vars near.items }
    requires fits { site.first < 1048576 }
    ensures losses { IsHaltedBy result (calculus.reached_losses vars site.round site.loc site.first (lines_of away.now) (plain_hits hits.now) (lines_of near.items) flow.now) (λ v. plain_losses v.items) }
    ensures reached { OnOk result (AreReached vars (lines_of away.now ++ hit_pieces (plain_hits hits.now)) (lines_of near.items) flow.now (reach frac_arithmetic vars (lines_of away.now ++ hit_pieces (plain_hits hits.now)) (lines_of near.items) flow.now).value.found) }
    ensures few { IfOk result (λ v. length v.items ≤ piece_limit) }
    ensures vars { IfOk result (λ v. AllHaveVars vars v.items) }
{
    let bad = bad_pieces(alloc, away, hits)?;
    let mut tally = Tally::new();
    let reached = reach(alloc, &bad, &near, flow, &mut tally)?;
    let ways = joined(bad, near)?;
    records(alloc, site, away, hits, &ways, &reached.found)
}

// The bad pieces followed by the near ones.
fn joined(mut bad: Vec<Poly<Frac>>, mut near: Vec<Poly<Frac>>) -> Result<Vec<Poly<Frac>>, Halt>
    ensures { IsHaltedByMemory result (done (bad.items ++ near.items)) (λ v. v.items) }
{
    bad.append(&mut near)?;
    Ok(bad)
}

// The pieces outside, followed by those of the hits.
fn bad_pieces(alloc: Global, away: &[Poly<Frac>], hits: &[Hit]) -> Result<Vec<Poly<Frac>>, Halt>
    ensures pieces { IsHaltedByMemory result (done (lines_of away.now ++ hit_pieces (plain_hits hits.now))) (λ v. lines_of v.items) }
    ensures vars { (n : ℕ) → AllVars n away.now → AllOf (HasVars n) hits.now → IfOk result (λ v. AllVars n v.items) }
{
    let mut bad = copies(alloc, away)?;
    for hit in hits {
        let copy = hit.piece.copy(alloc)?;
        bad.push(copy)?;
    }
    Ok(bad)
}

// The pieces of the records.
fn pieces_lost(alloc: Global, losses: &[Loss]) -> Result<Vec<Poly<Frac>>, Halt>
    ensures pieces { IsHaltedByMemory result (done (calculus.pieces_lost (plain_losses losses.now))) (λ v. lines_of v.items) }
    ensures vars { (n : ℕ) → AllHaveVars n losses.now → IfOk result (λ v. AllVars n v.items) }
{
    let mut lost = Vec::with_capacity(alloc, losses.len())?;
    for loss in losses {
        let copy = loss.piece.copy(alloc)?;
        lost.push(copy)?;
    }
    Ok(lost)
}
