// One location of a round, which is passed over where it is quiet.
ghost use Rattle.std.specs.Prelude.{◌≡◌, ◌+◌, ◌<◌, ◌≤◌, ◌++◌, ◌∷◌, ℕ, [], true, false, length, slice_get, Some, IfOk, OnOk};
ghost use Rattle.lhg_num.specs.Marked.{done};
ghost use Rattle.lhg_num.specs.Halting.{IsHaltedBy, IsHaltedByMemory};
ghost use Rattle.lhg_row.specs.Lists.{piece_limit};
ghost use Rattle.lhg_union.specs.Regions.{plain_region};
ghost use Rattle.lhg_plant.specs.Invariants.{pieces_at};
ghost use Rattle.lhg_plant.specs.Plant.{PlainLocation};
ghost use Rattle.lhg_plant.specs.Views.{plain_plant};
ghost use Rattle.lhg_jump.specs.OutViews.{plain_outs};
ghost use Rattle.lhg_loss.specs.Records as calculus;
ghost use Rattle.lhg_loss.specs.RoundFacts.{IsReachedAt};
ghost use Rattle.lhg_loss.specs.Views.{AllHaveVars};
ghost use Rattle.lhg_quiet.specs.Quiet.{outs_from, backs_from, IsQuietAt, HasSetsAt, IsUnchangedAt};
ghost use Rattle.lhg_iterate.specs.RoundViews.{plain_round, IsOverPlant, AreRoundLists};

use crate::places::add_place;
use crate::records::Site;
use crate::rounds::Round;
use lhg_jump::Outs;
use lhg_num::{Frac, Halt};
use lhg_plant::Plant;
use lhg_poly::Poly;
use lhg_quiet::laws::{law_place, law_quiet};
use lhg_union::{Region, copies};
use std::alloc::Global;

/// One location of a round, put behind those before it: its records, and what is left of the region there. Where it is quiet, there is no record and all is left, and
/// the sets of switches there need not be those of the region. Tells whether it may have changed: where it says no, it is quiet in this round.
pub(crate) fn step_place(
    alloc: Global,
    plant: &Plant,
    region: &Region<Frac>,
    outs: &Outs,
    backs: &[Vec<Poly<Frac>>],
    quiet: bool,
    site: Site,
    so_far: &mut Round,
) -> Result<bool, Halt>
    requires there { site.loc < length plant.now.locs.items }
    requires lists { AreRoundLists plant.now region.now.pieces.items outs.now backs.now }
    requires sets { quiet ≡ false → HasSetsAt (plain_plant plant.now) (plain_region region.now.pieces.items) site.loc (plain_outs outs.now) (plain_region backs.now) }
    requires is_quiet { quiet ≡ true → (place : PlainLocation) → slice_get (plain_plant plant.now).locs site.loc ≡ Some place → IsQuietAt (plain_plant plant.now) (plain_region region.now.pieces.items) site.loc place }
    requires fits { site.first + length so_far.old.losses.items < 1048576 }
    ensures step { (place : PlainLocation) → slice_get (plain_plant plant.now).locs site.loc ≡ Some place → IsHaltedBy result (calculus.round_at (plain_plant plant.now) (plain_region region.now.pieces.items) (outs_from (plain_plant plant.now) (plain_region region.now.pieces.items)) (backs_from (plain_plant plant.now) (plain_region region.now.pieces.items)) site.round site.first (plain_round so_far.old) (site.loc, place)) (λ _. plain_round so_far.new) }
    ensures reached { (place : PlainLocation) → slice_get (plain_plant plant.now).locs site.loc ≡ Some place → OnOk result (IsReachedAt (plain_plant plant.now) (plain_region region.now.pieces.items) (outs_from (plain_plant plant.now) (plain_region region.now.pieces.items)) (backs_from (plain_plant plant.now) (plain_region region.now.pieces.items)) site.loc place) }
    ensures unchanged { (place : PlainLocation) → slice_get (plain_plant plant.now).locs site.loc ≡ Some place → IfOk result (λ b. b ≡ false → IsUnchangedAt (plain_plant plant.now) (plain_region region.now.pieces.items) site.loc (plain_round so_far.old) (plain_round so_far.new)) }
    ensures few { OnOk result (length so_far.new.losses.items ≤ length so_far.old.losses.items + piece_limit) }
    ensures many { OnOk result (length so_far.new.next.pieces.items ≡ length so_far.old.next.pieces.items + 1) }
    ensures vars { IsOverPlant plant.now so_far.old.next.pieces.items → OnOk result (IsOverPlant plant.now so_far.new.next.pieces.items) }
    ensures losses_vars { AllHaveVars (length plant.now.vars.items) so_far.old.losses.items → OnOk result (AllHaveVars (length plant.now.vars.items) so_far.new.losses.items) }
{
    law_quiet();
    law_place();
    if quiet {
        pass_place(alloc, plant, region, site.loc as usize, so_far)?;
        return Ok(false);
    }
    let before = so_far.losses.len();
    add_place(alloc, plant, region, outs, backs, site, so_far)?;
    let after = so_far.losses.len();
    if after == before {
        return Ok(false);
    }
    Ok(true)
}

// A location that keeps its pieces.
fn pass_place(
    alloc: Global,
    plant: &Plant,
    region: &Region<Frac>,
    l: usize,
    so_far: &mut Round,
) -> Result<(), Halt>
    requires there { l < length region.now.pieces.items }
    requires region { IsOverPlant plant.now region.now.pieces.items }
    ensures next { IsHaltedByMemory result (done (plain_region so_far.old.next.pieces.items ++ pieces_at (plain_region region.now.pieces.items) l ∷ [])) (λ _. plain_region so_far.new.next.pieces.items) }
    ensures losses { so_far.new.losses.items ≡ so_far.old.losses.items }
    ensures many { OnOk result (length so_far.new.next.pieces.items ≡ length so_far.old.next.pieces.items + 1) }
    ensures vars { IsOverPlant plant.now so_far.old.next.pieces.items → OnOk result (IsOverPlant plant.now so_far.new.next.pieces.items) }
{
    let _ = plant;
    let copy = copies(alloc, &region.pieces[l])?;
    so_far.next.pieces.push(copy)?;
    Ok(())
}
