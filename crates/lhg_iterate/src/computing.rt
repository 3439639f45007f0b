// A round: which states of a region the plant takes away, why, and which are left.
ghost use Rattle.std.specs.Prelude.{◌≡◌, ◌+◌, ◌≤◌, length, IfOk, OnOk};
ghost use Rattle.lhg_num.specs.Halting.{IsHaltedBy};
ghost use Rattle.lhg_union.specs.Regions.{plain_region};
ghost use Rattle.lhg_plant.specs.Views.{plain_plant};
ghost use Rattle.lhg_jump.specs.PlantLists.{IsRegionOf};
ghost use Rattle.lhg_loss.specs.Records as calculus;
ghost use Rattle.lhg_loss.specs.RoundFacts.{IsExactRound};
ghost use Rattle.lhg_loss.specs.Views.{AllHaveVars};
ghost use Rattle.lhg_quiet.specs.Quiet.{AreQuiet, AreChanges};
ghost use Rattle.lhg_iterate.specs.Carrying.{IsCarriedTo, IsRenewedFor};
ghost use Rattle.lhg_iterate.specs.RoundViews.{plain_round, IsOverPlant};

use crate::carried::{Carried, first_carried};
use crate::limits::are_within;
use crate::rounds::{Passed, Round, over_places};
use crate::telling::tell_region;
use lhg_loss::laws::{law_parts, law_round};
use lhg_num::{Frac, Halt};
use lhg_plant::Plant;
use lhg_quiet::laws::law_masked;
use lhg_quiet::{busy_back, busy_hits, none_quiet, renew_away};
use lhg_union::Region;
use std::alloc::Global;

/// A round on the region: `next` holds exactly the states of the region without an escape from it past its `Back`. The records are numbered from `first` on, have
/// the round's number, are sound with the region and `next` in the place of the rounds, and hold exactly what is removed.
/// It halts for `Wide` only where fractions refuse an operation of the calculus of this call, for `Rows` and `Pieces` only where it has a list past `ROW_LIMIT`,
/// `PIECE_LIMIT` or `LIST_ROW_LIMIT`, or records past `RECORD_LIMIT` or `RECORD_ROW_LIMIT`, and for `Memory`.
pub fn round(
    alloc: Global,
    plant: &Plant,
    region: &Region<Frac>,
    number: u32,
    first: u32,
) -> Result<Round, Halt>
    requires region { IsRegionOf plant.now region.now.pieces.items }
    requires number { 1 ≤ number }
    requires first_low { 1 ≤ first }
    requires first_high { first ≤ 16385 }
    ensures calculus { IsHaltedBy result (calculus.one_round (plain_plant plant.now) (plain_region region.now.pieces.items) number first) plain_round }
    ensures exact { IfOk result (λ r. IsExactRound (plain_plant plant.now) (plain_region region.now.pieces.items) number first (plain_round r)) }
    ensures many { IfOk result (λ r. length r.next.pieces.items ≡ length plant.now.locs.items) }
    ensures vars { IfOk result (λ r. IsOverPlant plant.now r.next.pieces.items) }
    ensures losses_vars { IfOk result (λ r. AllHaveVars (length plant.now.vars.items) r.losses.items) }
    ensures few { IfOk result (λ r. first + length r.losses.items ≤ 16385) }
{
    let busy = none_quiet(alloc, plant)?;
    let mut carried = first_carried(alloc, plant)?;
    let passed = round_past(alloc, plant, region, &busy, &mut carried, number, first)?;
    Ok(passed.round)
}

/// The same, where the locations that are marked are known to be quiet: it passes over them. What is carried is brought up to this region.
pub(crate) fn round_past(
    alloc: Global,
    plant: &Plant,
    region: &Region<Frac>,
    quiet: &[bool],
    carried: &mut Carried,
    number: u32,
    first: u32,
) -> Result<Passed, Halt>
    requires region { IsRegionOf plant.now region.now.pieces.items }
    requires quiet { AreQuiet (plain_plant plant.now) (plain_region region.now.pieces.items) quiet.now }
    requires carried { IsCarriedTo plant.now region.now.pieces.items carried.old }
    requires number { 1 ≤ number }
    requires first_low { 1 ≤ first }
    requires first_high { first ≤ 16385 }
    ensures calculus { IsHaltedBy result (calculus.one_round (plain_plant plant.now) (plain_region region.now.pieces.items) number first) (λ d. plain_round d.round) }
    ensures exact { IfOk result (λ d. IsExactRound (plain_plant plant.now) (plain_region region.now.pieces.items) number first (plain_round d.round)) }
    ensures changes { IfOk result (λ d. AreChanges (plain_plant plant.now) (plain_region region.now.pieces.items) (plain_region d.round.next.pieces.items) d.changed.items) }
    ensures marks { IfOk result (λ d. length d.changed.items ≡ length plant.now.locs.items) }
    ensures many { IfOk result (λ d. length d.round.next.pieces.items ≡ length plant.now.locs.items) }
    ensures vars { IfOk result (λ d. IsOverPlant plant.now d.round.next.pieces.items) }
    ensures losses_vars { IfOk result (λ d. AllHaveVars (length plant.now.vars.items) d.round.losses.items) }
    ensures few { IfOk result (λ d. first + length d.round.losses.items ≤ 16385) }
    ensures renewed { OnOk result (IsRenewedFor plant.now region.now.pieces.items carried.new) }
{
    law_parts();
    law_round();
    law_masked();
    tell_region(&region.pieces);
    renew_away(
        alloc,
        plant,
        &carried.invs,
        &region.pieces,
        &carried.changed,
        &mut carried.outs.away.pieces,
    )?;
    let away = &carried.outs.away.pieces;
    let hits = busy_hits(alloc, plant, &carried.invs, away, &region.pieces, quiet)?;
    let backs = busy_back(alloc, plant, &carried.invs, &region.pieces, away, quiet)?;
    carried.outs.hits = hits;
    let passed = over_places(
        alloc,
        plant,
        region,
        &carried.outs,
        &backs,
        quiet,
        number,
        first,
    )?;
    if are_within(first, &passed.round.losses) {
        Ok(passed)
    } else {
        Err(Halt::Pieces)
    }
}
