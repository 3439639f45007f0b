// The stages of the iteration: the region after a round, with all records so far.
ghost use Rattle.std.specs.Prelude.{◌≡◌, ◌+◌, ◌<◌, suc, length, IfOk, OnOk, IfErr};
ghost use Rattle.lhg_plant.specs.Views.{plain_plant};
ghost use Rattle.lhg_iterate.specs.Carrying.{IsRenewedFor};
ghost use Rattle.lhg_iterate.specs.Stages.{plain_stage, IsAfter, IsPassedAfter};
ghost use Rattle.lhg_iterate.specs.Stops.{IsStageStop};

use crate::carried::{Carried, first_carried};
use crate::computing::round_past;
use crate::limits::{RECORD_ROW_LIMIT, rows_left};
use crate::rounds::Passed;
use crate::stops::{Stop, halted};
use lhg_jump::safe_region;
use lhg_loss::Loss;
use lhg_loss::laws::{law_stages, law_work};
use lhg_num::Frac;
use lhg_plant::Plant;
use lhg_quiet::laws::law_changes;
use lhg_quiet::{none_quiet, quiet_after};
use lhg_union::Region;
use std::alloc::Global;

/// After a round: the region, all records, how many of them there were before the round, how many rows further ones may have, which locations are quiet in the
/// next round, and what it is handed on.
#[derive(Drop)]
pub(crate) struct Stage {
    pub(crate) region: Region<Frac>,
    pub(crate) losses: Vec<Loss>,
    pub(crate) before: usize,
    pub(crate) rows_left: usize,
    pub(crate) quiet: Vec<bool>,
    pub(crate) carried: Carried,
}

/// The stage of round 0: the safe states, with no record.
pub(crate) fn first_stage(alloc: Global, plant: &Plant, budget: u32) -> Result<Stage, Stop>
    ensures ok { IfOk result (IsAfter plant.now budget 0) }
    ensures stop { IfErr result (IsStageStop (plain_plant plant.now) budget 0) }
{
    law_stages();
    law_work();
    let quiet = none_quiet(alloc, plant)?;
    let region = match safe_region(alloc, plant) {
        Ok(region) => region,
        Err(halt) => return Err(halted(halt, 0)),
    };
    match first_carried(alloc, plant) {
        Ok(carried) => Ok(Stage {
            region,
            losses: Vec::new(alloc),
            before: 0,
            rows_left: RECORD_ROW_LIMIT,
            quiet,
            carried,
        }),
        Err(halt) => Err(halted(halt, 0)),
    }
}

/// The round after this many rounds, on their stage, of which it changes only what is carried.
pub(crate) fn next_round(
    alloc: Global,
    plant: &Plant,
    budget: u32,
    rounds: u32,
    stage: &mut Stage,
) -> Result<Passed, Stop>
    requires within { rounds < budget }
    requires stage { IsAfter plant.now budget rounds stage.old }
    ensures ok { IfOk result (IsPassedAfter plant.now rounds stage.new) }
    ensures stage { OnOk result (IsAfter plant.now budget rounds stage.new) }
    ensures same { plain_stage stage.new ≡ plain_stage stage.old }
    ensures renewed { OnOk result (IsRenewedFor plant.now stage.new.region.pieces.items stage.new.carried) }
    ensures stop { IfErr result (IsStageStop (plain_plant plant.now) budget (suc rounds)) }
{
    let number = rounds + 1;
    let first = stage.losses.len() as u32 + 1;
    match round_past(
        alloc,
        plant,
        &stage.region,
        &stage.quiet,
        &mut stage.carried,
        number,
        first,
    ) {
        Ok(passed) => Ok(passed),
        Err(halt) => Err(halted(halt, number)),
    }
}

/// The stage after a round that made a record.
pub(crate) fn after_round(
    alloc: Global,
    plant: &Plant,
    budget: u32,
    rounds: u32,
    stage: Stage,
    passed: Passed,
) -> Result<Stage, Stop>
    requires within { rounds < budget }
    requires stage { IsAfter plant.now budget rounds stage }
    requires passed { IsPassedAfter plant.now rounds stage passed }
    requires renewed { IsRenewedFor plant.now stage.region.pieces.items stage.carried }
    requires some { 0 < length passed.round.losses.items }
    ensures ok { IfOk result (IsAfter plant.now budget (rounds + 1)) }
    ensures stop { IfErr result (IsStageStop (plain_plant plant.now) budget (suc rounds)) }
{
    law_stages();
    law_work();
    law_changes();
    let quiet = quiet_after(alloc, plant, &passed.changed)?;
    let before = stage.losses.len();
    let mut losses = stage.losses;
    let round = passed.round;
    let mut more = round.losses;
    let rows_left = match rows_left(&more, stage.rows_left) {
        Some(left) => left,
        None => return Err(Stop::Pieces(rounds + 1)),
    };
    losses.append(&mut more)?;
    let mut carried = stage.carried;
    carried.changed = passed.changed;
    Ok(Stage {
        region: round.next,
        losses,
        before,
        rows_left,
        quiet,
        carried,
    })
}
