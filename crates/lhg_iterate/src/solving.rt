// The iteration: rounds one after the other, until one removes nothing or the budget is spent.
ghost use Rattle.std.specs.Prelude.{◌≡◌, ◌<◌, ◌≤◌, length, IfOk, IfErr};
ghost use Rattle.lhg_math.specs.Tests.{AllOf};
ghost use Rattle.lhg_num.specs.Halting.{IsHaltedBy};
ghost use Rattle.lhg_union.specs.PolyLists.{AllVars};
ghost use Rattle.lhg_union.specs.Regions.{plain_region};
ghost use Rattle.lhg_plant.specs.BackCalculus as backs;
ghost use Rattle.lhg_plant.specs.Laws.{HasExactGuards};
ghost use Rattle.lhg_plant.specs.Views.{plain_plant};
ghost use Rattle.lhg_jump.specs.PlantLists.{IsRegionOf, AreGuardsOf};
ghost use Rattle.lhg_loss.specs.Iterate as calculus;
ghost use Rattle.lhg_loss.specs.Views.{AllHaveVars};
ghost use Rattle.lhg_iterate.specs.Carrying.{IsCarriedTo, IsRenewedFor};
ghost use Rattle.lhg_iterate.specs.Outcomes.{plain_solved, IsSolvedBy, IsStoppedBy};
ghost use Rattle.lhg_iterate.specs.Stages.{IsAfter, IsPassedAfter};
ghost use Rattle.lhg_iterate.specs.Stops.{IsSpentStop};

use crate::carried::Carried;
use crate::rounds::Passed;
use crate::stages::{Stage, after_round, first_stage, next_round};
use crate::stops::{Stop, halted};
use lhg_jump::guards_with;
use lhg_loss::Loss;
use lhg_loss::laws::{law_stages, law_work};
use lhg_num::{Frac, Halt};
use lhg_plant::{Plant, State};
use lhg_poly::Poly;
use lhg_quiet::laws::law_changes;
use lhg_quiet::renew_away;
use lhg_sample::sample;
use lhg_union::Region;
use std::alloc::Global;

/// What solves a game: the region, the guards of its switches, how many rounds there were, the last of which removed nothing, and the records of all of them.
#[derive(Drop)]
pub struct Solved {
    pub region: Region<Frac>,
    pub guards: Vec<Vec<Poly<Frac>>>,
    pub rounds: u32,
    pub losses: Vec<Loss>,
}

/// The first round that removes nothing, where it is at most the budget: its region, which holds exactly the states of all secure regions and is itself
/// secure, the guards that keep it, and sound records of what was removed. `Spent` comes exactly where each round up to the budget removes a state. A limit comes
/// only where the calculus passes it in the work of the round that is named.
pub fn solve(alloc: Global, plant: &Plant, budget: u32) -> Result<Solved, Stop>
    requires low { 1 ≤ budget }
    requires high { budget ≤ 1000 }
    ensures solution { IfOk result (λ s. calculus.solution (plain_plant plant.now) budget ≡ plain_solved s) }
    ensures solved { IfOk result (IsSolvedBy (plain_plant plant.now) budget) }
    ensures stop { IfErr result (IsStoppedBy (plain_plant plant.now) budget) }
    ensures many { IfOk result (λ s. length s.region.pieces.items ≡ length plant.now.locs.items) }
    ensures guards_many { IfOk result (λ s. length s.guards.items ≡ length plant.now.switches.items) }
    ensures vars { IfOk result (λ s. AllOf (λ ps. AllVars (length plant.now.vars.items) ps.items) s.region.pieces.items) }
    ensures guards_vars { IfOk result (λ s. AllOf (λ ps. AllVars (length plant.now.vars.items) ps.items) s.guards.items) }
    ensures losses_vars { IfOk result (λ s. AllHaveVars (length plant.now.vars.items) s.losses.items) }
{
    let mut stage = first_stage(alloc, plant, budget)?;
    for rounds in 0..budget {
        let passed = next_round(alloc, plant, budget, rounds, &mut stage)?;
        if passed.round.losses.is_empty() {
            return settled(alloc, plant, budget, rounds, stage, passed);
        }
        stage = after_round(alloc, plant, budget, rounds, stage, passed)?;
    }
    Err(spent(alloc, plant, budget, &stage))
}

// What solves the game after a round that removed nothing.
fn settled(
    alloc: Global,
    plant: &Plant,
    budget: u32,
    rounds: u32,
    stage: Stage,
    passed: Passed,
) -> Result<Solved, Stop>
    requires within { rounds < budget }
    requires stage { IsAfter plant.now budget rounds stage }
    requires passed { IsPassedAfter plant.now rounds stage passed }
    requires renewed { IsRenewedFor plant.now stage.region.pieces.items stage.carried }
    requires none { length passed.round.losses.items ≡ 0 }
    ensures solution { IfOk result (λ s. calculus.solution (plain_plant plant.now) budget ≡ plain_solved s) }
    ensures solved { IfOk result (IsSolvedBy (plain_plant plant.now) budget) }
    ensures stop { IfErr result (IsStoppedBy (plain_plant plant.now) budget) }
    ensures many { IfOk result (λ s. length s.region.pieces.items ≡ length plant.now.locs.items) }
    ensures guards_many { IfOk result (λ s. length s.guards.items ≡ length plant.now.switches.items) }
    ensures vars { IfOk result (λ s. AllOf (λ ps. AllVars (length plant.now.vars.items) ps.items) s.region.pieces.items) }
    ensures guards_vars { IfOk result (λ s. AllOf (λ ps. AllVars (length plant.now.vars.items) ps.items) s.guards.items) }
    ensures losses_vars { IfOk result (λ s. AllHaveVars (length plant.now.vars.items) s.losses.items) }
{
    law_stages();
    law_work();
    law_changes();
    let mut carried = stage.carried;
    carried.changed = passed.changed;
    let round = passed.round;
    let region = round.next;
    match guards_of(alloc, plant, &region, &mut carried) {
        Ok(guards) => Ok(Solved {
            region,
            guards,
            rounds: rounds + 1,
            losses: stage.losses,
        }),
        Err(halt) => Err(halted(halt, rounds + 1)),
    }
}

// The guards of the last region.
fn guards_of(
    alloc: Global,
    plant: &Plant,
    region: &Region<Frac>,
    carried: &mut Carried,
) -> Result<Vec<Vec<Poly<Frac>>>, Halt>
    requires region { IsRegionOf plant.now region.now.pieces.items }
    requires carried { IsCarriedTo plant.now region.now.pieces.items carried.old }
    ensures calculus { IsHaltedBy result (backs.guards (plain_plant plant.now) (plain_region region.now.pieces.items)) (λ v. plain_region v.items) }
    ensures lists { IfOk result (λ v. AreGuardsOf plant.now v.items) }
    ensures points { IfOk result (λ v. HasExactGuards (plain_plant plant.now) (record { region = plain_region region.now.pieces.items; guards = plain_region v.items })) }
{
    renew_away(
        alloc,
        plant,
        &carried.invs,
        &region.pieces,
        &carried.changed,
        &mut carried.outs.away.pieces,
    )?;
    guards_with(
        alloc,
        plant,
        &carried.invs,
        &carried.outs.away.pieces,
        region,
    )
}

/// The budget is spent: a state that its last round removes, the sample of the first record.
pub(crate) fn spent(alloc: Global, plant: &Plant, budget: u32, stage: &Stage) -> Stop
    requires some { 0 < budget }
    requires stage { IsAfter plant.now budget budget stage.now }
    ensures { IsSpentStop (plain_plant plant.now) budget result }
{
    law_work();
    let loss = &stage.losses[stage.before];
    match sample(alloc, &loss.piece) {
        Ok(at) => Stop::Spent(State { loc: loss.loc, at }),
        Err(halt) => halted(halt, budget),
    }
}
