// The iteration over the levels, until one adds nothing or the budget is spent.
ghost use Rattle.std.specs.Prelude.{◌≡◌, ◌<◌, ◌≤◌, ◌∷◌, [], suc, length, IfOk, IfErr};
ghost use Rattle.lhg_num.specs.Halting.{IsHaltedBy};
ghost use Rattle.lhg_row.specs.PieceFacts.{HasUncovered};
ghost use Rattle.lhg_plant.specs.Views.{plain_plant, plain_state};
ghost use Rattle.lhg_union.specs.PolyLists.{lines_of, AllVars};
ghost use Rattle.lhg_union.specs.Regions.{plain_region};
ghost use Rattle.lhg_jump.specs.PlantLists.{AreListsOf, IsRegionOf};
ghost use Rattle.lhg_forward.specs.Growth as calculus;
ghost use Rattle.lhg_forward.specs.GrowthFacts.{IsNewestOf};
ghost use Rattle.lhg_forward.specs.StageFacts.{IsForward};
ghost use Rattle.lhg_forward.specs.Outcomes.{IsForwardStop, IsAfter, IsTurn};

use crate::sets::Forward;
use crate::stages::{Stage, first_stage, next_stage};
use crate::stops::{ForwardStop, halted};
use lhg_num::{Frac, Halt};
use lhg_plant::{Plant, State};
use lhg_poly::Poly;
use lhg_sample::sample;
use lhg_union::{Region, minus, tell_lists};
use std::alloc::Global;
use std::slice;

/// The states to which some finite list of legal flows and switches leads from the region, where some level up to the budget adds none; `rounds` is the first that does.
/// `Spent` comes exactly where each level up to the budget adds a state. A limit comes only where the calculus passes it in the work of the level that is named.
pub fn forward(
    alloc: Global,
    plant: &Plant,
    init: &Region<Frac>,
    budget: u32,
) -> Result<Forward, ForwardStop>
    requires low { 1 ≤ budget }
    requires high { budget ≤ 1000 }
    requires init { IsRegionOf plant.now init.now.pieces.items }
    ensures end { IfOk result (λ f. calculus.forward_sets (plain_plant plant.now) (plain_region init.now.pieces.items) budget ≡ calculus.ended f.rounds (plain_region f.region.pieces.items)) }
    ensures forward { IfOk result (λ f. IsForward (plain_plant plant.now) (plain_region init.now.pieces.items) budget f.rounds (plain_region f.region.pieces.items)) }
    ensures stop { IfErr result (IsForwardStop (plain_plant plant.now) (plain_region init.now.pieces.items) budget) }
    ensures lists { IfOk result (λ f. AreListsOf plant.now f.region.pieces.items) }
{
    let mut stage = begin(alloc, plant, init, budget)?;
    for level in 0..budget {
        stage = go_on(alloc, plant, init, budget, level, stage)?;
        if stage.first.is_none() {
            return Ok(Forward {
                region: stage.region,
                rounds: level + 1,
            });
        }
    }
    Err(spent(alloc, plant, init, budget, &stage))
}

// The stage before the first level.
fn begin(
    alloc: Global,
    plant: &Plant,
    init: &Region<Frac>,
    budget: u32,
) -> Result<Stage, ForwardStop>
    requires { IsRegionOf plant.now init.now.pieces.items }
    ensures ok { IfOk result (IsAfter plant.now (plain_region init.now.pieces.items) budget 0) }
    ensures stop { IfErr result (IsForwardStop (plain_plant plant.now) (plain_region init.now.pieces.items) budget) }
{
    tell_lists(&init.pieces);
    match first_stage(alloc, plant, init) {
        Ok(stage) => Ok(stage),
        Err(halt) => Err(halted(halt, 1)),
    }
}

// The stage after the next level.
fn go_on(
    alloc: Global,
    plant: &Plant,
    init: &Region<Frac>,
    budget: u32,
    level: u32,
    stage: Stage,
) -> Result<Stage, ForwardStop>
    requires within { level < budget }
    requires high { budget ≤ 1000 }
    requires stage { IsAfter plant.now (plain_region init.now.pieces.items) budget level stage }
    ensures ok { IfOk result (IsTurn plant.now (plain_region init.now.pieces.items) budget (suc level)) }
    ensures stop { IfErr result (IsForwardStop (plain_plant plant.now) (plain_region init.now.pieces.items) budget) }
{
    match next_stage(alloc, plant, stage) {
        Ok(next) => Ok(next),
        Err(halt) => Err(halted(halt, level + 1)),
    }
}

// The budget is spent: a state that its last level adds.
fn spent(
    alloc: Global,
    plant: &Plant,
    init: &Region<Frac>,
    budget: u32,
    stage: &Stage,
) -> ForwardStop
    requires some { 0 < budget }
    requires stage { IsAfter plant.now (plain_region init.now.pieces.items) budget budget stage.now }
    ensures { IsForwardStop (plain_plant plant.now) (plain_region init.now.pieces.items) budget result }
{
    let loc = stage.first.unwrap_or(0);
    let list = &stage.region.pieces[loc as usize];
    let (earlier, newest) = list.split_at(stage.older[loc as usize]);
    match new_state(alloc, plant.vars.len(), loc, earlier, newest) {
        Ok(state) => ForwardStop::Spent(state),
        Err(halt) => halted(halt, budget),
    }
}

// A state of the first newest piece that is in no earlier one of its location.
fn new_state(
    alloc: Global,
    vars: usize,
    loc: u32,
    earlier: &[Poly<Frac>],
    newest: &[Poly<Frac>],
) -> Result<State, Halt>
    requires earlier { AllVars vars earlier.now }
    requires newest { AllVars vars newest.now }
    requires new { IsNewestOf vars (lines_of earlier.now) (lines_of newest.now) }
    ensures { IsHaltedBy result (calculus.new_state vars loc (lines_of earlier.now) (lines_of newest.now)) plain_state }
{
    let left = minus(alloc, slice::from_ref(&newest[0]), earlier)?;
    let at = sample(alloc, &left[0])?;
    Ok(State { loc, at })
}
