// Entries that give a result: of an uncontrollable switch, and of the switch that is pending.
ghost use Rattle.std.specs.Prelude.{◌≡◌, ◌<◌, ◌∷◌, [], length, Some};
ghost use Rattle.lhg_num.specs.Halting.{IsHaltedByMemory};
ghost use Rattle.lhg_num.specs.Marked.{done};
ghost use Rattle.lhg_plant.specs.declared.plants.Side.TheVariants.{Env};
ghost use Rattle.lhg_plant.specs.Controller.{PlainController};
ghost use Rattle.lhg_plant.specs.Legal.{HasSide};
ghost use Rattle.lhg_plant.specs.Run.{resting, env_entry, land_entry};
ghost use Rattle.lhg_plant.specs.State.{IsState};
ghost use Rattle.lhg_plant.specs.Views.{plain_plant, plain_state};
ghost use Rattle.lhg_play.specs.Views.{plain_step};
ghost use Rattle.lhg_run.specs.Answers.{IsAnswered};
ghost use Rattle.lhg_run.specs.Numbers.{IsWideSwitch};
ghost use Rattle.lhg_run.specs.Seen.{IsTaken, plain_done};
ghost use Rattle.lhg_run.specs.Views.{plain_place};

use crate::copies::copy_point;
use crate::doing::Done;
use lhg_num::{Frac, Halt};
use lhg_plant::{Plant, State, is_uncontrollable, legal_switch};
use lhg_play::Step;
use lhg_row::Point;
use std::alloc::Global;

/// What an entry of an uncontrollable switch does at a state with no switch pending, and none where it is not legal.
pub(crate) fn env(
    alloc: Global,
    plant: &Plant,
    from: &State,
    switch: u32,
    to: &Point<Frac>,
) -> Result<Option<Done>, Halt>
    requires state { IsState (plain_plant plant.now) (plain_state from.now) }
    requires end { length to.now ≡ length plant.now.vars.items }
    ensures { (c : PlainController) → IsAnswered result (IsTaken (plain_plant plant.now) c (resting (plain_state from.now)) (env_entry switch to.now)) (HasSide (plain_plant plant.now) switch Env × IsWideSwitch (plain_plant plant.now) (plain_state from.now) switch to.now) ⊥ }
{
    if !is_uncontrollable(plant, switch) {
        return Ok(None);
    }
    let legal = legal_switch(plant, switch, from, to)?;
    if !legal {
        return Ok(None);
    }
    let there = plant.switches[switch as usize].to;
    let step = Step::Env {
        number: switch,
        to: state_at(alloc, there, to)?,
    };
    Ok(Some(rested(alloc, step, there, to)?))
}

/// What the result of a pending switch does, and none where it is not legal.
pub(crate) fn land(
    alloc: Global,
    plant: &Plant,
    from: &State,
    switch: u32,
    to: &Point<Frac>,
) -> Result<Option<Done>, Halt>
    requires there { switch < length plant.now.switches.items }
    requires state { IsState (plain_plant plant.now) (plain_state from.now) }
    requires end { length to.now ≡ length plant.now.vars.items }
    ensures { (c : PlainController) → IsAnswered result (IsTaken (plain_plant plant.now) c (plain_place from.now (Some switch)) (land_entry to.now)) (IsWideSwitch (plain_plant plant.now) (plain_state from.now) switch to.now) ⊥ }
{
    let legal = legal_switch(plant, switch, from, to)?;
    if !legal {
        return Ok(None);
    }
    let there = plant.switches[switch as usize].to;
    let step = Step::Land(state_at(alloc, there, to)?);
    Ok(Some(rested(alloc, step, there, to)?))
}

// The state at a point of a location.
fn state_at(alloc: Global, loc: u32, at: &Point<Frac>) -> Result<State, Halt>
    ensures { IsHaltedByMemory result (done (record { loc = loc; at = at.now })) plain_state }
{
    Ok(State {
        loc,
        at: copy_point(alloc, at)?,
    })
}

// The one step, after which the run rests at a point of a location.
fn rested(alloc: Global, step: Step, loc: u32, at: &Point<Frac>) -> Result<Done, Halt>
    ensures { IsHaltedByMemory result (done (plain_step step ∷ [], resting (record { loc = loc; at = at.now }))) plain_done }
{
    let state = state_at(alloc, loc, at)?;
    let mut steps = Vec::with_capacity(alloc, 1)?;
    steps.push(step)?;
    Ok(Done {
        steps,
        state,
        pending: None,
    })
}
