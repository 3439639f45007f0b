// Whether one state is kept, and if not, in which round it is lost and why.
ghost use Rattle.std.specs.Prelude.{◌≡◌, ◌↔◌, ◌+◌, ◌<◌, ◌≤◌, length, vec_len, IsTrue, IfOk, IfErr};
ghost use Rattle.lhg_plant.specs.State.{IsSafe, IsState};
ghost use Rattle.lhg_plant.specs.Views.{plain_plant, plain_state};
ghost use Rattle.lhg_iterate.specs.Seeking.{IsSought, SoughtVars, IsSeekStopped};
ghost use Rattle.lhg_iterate.specs.Turns.{IsStillIn, IsTurn};

use crate::solving::spent;
use crate::stages::{Stage, after_round, first_stage, next_round};
use crate::stops::Stop;
use lhg_loss::laws::law_seek;
use lhg_loss::{Loss, first_holding};
use lhg_num::Wide;
use lhg_plant::{Plant, State, in_invariant, is_safe};
use std::alloc::Global;

/// What is found of a state.
#[derive(Drop)]
pub enum Sought {
    /// Its point is not in the invariant.
    Outside,
    /// No safe line holds there.
    Unsafe,
    /// It is in the first round that removes nothing, whose number is this.
    Kept { rounds: u32 },
    /// A round removes it: the number of the first record that holds it, and the records of all rounds up to this one.
    Lost { number: u32, losses: Vec<Loss> },
}

/// Why it is not told what becomes of a state.
#[derive(Drop)]
pub enum SeekStop {
    /// A number is too wide in the value of a row at the asked point.
    State,
    /// A limit was met in the work of a round, the budget is spent, or memory is out.
    Stop(Stop),
}

impl From<Stop> for SeekStop {
    ghost use Rattle.std.specs.Prelude.{◌≡◌};
    ghost use Rattle.lhg_iterate.specs.declared.seeking.SeekStop.TheVariants.{Stop};

    ghost from_gives = { λ e s. s ≡ Stop e };

    fn from(stop: Stop) -> SeekStop {
        SeekStop::Stop(stop)
    }
}

impl From<Wide> for SeekStop {
    ghost use Rattle.std.specs.Prelude.{◌≡◌};
    ghost use Rattle.lhg_iterate.specs.declared.seeking.SeekStop.TheVariants.{State};

    ghost from_gives = { λ _ s. s ≡ State };

    fn from(_: Wide) -> SeekStop {
        SeekStop::State
    }
}

// What one more round tells: it decides, or the state is still there.
#[derive(Drop)]
enum Turn {
    Decided(Sought),
    Next(Stage),
}

/// What becomes of the state, which has a location of the plant and one coordinate per variable, within a budget of rounds. The round that decides is the first
/// that removes the state or removes nothing, and no later one is computed. `Outside` and `Unsafe` are told before round 0. `Spent` comes exactly
/// where each round up to the budget removes a state and the asked one is in the last. A limit comes only where the calculus passes it in the work of the round that
/// is named, which is at most the one that decides.
pub fn seek(alloc: Global, plant: &Plant, state: &State, budget: u32) -> Result<Sought, SeekStop>
    requires low { 1 ≤ budget }
    requires high { budget ≤ 1000 }
    requires there { state.now.loc < vec_len plant.now.locs }
    requires lengths { length state.now.at ≡ vec_len plant.now.vars }
    ensures sought { IfOk result (IsSought (plain_plant plant.now) budget (plain_state state.now)) }
    ensures stop { IfErr result (IsSeekStopped (plain_plant plant.now) budget (plain_state state.now)) }
    ensures vars { IfOk result (SoughtVars (length plant.now.vars.items)) }
{
    let inside = in_invariant(plant, state)?;
    if !inside {
        return Ok(Sought::Outside);
    }
    let safe = is_safe(plant, state)?;
    if !safe {
        return Ok(Sought::Unsafe);
    }
    seek_safe(alloc, plant, state, budget)
}

// What becomes of a safe state.
fn seek_safe(alloc: Global, plant: &Plant, state: &State, budget: u32) -> Result<Sought, SeekStop>
    requires low { 1 ≤ budget }
    requires lengths { length state.now.at ≡ vec_len plant.now.vars }
    requires safe { IsSafe (plain_plant plant.now) (plain_state state.now) }
    ensures sought { IfOk result (IsSought (plain_plant plant.now) budget (plain_state state.now)) }
    ensures stop { IfErr result (IsSeekStopped (plain_plant plant.now) budget (plain_state state.now)) }
    ensures vars { IfOk result (SoughtVars (length plant.now.vars.items)) }
{
    let mut stage = first_stage(alloc, plant, budget)?;
    for rounds in 0..budget {
        match next_turn(alloc, plant, state, budget, rounds, stage)? {
            Turn::Decided(sought) => return Ok(sought),
            Turn::Next(next) => stage = next,
        }
    }
    Err(SeekStop::Stop(spent(alloc, plant, budget, &stage)))
}

// One more round, for a state that is in the round before it.
fn next_turn(
    alloc: Global,
    plant: &Plant,
    state: &State,
    budget: u32,
    rounds: u32,
    mut stage: Stage,
) -> Result<Turn, SeekStop>
    requires within { rounds < budget }
    requires lengths { length state.now.at ≡ vec_len plant.now.vars }
    requires still { IsStillIn plant.now budget rounds (plain_state state.now) stage }
    ensures ok { IfOk result (IsTurn plant.now budget (rounds + 1) (plain_state state.now)) }
    ensures stop { IfErr result (IsSeekStopped (plain_plant plant.now) budget (plain_state state.now)) }
{
    law_seek();
    let passed = next_round(alloc, plant, budget, rounds, &mut stage)?;
    if passed.round.losses.is_empty() {
        return Ok(Turn::Decided(Sought::Kept { rounds: rounds + 1 }));
    }
    let first = first_holding(&passed.round.losses, state)?;
    let next = after_round(alloc, plant, budget, rounds, stage, passed)?;
    match first {
        Some(number) => Ok(Turn::Decided(Sought::Lost {
            number,
            losses: next.losses,
        })),
        None => Ok(Turn::Next(next)),
    }
}
