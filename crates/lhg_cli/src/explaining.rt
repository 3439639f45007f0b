// What answers a plant and a state, of which it is asked what becomes of it?
ghost use Rattle.std.specs.Prelude.{◌≡◌, ◌<◌, ◌≤◌, length, IfOk};
ghost use Rattle.lhg_lex.specs.Lines.{most_bytes};
ghost use Rattle.lhg_plant.specs.Views.{plain_plant, plain_state};
ghost use Rattle.lhg_loss.specs.Views.{plain_losses, AllHaveVars};
ghost use Rattle.lhg_iterate.specs.Seeking.{IsLost, IsSeekStopped};
ghost use Rattle.lhg_plant.specs.Explained.{IsExplained};
ghost use Rattle.lhg_play.specs.Views.{plain_escape};
ghost use Rattle.lhg_input.specs.Inputs.{IsStateInput};
ghost use Rattle.lhg_plant.specs.Round.{IsRemovedIn};
ghost use Rattle.lhg_cli.specs.InputAnswer.{IsInput, IsBytesAnswer};
ghost use Rattle.lhg_cli.specs.StateAnswer.{text_of, IsUnsoughtText, IsStateAnswer, IsWithinSeek, IsSureStatus, IsToldExactly};
ghost use Rattle.lhg_cli.specs.Words.{most_rounds};

use crate::Status;
use crate::answers::{past_limit, spent};
use crate::refusing::refused;
use crate::solving::Answer;
use lhg_explain::{Escape, explain};
use lhg_input::read_state_input;
use lhg_iterate::{SeekStop, Sought, Stop, seek};
use lhg_loss::Loss;
use lhg_num::Halt;
use lhg_plant::{Plant, State};
use lhg_text::print_escape;
use std::alloc::{AllocError, Global};

// The text of an escape.
fn printed(
    alloc: Global,
    plant: &Plant,
    state: &State,
    escape: &Escape,
) -> Result<Vec<u8>, AllocError>
    requires lengths { length state.now.at ≡ length plant.now.vars.items }
    requires explained { IsExplained (plain_plant plant.now) (plain_state state.now) (plain_escape escape.now) }
    ensures { IfOk result (λ v. v.items ≡ text_of (plain_plant plant.now) (plain_escape escape.now)) }
{
    match print_escape(alloc, plant, escape) {
        Ok(text) => Ok(text),
        Err(_) => Err(AllocError),
    }
}

/// The round in which the state was removed, by the first record that holds it.
pub(crate) fn round_of(
    plant: &Plant,
    budget: u32,
    state: &State,
    number: u32,
    losses: &[Loss],
) -> u32
    requires { IsLost (plain_plant plant.now) budget number (plain_losses losses.now) (plain_state state.now) }
    ensures { IsRemovedIn (plain_plant plant.now) result (plain_state state.now) }
{
    let _ = plant;
    let _ = budget;
    let _ = state;
    losses[number as usize - 1].round
}

// The answer to a state that some round removes.
fn lost(
    alloc: Global,
    plant: &Plant,
    budget: u32,
    state: &State,
    number: u32,
    losses: &[Loss],
) -> Result<Answer, AllocError>
    requires lengths { length state.now.at ≡ length plant.now.vars.items }
    requires lost { IsLost (plain_plant plant.now) budget number (plain_losses losses.now) (plain_state state.now) }
    requires vars { AllHaveVars (length plant.now.vars.items) losses.now }
    ensures { IfOk result (λ a. IsStateAnswer budget (plain_plant plant.now, plain_state state.now) a.status a.text.items) }
{
    match explain(alloc, plant, losses, number, state) {
        Ok(escape) => Ok(Answer {
            status: Status::Done,
            text: printed(alloc, plant, state, &escape)?,
        }),
        Err(Halt::Wide) => {
            let round = round_of(plant, budget, state, number, losses);
            Ok(Answer {
                status: Status::Wide,
                text: past_limit(alloc, b"wide", round)?,
            })
        }
        Err(Halt::Rows) => {
            let round = round_of(plant, budget, state, number, losses);
            Ok(Answer {
                status: Status::Lists,
                text: past_limit(alloc, b"rows", round)?,
            })
        }
        Err(Halt::Pieces) => unreachable!(),
        Err(Halt::Memory) => Err(AllocError),
    }
}

/// The answer where it is not told what becomes of the state.
pub(crate) fn unsought(
    alloc: Global,
    plant: &Plant,
    budget: u32,
    state: &State,
    stop: &SeekStop,
) -> Result<Answer, AllocError>
    requires { IsSeekStopped (plain_plant plant.now) budget (plain_state state.now) stop.now }
    ensures { IfOk result (λ a. IsUnsoughtText budget (plain_plant plant.now, plain_state state.now) a.status a.text.items) }
{
    let _ = state;
    match stop {
        SeekStop::State => Ok(Answer {
            status: Status::Wide,
            text: Vec::from_slice(alloc, b"wide state\n")?,
        }),
        SeekStop::Stop(Stop::Wide(round)) => Ok(Answer {
            status: Status::Wide,
            text: past_limit(alloc, b"wide", *round)?,
        }),
        SeekStop::Stop(Stop::Rows(round)) => Ok(Answer {
            status: Status::Lists,
            text: past_limit(alloc, b"rows", *round)?,
        }),
        SeekStop::Stop(Stop::Pieces(round)) => Ok(Answer {
            status: Status::Lists,
            text: past_limit(alloc, b"pieces", *round)?,
        }),
        SeekStop::Stop(Stop::Spent(last)) => Ok(Answer {
            status: Status::Spent,
            text: spent(alloc, plant, budget, last)?,
        }),
        SeekStop::Stop(Stop::Memory) => Err(AllocError),
    }
}

// The answer to a state of a plant.
fn told(alloc: Global, plant: &Plant, budget: u32, state: &State) -> Result<Answer, AllocError>
    requires low { 1 ≤ budget }
    requires high { budget ≤ most_rounds }
    requires there { state.now.loc < length plant.now.locs.items }
    requires lengths { length state.now.at ≡ length plant.now.vars.items }
    ensures { IfOk result (λ a. IsStateAnswer budget (plain_plant plant.now, plain_state state.now) a.status a.text.items) }
{
    match seek(alloc, plant, state, budget) {
        Ok(Sought::Outside) => Ok(Answer {
            status: Status::Done,
            text: Vec::from_slice(alloc, b"outside\n")?,
        }),
        Ok(Sought::Unsafe) => Ok(Answer {
            status: Status::Done,
            text: Vec::from_slice(alloc, b"unsafe\n")?,
        }),
        Ok(Sought::Kept { .. }) => Ok(Answer {
            status: Status::Done,
            text: Vec::from_slice(alloc, b"kept\n")?,
        }),
        Ok(Sought::Lost { number, losses }) => lost(alloc, plant, budget, state, number, &losses),
        Err(stop) => unsought(alloc, plant, budget, state, &stop),
    }
}

/// The answer to the bytes of an input within the limit, for a budget of rounds.
pub fn explained(alloc: Global, budget: u32, bytes: &[u8]) -> Result<Answer, AllocError>
    requires bytes { length bytes.now ≤ most_bytes }
    requires low { 1 ≤ budget }
    requires high { budget ≤ most_rounds }
    ensures answer { IfOk result (λ a. IsBytesAnswer IsStateInput (IsStateAnswer budget) bytes.now a.status a.text.items) }
    // where no limit is passed up to the round that decides, it is told what becomes of the state, or the budget is spent
    ensures sure { IfOk result (λ a. (input : IsInput IsStateInput bytes.now) → IsWithinSeek budget input.value → IsSureStatus budget input.value a.status) }
    // what is told is told exactly where it is so
    ensures exact { IfOk result (λ a. (input : IsInput IsStateInput bytes.now) → a.status ≡ Status.Done → IsToldExactly budget input.value a.text.items) }
{
    match read_state_input(alloc, bytes) {
        Ok((plant, state)) => told(alloc, &plant, budget, &state),
        Err(stop) => refused(alloc, stop),
    }
}
