// What answers a plant, a state, and a controller's moves against which the plant is to win?
ghost use Rattle.std.specs.Prelude.{◌≡◌, ◌<◌, ◌≤◌, ◌^◌, ◌++◌, codes, decimal, length, IfOk, Some, None};
ghost use Rattle.lhg_lex.specs.Lines.{most_bytes};
ghost use Rattle.lhg_plant.specs.Plant.{PlainPlant};
ghost use Rattle.lhg_plant.specs.Rank.{HasRank};
ghost use Rattle.lhg_plant.specs.SpoilSteps.{AreLegalFrom};
ghost use Rattle.lhg_plant.specs.State.{PlainState};
ghost use Rattle.lhg_plant.specs.Views.{plain_plant, plain_state};
ghost use Rattle.lhg_play.specs.Views.{plain_spoil_steps};
ghost use Rattle.lhg_loss.specs.Views.{plain_losses, AllHaveVars};
ghost use Rattle.lhg_iterate.specs.Seeking.{IsLost};
ghost use Rattle.lhg_spoil.specs.Views.{plain_ctl_moves};
ghost use Rattle.lhg_row_text.specs.PrintedLine.{line};
ghost use Rattle.lhg_text.specs.SpoilText.{spoil_text};
ghost use Rattle.lhg_text.specs.TraceText.{IsPlacedState};
ghost use Rattle.lhg_input.specs.Inputs.{IsSpoilInput};
ghost use Rattle.lhg_cli.specs.InputAnswer.{IsInput, IsBytesAnswer};
ghost use Rattle.lhg_cli.specs.SpoilAnswer.{IsSpoilOutcome, IsWithinSpoil, IsSureSpoil};
ghost use Rattle.lhg_cli.specs.Words.{most_rounds};

use crate::Status;
use crate::explainer::Explainer;
use crate::explaining::{round_of, unsought};
use crate::refusing::refused;
use crate::solving::Answer;
use itoa::Buffer;
use lhg_input::read_spoil_input;
use lhg_iterate::{Sought, seek};
use lhg_loss::Loss;
use lhg_plant::{Plant, State};
use lhg_play::SpoilStep;
use lhg_spoil::{CtlMove, SpoilStop, Spoiled, spoil};
use lhg_text::{print_spoil, tell_pieces};
use std::alloc::{AllocError, Global};

// The line that says which limit was passed in which exchange.
fn past_exchange(alloc: Global, limit: &[u8], exchange: u32) -> Result<Vec<u8>, AllocError>
    ensures { IfOk result (λ v. v.items ≡ line (limit.now ++ codes " exchange " ++ decimal exchange)) }
{
    let mut buffer = Buffer::new();
    let mut text = limit.to_vec(alloc)?;
    text.extend_from_slice(b" exchange ")?;
    text.extend_from_slice(buffer.format(exchange).as_bytes())?;
    text.extend_from_slice(b"\n")?;
    Ok(text)
}

// The text of exchanges that end at an unsafe state.
fn won_text(
    alloc: Global,
    plant: &Plant,
    start: &State,
    won: &Spoiled,
) -> Result<Vec<u8>, AllocError>
    requires start { IsPlacedState (plain_plant plant.now) (plain_state start.now) }
    requires legal { AreLegalFrom (plain_plant plant.now) (plain_state start.now) None (plain_spoil_steps won.now.steps.items) (plain_state won.now.last) }
    requires won { HasRank (plain_plant plant.now) 0 (plain_state won.now.last) }
    ensures { IfOk result (λ v. v.items ≡ spoil_text (plain_plant plant.now) (plain_state start.now) (plain_spoil_steps won.now.steps.items) (Some (plain_state won.now.last)) None) }
{
    match print_spoil(alloc, plant, start, &won.steps, Some(&won.last), None) {
        Ok(text) => Ok(text),
        Err(_) => Err(AllocError),
    }
}

// The text of exchanges before a move that is not legal.
fn illegal_text(
    alloc: Global,
    plant: &Plant,
    start: &State,
    steps: &[SpoilStep],
    entry: u32,
) -> Result<Vec<u8>, AllocError>
    requires start { IsPlacedState (plain_plant plant.now) (plain_state start.now) }
    requires legal { (last : PlainState) × AreLegalFrom (plain_plant plant.now) (plain_state start.now) None (plain_spoil_steps steps.now) last }
    ensures { IfOk result (λ v. v.items ≡ spoil_text (plain_plant plant.now) (plain_state start.now) (plain_spoil_steps steps.now) None (Some entry)) }
{
    match print_spoil(alloc, plant, start, steps, None, Some(entry)) {
        Ok(text) => Ok(text),
        Err(_) => Err(AllocError),
    }
}

// The answer to moves from a state that some round removes.
fn exchanged(
    alloc: Global,
    plant: &Plant,
    budget: u32,
    start: &State,
    number: u32,
    losses: &[Loss],
    moves: &[CtlMove],
) -> Result<Answer, AllocError>
    requires start { IsPlacedState (plain_plant plant.now) (plain_state start.now) }
    requires lost { IsLost (plain_plant plant.now) budget number (plain_losses losses.now) (plain_state start.now) }
    requires vars { AllHaveVars (length plant.now.vars.items) losses.now }
    requires few { length moves.now < 2 ^ 32 }
    ensures { IfOk result (λ a. IsSpoilOutcome budget ((plain_plant plant.now, plain_state start.now), plain_ctl_moves moves.now) a.status a.text.items) }
{
    tell_pieces(losses);
    let round = round_of(plant, budget, start, number, losses);
    let teller = Explainer {
        plant,
        losses,
        upto: round,
    };
    match spoil(alloc, plant, losses, start, moves, &teller) {
        Ok(won) => Ok(Answer {
            status: Status::Done,
            text: won_text(alloc, plant, start, &won)?,
        }),
        Err(SpoilStop::Illegal { entry, steps }) => Ok(Answer {
            status: Status::No,
            text: illegal_text(alloc, plant, start, &steps, entry)?,
        }),
        Err(SpoilStop::Wide(exchange)) => Ok(Answer {
            status: Status::Wide,
            text: past_exchange(alloc, b"wide", exchange)?,
        }),
        Err(SpoilStop::Rows(exchange)) => Ok(Answer {
            status: Status::Lists,
            text: past_exchange(alloc, b"rows", exchange)?,
        }),
        Err(SpoilStop::Pieces(exchange)) => Ok(Answer {
            status: Status::Lists,
            text: past_exchange(alloc, b"pieces", exchange)?,
        }),
        Err(SpoilStop::Memory) => Err(AllocError),
    }
}

// The answer to moves from a state of a plant.
fn told(
    alloc: Global,
    plant: &Plant,
    budget: u32,
    start: &State,
    moves: &[CtlMove],
) -> Result<Answer, AllocError>
    requires low { 1 ≤ budget }
    requires high { budget ≤ most_rounds }
    requires there { start.now.loc < length plant.now.locs.items }
    requires lengths { length start.now.at ≡ length plant.now.vars.items }
    requires few { length moves.now < 2 ^ 32 }
    ensures { IfOk result (λ a. IsSpoilOutcome budget ((plain_plant plant.now, plain_state start.now), plain_ctl_moves moves.now) a.status a.text.items) }
{
    match seek(alloc, plant, start, budget) {
        Ok(Sought::Outside) => Ok(Answer {
            status: Status::Done,
            text: Vec::from_slice(alloc, b"outside\n")?,
        }),
        Ok(Sought::Unsafe) => Ok(Answer {
            status: Status::Done,
            text: Vec::from_slice(alloc, b"unsafe\n")?,
        }),
        Ok(Sought::Kept { .. }) => Ok(Answer {
            status: Status::Done,
            text: Vec::from_slice(alloc, b"kept\n")?,
        }),
        Ok(Sought::Lost { number, losses }) => {
            exchanged(alloc, plant, budget, start, number, &losses, moves)
        }
        Err(stop) => unsought(alloc, plant, budget, start, &stop),
    }
}

/// The answer to the bytes of an input within the limit, for a budget of rounds.
pub fn spoiled(alloc: Global, budget: u32, bytes: &[u8]) -> Result<Answer, AllocError>
    requires bytes { length bytes.now ≤ most_bytes }
    requires low { 1 ≤ budget }
    requires high { budget ≤ most_rounds }
    ensures answer { IfOk result (λ a. IsBytesAnswer IsSpoilInput (IsSpoilOutcome budget) bytes.now a.status a.text.items) }
    // where no limit is passed, no tells that a move is not legal, and yes that each is or that the state is not lost; or the budget is spent
    ensures sure { IfOk result (λ a. (input : IsInput IsSpoilInput bytes.now) → IsWithinSpoil budget input.value → IsSureSpoil budget input.value a.status) }
{
    match read_spoil_input(alloc, bytes) {
        Ok(input) => told(alloc, &input.plant, budget, &input.start, &input.moves),
        Err(stop) => refused(alloc, stop),
    }
}
