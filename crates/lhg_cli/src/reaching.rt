// What answers a plant and its first states, of which it is asked where they lead?
ghost use Rattle.std.specs.Prelude.{◌≡◌, ◌≤◌, ℕ, IfOk, IfErr, length, map};
ghost use Rattle.lhg_math.specs.Tests.{AllOf};
ghost use Rattle.lhg_plant.specs.Region.{PlainRegion};
ghost use Rattle.lhg_plant.specs.Views.{plain_plant};
ghost use Rattle.lhg_union.specs.Regions.{plain_region};
ghost use Rattle.lhg_jump.specs.PlantLists.{AreListsOf};
ghost use Rattle.lhg_ctl.specs.DraftStates.{IsPlaced};
ghost use Rattle.lhg_ctl.specs.Views.{plain_placed};
ghost use Rattle.lhg_text.specs.ForwardText.{forward_text, IsWrittenForward, SameForward};
ghost use Rattle.lhg_input.specs.Inputs.{IsInitInput};
ghost use Rattle.lhg_cli.specs.InputAnswer.{IsBytesAnswer};
ghost use Rattle.lhg_cli.specs.ReachAnswer.{IsExplored, IsUnexplored, IsPlacedStop, TellsReachStop, IsReached};
ghost use Rattle.lhg_cli.specs.Words.{most_rounds};

use crate::Status;
use crate::answers::{past_limit, spent};
use crate::refusing::refused;
use crate::solving::Answer;
use lhg_forward::{Forward, ForwardStop, forward, halted, init_of};
use lhg_input::read_init_input;
use lhg_io::INPUT_LIMIT;
use lhg_num::Frac;
use lhg_plant::Plant;
use lhg_row::Row;
use lhg_text::print_forward;
use std::alloc::{AllocError, Global};

/// The answer to the bytes of an input within the limit, for a budget of levels.
pub fn reach_of(alloc: Global, rounds: u32, bytes: &[u8]) -> Result<Answer, AllocError>
    requires bytes { length bytes.now ≤ INPUT_LIMIT }
    requires low { 1 ≤ rounds }
    requires high { rounds ≤ most_rounds }
    ensures { IfOk result (λ a. IsBytesAnswer IsInitInput (IsReached rounds) bytes.now a.status a.text.items) }
{
    match read_init_input(alloc, bytes) {
        Ok(input) => reached(alloc, &input.plant, &input.init, rounds),
        Err(stop) => refused(alloc, stop),
    }
}

// The answer to a plant and the lines of its first states within a budget of levels.
fn reached(
    alloc: Global,
    plant: &Plant,
    init: &[(u32, Vec<Row<Frac>>)],
    budget: u32,
) -> Result<Answer, AllocError>
    requires low { 1 ≤ budget }
    requires high { budget ≤ most_rounds }
    requires init { AllOf (IsPlaced (length plant.now.vars.items) (length plant.now.locs.items)) (map plain_placed init.now) }
    ensures { IfOk result (λ a. IsReached budget (plain_plant plant.now, map plain_placed init.now) a.status a.text.items) }
{
    match explored(alloc, plant, init, budget) {
        Ok(found) => told(alloc, plant, &found),
        Err(stop) => stopped(alloc, plant, budget, &stop),
    }
}

// The states to which the first ones lead.
fn explored(
    alloc: Global,
    plant: &Plant,
    init: &[(u32, Vec<Row<Frac>>)],
    budget: u32,
) -> Result<Forward, ForwardStop>
    requires low { 1 ≤ budget }
    requires high { budget ≤ most_rounds }
    requires init { AllOf (IsPlaced (length plant.now.vars.items) (length plant.now.locs.items)) (map plain_placed init.now) }
    ensures explored { IfOk result (λ f. IsExplored (plain_plant plant.now, map plain_placed init.now) budget f.rounds (plain_region f.region.pieces.items)) }
    ensures lists { IfOk result (λ f. AreListsOf plant.now f.region.pieces.items) }
    ensures stop { IfErr result (IsUnexplored (plain_plant plant.now, map plain_placed init.now) budget) }
{
    match init_of(alloc, plant, init) {
        Ok(region) => forward(alloc, plant, &region, budget),
        Err(halt) => Err(halted(halt, 0)),
    }
}

// The answer of forward sets.
fn told(alloc: Global, plant: &Plant, found: &Forward) -> Result<Answer, AllocError>
    requires { AreListsOf plant.now found.now.region.pieces.items }
    ensures status { IfOk result (λ a. a.status ≡ Status.Done) }
    ensures text { IfOk result (λ a. a.text.items ≡ forward_text (plain_plant plant.now) (plain_region found.now.region.pieces.items) found.now.rounds) }
    ensures one_reading { IfOk result (λ a. (s : PlainRegion) (r : ℕ) → IsWrittenForward (plain_plant plant.now) s r → forward_text (plain_plant plant.now) s r ≡ a.text.items → SameForward (plain_region found.now.region.pieces.items) found.now.rounds s r) }
{
    match print_forward(alloc, plant, &found.region, found.rounds) {
        Ok(text) => Ok(Answer {
            status: Status::Done,
            text,
        }),
        Err(_) => Err(AllocError),
    }
}

// The answer where there are none.
fn stopped(
    alloc: Global,
    plant: &Plant,
    budget: u32,
    stop: &ForwardStop,
) -> Result<Answer, AllocError>
    requires { IsPlacedStop (plain_plant plant.now) stop.now }
    ensures { IfOk result (λ a. TellsReachStop (plain_plant plant.now) budget stop.now a.status a.text.items) }
{
    match stop {
        ForwardStop::Wide(level) => Ok(Answer {
            status: Status::Wide,
            text: past_limit(alloc, b"wide", *level)?,
        }),
        ForwardStop::Rows(level) => Ok(Answer {
            status: Status::Lists,
            text: past_limit(alloc, b"rows", *level)?,
        }),
        ForwardStop::Pieces(level) => Ok(Answer {
            status: Status::Lists,
            text: past_limit(alloc, b"pieces", *level)?,
        }),
        ForwardStop::Spent(state) => Ok(Answer {
            status: Status::Spent,
            text: spent(alloc, plant, budget, state)?,
        }),
        ForwardStop::Memory => Err(AllocError),
    }
}
