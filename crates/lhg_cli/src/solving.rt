// What answers a plant within a budget of rounds?
ghost use Rattle.std.specs.Prelude.{◌≡◌, ◌≤◌, ℕ, List, IfOk, length};
ghost use Rattle.lhg_math.specs.Tests.{AllOf};
ghost use Rattle.lhg_plant.specs.Controller.{PlainController};
ghost use Rattle.lhg_plant.specs.Loss.{PlainLoss};
ghost use Rattle.lhg_plant.specs.Views.{plain_plant};
ghost use Rattle.lhg_loss.specs.Views.{plain_losses, AreOver};
ghost use Rattle.lhg_ctl.specs.Conditions.{IsControllerOf};
ghost use Rattle.lhg_ctl.specs.Views.{plain_controller};
ghost use Rattle.lhg_iterate.specs.Outcomes.{IsStoppedBy};
ghost use Rattle.lhg_text.specs.ReportConditions.{IsPlacedLoss};
ghost use Rattle.lhg_text.specs.ReportLaws.{IsWrittenReport, SameReport};
ghost use Rattle.lhg_text.specs.ReportText.{report_text};
ghost use Rattle.lhg_cli.specs.PlantAnswer.{IsPlantAnswer, IsStopText};
ghost use Rattle.lhg_cli.specs.Words.{most_rounds};

use crate::Status;
use crate::answers::{past_limit, spent};
use lhg_check::laws::law_solved_check;
use lhg_ctl::Controller;
use lhg_iterate::{Stop, solve};
use lhg_loss::Loss;
use lhg_plant::Plant;
use lhg_text::{print_report, tell_places};
use std::alloc::{AllocError, Global};

/// A status and its text.
#[derive(Drop)]
pub struct Answer {
    pub status: Status,
    pub text: Vec<u8>,
}

/// The answer to a plant within a budget of rounds.
pub fn solved(alloc: Global, plant: &Plant, budget: u32) -> Result<Answer, AllocError>
    requires low { 1 ≤ budget }
    requires high { budget ≤ most_rounds }
    ensures { IfOk result (λ a. IsPlantAnswer (plain_plant plant.now) budget a.status a.text.items) }
{
    match solve(alloc, plant, budget) {
        Ok(found) => {
            law_solved_check();
            tell_places(plant, &found.losses);
            let controller = Controller {
                region: found.region,
                guards: found.guards,
            };
            let text = report(alloc, plant, &controller, found.rounds, &found.losses)?;
            Ok(Answer {
                status: Status::Done,
                text,
            })
        }
        Err(stop) => stopped(alloc, plant, budget, &stop),
    }
}

// The report of a controller, a number of rounds and records.
fn report(
    alloc: Global,
    plant: &Plant,
    controller: &Controller,
    rounds: u32,
    losses: &[Loss],
) -> Result<Vec<u8>, AllocError>
    requires controller { IsControllerOf (plain_plant plant.now) controller.now }
    requires places { AllOf (IsPlacedLoss (plain_plant plant.now)) (plain_losses losses.now) }
    requires vars { AreOver (length plant.now.vars.items) losses.now }
    ensures text { IfOk result (λ v. v.items ≡ report_text (plain_plant plant.now) rounds (plain_controller controller.now) (plain_losses losses.now)) }
    ensures one_reading { IfOk result (λ v. (r : ℕ) (c : PlainController) (ls : List PlainLoss) → IsWrittenReport (plain_plant plant.now) r c ls → report_text (plain_plant plant.now) r c ls ≡ v.items
        → SameReport rounds (plain_controller controller.now) (plain_losses losses.now) r c ls) }
{
    match print_report(alloc, plant, controller, rounds, losses) {
        Ok(text) => Ok(text),
        Err(_) => Err(AllocError),
    }
}

/// The answer where nothing solves the game within the budget.
pub fn stopped(alloc: Global, plant: &Plant, budget: u32, stop: &Stop) -> Result<Answer, AllocError>
    requires { IsStoppedBy (plain_plant plant.now) budget stop.now }
    ensures { IfOk result (λ a. IsStopText (plain_plant plant.now) budget a.status a.text.items) }
{
    match stop {
        Stop::Wide(round) => Ok(Answer {
            status: Status::Wide,
            text: past_limit(alloc, b"wide", *round)?,
        }),
        Stop::Rows(round) => Ok(Answer {
            status: Status::Lists,
            text: past_limit(alloc, b"rows", *round)?,
        }),
        Stop::Pieces(round) => Ok(Answer {
            status: Status::Lists,
            text: past_limit(alloc, b"pieces", *round)?,
        }),
        Stop::Spent(state) => Ok(Answer {
            status: Status::Spent,
            text: spent(alloc, plant, budget, state)?,
        }),
        Stop::Memory => Err(AllocError),
    }
}
