// What answers a plant for which a controller is asked that switches at the rim of its region alone?
ghost use Rattle.std.specs.Prelude.{◌≡◌, ◌≤◌, ◌++◌, ◌⊎◌, IfOk, length};
ghost use Rattle.lhg_num.specs.Halting.{IsHaltedBy};
ghost use Rattle.lhg_plant.specs.Controller.{IsValid};
ghost use Rattle.lhg_plant.specs.Views.{plain_plant};
ghost use Rattle.lhg_read.specs.PlantText.{IsPlantText};
ghost use Rattle.lhg_ctl.specs.Conditions.{IsControllerOf, IsInsideInvariants};
ghost use Rattle.lhg_ctl.specs.ControllerText.{controller_text};
ghost use Rattle.lhg_ctl.specs.Views.{plain_controller};
ghost use Rattle.lhg_check.specs.CheckLaws.{IsExactVerdict};
ghost use Rattle.lhg_check.specs.Views.{plain_verdict};
ghost use Rattle.lhg_lazy.specs.Rim.{IsCandidate};
ghost use Rattle.lhg_cli.specs.InputAnswer.{IsBytesAnswer};
ghost use Rattle.lhg_cli.specs.LazyAnswer.{candidate_of, trial_of, IsTried, IsTriedText, IsLazied};
ghost use Rattle.lhg_cli.specs.PlantAnswer.{IsStopText};
ghost use Rattle.lhg_cli.specs.Words.{most_rounds};

use crate::Status;
use crate::answers::halted;
use crate::judging::Judged;
use crate::refusing::refused;
use crate::solving::{Answer, stopped};
use lhg_check::laws::law_solved_check;
use lhg_check::{Verdict, check};
use lhg_ctl::{Controller, push_controller};
use lhg_input::read_plant_input;
use lhg_io::INPUT_LIMIT;
use lhg_iterate::solve;
use lhg_lazy::{away, candidate, rim};
use lhg_num::Halt;
use lhg_plant::Plant;
use std::alloc::{AllocError, Global};

/// The answer to the bytes of an input within the limit, for a budget of rounds.
pub fn lazy_of(alloc: Global, rounds: u32, bytes: &[u8]) -> Result<Answer, AllocError>
    requires bytes { length bytes.now ≤ INPUT_LIMIT }
    requires low { 1 ≤ rounds }
    requires high { rounds ≤ most_rounds }
    ensures { IfOk result (λ a. IsBytesAnswer IsPlantText (IsLazied rounds) bytes.now a.status a.text.items) }
{
    match read_plant_input(alloc, bytes) {
        Ok(plant) => lazied(alloc, &plant, rounds),
        Err(stop) => refused(alloc, stop),
    }
}

// The answer to a plant within a budget of rounds.
fn lazied(alloc: Global, plant: &Plant, budget: u32) -> Result<Answer, AllocError>
    requires low { 1 ≤ budget }
    requires high { budget ≤ most_rounds }
    ensures { IfOk result (λ a. IsTriedText (plain_plant plant.now) budget a.status a.text.items ⊎ IsStopText (plain_plant plant.now) budget a.status a.text.items) }
{
    match solve(alloc, plant, budget) {
        Ok(found) => {
            law_solved_check();
            let controller = Controller {
                region: found.region,
                guards: found.guards,
            };
            tried(alloc, plant, &controller)
        }
        Err(stop) => stopped(alloc, plant, budget, &stop),
    }
}

// The answer where the controller solves the game.
fn tried(alloc: Global, plant: &Plant, controller: &Controller) -> Result<Answer, AllocError>
    requires controller { IsControllerOf (plain_plant plant.now) controller.now }
    requires inside { IsInsideInvariants (plain_plant plant.now) (plain_controller controller.now) }
    requires valid { IsValid (plain_plant plant.now) (plain_controller controller.now) }
    ensures { IfOk result (λ a. IsTried (plain_plant plant.now) (plain_controller controller.now) a.status a.text.items) }
{
    match trial(alloc, plant, controller) {
        Ok(found) => chosen(alloc, plant, controller, &found.controller, &found.verdict),
        Err(halt) => halted(alloc, halt, b"lazy"),
    }
}

// The answer where the candidate of the controller has this verdict.
fn chosen(
    alloc: Global,
    plant: &Plant,
    controller: &Controller,
    lazy: &Controller,
    verdict: &Verdict,
) -> Result<Answer, AllocError>
    requires controller { IsControllerOf (plain_plant plant.now) controller.now }
    requires valid { IsValid (plain_plant plant.now) (plain_controller controller.now) }
    requires lazy { IsControllerOf (plain_plant plant.now) lazy.now }
    requires made { plain_controller lazy.now ≡ (candidate_of (plain_plant plant.now) (plain_controller controller.now)).value }
    requires candidate { IsCandidate (plain_plant plant.now) (plain_controller controller.now) (plain_controller lazy.now) }
    requires exact { IsExactVerdict (plain_plant plant.now) (plain_controller lazy.now) (plain_verdict verdict.now) }
    ensures { IfOk result (λ a. IsTried (plain_plant plant.now) (plain_controller controller.now) a.status a.text.items) }
{
    match verdict {
        Verdict::Valid => told(alloc, plant, b"lazy cut\n", lazy),
        _ => told(alloc, plant, b"lazy full\n", controller),
    }
}

// The candidate of the controller, with its verdict.
fn trial(alloc: Global, plant: &Plant, controller: &Controller) -> Result<Judged, Halt>
    requires controller { IsControllerOf (plain_plant plant.now) controller.now }
    requires inside { IsInsideInvariants (plain_plant plant.now) (plain_controller controller.now) }
    ensures calculus { IsHaltedBy result (trial_of (plain_plant plant.now) (plain_controller controller.now)) (λ j. plain_verdict j.verdict) }
    ensures made { IfOk result (λ j. plain_controller j.controller ≡ (candidate_of (plain_plant plant.now) (plain_controller controller.now)).value) }
    ensures controller { IfOk result (λ j. IsControllerOf (plain_plant plant.now) j.controller) }
    ensures candidate { IfOk result (λ j. IsCandidate (plain_plant plant.now) (plain_controller controller.now) (plain_controller j.controller)) }
    ensures exact { IfOk result (λ j. IsExactVerdict (plain_plant plant.now) (plain_controller j.controller) (plain_verdict j.verdict)) }
{
    let outside = away(alloc, plant, &controller.region)?;
    let edge = rim(alloc, plant, &controller.region, &outside)?;
    let lazy = candidate(alloc, plant, &controller.region, &controller.guards, &edge)?;
    let verdict = check(alloc, plant, &lazy)?;
    Ok(Judged {
        controller: lazy,
        verdict,
    })
}

// The answer of a line and a controller.
fn told(
    alloc: Global,
    plant: &Plant,
    head: &[u8],
    controller: &Controller,
) -> Result<Answer, AllocError>
    requires { IsControllerOf (plain_plant plant.now) controller.now }
    ensures status { IfOk result (λ a. a.status ≡ Status.Done) }
    ensures text { IfOk result (λ a. a.text.items ≡ head.now ++ controller_text (plain_plant plant.now) (plain_controller controller.now)) }
{
    let mut text = head.to_vec(alloc)?;
    push_controller(&mut text, plant, controller)?;
    Ok(Answer {
        status: Status::Done,
        text,
    })
}
