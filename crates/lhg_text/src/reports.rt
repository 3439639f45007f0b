// Prints reports.
ghost use Rattle.std.specs.Prelude.{◌≡◌, ◌++◌, ℕ, List, OnOk, IfOk, length};
ghost use Rattle.lhg_math.specs.Tests.{AllOf};
ghost use Rattle.lhg_num.specs.Halting.{IsHaltedByMemory};
ghost use Rattle.lhg_num.specs.Marked.{done};
ghost use Rattle.lhg_plant.specs.Controller.{PlainController};
ghost use Rattle.lhg_plant.specs.Loss.{PlainLoss};
ghost use Rattle.lhg_plant.specs.Views.{plain_plant};
ghost use Rattle.lhg_loss.specs.Views.{plain_losses, AreOver};
ghost use Rattle.lhg_ctl.specs.Conditions.{IsControllerOf};
ghost use Rattle.lhg_ctl.specs.Views.{plain_controller};
ghost use Rattle.lhg_text.specs.ReportConditions.{IsPlacedLoss};
ghost use Rattle.lhg_text.specs.ReportLaws.{IsWrittenReport, SameReport};
ghost use Rattle.lhg_text.specs.ReportText.{report_text};

use crate::losses::push_losses;
use crate::words::push_whole;
use lhg_ctl::{Controller, push_controller};
use lhg_loss::Loss;
use lhg_num::Halt;
use lhg_plant::Plant;
use std::alloc::{AllocError, Global};

// The lines of a report.
fn push_report(
    text: &mut Vec<u8>,
    plant: &Plant,
    controller: &Controller,
    rounds: u32,
    losses: &[Loss],
) -> Result<(), AllocError>
    requires controller { IsControllerOf (plain_plant plant.now) controller.now }
    requires places { AllOf (IsPlacedLoss (plain_plant plant.now)) (plain_losses losses.now) }
    requires vars { AreOver (length plant.now.vars.items) losses.now }
    ensures text { OnOk result (text.new.items ≡ text.old.items ++ report_text (plain_plant plant.now) rounds (plain_controller controller.now) (plain_losses losses.now)) }
    ensures written { OnOk result (IsWrittenReport (plain_plant plant.now) rounds (plain_controller controller.now) (plain_losses losses.now)) }
{
    text.extend_from_slice(b"report 1\nrounds")?;
    push_whole(text, rounds)?;
    text.extend_from_slice(b"\n")?;
    push_controller(text, plant, controller)?;
    push_losses(text, plant, losses)?;
    text.extend_from_slice(b"end\n")
}

/// The text of a report: the number of rounds, the controller, and the records in the order of the list. It halts for `Memory`
/// alone.
pub fn print_report(
    alloc: Global,
    plant: &Plant,
    controller: &Controller,
    rounds: u32,
    losses: &[Loss],
) -> Result<Vec<u8>, Halt>
    requires controller { IsControllerOf (plain_plant plant.now) controller.now }
    // the location of each record and the switch of its cause are there; its piece is over the plant's variables
    requires places { AllOf (IsPlacedLoss (plain_plant plant.now)) (plain_losses losses.now) }
    requires vars { AreOver (length plant.now.vars.items) losses.now }
    ensures text { IsHaltedByMemory result (done (report_text (plain_plant plant.now) rounds (plain_controller controller.now) (plain_losses losses.now))) (λ v. v.items) }
    // each report of the plant with these bytes has the same number of rounds, pieces, guard pieces, and records as printed
    ensures one_reading { IfOk result (λ v. (r : ℕ) (c : PlainController) (ls : List PlainLoss) → IsWrittenReport (plain_plant plant.now) r c ls → report_text (plain_plant plant.now) r c ls ≡ v.items → SameReport rounds (plain_controller controller.now) (plain_losses losses.now) r c ls) }
{
    let mut text = Vec::new(alloc);
    push_report(&mut text, plant, controller, rounds, losses)?;
    Ok(text)
}
