// What answers a plant and a controller that is to be checked?
ghost use Rattle.std.specs.Prelude.{◌≤◌, length, IfOk};
ghost use Rattle.lhg_plant.specs.Views.{plain_plant};
ghost use Rattle.lhg_ctl.specs.DraftStates.{IsDraft};
ghost use Rattle.lhg_ctl.specs.Views.{plain_draft};
ghost use Rattle.lhg_input.specs.Inputs.{IsControllerInput};
ghost use Rattle.lhg_cli.specs.InputAnswer.{IsBytesAnswer};
ghost use Rattle.lhg_cli.specs.Verdict.{IsChecked};

use crate::answers::halted;
use crate::judging::{judge, verdict_answer};
use crate::refusing::refused;
use crate::solving::Answer;
use lhg_ctl::Draft;
use lhg_input::read_controller_input;
use lhg_io::INPUT_LIMIT;
use lhg_plant::Plant;
use std::alloc::{AllocError, Global};

// The answer to a plant and a controller that is written.
fn check_written(alloc: Global, plant: &Plant, draft: &Draft) -> Result<Answer, AllocError>
    requires { IsDraft (plain_plant plant.now) (plain_draft draft.now) }
    ensures { IfOk result (λ a. IsChecked (plain_plant plant.now, plain_draft draft.now) a.status a.text.items) }
{
    match judge(alloc, plant, draft) {
        Ok(found) => verdict_answer(alloc, plant, &found.verdict),
        Err(halt) => halted(alloc, halt, b"check"),
    }
}

/// The answer to the bytes of an input within the limit.
pub fn checked(alloc: Global, bytes: &[u8]) -> Result<Answer, AllocError>
    requires { length bytes.now ≤ INPUT_LIMIT }
    ensures { IfOk result (λ a. IsBytesAnswer IsControllerInput IsChecked bytes.now a.status a.text.items) }
{
    match read_controller_input(alloc, bytes) {
        Ok((plant, draft)) => check_written(alloc, &plant, &draft),
        Err(stop) => refused(alloc, stop),
    }
}
