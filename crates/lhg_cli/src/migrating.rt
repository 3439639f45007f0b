// What answers a plant and a controller that is to be written anew?
ghost use Rattle.std.specs.Prelude.{◌≤◌, length, IfOk};
ghost use Rattle.lhg_plant.specs.Views.{plain_plant};
ghost use Rattle.lhg_ctl.specs.DraftStates.{IsGivenDraft};
ghost use Rattle.lhg_ctl.specs.Views.{plain_draft};
ghost use Rattle.lhg_input.specs.Inputs.{IsControllerInput};
ghost use Rattle.lhg_cli.specs.InputAnswer.{IsBytesAnswer};
ghost use Rattle.lhg_cli.specs.Migration.{IsMigrated};

use crate::Status;
use crate::refusing::refused;
use crate::solving::Answer;
use lhg_ctl::{Draft, print_draft};
use lhg_input::read_controller_input;
use lhg_io::INPUT_LIMIT;
use lhg_plant::Plant;
use std::alloc::{AllocError, Global};

// The text of a controller in version 2.
fn written_anew(alloc: Global, plant: &Plant, draft: &Draft) -> Result<Answer, AllocError>
    requires { IsGivenDraft (plain_plant plant.now) (plain_draft draft.now) }
    ensures { IfOk result (λ a. IsMigrated (plain_plant plant.now, plain_draft draft.now) a.status a.text.items) }
{
    match print_draft(alloc, plant, draft) {
        Ok(text) => Ok(Answer {
            status: Status::Done,
            text,
        }),
        Err(_) => Err(AllocError),
    }
}

/// The answer to the bytes of an input within the limit.
pub fn migrated(alloc: Global, bytes: &[u8]) -> Result<Answer, AllocError>
    requires { length bytes.now ≤ INPUT_LIMIT }
    ensures { IfOk result (λ a. IsBytesAnswer IsControllerInput IsMigrated bytes.now a.status a.text.items) }
{
    match read_controller_input(alloc, bytes) {
        Ok((plant, draft)) => written_anew(alloc, &plant, &draft),
        Err(stop) => refused(alloc, stop),
    }
}
