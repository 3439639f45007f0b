// Reads inputs that are a plant and a controller.
ghost use Rattle.std.specs.Prelude.{◌≤◌, length, IfOk, IfErr};
ghost use Rattle.lhg_lex.specs.Lines.{lines_of, most_bytes};
ghost use Rattle.lhg_plant.specs.Printable.{IsPrintable};
ghost use Rattle.lhg_plant.specs.Views.{plain_plant};
ghost use Rattle.lhg_ctl.specs.DraftStates.{IsGivenDraft};
ghost use Rattle.lhg_ctl.specs.Views.{plain_draft};
ghost use Rattle.lhg_input.specs.BadLine.{HasBadLine};
ghost use Rattle.lhg_input.specs.Inputs.{IsControllerInput};
ghost use Rattle.lhg_input.specs.Then.{IsSome};

use lhg_ctl::{Draft, read_controller};
use lhg_lex::{Lines, ReadStop};
use lhg_plant::Plant;
use lhg_read::{finish, read_plant};
use std::alloc::Global;

/// The plant and the controller of it that the whole input is.
pub fn read_controller_input(alloc: Global, bytes: &[u8]) -> Result<(Plant, Draft), ReadStop>
    requires { length bytes.now ≤ most_bytes }
    // the lines of the input are a plant and a controller of it, and these are their values
    ensures ok { IfOk result (λ r. IsControllerInput (lines_of bytes.now) (plain_plant r.0, plain_draft r.1)) }
    // what is read can be printed, and the controller can be made
    ensures printable { IfOk result (λ r. IsPrintable (plain_plant r.0)) }
    ensures given { IfOk result (λ r. IsGivenDraft (plain_plant r.0) (plain_draft r.1)) }
    // the lines are no plant with a controller, and this is the first that cannot stand where it does
    ensures err { IfErr result (HasBadLine (IsSome IsControllerInput) bytes.now) }
{
    let mut lines = Lines::new(bytes);
    let plant = read_plant(alloc, &mut lines)?;
    let draft = read_controller(alloc, &mut lines, &plant)?;
    finish(alloc, &mut lines)?;
    Ok((plant, draft))
}
