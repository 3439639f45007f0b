// Reads inputs that are a plant, a controller and a log.
ghost use Rattle.std.specs.Prelude.{◌≤◌, length, IfOk, IfErr};
ghost use Rattle.lhg_lex.specs.Lines.{lines_of, most_bytes};
ghost use Rattle.lhg_plant.specs.Printable.{IsPrintable};
ghost use Rattle.lhg_plant.specs.Views.{plain_plant};
ghost use Rattle.lhg_ctl.specs.DraftStates.{IsGivenDraft};
ghost use Rattle.lhg_ctl.specs.LogViews.{plain_log};
ghost use Rattle.lhg_ctl.specs.Views.{plain_draft};
ghost use Rattle.lhg_input.specs.BadLine.{HasBadLine};
ghost use Rattle.lhg_input.specs.Inputs.{IsLogInput};
ghost use Rattle.lhg_input.specs.Then.{IsSome};

use lhg_ctl::{Draft, Entry, read_controller, read_log};
use lhg_lex::{Lines, ReadStop};
use lhg_plant::{Plant, State};
use lhg_read::{finish, read_plant};
use std::alloc::Global;

/// A plant, a controller of it as it is written, and a log of the plant: where it starts and what happens, in order.
#[derive(Drop)]
pub struct LogInput {
    pub plant: Plant,
    pub draft: Draft,
    pub start: State,
    pub entries: Vec<Entry>,
}

/// The plant, the controller of it and the log that the whole input is.
pub fn read_log_input(alloc: Global, bytes: &[u8]) -> Result<LogInput, ReadStop>
    requires { length bytes.now ≤ most_bytes }
    // the lines of the input are a plant, a controller of it and a log, and these are their values
    ensures ok { IfOk result (λ r. IsLogInput (lines_of bytes.now) ((plain_plant r.plant, plain_draft r.draft), plain_log r.start r.entries.items)) }
    // what is read can be printed, and the controller can be made
    ensures printable { IfOk result (λ r. IsPrintable (plain_plant r.plant)) }
    ensures given { IfOk result (λ r. IsGivenDraft (plain_plant r.plant) (plain_draft r.draft)) }
    // the lines are no plant with a controller and a log, and this is the first that cannot stand where it does
    ensures err { IfErr result (HasBadLine (IsSome IsLogInput) bytes.now) }
{
    let mut lines = Lines::new(bytes);
    let plant = read_plant(alloc, &mut lines)?;
    let draft = read_controller(alloc, &mut lines, &plant)?;
    let (start, entries) = read_log(alloc, &mut lines, &plant)?;
    finish(alloc, &mut lines)?;
    Ok(LogInput {
        plant,
        draft,
        start,
        entries,
    })
}
