// What answers a plant, a controller and a log over which it is to run?
ghost use Rattle.std.specs.Prelude.{◌≡◌, ◌<◌, ◌≤◌, ◌^◌, ◌++◌, codes, decimal, length, IfOk};
ghost use Rattle.lhg_lex.specs.Lines.{most_bytes};
ghost use Rattle.lhg_math.specs.Tests.{AllOf};
ghost use Rattle.lhg_plant.specs.Controller.{IsValid};
ghost use Rattle.lhg_plant.specs.Inside.{IsRegionInside};
ghost use Rattle.lhg_plant.specs.Views.{plain_plant, plain_state};
ghost use Rattle.lhg_play.specs.Views.{plain_steps};
ghost use Rattle.lhg_union.specs.Regions.{plain_region};
ghost use Rattle.lhg_ctl.specs.Conditions.{IsControllerOf};
ghost use Rattle.lhg_ctl.specs.DraftStates.{IsDraft};
ghost use Rattle.lhg_ctl.specs.LogViews.{plain_log};
ghost use Rattle.lhg_ctl.specs.Views.{plain_controller, plain_draft};
ghost use Rattle.lhg_input.specs.Inputs.{IsLogInput};
ghost use Rattle.lhg_row_text.specs.PrintedLine.{line};
ghost use Rattle.lhg_run.specs.Views.{plain_entries, IsOver};
ghost use Rattle.lhg_text.specs.TraceText.{IsPlacedStep, trace_text};
ghost use Rattle.lhg_cli.specs.InputAnswer.{IsInput, IsBytesAnswer};
ghost use Rattle.lhg_cli.specs.Verdict.{controller_in};
ghost use Rattle.lhg_cli.specs.RunAnswer.{IsRunOutcome, IsRan, IsWithinRun, IsSureRun};

use crate::Status;
use crate::answers::halted;
use crate::judging::{judge, verdict_answer};
use crate::refusing::refused;
use crate::solving::Answer;
use itoa::Buffer;
use lhg_check::Verdict;
use lhg_ctl::{Controller, Draft, Entry};
use lhg_input::read_log_input;
use lhg_plant::{Plant, State};
use lhg_play::Trace;
use lhg_run::{RunStop, run};
use lhg_text::print_trace;
use std::alloc::{AllocError, Global};

// The line that says which limit was passed for which entry.
fn past_entry(alloc: Global, limit: &[u8], entry: u32) -> Result<Vec<u8>, AllocError>
    ensures { IfOk result (λ v. v.items ≡ line (limit.now ++ codes " entry " ++ decimal entry)) }
{
    let mut buffer = Buffer::new();
    let mut text = limit.to_vec(alloc)?;
    text.extend_from_slice(b" entry ")?;
    text.extend_from_slice(buffer.format(entry).as_bytes())?;
    text.extend_from_slice(b"\n")?;
    Ok(text)
}

// The text of a trace.
fn traced(
    alloc: Global,
    plant: &Plant,
    trace: &Trace,
    illegal: Option<u32>,
) -> Result<Vec<u8>, AllocError>
    requires { AllOf (IsPlacedStep (plain_plant plant.now)) (plain_steps trace.now.steps.items) }
    ensures { IfOk result (λ v. v.items ≡ trace_text (plain_plant plant.now) (plain_steps trace.now.steps.items) illegal) }
{
    match print_trace(alloc, plant, trace, illegal) {
        Ok(text) => Ok(text),
        Err(_) => Err(AllocError),
    }
}

// The answer to the run of a valid controller over a log.
fn run_over(
    alloc: Global,
    plant: &Plant,
    controller: &Controller,
    start: &State,
    log: &[Entry],
) -> Result<Answer, AllocError>
    requires controller { IsControllerOf (plain_plant plant.now) controller.now }
    requires inside { IsRegionInside (plain_plant plant.now) (plain_region controller.now.region.pieces.items) }
    requires valid { IsValid (plain_plant plant.now) (plain_controller controller.now) }
    requires there { start.now.loc < length plant.now.locs.items }
    requires start { length start.now.at ≡ length plant.now.vars.items }
    requires ends { AllOf (IsOver (length plant.now.vars.items)) (plain_entries log.now) }
    requires few { length log.now < 2 ^ 32 }
    ensures { IfOk result (λ a. IsRunOutcome (plain_plant plant.now) (plain_controller controller.now) (plain_state start.now) (plain_entries log.now) a.status a.text.items) }
{
    match run(alloc, plant, controller, start, log) {
        Ok(trace) => Ok(Answer {
            status: Status::Done,
            text: traced(alloc, plant, &trace, None)?,
        }),
        Err(RunStop::Illegal { entry, trace }) => Ok(Answer {
            status: Status::No,
            text: traced(alloc, plant, &trace, Some(entry))?,
        }),
        Err(RunStop::Wide { entry }) => Ok(Answer {
            status: Status::Wide,
            text: past_entry(alloc, b"wide", entry)?,
        }),
        Err(RunStop::Rows { entry }) => Ok(Answer {
            status: Status::Lists,
            text: past_entry(alloc, b"rows", entry)?,
        }),
        Err(RunStop::Memory) => Err(AllocError),
    }
}

// The answer to a controller that is written, and a log.
fn run_written(
    alloc: Global,
    plant: &Plant,
    draft: &Draft,
    start: &State,
    log: &[Entry],
) -> Result<Answer, AllocError>
    requires draft { IsDraft (plain_plant plant.now) (plain_draft draft.now) }
    requires there { start.now.loc < length plant.now.locs.items }
    requires start { length start.now.at ≡ length plant.now.vars.items }
    requires ends { AllOf (IsOver (length plant.now.vars.items)) (plain_entries log.now) }
    requires few { length log.now < 2 ^ 32 }
    ensures { IfOk result (λ a. IsRan ((plain_plant plant.now, plain_draft draft.now), plain_log start.now log.now) a.status a.text.items) }
{
    match judge(alloc, plant, draft) {
        Ok(found) => match &found.verdict {
            Verdict::Valid => run_over(alloc, plant, &found.controller, start, log),
            other => verdict_answer(alloc, plant, other),
        },
        Err(halt) => halted(alloc, halt, b"check"),
    }
}

/// The answer to the bytes of an input within the limit.
pub fn ran(alloc: Global, bytes: &[u8]) -> Result<Answer, AllocError>
    requires { length bytes.now ≤ most_bytes }
    ensures answer { IfOk result (λ a. IsBytesAnswer IsLogInput IsRan bytes.now a.status a.text.items) }
    // where the controller is valid and no limit is passed, yes tells that the log is legal, and no that it is not
    ensures sure { IfOk result (λ a. (input : IsInput IsLogInput bytes.now) → IsWithinRun input.value → IsValid input.value.0.0 (controller_in input.value.0) → IsSureRun input.value a.status) }
{
    match read_log_input(alloc, bytes) {
        Ok(input) => run_written(
            alloc,
            &input.plant,
            &input.draft,
            &input.start,
            &input.entries,
        ),
        Err(stop) => refused(alloc, stop),
    }
}
