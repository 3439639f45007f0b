// Prints traces.
ghost use Rattle.std.specs.Prelude.{◌≡◌, ◌++◌, OnOk, map};
ghost use Rattle.std.specs.List.{flat_map};
ghost use Rattle.lhg_math.specs.Tests.{AllOf};
ghost use Rattle.lhg_num.specs.Halting.{IsHaltedByMemory};
ghost use Rattle.lhg_num.specs.Marked.{done};
ghost use Rattle.lhg_plant.specs.Views.{plain_plant};
ghost use Rattle.lhg_play.specs.Views.{plain_step, plain_steps};
ghost use Rattle.lhg_row_text.specs.PrintedLine.{line};
ghost use Rattle.lhg_text.specs.TraceText.{IsPlacedStep, step_line, last_line, trace_text};

use crate::moves::{push_env, push_flow, push_spaced_state, push_switch};
use crate::words::push_whole;
use lhg_num::Halt;
use lhg_plant::Plant;
use lhg_play::{Step, Trace};
use std::alloc::{AllocError, Global};

// What a step tells.
fn push_step(text: &mut Vec<u8>, plant: &Plant, step: &Step) -> Result<(), AllocError>
    requires { IsPlacedStep (plain_plant plant.now) (plain_step step.now) }
    ensures { OnOk result (text.new.items ≡ text.old.items ++ step_line (plain_plant plant.now) (plain_step step.now)) }
{
    match step {
        Step::Start(state) => {
            text.extend_from_slice(b"start")?;
            push_spaced_state(text, plant, state)
        }
        Step::Flow { time, to } => push_flow(text, plant, time, to),
        Step::Switch { number } => {
            text.extend_from_slice(b"switch")?;
            push_switch(text, plant, *number)
        }
        Step::Land(state) => {
            text.extend_from_slice(b"land")?;
            push_spaced_state(text, plant, state)
        }
        Step::Env { number, to } => push_env(text, plant, *number, to),
    }
}

// The line of a step.
fn push_step_line(text: &mut Vec<u8>, plant: &Plant, step: &Step) -> Result<(), AllocError>
    requires { IsPlacedStep (plain_plant plant.now) (plain_step step.now) }
    ensures { OnOk result (text.new.items ≡ text.old.items ++ line (step_line (plain_plant plant.now) (plain_step step.now))) }
{
    push_step(text, plant, step)?;
    text.extend_from_slice(b"\n")
}

// A line for each step.
fn push_steps(text: &mut Vec<u8>, plant: &Plant, steps: &[Step]) -> Result<(), AllocError>
    requires { AllOf (IsPlacedStep (plain_plant plant.now)) (plain_steps steps.now) }
    ensures { OnOk result (text.new.items ≡ text.old.items ++ flat_map line (map (step_line (plain_plant plant.now)) (plain_steps steps.now))) }
{
    for i in 0..steps.len() {
        push_step_line(text, plant, &steps[i])?;
    }
    Ok(())
}

/// The last line.
pub(crate) fn push_last(text: &mut Vec<u8>, illegal: Option<u32>) -> Result<(), AllocError>
    ensures { OnOk result (text.new.items ≡ text.old.items ++ line (last_line illegal)) }
{
    match illegal {
        None => text.extend_from_slice(b"end\n"),
        Some(entry) => {
            text.extend_from_slice(b"illegal")?;
            push_whole(text, entry)?;
            text.extend_from_slice(b"\n")
        }
    }
}

/// The text of a trace, which ends at its end or before an illegal entry. It halts for `Memory` alone.
pub fn print_trace(
    alloc: Global,
    plant: &Plant,
    trace: &Trace,
    illegal: Option<u32>,
) -> Result<Vec<u8>, Halt>
    // the locations and switches of the steps are there, and their points have one coordinate per variable
    requires { AllOf (IsPlacedStep (plain_plant plant.now)) (plain_steps trace.now.steps.items) }
    ensures { IsHaltedByMemory result (done (trace_text (plain_plant plant.now) (plain_steps trace.now.steps.items) illegal)) (λ v. v.items) }
{
    let mut text = Vec::new(alloc);
    text.extend_from_slice(b"trace 1\n")?;
    push_steps(&mut text, plant, &trace.steps)?;
    push_last(&mut text, illegal)?;
    Ok(text)
}
