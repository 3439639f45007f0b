// Prints exchanges.
ghost use Rattle.std.specs.Prelude.{◌≡◌, ◌++◌, ◌∷◌, OnOk, codes};
ghost use Rattle.std.specs.List.{flat_map};
ghost use Rattle.std.specs.Option.{option_map, option_copied};
ghost use Rattle.lhg_math.specs.Tests.{AllOf};
ghost use Rattle.lhg_num.specs.Halting.{IsHaltedByMemory};
ghost use Rattle.lhg_num.specs.Marked.{done};
ghost use Rattle.lhg_plant.specs.Views.{plain_plant, plain_state};
ghost use Rattle.lhg_play.specs.Views.{plain_spoil_step, plain_spoil_steps};
ghost use Rattle.lhg_row_text.specs.PointText.{state_text};
ghost use Rattle.lhg_row_text.specs.PrintedLine.{line};
ghost use Rattle.lhg_text.specs.SpoilText.{IsPlacedSpoilStep, IsPlacedLast, IsOneGiven, is_still, spoil_step_line, spoil_step_text, unsafe_lines, spoil_text};
ghost use Rattle.lhg_text.specs.TraceText.{IsPlacedState};

use crate::moves::{push_env, push_flow, push_spaced_state, push_switch};
use crate::traces::push_last;
use crate::words::push_whole;
use lhg_num::{Halt, Scalar};
use lhg_plant::{Plant, State};
use lhg_play::SpoilStep;
use std::alloc::{AllocError, Global};

// Whether the step is a flow of time 0.
fn is_still(step: &SpoilStep) -> bool
    ensures { result ≡ is_still (plain_spoil_step step.now) }
{
    match step {
        SpoilStep::Flow { time, .. } => time.is_zero(),
        _ => false,
    }
}

// What a step tells.
fn push_step(text: &mut Vec<u8>, plant: &Plant, step: &SpoilStep) -> Result<(), AllocError>
    requires { IsPlacedSpoilStep (plain_plant plant.now) (plain_spoil_step step.now) }
    ensures { OnOk result (text.new.items ≡ text.old.items ++ spoil_step_line (plain_plant plant.now) (plain_spoil_step step.now)) }
{
    match step {
        SpoilStep::Round(round) => {
            text.extend_from_slice(b"round")?;
            push_whole(text, *round)
        }
        SpoilStep::Flow { time, to } => push_flow(text, plant, time, to),
        SpoilStep::Act { switch } => {
            text.extend_from_slice(b"act")?;
            push_switch(text, plant, *switch)
        }
        SpoilStep::Land(state) => {
            text.extend_from_slice(b"land")?;
            push_spaced_state(text, plant, state)
        }
        SpoilStep::Env { number, to } => push_env(text, plant, *number, to),
    }
}

// The line of a step, where it has one.
fn push_step_line(text: &mut Vec<u8>, plant: &Plant, step: &SpoilStep) -> Result<(), AllocError>
    requires { IsPlacedSpoilStep (plain_plant plant.now) (plain_spoil_step step.now) }
    ensures { OnOk result (text.new.items ≡ text.old.items ++ spoil_step_text (plain_plant plant.now) (plain_spoil_step step.now)) }
{
    if is_still(step) {
        return Ok(());
    }
    push_step(text, plant, step)?;
    text.extend_from_slice(b"\n")
}

// The lines of the steps, in order.
fn push_steps(text: &mut Vec<u8>, plant: &Plant, steps: &[SpoilStep]) -> Result<(), AllocError>
    requires { AllOf (IsPlacedSpoilStep (plain_plant plant.now)) (plain_spoil_steps steps.now) }
    ensures { OnOk result (text.new.items ≡ text.old.items ++ flat_map (spoil_step_text (plain_plant plant.now)) (plain_spoil_steps steps.now)) }
{
    for i in 0..steps.len() {
        push_step_line(text, plant, &steps[i])?;
    }
    Ok(())
}

// The line of the start.
fn push_start(text: &mut Vec<u8>, plant: &Plant, start: &State) -> Result<(), AllocError>
    requires { IsPlacedState (plain_plant plant.now) (plain_state start.now) }
    ensures { OnOk result (text.new.items ≡ text.old.items ++ line (codes "start" ++ 32 ∷ state_text (plain_plant plant.now) (plain_state start.now))) }
{
    text.extend_from_slice(b"start")?;
    push_spaced_state(text, plant, start)?;
    text.extend_from_slice(b"\n")
}

// The line of an unsafe state.
fn push_unsafe(text: &mut Vec<u8>, plant: &Plant, state: &State) -> Result<(), AllocError>
    requires { IsPlacedState (plain_plant plant.now) (plain_state state.now) }
    ensures { OnOk result (text.new.items ≡ text.old.items ++ line (codes "unsafe" ++ 32 ∷ state_text (plain_plant plant.now) (plain_state state.now))) }
{
    text.extend_from_slice(b"unsafe")?;
    push_spaced_state(text, plant, state)?;
    text.extend_from_slice(b"\n")
}

// The line of the unsafe state at which the exchanges end, where they do.
fn push_won(text: &mut Vec<u8>, plant: &Plant, last: Option<&State>) -> Result<(), AllocError>
    requires { IsPlacedLast (plain_plant plant.now) (option_map plain_state (option_copied last)) }
    ensures { OnOk result (text.new.items ≡ text.old.items ++ flat_map line (unsafe_lines (plain_plant plant.now) (option_map plain_state (option_copied last.entry)))) }
{
    match last {
        None => Ok(()),
        Some(state) => push_unsafe(text, plant, state),
    }
}

// The lines of exchanges.
fn push_spoil(
    text: &mut Vec<u8>,
    plant: &Plant,
    start: &State,
    steps: &[SpoilStep],
    last: Option<&State>,
    illegal: Option<u32>,
) -> Result<(), AllocError>
    requires start { IsPlacedState (plain_plant plant.now) (plain_state start.now) }
    requires steps { AllOf (IsPlacedSpoilStep (plain_plant plant.now)) (plain_spoil_steps steps.now) }
    requires last { IsPlacedLast (plain_plant plant.now) (option_map plain_state (option_copied last)) }
    ensures { OnOk result (text.new.items ≡ text.old.items ++ spoil_text (plain_plant plant.now) (plain_state start.now) (plain_spoil_steps steps.now) (option_map plain_state (option_copied last.entry)) illegal) }
{
    text.extend_from_slice(b"spoil 1\n")?;
    push_start(text, plant, start)?;
    push_steps(text, plant, steps)?;
    push_won(text, plant, last)?;
    push_last(text, illegal)
}

/// The text of exchanges from a start: the steps, and the unsafe state at which they end, or the number of the first move that is not
/// legal. It halts for `Memory` alone.
pub fn print_spoil(
    alloc: Global,
    plant: &Plant,
    start: &State,
    steps: &[SpoilStep],
    last: Option<&State>,
    illegal: Option<u32>,
) -> Result<Vec<u8>, Halt>
    // the locations and switches of the steps are there, and their points have one coordinate per variable
    requires start { IsPlacedState (plain_plant plant.now) (plain_state start.now) }
    requires steps { AllOf (IsPlacedSpoilStep (plain_plant plant.now)) (plain_spoil_steps steps.now) }
    requires last { IsPlacedLast (plain_plant plant.now) (option_map plain_state (option_copied last)) }
    // the exchanges end, or a move is not legal
    requires one { IsOneGiven (option_copied last) illegal }
    ensures { IsHaltedByMemory result (done (spoil_text (plain_plant plant.now) (plain_state start.now) (plain_spoil_steps steps.now) (option_map plain_state (option_copied last.entry)) illegal)) (λ v. v.items) }
{
    let mut text = Vec::new(alloc);
    push_spoil(&mut text, plant, start, steps, last, illegal)?;
    Ok(text)
}
