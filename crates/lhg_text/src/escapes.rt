// Prints escapes.
ghost use Rattle.std.specs.Prelude.{◌≡◌, ◌<◌, ◌++◌, OnOk, length, map};
ghost use Rattle.std.specs.List.{flat_map};
ghost use Rattle.lhg_math.specs.Tests.{AllOf};
ghost use Rattle.lhg_num.specs.Halting.{IsHaltedByMemory};
ghost use Rattle.lhg_num.specs.Marked.{done};
ghost use Rattle.lhg_plant.specs.Views.{plain_plant, plain_state};
ghost use Rattle.lhg_play.specs.Views.{plain_move, plain_moves};
ghost use Rattle.lhg_row_text.specs.PrintedLine.{line};
ghost use Rattle.lhg_text.specs.EscapeText.{plain_exit, IsFittingMove, IsPlacedExit, move_line, exit_lines, escape_text};
ghost use Rattle.lhg_text.specs.TraceText.{IsPlacedState, env_line};

use crate::moves::{push_env, push_flow};
use crate::words::push_whole;
use lhg_num::Halt;
use lhg_plant::{Plant, State};
use lhg_play::{Escape, Move};
use std::alloc::{AllocError, Global};

// The line of a flow.
fn push_move(text: &mut Vec<u8>, plant: &Plant, step: &Move) -> Result<(), AllocError>
    requires { length step.now.to ≡ length plant.now.vars.items }
    ensures { OnOk result (text.new.items ≡ text.old.items ++ line (move_line plant.now.vars.items (plain_move step.now))) }
{
    push_flow(text, plant, &step.time, &step.to)?;
    text.extend_from_slice(b"\n")
}

// The lines of flows, in order.
fn push_moves(text: &mut Vec<u8>, plant: &Plant, moves: &[Move]) -> Result<(), AllocError>
    requires { AllOf (IsFittingMove (plain_plant plant.now)) (plain_moves moves.now) }
    ensures { OnOk result (text.new.items ≡ text.old.items ++ flat_map line (map (move_line (plain_plant plant.now).vars) (plain_moves moves.now))) }
{
    for i in 0..moves.len() {
        push_move(text, plant, &moves[i])?;
    }
    Ok(())
}

// The line of a switch and its result.
fn push_exit(
    text: &mut Vec<u8>,
    plant: &Plant,
    switch: u32,
    target: &State,
) -> Result<(), AllocError>
    requires switch { switch < length plant.now.switches.items }
    requires target { IsPlacedState (plain_plant plant.now) (plain_state target.now) }
    ensures { OnOk result (text.new.items ≡ text.old.items ++ line (env_line (plain_plant plant.now) switch (plain_state target.now))) }
{
    push_env(text, plant, switch, target)?;
    text.extend_from_slice(b"\n")
}

// The line of the last switch, where there is one.
fn push_last(
    text: &mut Vec<u8>,
    plant: &Plant,
    last: &Option<(u32, State)>,
) -> Result<(), AllocError>
    requires { IsPlacedExit (plain_plant plant.now) (plain_exit last.now) }
    ensures { OnOk result (text.new.items ≡ text.old.items ++ flat_map line (exit_lines (plain_plant plant.now) (plain_exit last.now))) }
{
    match last {
        None => Ok(()),
        Some((switch, target)) => push_exit(text, plant, *switch, target),
    }
}

// The lines of an escape.
fn push_escape(text: &mut Vec<u8>, plant: &Plant, escape: &Escape) -> Result<(), AllocError>
    requires moves { AllOf (IsFittingMove (plain_plant plant.now)) (plain_moves escape.now.play.moves.items) }
    requires last { IsPlacedExit (plain_plant plant.now) (plain_exit escape.now.last) }
    ensures { OnOk result (text.new.items ≡ text.old.items ++ escape_text (plain_plant plant.now) escape.now.round (plain_moves escape.now.play.moves.items) (plain_exit escape.now.last)) }
{
    text.extend_from_slice(b"round")?;
    push_whole(text, escape.round)?;
    text.extend_from_slice(b"\n")?;
    push_moves(text, plant, &escape.play.moves)?;
    push_last(text, plant, &escape.last)?;
    text.extend_from_slice(b"end\n")
}

/// The text of an escape: the round, the flows, the switch that is last, where there is one, and `end`. It halts for `Memory` alone.
pub fn print_escape(alloc: Global, plant: &Plant, escape: &Escape) -> Result<Vec<u8>, Halt>
    // each point has one coordinate per variable; the last switch and the location of its result are there
    requires moves { AllOf (IsFittingMove (plain_plant plant.now)) (plain_moves escape.now.play.moves.items) }
    requires last { IsPlacedExit (plain_plant plant.now) (plain_exit escape.now.last) }
    ensures { IsHaltedByMemory result (done (escape_text (plain_plant plant.now) escape.now.round (plain_moves escape.now.play.moves.items) (plain_exit escape.now.last))) (λ v. v.items) }
{
    let mut text = Vec::new(alloc);
    push_escape(&mut text, plant, escape)?;
    Ok(text)
}
