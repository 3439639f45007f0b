// Reads inputs that are a plant, a state and moves of a controller.
ghost use Rattle.std.specs.Prelude.{◌≤◌, length, IfOk, IfErr};
ghost use Rattle.lhg_lex.specs.Lines.{lines_of, most_bytes};
ghost use Rattle.lhg_plant.specs.Printable.{IsPrintable};
ghost use Rattle.lhg_plant.specs.Views.{plain_plant, plain_state};
ghost use Rattle.lhg_spoil.specs.Views.{plain_ctl_moves};
ghost use Rattle.lhg_input.specs.BadLine.{HasBadLine};
ghost use Rattle.lhg_input.specs.Inputs.{IsSpoilInput};
ghost use Rattle.lhg_input.specs.Then.{IsSome};

use lhg_lex::{Lines, ReadStop};
use lhg_plant::{Plant, State};
use lhg_read::{finish, read_plant, read_state};
use lhg_spoil::{CtlMove, read_moves};
use std::alloc::Global;

/// A plant, a state of it, and what a controller does from there, in order.
#[derive(Drop)]
pub struct SpoilInput {
    pub plant: Plant,
    pub start: State,
    pub moves: Vec<CtlMove>,
}

/// The plant, the state of it and the controller's moves that the whole input is.
pub fn read_spoil_input(alloc: Global, bytes: &[u8]) -> Result<SpoilInput, ReadStop>
    requires { length bytes.now ≤ most_bytes }
    // the lines of the input are a plant, a state of it and moves against it, and these are their values
    ensures ok { IfOk result (λ r. IsSpoilInput (lines_of bytes.now) ((plain_plant r.plant, plain_state r.start), plain_ctl_moves r.moves.items)) }
    // a plant that is read can be printed
    ensures printable { IfOk result (λ r. IsPrintable (plain_plant r.plant)) }
    // the lines are no plant with a state and moves, and this is the first that cannot stand where it does
    ensures err { IfErr result (HasBadLine (IsSome IsSpoilInput) bytes.now) }
{
    let mut lines = Lines::new(bytes);
    let plant = read_plant(alloc, &mut lines)?;
    let start = read_state(alloc, &mut lines, &plant)?;
    let moves = read_moves(alloc, &mut lines, &plant)?;
    finish(alloc, &mut lines)?;
    Ok(SpoilInput {
        plant,
        start,
        moves,
    })
}
