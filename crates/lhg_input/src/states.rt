// Reads inputs that are a plant and a state.
ghost use Rattle.std.specs.Prelude.{◌≤◌, length, IfOk, IfErr};
ghost use Rattle.lhg_lex.specs.Lines.{lines_of, most_bytes};
ghost use Rattle.lhg_plant.specs.Printable.{IsPrintable};
ghost use Rattle.lhg_plant.specs.Views.{plain_plant, plain_state};
ghost use Rattle.lhg_input.specs.BadLine.{HasBadLine};
ghost use Rattle.lhg_input.specs.Inputs.{IsStateInput};
ghost use Rattle.lhg_input.specs.Then.{IsSome};

use lhg_lex::{Lines, ReadStop};
use lhg_plant::{Plant, State};
use lhg_read::{finish, read_plant, read_state};
use std::alloc::Global;

/// The plant and the state of it that the whole input is.
pub fn read_state_input(alloc: Global, bytes: &[u8]) -> Result<(Plant, State), ReadStop>
    requires { length bytes.now ≤ most_bytes }
    // the lines of the input are a plant and a state of it, and these are their values
    ensures ok { IfOk result (λ r. IsStateInput (lines_of bytes.now) (plain_plant r.0, plain_state r.1)) }
    // a plant that is read can be printed
    ensures printable { IfOk result (λ r. IsPrintable (plain_plant r.0)) }
    // the lines are no plant with a state, and this is the first that cannot stand where it does
    ensures err { IfErr result (HasBadLine (IsSome IsStateInput) bytes.now) }
{
    let mut lines = Lines::new(bytes);
    let plant = read_plant(alloc, &mut lines)?;
    let state = read_state(alloc, &mut lines, &plant)?;
    finish(alloc, &mut lines)?;
    Ok((plant, state))
}
