// Reads inputs that are a plant and its first states.
ghost use Rattle.std.specs.Prelude.{◌≤◌, length, map, IfOk, IfErr};
ghost use Rattle.lhg_math.specs.Tests.{AllOf};
ghost use Rattle.lhg_lex.specs.Lines.{lines_of, most_bytes};
ghost use Rattle.lhg_plant.specs.Printable.{IsPrintable};
ghost use Rattle.lhg_plant.specs.Views.{plain_plant};
ghost use Rattle.lhg_ctl.specs.DraftStates.{IsPlaced};
ghost use Rattle.lhg_ctl.specs.Views.{plain_placed};
ghost use Rattle.lhg_input.specs.BadLine.{HasBadLine};
ghost use Rattle.lhg_input.specs.Inputs.{IsInitInput};
ghost use Rattle.lhg_input.specs.Then.{IsSome};

use lhg_forward::read_init;
use lhg_lex::{Lines, ReadStop};
use lhg_num::Frac;
use lhg_plant::Plant;
use lhg_read::{finish, read_plant};
use lhg_row::Row;
use std::alloc::Global;

/// A plant, and rows at which it may begin, each with the place of their location.
#[derive(Drop)]
pub struct InitInput {
    pub plant: Plant,
    pub init: Vec<(u32, Vec<Row<Frac>>)>,
}

/// The plant and its first states that the whole input is.
pub fn read_init_input(alloc: Global, bytes: &[u8]) -> Result<InitInput, ReadStop>
    requires { length bytes.now ≤ most_bytes }
    // the lines of the input are a plant and first states of it, and these are their values
    ensures ok { IfOk result (λ r. IsInitInput (lines_of bytes.now) (plain_plant r.plant, map plain_placed r.init.items)) }
    // what is read can be printed, and the region of the first states can be made
    ensures printable { IfOk result (λ r. IsPrintable (plain_plant r.plant)) }
    ensures placed { IfOk result (λ r. AllOf (IsPlaced (length r.plant.vars.items) (length r.plant.locs.items)) (map plain_placed r.init.items)) }
    // the lines are no plant with first states, and this is the first that cannot stand where it does
    ensures err { IfErr result (HasBadLine (IsSome IsInitInput) bytes.now) }
{
    let mut lines = Lines::new(bytes);
    let plant = read_plant(alloc, &mut lines)?;
    let init = read_init(alloc, &mut lines, &plant)?;
    finish(alloc, &mut lines)?;
    Ok(InitInput { plant, init })
}
