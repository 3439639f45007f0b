// Reads inputs that are a plant.
ghost use Rattle.std.specs.Prelude.{◌≤◌, length, IfOk, IfErr};
ghost use Rattle.lhg_lex.specs.Lines.{lines_of, most_bytes};
ghost use Rattle.lhg_plant.specs.Printable.{IsPrintable};
ghost use Rattle.lhg_plant.specs.Views.{plain_plant};
ghost use Rattle.lhg_read.specs.PlantText.{IsPlantText};
ghost use Rattle.lhg_input.specs.BadLine.{HasBadLine};
ghost use Rattle.lhg_input.specs.Then.{IsSome};

use lhg_lex::{Lines, ReadStop};
use lhg_plant::Plant;
use lhg_read::{finish, read_plant};
use std::alloc::Global;

/// The plant that the whole input is.
pub fn read_plant_input(alloc: Global, bytes: &[u8]) -> Result<Plant, ReadStop>
    requires { length bytes.now ≤ most_bytes }
    // the lines of the input are a plant, and this is its value
    ensures ok { IfOk result (λ p. IsPlantText (lines_of bytes.now) (plain_plant p)) }
    // a plant that is read can be printed
    ensures printable { IfOk result (λ p. IsPrintable (plain_plant p)) }
    // the lines are no plant, and this is the first that cannot stand where it does
    ensures err { IfErr result (HasBadLine (IsSome IsPlantText) bytes.now) }
{
    let mut lines = Lines::new(bytes);
    let plant = read_plant(alloc, &mut lines)?;
    finish(alloc, &mut lines)?;
    Ok(plant)
}
