// What answers an input from which a controller is asked for?
ghost use Rattle.std.specs.Prelude.{◌≤◌, length, IfOk};
ghost use Rattle.lhg_read.specs.PlantText.{IsPlantText};
ghost use Rattle.lhg_cli.specs.InputAnswer.{IsBytesAnswer};
ghost use Rattle.lhg_cli.specs.PlantAnswer.{IsSynthesis};
ghost use Rattle.lhg_cli.specs.Words.{most_rounds};

use crate::refusing::refused;
use crate::solving::{Answer, solved};
use lhg_input::read_plant_input;
use lhg_io::INPUT_LIMIT;
use std::alloc::{AllocError, Global};

/// The answer to the bytes of an input within the limit, for a budget of rounds.
pub fn synth_of(alloc: Global, rounds: u32, bytes: &[u8]) -> Result<Answer, AllocError>
    requires bytes { length bytes.now ≤ INPUT_LIMIT }
    requires low { 1 ≤ rounds }
    requires high { rounds ≤ most_rounds }
    ensures { IfOk result (λ a. IsBytesAnswer IsPlantText (IsSynthesis rounds) bytes.now a.status a.text.items) }
{
    match read_plant_input(alloc, bytes) {
        Ok(plant) => solved(alloc, &plant, rounds),
        Err(stop) => refused(alloc, stop),
    }
}
