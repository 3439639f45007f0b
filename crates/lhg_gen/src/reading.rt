// The plant that a generated text is.
ghost use Rattle.std.specs.Prelude.{◌≡◌, OnOk, IfOk, IfErr};
ghost use Rattle.lhg_plant.specs.Views.{plain_plant};
ghost use Rattle.lhg_gen.specs.GeneratedPlant.{generated_plant};
ghost use Rattle.lhg_gen.specs.Sizes.{IsSize, HasCause};

use crate::{GenStop, plant_of};
use lhg_lex::{Lines, ReadStop};
use lhg_plant::Plant;
use lhg_read::read_plant;
use std::alloc::Global;

/// The plant with `k` locations, 1 to 64 of them, as it is read from its text. Nothing but memory can stop the reading.
pub fn generate(alloc: Global, k: u32) -> Result<Plant, GenStop>
    ensures size { OnOk result (IsSize k) }
    ensures plant { IfOk result (λ p. plain_plant p ≡ generated_plant k) }
    ensures err { IfErr result (HasCause k) }
{
    let text = plant_of(alloc, k)?;
    match read_plant(alloc, &mut Lines::new(&text)) {
        Ok(plant) => Ok(plant),
        Err(ReadStop::Memory) => Err(GenStop::Memory),
        Err(ReadStop::Bad { .. }) => unreachable!(),
    }
}
