// Tells of lost states how the plant wins them, by the records of seeking.
use lhg_explain::explain;
use lhg_loss::{Loss, first_holding};
use lhg_num::Halt;
use lhg_plant::{Plant, State};
use lhg_spoil::{Teller, Told};
use std::alloc::Global;

/// A plant with the records of its rounds up to a number.
#[derive(Drop)]
pub struct Explainer<'a> {
    pub plant: &'a Plant,
    pub losses: &'a [Loss],
    pub upto: u32,
}

impl Teller for Explainer<'_> {
    ghost use Rattle.std.specs.Prelude.{ℕ};
    ghost use Rattle.lhg_plant.specs.Plant.{PlainPlant};
    ghost use Rattle.lhg_plant.specs.Views.{plain_plant};
    ghost use Rattle.lhg_cli.specs.Knowing.{AreRecordsUpto};

    ghost game = { λ t. plain_plant t.plant.now };

    ghost upto = { λ t. t.upto };

    ghost knows = { λ t. AreRecordsUpto (plain_plant t.plant.now) t.upto t.losses.now };

    fn tell(&self, alloc: Global, plant: &Plant, state: &State) -> Result<Told, Halt> {
        match first_holding(self.losses, state)? {
            None => Ok(Told::Unsafe),
            Some(number) => {
                let escape = explain(alloc, plant, self.losses, number, state)?;
                Ok(Told::Lost(escape))
            }
        }
    }
}
