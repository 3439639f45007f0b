// Sets of states, said by a test.
ghost use Rattle.std.specs.Prelude.{◌↔◌, IfOk, IsTrue};
ghost use Rattle.lhg_plant.specs.Plant.{PlainPlant};
ghost use Rattle.lhg_plant.specs.State.{PlainState};
ghost use Rattle.lhg_plant.specs.Views.{plain_plant, plain_state};

use crate::plants::Plant;
use crate::states::State;
use lhg_num::Wide;

/// A set of states, given by what it says of each state, with numbers of any size. Equal states are one state, so they
/// pass alike.
pub trait StateSet {
    // the states of the plant that belong to the set
    ghost belongs: { Self → PlainPlant → PlainState → Type 0 };

    /// Whether the state belongs to the set. When it answers `Wide` is the implementer's choice.
    fn has(&self, plant: &Plant, state: &State) -> Result<bool, Wide>
        ensures { IfOk result (λ b. IsTrue b ↔ belongs self.now (plain_plant plant.now) (plain_state state.now)) };
}
