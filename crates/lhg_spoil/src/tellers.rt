// What is told of a state: that it is unsafe, or how the plant wins it.
ghost use Rattle.std.specs.Prelude.{◌≡◌, ℕ, IfOk, IfErr};
ghost use Rattle.lhg_plant.specs.Plant.{PlainPlant};
ghost use Rattle.lhg_plant.specs.Rank.{IsPast};
ghost use Rattle.lhg_plant.specs.Views.{plain_plant, plain_state};
ghost use Rattle.lhg_spoil.specs.Telling.{IsTold, IsTellHalt};

use lhg_num::Halt;
use lhg_plant::{Plant, State};
use lhg_play::Escape;
use std::alloc::Global;

/// What is told of a state.
#[derive(Drop)]
pub enum Told {
    /// No safe line holds there.
    Unsafe,
    /// It is lost, and this is an escape from it, with the round in which it was removed.
    Lost(Escape),
}

/// Tells of each state of a plant that is unsafe, or was removed in a round up to a number, which of the two it is, and the escape by the first record that holds it.
pub trait Teller {
    // the plant of which it tells
    ghost game: { Self → PlainPlant };

    // the last round of which it tells
    ghost upto: { Self → ℕ };

    // what it has to know of its records; it is no fact of the type, since a sound record says that there is a move
    ghost knows: { Self → Type 0 };

    /// What becomes of the state. It halts for `Wide` and `Rows` only by the explanation of the state, and for `Wide` also only where whether a row of a safe line of its
    /// location, or of a piece of a record of its location, holds at the state is so answered; and for `Memory`.
    fn tell(&self, alloc: Global, plant: &Plant, state: &State) -> Result<Told, Halt>
        requires same { plain_plant plant.now ≡ game self.now }
        requires knows { knows self.now }
        requires rank { IsPast (plain_plant plant.now) (upto self.now) (plain_state state.now) }
        ensures told { IfOk result (IsTold (plain_plant plant.now) (upto self.now) (plain_state state.now)) }
        ensures halt { IfErr result (IsTellHalt (plain_plant plant.now) (upto self.now) (plain_state state.now)) };
}
