// Why there is no solution.
ghost use Rattle.std.specs.Prelude.{◌≡◌};
ghost use Rattle.lhg_iterate.specs.Outcomes.{stop_of};

use lhg_num::Halt;
use lhg_plant::State;
use std::alloc::AllocError;

/// Why `solve` gives none. A limit names the round in whose work it was met, which is 0 for the safe states.
#[derive(Drop)]
pub enum Stop {
    /// A number is too wide.
    Wide(u32),
    /// A list of rows is past its limit.
    Rows(u32),
    /// A list of pieces, or of records, is past one of its limits.
    Pieces(u32),
    /// Each round up to the budget removes a state, and the last of them this one.
    Spent(State),
    /// Memory is out.
    Memory,
}

impl From<AllocError> for Stop {
    ghost use Rattle.std.specs.Prelude.{◌≡◌};
    ghost use Rattle.lhg_iterate.specs.declared.stops.Stop.TheVariants.{Memory};

    ghost from_gives = { λ _ s. s ≡ Memory };

    fn from(_: AllocError) -> Stop {
        Stop::Memory
    }
}

/// A halt in the work of a round.
pub(crate) fn halted(halt: Halt, round: u32) -> Stop
    ensures { result ≡ stop_of halt round }
{
    match halt {
        Halt::Wide => Stop::Wide(round),
        Halt::Rows => Stop::Rows(round),
        Halt::Pieces => Stop::Pieces(round),
        Halt::Memory => Stop::Memory,
    }
}
