// Why the forward sets are not told.
ghost use Rattle.std.specs.Prelude.{◌≡◌};
ghost use Rattle.lhg_forward.specs.Outcomes.{stop_of};

use lhg_num::Halt;
use lhg_plant::State;
use std::alloc::AllocError;

/// Why `forward` gives no region. A limit names the level in whose work it was met.
#[derive(Drop)]
pub enum ForwardStop {
    /// A number is too wide.
    Wide(u32),
    /// A list of rows is past its limit.
    Rows(u32),
    /// A list of pieces is past one of its limits.
    Pieces(u32),
    /// Each level up to the budget adds a state, and the last of them this one.
    Spent(State),
    /// Memory is out.
    Memory,
}

impl From<AllocError> for ForwardStop {
    ghost use Rattle.std.specs.Prelude.{◌≡◌};
    ghost use Rattle.lhg_forward.specs.declared.stops.ForwardStop.TheVariants.{Memory};

    ghost from_gives = { λ _ s. s ≡ Memory };

    fn from(_: AllocError) -> ForwardStop {
        ForwardStop::Memory
    }
}

/// A halt in the work of a level.
pub fn halted(halt: Halt, level: u32) -> ForwardStop
    ensures { result ≡ stop_of halt level }
{
    match halt {
        Halt::Wide => ForwardStop::Wide(level),
        Halt::Rows => ForwardStop::Rows(level),
        Halt::Pieces => ForwardStop::Pieces(level),
        Halt::Memory => ForwardStop::Memory,
    }
}
