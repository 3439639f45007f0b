// Why no plant is generated.
use std::alloc::AllocError;
use thiserror::Error;

/// Why no plant is generated.
#[derive(Clone, Copy, Debug, PartialEq, Eq, Error)]
pub enum GenStop {
    /// The number of locations is not from 1 to 64.
    #[error("Range")]
    Range,
    /// Memory is out.
    #[error("Memory")]
    Memory,
}

impl From<AllocError> for GenStop {
    ghost use Rattle.std.specs.Prelude.{◌≡◌};
    ghost use Rattle.lhg_gen.specs.declared.stops.GenStop.TheVariants.{Range, Memory};

    ghost from_gives = { λ _ s. s ≡ Memory };

    fn from(_: AllocError) -> GenStop {
        GenStop::Memory
    }
}
