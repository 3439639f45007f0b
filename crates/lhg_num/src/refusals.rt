// Why a computing call gives no answer.
use std::alloc::{AllocError, AllocFailed};
use thiserror::Error;

/// The type refuses the operands.
#[derive(Clone, Copy, Debug, PartialEq, Eq)]
pub struct Wide;

/// A division that gives no quotient.
#[derive(Clone, Copy, Debug, PartialEq, Eq, Error)]
pub enum DivError {
    /// The divisor is 0.
    #[error("Zero")]
    Zero,
    /// A formed number is past the limit.
    #[error("Wide")]
    Wide,
}

/// The common refusal of computing calls.
#[derive(Clone, Copy, Debug, PartialEq, Eq, Error)]
pub enum Halt {
    /// The type refuses the operands of an operation.
    #[error("Wide")]
    Wide,
    /// A list of rows is past its limit.
    #[error("Rows")]
    Rows,
    /// A list of pieces is past one of its limits.
    #[error("Pieces")]
    Pieces,
    /// Memory is out.
    #[error("Memory")]
    Memory,
}

impl From<Wide> for DivError {
    ghost use Rattle.std.specs.Prelude.{◌≡◌};
    ghost use Rattle.lhg_num.specs.declared.refusals.DivError.TheVariants.{Zero, Wide};

    ghost from_gives = { λ _ h. h ≡ Wide };

    fn from(_: Wide) -> DivError {
        DivError::Wide
    }
}

impl From<Wide> for Halt {
    ghost use Rattle.std.specs.Prelude.{◌≡◌};
    ghost use Rattle.lhg_num.specs.declared.refusals.Halt.TheVariants.{Wide, Rows, Pieces, Memory};

    ghost from_gives = { λ _ h. h ≡ Wide };

    fn from(_: Wide) -> Halt {
        Halt::Wide
    }
}

impl From<AllocError> for Halt {
    ghost use Rattle.std.specs.Prelude.{◌≡◌};
    ghost use Rattle.lhg_num.specs.declared.refusals.Halt.TheVariants.{Wide, Rows, Pieces, Memory};

    ghost from_gives = { λ _ h. h ≡ Memory };

    fn from(_: AllocError) -> Halt {
        Halt::Memory
    }
}

impl<T: Drop> From<AllocFailed<T>> for Halt {
    ghost use Rattle.std.specs.Prelude.{◌≡◌};
    ghost use Rattle.lhg_num.specs.declared.refusals.Halt.TheVariants.{Wide, Rows, Pieces, Memory};

    ghost from_gives = { λ _ h. h ≡ Memory };

    fn from(_: AllocFailed<T>) -> Halt {
        Halt::Memory
    }
}
