// Why a text is not read.
use std::alloc::{AllocError, AllocFailed};
use thiserror::Error;

/// What is wrong in a line.
#[derive(Clone, Copy, Debug, PartialEq, Eq, Error)]
pub enum What {
    /// A byte that begins no token.
    #[error("BadByte")]
    BadByte,
    /// A number with a run of digits above 2^127 - 1, or a decimal with more than 38 digits.
    #[error("LongNumber")]
    LongNumber,
    /// A fraction over 0.
    #[error("ZeroDenominator")]
    ZeroDenominator,
    /// A line whose tokens are well formed and that cannot stand where it does.
    #[error("NotHere")]
    NotHere,
}

/// Why a text is not read: its first wrong line, or want of memory.
#[derive(Clone, Copy, Debug, PartialEq, Eq, Error)]
pub enum ReadStop {
    /// The line and the column are counted from 1; with `NotHere` the column is 0.
    #[error("{what} in line {line}, column {column}")]
    Bad { line: u32, column: u32, what: What },
    /// Memory is out.
    #[error("Memory")]
    Memory,
}

impl From<AllocError> for ReadStop {
    ghost use Rattle.std.specs.Prelude.{◌≡◌};
    ghost use Rattle.lhg_lex.specs.declared.stops.ReadStop.TheVariants.{Memory};

    ghost from_gives = { λ _ s. s ≡ Memory };

    fn from(_: AllocError) -> ReadStop {
        ReadStop::Memory
    }
}

impl<T: Drop> From<AllocFailed<T>> for ReadStop {
    ghost use Rattle.std.specs.Prelude.{◌≡◌};
    ghost use Rattle.lhg_lex.specs.declared.stops.ReadStop.TheVariants.{Memory};

    ghost from_gives = { λ _ s. s ≡ Memory };

    fn from(_: AllocFailed<T>) -> ReadStop {
        ReadStop::Memory
    }
}
