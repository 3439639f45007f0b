// Why a part of a line is not read.
ghost use Rattle.std.specs.Prelude.{◌≡◌};
ghost use Rattle.lhg_read.specs.Refusals.{stop_at};

use lhg_lex::{ReadStop, What};
use std::alloc::{AllocError, AllocFailed};

/// Why a part of a line is not read.
#[derive(Clone, Copy, Debug, PartialEq, Eq)]
pub enum Refusal {
    /// It cannot stand there.
    NotHere,
    /// Memory is out.
    Memory,
}

impl From<AllocError> for Refusal {
    ghost use Rattle.std.specs.Prelude.{◌≡◌};
    ghost use Rattle.lhg_read.specs.declared.refusal.Refusal.TheVariants.{Memory};

    ghost from_gives = { λ _ r. r ≡ Memory };

    fn from(_: AllocError) -> Refusal {
        Refusal::Memory
    }
}

impl<T: Drop> From<AllocFailed<T>> for Refusal {
    ghost use Rattle.std.specs.Prelude.{◌≡◌};
    ghost use Rattle.lhg_read.specs.declared.refusal.Refusal.TheVariants.{Memory};

    ghost from_gives = { λ _ r. r ≡ Memory };

    fn from(_: AllocFailed<T>) -> Refusal {
        Refusal::Memory
    }
}

/// The refusal of the line with this number.
pub fn stop_at(refusal: Refusal, line: u32) -> ReadStop
    ensures { result ≡ stop_at refusal line }
{
    match refusal {
        Refusal::NotHere => ReadStop::Bad {
            line,
            column: 0,
            what: What::NotHere,
        },
        Refusal::Memory => ReadStop::Memory,
    }
}
