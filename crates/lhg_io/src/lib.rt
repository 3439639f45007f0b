//! Sources of bytes and sinks for them, which count their faults.
#![tactic(auto)]

mod memory;
mod sink;
mod source;
mod standard;

pub use memory::{MemSink, MemSource, NoMemory};
pub use sink::{Fault, Sink, write_all};
pub use source::{INPUT_LIMIT, ReadAll, Source, read_all};
pub use standard::{StdSink, StdSource};
use thiserror::Error;

/// A read or a write has failed.
#[derive(Clone, Copy, Debug, PartialEq, Eq, Error)]
#[error("Failed")]
pub struct Failed;
