//! Which calls of the ends in memory fail?
ghost use Rattle.std.specs.Prelude.{◌↔◌, IsTrue, Contains};

mod sink;
mod source;
#[cfg(test)]
mod tests;

pub use sink::{MemSink, NoMemory};
pub use source::MemSource;

// The numbers of calls are lists of `u32`, so a call past their range never fails.
fn stands_in(numbers: &[u32], call: u64) -> bool
    ensures { IsTrue result ↔ Contains numbers.now call }
{
    numbers.iter().any(|number| u64::from(*number) == call)
}
