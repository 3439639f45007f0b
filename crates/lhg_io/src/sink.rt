//! What is a sink for bytes, and how is all written to it?
ghost use Rattle.std.specs.Prelude.{◌≡◌, ◌≤◌, ◌<◌, ◌-◌, ◌^◌, List, ℕ, length, take, IfOk, OnOk, OnErr, Option, IsErr, IsOk};
ghost use Rattle.std.specs.Io.KnownBytes.{WriteAppends, Appends};
ghost use Rattle.lhg_io.specs.Faults.{HasCause, Rose};

use crate::Failed;
use thiserror::Error;

/// Takes bytes in pieces.
pub trait Sink {
    // the bytes taken so far, where the sink tells them
    ghost held: { Self → Option (List ℕ) };

    // how often a write has failed
    ghost faults: { Self → ℕ };

    /// Takes the first bytes of `piece`, at least one, and gives their number.
    fn write(&mut self, piece: &[u8]) -> Result<usize, Failed>
        requires { 0 < length piece.now }
        ensures some { IfOk result (λ n. (0 < n) × (n ≤ length piece.now)) }
        ensures bytes { WriteAppends (held self.old) (held self.new) result piece.now }
        ensures cause { HasCause (faults self.old) (faults self.new) result };

    // the count of faults stands still at 2^64 - 1
    ghost at_most: { (s : Self) → faults s ≤ 2 ^ 64 - 1 };
}

/// A write failed before all was taken.
#[derive(Clone, Copy, Debug, PartialEq, Eq, Error)]
#[error("Fault")]
pub struct Fault;

/// Writes all the bytes. The first fault ends the call.
pub fn write_all<K: Sink>(sink: &mut K, bytes: &[u8]) -> Result<(), Fault>
    ensures ok { OnOk result (Appends (K.held sink.old) (K.held sink.new) bytes.now) }
    // a prefix was taken, and not all
    ensures err { OnErr result ((n : ℕ) × (n < length bytes.now)
        × Appends (K.held sink.old) (K.held sink.new) (take n bytes.now)) }

    // a fault only where the count rose, and always where it is greater
    ensures fault { OnErr result (Rose (K.faults sink.old) (K.faults sink.new)) }
    ensures risen { K.faults sink.old < K.faults sink.new → IsErr result }
    ensures kept { OnOk result (K.faults sink.new ≡ K.faults sink.old) }
    ensures never_falls { K.faults sink.old ≤ K.faults sink.new }
{
    let mut done = 0;
    while done < bytes.len() {
        match sink.write(&bytes[done..]) {
            Err(_) => return Err(Fault),
            Ok(n) => done += n,
        }
    }
    Ok(())
}
