//! What is a source of bytes, and how is it read to its end?
ghost use Rattle.std.specs.Prelude.{◌≡◌, ◌≢◌, ◌≤◌, ◌<◌, ◌-◌, ◌^◌, ◌⊎◌, List, ℕ, length, IfOk, IfSome, OnOk, OnErr, Option};
ghost use Rattle.std.specs.Io.KnownBytes.{ReadConsumes, Consumes, IsAtEnd};
ghost use Rattle.std.specs.Io.{ReadsAtMost};
ghost use Rattle.lhg_io.specs.Faults.{HasCause, Rose};

use crate::Failed;
use std::alloc::Global;
use thiserror::Error;

/// The most bytes that an input may have.
pub const INPUT_LIMIT: usize = 1_048_576;

// How many bytes are asked for at once.
const PIECE: usize = 4096;

/// Bytes that are read in pieces.
pub trait Source {
    // the bytes not yet read, where the source tells them
    ghost left: { Self → Option (List ℕ) };

    // how often a read has failed
    ghost faults: { Self → ℕ };

    /// Puts the next bytes at the front of `buf` and gives their number. It is 0 at the end alone.
    /// What stands in `buf` behind them is left open.
    fn read(&mut self, buf: &mut [u8]) -> Result<usize, Failed>
        requires { 0 < length buf.old }
        ensures bound { ReadsAtMost result buf.new }
        ensures bytes { ReadConsumes (left self.old) (left self.new) result buf.new }
        ensures cause { HasCause (faults self.old) (faults self.new) result };

    // the count of faults stands still at 2^64 - 1
    ghost at_most: { (s : Self) → faults s ≤ 2 ^ 64 - 1 };
}

/// Why not all bytes came.
#[derive(Clone, Copy, Debug, PartialEq, Eq, Error)]
pub enum ReadAll {
    /// A read failed.
    #[error("Fault")]
    Fault,
    /// More bytes were left than the limit.
    #[error("TooLong")]
    TooLong,
    /// There was no memory for the bytes.
    #[error("Memory")]
    Memory,
}

/// All bytes that are left, where they are at most `limit` bytes. The first fault ends the call.
pub fn read_all<S: Source>(alloc: Global, src: &mut S, limit: usize) -> Result<Vec<u8>, ReadAll>
    requires { limit ≤ INPUT_LIMIT }
    // the bytes that were left, to the end
    ensures whole { IfOk result (λ all. IfSome (S.left src.old) (λ left. all.items ≡ left)) }
    ensures ended { OnOk result (IsAtEnd (S.left src.new)) }
    ensures within { IfOk result (λ all. length all.items ≤ limit) }

    // too long exactly where more were left and no fault came before
    ensures too_long { result ≡ Err ReadAll.TooLong → IfSome (S.left src.old) (λ left. limit < length left) }
    ensures past_limit { IfSome (S.left src.old) (λ left. limit < length left → ¬ Rose (S.faults src.old) (S.faults src.new)
        → (result ≡ Err ReadAll.TooLong) ⊎ (result ≡ Err ReadAll.Memory)) }

    // a fault only where the count rose, and always where it is greater
    ensures fault { result ≡ Err ReadAll.Fault → Rose (S.faults src.old) (S.faults src.new) }
    // and before the limit is passed
    ensures before { result ≡ Err ReadAll.Fault → (taken : List ℕ) × Consumes (S.left src.old) (S.left src.new) taken × (length taken ≤ limit) }
    ensures risen { S.faults src.old < S.faults src.new → result ≡ Err ReadAll.Fault }
    ensures kept { result ≢ Err ReadAll.Fault → S.faults src.new ≡ S.faults src.old }
    ensures never_falls { S.faults src.old ≤ S.faults src.new }

    // whatever the answer, what is left is a suffix of what was
    ensures rest { (taken : List ℕ) × Consumes (S.left src.old) (S.left src.new) taken }
{
    let mut all = Vec::new(alloc);
    let mut buf = [0u8; PIECE];
    while all.len() <= limit {
        match src.read(&mut buf) {
            Err(_) => return Err(ReadAll::Fault),
            Ok(n) => {
                if n == 0 {
                    return Ok(all);
                }
                if all.extend_from_slice(&buf[..n]).is_err() {
                    return Err(ReadAll::Memory);
                }
            }
        }
    }
    Err(ReadAll::TooLong)
}
