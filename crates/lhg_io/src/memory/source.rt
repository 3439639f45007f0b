//! What is a source over bytes in memory?
ghost use Rattle.std.specs.Prelude.{◌≡◌, ◌≤◌, ◌<◌, ◌+◌, ◌↔◌, min, length, drop, Some, IfOk, OnErr, IsErr, Contains};
ghost use Rattle.std.specs.Io.KnownBytes.{ReadConsumes};
ghost use Rattle.std.specs.Io.{ReadsAtMost};
ghost use Rattle.lhg_io.specs.Faults.{HasCause, count_of};

use super::stands_in;
use crate::{Failed, Source};
use std::marker::Model;

/// A source over bytes in memory. A call gives at most `step` bytes. The calls whose numbers,
/// counted from 1, stand in `fails` fail, and no other call does.
#[derive(Drop)]
pub struct MemSource {
    bytes: Vec<u8>,
    at: usize,
    step: usize,
    fails: Vec<u32>,
    calls: u64,
    faults: u64,
}

impl Model for MemSource {
    ghost use Rattle.std.specs.Prelude.{◌≤◌, ◌<◌, length, drop};
    ghost use Rattle.lhg_io.specs.Memory.{SourceState};

    ghost Value = { SourceState };

    ghost view = { λ s. record {
      left = drop s.at s.bytes.items;
      step = s.step;
      fails = s.fails.items;
      calls = s.calls;
      faults = s.faults;
    } };

    ghost invariant = { λ s. (s.at ≤ length s.bytes.items) × (0 < s.step) };
}

impl MemSource {
    /// A source that no call has read yet.
    pub fn new(bytes: Vec<u8>, step: usize, fails: Vec<u32>) -> MemSource
        requires { 1 ≤ step }
        ensures { result ≡ record {
          left = bytes.items;
          step = step;
          fails = fails.items;
          calls = 0;
          faults = 0;
        } }
    {
        MemSource {
            bytes,
            at: 0,
            step,
            fails,
            calls: 0,
            faults: 0,
        }
    }
}

impl Source for MemSource {
    ghost left = { λ s. Some s.left };

    ghost faults = { λ s. count_of s.faults };

    fn read(&mut self, buf: &mut [u8]) -> Result<usize, Failed>
        requires { 0 < length buf.old }
        ensures bound { ReadsAtMost result buf.new }
        ensures bytes { ReadConsumes (Some self.old.left) (Some self.new.left) result buf.new }
        ensures cause { HasCause (count_of self.old.faults) (count_of self.new.faults) result }

        // a call fails exactly where its number was named
        ensures fails { IsErr result ↔ Contains self.old.fails (count_of (self.old.calls + 1)) }
        ensures failed { OnErr result (self.new ≡ record self.old {
          calls = count_of (self.old.calls + 1);
          faults = count_of (self.old.faults + 1);
        }) }

        // another call gives as many bytes as it may
        ensures count { IfOk result (λ n. n ≡ min (min self.old.step (length self.old.left)) (length buf.old)) }
        ensures given { IfOk result (λ n. self.new ≡ record self.old {
          left = drop n self.old.left;
          calls = count_of (self.old.calls + 1);
        }) }
    {
        self.calls = self.calls.saturating_add(1);
        if stands_in(self.fails.as_slice(), self.calls) {
            self.faults = self.faults.saturating_add(1);
            return Err(Failed);
        }
        let left = self.bytes.len() - self.at;
        let n = self.step.min(left).min(buf.len());
        buf[..n].copy_from_slice(&self.bytes[self.at..self.at + n]);
        self.at += n;
        Ok(n)
    }

    ghost use Rattle.std.proofs.Math.Nat.{min-le_right};

    ghost at_most = { λ s. min-le_right _ _ };
}
