//! What is a sink in memory?
ghost use Rattle.std.specs.Prelude.{◌≡◌, ◌≤◌, ◌<◌, ◌+◌, ◌-◌, ◌↔◌, ◌⊎◌, ◌++◌, [], min, length, take, Some, IfOk, OnErr, IsErr, Contains};
ghost use Rattle.std.specs.Io.KnownBytes.{WriteAppends};
ghost use Rattle.lhg_io.specs.Faults.{HasCause, count_of};

use super::stands_in;
use crate::{Failed, Sink};
use std::alloc::Global;
use std::marker::Model;
use thiserror::Error;

/// There is no memory for the room of a sink.
#[derive(Clone, Copy, Debug, PartialEq, Eq, Error)]
#[error("NoMemory")]
pub struct NoMemory;

/// A sink in memory. It holds at most `room` bytes, of which a call takes at most `step`. The
/// calls whose numbers, counted from 1, stand in `fails` fail, and so do those that find no room
/// left, and no other call does.
#[derive(Drop)]
pub struct MemSink {
    bytes: Vec<u8>,
    room: usize,
    step: usize,
    fails: Vec<u32>,
    calls: u64,
    faults: u64,
}

impl Model for MemSink {
    ghost use Rattle.std.specs.Prelude.{◌≤◌, ◌<◌, length, vec_capacity};
    ghost use Rattle.lhg_io.specs.Memory.{SinkState};

    ghost Value = { SinkState };

    ghost view = { λ s. record {
      held = s.bytes.items;
      room = s.room;
      step = s.step;
      fails = s.fails.items;
      calls = s.calls;
      faults = s.faults;
    } };

    ghost invariant = { λ s. (length s.bytes.items ≤ s.room) × (s.room ≤ vec_capacity s.bytes) × (0 < s.step) };
}

impl MemSink {
    /// A sink that holds no byte yet. It reserves `room` bytes, so that no write asks for memory.
    pub fn new(
        alloc: Global,
        room: usize,
        step: usize,
        fails: Vec<u32>,
    ) -> Result<MemSink, NoMemory>
        requires { 1 ≤ step }
        ensures { IfOk result (λ sink. sink ≡ record {
          held = [];
          room = room;
          step = step;
          fails = fails.items;
          calls = 0;
          faults = 0;
        }) }
    {
        match Vec::with_capacity(alloc, room) {
            Ok(bytes) => Ok(MemSink {
                bytes,
                room,
                step,
                fails,
                calls: 0,
                faults: 0,
            }),
            Err(_) => Err(NoMemory),
        }
    }

    /// The bytes taken so far.
    pub fn held(&self) -> &[u8]
        ensures { result.now ≡ self.now.held }
    {
        self.bytes.as_slice()
    }
}

impl Sink for MemSink {
    ghost held = { λ s. Some s.held };

    ghost faults = { λ s. count_of s.faults };

    fn write(&mut self, piece: &[u8]) -> Result<usize, Failed>
        requires { 0 < length piece.now }
        ensures some { IfOk result (λ n. (0 < n) × (n ≤ length piece.now)) }
        ensures bytes { WriteAppends (Some self.old.held) (Some self.new.held) result piece.now }
        ensures cause { HasCause (count_of self.old.faults) (count_of self.new.faults) result }

        // a call fails exactly where its number was named or no room is left
        ensures fails { IsErr result ↔ (Contains self.old.fails (count_of (self.old.calls + 1))
            ⊎ (self.old.room ≤ length self.old.held)) }
        ensures failed { OnErr result (self.new ≡ record self.old {
          calls = count_of (self.old.calls + 1);
          faults = count_of (self.old.faults + 1);
        }) }

        // another call takes as many bytes as it may
        ensures count { IfOk result (λ n.
            n ≡ min (min self.old.step (self.old.room - length self.old.held)) (length piece.now)) }
        ensures taken { IfOk result (λ n. self.new ≡ record self.old {
          held = self.old.held ++ take n piece.now;
          calls = count_of (self.old.calls + 1);
        }) }
    {
        self.calls = self.calls.saturating_add(1);
        let left = self.room - self.bytes.len();
        if left == 0 || stands_in(self.fails.as_slice(), self.calls) {
            self.faults = self.faults.saturating_add(1);
            return Err(Failed);
        }
        let n = self.step.min(left).min(piece.len());
        self.bytes.extend_from_slice(&piece[..n]).unwrap();
        Ok(n)
    }

    ghost use Rattle.std.proofs.Math.Nat.{min-le_right};

    ghost at_most = { λ s. min-le_right _ _ };
}
