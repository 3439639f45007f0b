// How many crossings were asked for.
ghost use Rattle.std.specs.Prelude.{◌≡◌};
ghost use Rattle.lhg_cross.specs.Counts.{raised};

use std::marker::Model;

/// A count that rises by one with each crossing, up to 2^64 - 1, where it stands.
#[derive(Drop)]
pub struct Tally {
    count: u64,
}

impl Model for Tally {
    ghost use Rattle.std.specs.Prelude.{ℕ};

    ghost Value = { ℕ };

    ghost view = { λ t. t.count };
}

impl Tally {
    /// No crossing was asked for.
    pub fn new() -> Tally
        ensures { result ≡ 0 }
    {
        Tally { count: 0 }
    }

    /// How many were.
    pub fn count(&self) -> u64
        ensures { result ≡ self.now }
    {
        self.count
    }

    // One more was.
    pub(crate) fn raise(&mut self)
        ensures { self.new ≡ raised self.old }
    {
        self.count = self.count.saturating_add(1);
    }
}
