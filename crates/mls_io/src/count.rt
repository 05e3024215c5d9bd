//! The counter behind a count.
ghost use Rattle.std.specs.Prelude.{◌≡◌, ◌+◌, min};
ghost use Rattle.mls_io.specs.Counts.{Rose, Grows, no_count, count_of};

use std::marker::Model;

/// How often something happened. It stops at its last value, and is worn then.
#[derive(Drop)]
pub(crate) struct Counter {
    times: u64,
}

impl Model for Counter {
    ghost use Rattle.mls_io.specs.Counts.{Count, count_of};

    ghost Value = { Count };

    ghost view = { λ counter. count_of counter.times };
}

impl Counter {
    /// It never happened.
    pub(crate) fn new() -> Counter
        ensures { result ≡ no_count }
    {
        Counter { times: 0 }
    }

    /// How often it happened, up to its last value.
    pub(crate) fn times(&self) -> u64
        ensures { result ≡ self.now.value }
    {
        self.times
    }

    /// It happened once more.
    pub(crate) fn rise(&mut self)
        ensures next { self.new ≡ count_of (min (self.old.value + 1) 18446744073709551615) }
        ensures rose { Rose self.old self.new }
        ensures grows { Grows self.old self.new }
    {
        self.times = self.times.saturating_add(1);
    }
}
