//! A sink that stops at one call: for tests.
ghost use Rattle.std.specs.Prelude.{◌≡◌};
ghost use Rattle.mdmp_lister.specs.StopAt.{StopAtState};

use crate::item::Item;
use crate::sink::{Sink, Stopped, VerdictSink};
use crate::verdict::Verdict;
use std::marker::Model;

/// A sink that answers at one call alone that it wants no more: at call `stop_at`, counted from 0.
/// It counts its calls, up to the greatest `u64` (a sink that is to stop there stops at each later
/// call), and keeps no item or verdict. It is for tests of what hands those to a sink.
#[derive(Drop)]
pub struct StopAt {
    stop_at: u64,
    calls: u64,
}

impl Model for StopAt {
    ghost Value = { StopAtState };

    ghost view = { λ s. record { stop_at = s.stop_at; calls = s.calls } };
}

impl StopAt {
    /// A sink that was not called yet.
    pub fn new(stop_at: u64) -> Self
        ensures { result ≡ record { stop_at = stop_at; calls = 0 } }
    {
        StopAt { stop_at, calls: 0 }
    }

    /// How often it was called.
    pub fn calls(&self) -> u64
        ensures { result ≡ self.now.calls }
    {
        self.calls
    }
}

impl StopAt {
    ghost use Rattle.mdmp_lister.specs.StopAt.{IsStopAtCall};

    /// One call.
    fn call(&mut self) -> Result<(), Stopped>
        ensures { IsStopAtCall self.old result self.new }
    {
        let call = self.calls;
        self.calls = call.saturating_add(1);
        if call == self.stop_at {
            Err(Stopped)
        } else {
            Ok(())
        }
    }
}

impl Sink for StopAt {
    ghost use Rattle.mdmp_lister.specs.StopAt.{IsStopAtCall};

    ghost step = { λ old item result new. IsStopAtCall old result new };

    fn take(&mut self, _item: &Item<'_>) -> Result<(), Stopped> {
        self.call()
    }
}

impl VerdictSink for StopAt {
    ghost use Rattle.mdmp_lister.specs.StopAt.{IsStopAtCall};

    ghost step = { λ old verdict result new. IsStopAtCall old result new };

    fn take(&mut self, _verdict: &Verdict) -> Result<(), Stopped> {
        self.call()
    }
}
