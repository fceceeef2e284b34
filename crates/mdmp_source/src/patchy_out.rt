//! An output in memory that takes few bytes a call, and may fail once: for tests.
ghost use Rattle.std.specs.Prelude.{◌≡◌, ◌≤◌, [], IfOk, vec_len, vec_capacity};
ghost use Rattle.mdmp_source.specs.Patchy.{PatchyOutState};

use crate::output::{Out, OutFailed, failures_after};
use std::alloc::{AllocError, Allocator};
use std::marker::Model;

/// An output in memory that takes at most `cap` bytes a call and `room` in all, and whose call
/// `fail_at`, counted from 0, alone fails. It is for tests of what writes to an output.
#[derive(Drop)]
pub struct PatchyOut<A: Allocator> {
    taken: Vec<u8, A>,
    room: usize,
    cap: usize,
    fail_at: Option<u64>,
    calls: u128,
    failures: u128,
}

impl<A: Allocator> Model for PatchyOut<A> {
    ghost Value = { PatchyOutState };

    ghost view = { λ o. record {
      taken = o.taken.items;
      room = o.room;
      cap = o.cap;
      fail_at = o.fail_at;
      calls = o.calls;
      failures = o.failures;
    } };

    ghost invariant = { λ o. (vec_len o.taken ≤ o.room) × (o.room ≤ vec_capacity o.taken) };
}

impl<A: Allocator> PatchyOut<A> {
    /// An output that has taken nothing. Its room is reserved here, and no later call takes memory.
    pub fn with_room(
        alloc: A,
        room: usize,
        cap: usize,
        fail_at: Option<u64>,
    ) -> Result<Self, AllocError>
        ensures { IfOk result (λ out. out ≡ record { taken = []; room = room; cap = cap; fail_at = fail_at; calls = 0; failures = 0 }) }
    {
        Ok(PatchyOut {
            taken: Vec::with_capacity(alloc, room)?,
            room,
            cap,
            fail_at,
            calls: 0,
            failures: 0,
        })
    }

    /// The bytes that it took.
    pub fn bytes(&self) -> &[u8]
        ensures { result.now ≡ self.now.taken }
    {
        &self.taken
    }
}

impl<A: Allocator> Out for PatchyOut<A> {
    ghost use Rattle.std.specs.Prelude.{◌≡◌, ◌++◌, ◌||◌, Some, IfOk, MatchResult, is_err, length, take};
    ghost use Rattle.mdmp_source.specs.Count.{raised, raised_if};
    ghost use Rattle.mdmp_source.specs.Output.{OutState, unlent};
    ghost use Rattle.mdmp_source.specs.Patchy.{is_failing_call, taken_count};
    ghost use Rattle.mdmp_source.specs.Store.{is_empty_answer};

    ghost state = { λ o. record { taken = Some o.taken; failures = unlent o.failures } };

    fn write(&mut self, bytes: &[u8]) -> Result<usize, OutFailed>
        ensures fails { is_err result ≡ is_failing_call self.old.fail_at self.old.calls }
        ensures count { IfOk result (λ k. k ≡ taken_count self.old (length bytes.now)) }
        ensures took { MatchResult result (λ k. self.new.taken ≡ self.old.taken ++ take k bytes.now)
            (λ _. self.new.taken ≡ self.old.taken) }
        ensures others { self.new ≡ record self.old {
          taken = self.new.taken;
          calls = raised self.old.calls 1;
          failures = raised_if (is_err result || is_empty_answer result (length bytes.now)) self.old.failures;
        } }
    {
        let call = self.calls;
        self.calls = call.saturating_add(1);
        let answer = if self
            .fail_at
            .is_some_and(|fail_at| call == u128::from(fail_at))
        {
            Err(OutFailed)
        } else {
            let count = bytes.len().min(self.cap).min(self.room - self.taken.len());
            self.taken.extend_from_slice(&bytes[..count]).unwrap();
            Ok(count)
        };
        self.failures = failures_after(self.failures, &answer, bytes.len());
        answer
    }
}
