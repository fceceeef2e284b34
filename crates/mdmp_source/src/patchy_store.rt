//! A file in memory that gives few bytes a call, and may fail once: for tests.
ghost use Rattle.std.specs.Prelude.{◌<◌, length};
ghost use Rattle.mdmp_source.specs.Patchy.{PatchyStoreState};
ghost use Rattle.mdmp_source.specs.Store.{AreBytes};

use crate::memory_store::copy_at;
use crate::proof_hints::know_bytes;
use crate::store::{Store, StoreCounts, StoreFailed};
use std::marker::Model;

/// A file in memory whose call k, counted from 0, reads at most `caps[k % caps.len()]` bytes, and
/// whose call `fail_at` alone fails. It is for tests of what stands above a store.
#[derive(Drop)]
pub struct PatchyStore<'a> {
    bytes: &'a [u8],
    caps: &'a [usize],
    fail_at: Option<u64>,
    counts: StoreCounts,
}

impl<'a> Model for PatchyStore<'a> {
    ghost Value = { PatchyStoreState };

    ghost view = { λ s. record {
      bytes = s.bytes.now;
      caps = s.caps.now;
      fail_at = s.fail_at;
      counts = s.counts;
    } };

    ghost invariant = { λ s. (0 < length s.caps.now) × AreBytes s.bytes.now };
}

impl<'a> PatchyStore<'a> {
    ghost use Rattle.std.specs.Prelude.{◌≡◌, ◌<◌, ◌&&◌, Some, is_none, nat_lt, length};
    ghost use Rattle.std.specs.List.{list_all};
    ghost use Rattle.mdmp_source.specs.Store.{IsNew};

    /// A store of these bytes, which has had no call, and is good where no cap is 0 and no call
    /// fails.
    pub fn new(bytes: &'a [u8], caps: &'a [usize], fail_at: Option<u64>) -> Self
        requires { 0 < length caps.now }
        ensures patches { (result.caps ≡ caps.now) × (result.fail_at ≡ fail_at) }
        ensures state { IsNew (⟦<PatchyStore<'a> as Store>⟧.state result) (Some bytes.now)
            (is_none fail_at && list_all (λ cap. nat_lt 0 cap) caps.now) }
    {
        know_bytes(bytes);
        PatchyStore {
            bytes,
            caps,
            fail_at,
            counts: StoreCounts::new(),
        }
    }
}

impl Store for PatchyStore<'_> {
    ghost use Rattle.std.specs.Prelude.{◌≡◌, ◌≤◌, ◌<◌, Some, IfOk, IsOk, IsTrue, is_err, length};
    ghost use Rattle.mdmp_source.specs.Store.{GivesContent, GivesLeast, GivesSome, counts_after};
    ghost use Rattle.mdmp_source.specs.Patchy.{patchy_state, is_failing_call, given_count};

    ghost state = { patchy_state };

    fn size(&self) -> u64 {
        self.bytes.len() as u64
    }

    fn read_at(&mut self, at: u64, out: &mut [u8]) -> Result<usize, StoreFailed>
        ensures bound { IfOk result (λ k. k ≤ length out.new) }
        ensures bytes { GivesContent (Some self.old.bytes) at result out.new }
        ensures state { self.new ≡ record self.old { counts = counts_after self.old.counts result at (length out.new) } }
        ensures never_fails { IsTrue (patchy_state self.old).is_reliable → IsOk result }
        ensures gives { IsTrue (patchy_state self.old).is_reliable → 0 < length out.new → GivesSome (Some self.old.bytes) at result }
        ensures least { GivesLeast (patchy_state self.old) at (length out.new) result }
        // What this store says beside any other.
        ensures fails { is_err result ≡ is_failing_call self.old.fail_at self.old.counts.calls }
        ensures count { IfOk result (λ k. k ≡ given_count self.old at (length out.new)) }
    {
        let call = self.counts.calls;
        let answer = if self
            .fail_at
            .is_some_and(|fail_at| call == u128::from(fail_at))
        {
            Err(StoreFailed)
        } else {
            let cap = self.caps[(call % self.caps.len() as u128) as usize];
            let room = out.len().min(cap);
            Ok(copy_at(self.bytes, at, &mut out[..room]))
        };
        self.counts.count(&answer, at, out.len());
        answer
    }
}
