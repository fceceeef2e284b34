//! Whole fetches from a store, counted.
ghost use Rattle.std.specs.Prelude.{◌≡◌, ◌≤◌, ◌<◌, ◌+◌, ◌^◌, None, List, ℕ, length, IfSome, IfErr, IsOk, IsTrue, OnOk};
ghost use Rattle.mdmp_source.specs.Count.{HasRisen};
ghost use Rattle.mdmp_source.specs.Range.{IsInside, IsObtained, bytes_at};
ghost use Rattle.mdmp_source.specs.Store.{IsSizeOf, IsGood, IsOfBytes};
ghost use Rattle.mdmp_source.specs.Source.{CallsFew, CountsBytes, SourceState, FailsOnce, FetchesAtMost, IsToldAmong, fault_of};
ghost use Rattle.mdmp_source.specs.Fault.{fault_at, HasFetchCause};

use crate::fault::SourceFault;
use crate::store::Store;
use std::marker::Model;

/// A store that is read by whole fetches, which are counted.
///
/// A fetch gives all of the bytes that it is asked for or a fault. The counts are of the source
/// itself, and stop at the greatest `u128`.
#[derive(Drop)]
pub struct Source<S: Store> {
    store: S,
    size: u64,
    fetched: u128,
    calls: u128,
    /// What the last fetch answered.
    fault: Option<SourceFault>,
}

impl<S: Store> Model for Source<S> {
    ghost Value = { SourceState };

    ghost view = { λ s. record {
      store = S.state s.store;
      size = s.size;
      fetched = s.fetched;
      calls = s.calls;
      fault = s.fault;
    } };

    ghost invariant = { λ s. IsSizeOf (S.state s.store).content s.size × IsOfBytes (S.state s.store).content × (s.size ≡ (S.state s.store).size) };
}

impl<S: Store> Source<S> {
    /// A source that has fetched nothing.
    pub fn new(store: S) -> Self
        ensures store { result.store ≡ S.state store }
        ensures size { result.size ≡ result.store.size }
        ensures content { IsSizeOf result.store.content result.size }
        ensures counts { (result.fetched ≡ 0) × (result.calls ≡ 0) }
        ensures fault { result.fault ≡ None }
    {
        let size = store.size();
        Source {
            store,
            size,
            fetched: 0,
            calls: 0,
            fault: None,
        }
    }

    /// The number of bytes in the file, as the store told it when the source was made.
    pub fn size(&self) -> u64
        ensures value { result ≡ self.now.size }
        ensures content { IsSizeOf self.now.store.content result }
        ensures bytes { IsOfBytes self.now.store.content }
    {
        self.size
    }

    /// How many bytes were asked for by `fetch`, faults included.
    pub fn fetched(&self) -> u128
        ensures { result ≡ self.now.fetched }
    {
        self.fetched
    }

    /// How often `fetch` was called.
    pub fn calls(&self) -> u128
        ensures { result ≡ self.now.calls }
    {
        self.calls
    }

    /// Hands the store back.
    pub fn into_store(self) -> S
        ensures { S.state result ≡ self.store }
    {
        let Source {
            store,
            size: _,
            fetched: _,
            calls: _,
            fault: _,
        } = self;
        store
    }

    /// Fills `out` with the bytes at the offset `at`. The store is asked for all of them at once, and again
    /// for the rest only if it gave fewer. After a fault `out` holds the bytes before the first that was not
    /// obtained, and behind them any.
    pub fn fetch(&mut self, at: u64, out: &mut [u8]) -> Result<(), SourceFault>
        requires { IsInside at (length out.old) self.old.size }

        ensures bytes { OnOk result (IfSome self.old.store.content (λ file. out.new ≡ bytes_at file at (length out.new))) }
        ensures always { (file : List ℕ) → IsGood self.old.store file → IsOk result }

        // Each fault has its cause in this call, and says which byte was not obtained.
        ensures last { self.new.fault ≡ fault_of result }
        ensures told { IfErr result (λ fault. IsToldAmong at (length out.new) fault self.old self.new) }
        ensures obtained { IfErr result (λ fault. IsObtained self.old.store.content at (fault_at fault) out.new) }

        ensures once { FailsOnce result self.old.store.counts self.new.store.counts }

        ensures fetches { FetchesAtMost (length out.new) self.old self.new }
        ensures counts { CountsBytes 1 (length out.new) self.old self.new }
    {
        self.calls = self.calls.saturating_add(1);
        self.fetched = self.fetched.saturating_add(out.len() as u128);
        // The proof learns here that the size fits its type.
        let _size = self.size;
        let answer = fill(&mut self.store, at, out);
        self.fault = answer.err();
        answer
    }
}

/// Fills `out` with the bytes at `at`, by as many calls as the store takes.
fn fill<S: Store>(store: &mut S, at: u64, out: &mut [u8]) -> Result<(), SourceFault>
    requires fits { at + length out.old < 2 ^ 64 }
    requires inside { IsInside at (length out.old) (S.state store.old).size }
    ensures bytes { OnOk result (IfSome (S.state store.old).content (λ file. out.new ≡ bytes_at file at (length out.new))) }
    ensures cause { IfErr result (λ fault. HasFetchCause fault
        (HasRisen (S.state store.old).counts.failures (S.state store.new).counts.failures)
        (HasRisen (S.state store.old).counts.empties (S.state store.new).counts.empties)) }
    ensures once { FailsOnce result (S.state store.old).counts (S.state store.new).counts }
    ensures place { IfErr result (λ fault. fault_at fault ≡ (S.state store.new).counts.place) }
    ensures at { IfErr result (λ fault. (at ≤ fault_at fault) × (fault_at fault < at + length out.new)) }
    ensures obtained { IfErr result (λ fault. IsObtained (S.state store.old).content at (fault_at fault) out.new) }
    ensures content { (S.state store.new).content ≡ (S.state store.old).content }
    ensures reliable { (S.state store.new).is_reliable ≡ (S.state store.old).is_reliable }
    ensures size { (S.state store.new).size ≡ (S.state store.old).size }
    ensures least { (S.state store.new).least ≡ (S.state store.old).least }
    ensures no_fewer_calls { (S.state store.old).counts.calls ≤ (S.state store.new).counts.calls }
    ensures no_fewer { ((S.state store.old).counts.failures ≤ (S.state store.new).counts.failures)
        × ((S.state store.old).counts.empties ≤ (S.state store.new).counts.empties) }
    ensures calls { (S.state store.new).counts.calls ≤ (S.state store.old).counts.calls + length out.new }
    ensures few_calls { CallsFew (length out.new) (S.state store.old) (S.state store.new) }
    ensures always { IsTrue (S.state store.old).is_reliable → IfSome (S.state store.old).content (λ file. IsInside at (length out.new) (length file) → IsOk result) }
{
    let mut filled = 0;
    while filled < out.len() {
        let place = at + filled as u64;
        match store.read_at(place, &mut out[filled..]) {
            Err(_) => return Err(SourceFault::Failed { at: place }),
            Ok(0) => return Err(SourceFault::ShortRead { at: place }),
            Ok(count) => filled += count,
        }
    }
    Ok(())
}
