//! A source that is read for a listing, which counts what the listing fetches.
ghost use Rattle.std.specs.Prelude.{◌≡◌, ◌≤◌, ◌+◌, Err, IfErr, None, OnErr, OnOk, length, min};
ghost use Rattle.mdmp_source.specs.Count.{raised};
ghost use Rattle.mdmp_source.specs.Range.{IsInside, bytes_at};
ghost use Rattle.mdmp_source.specs.Source.{IsToldAmong};
ghost use Rattle.mdmp_source.specs.Store.{IsOfBytes, IsSizeOf};
ghost use Rattle.mdmp_source.specs.Window.{IsFilled, next_len_of};
ghost use Rattle.mdmp_lister.specs.Fault.{IsCaused};
ghost use Rattle.mdmp_lister.specs.Fetching.{Reads, ReadsBeside};
ghost use Rattle.mdmp_lister.specs.Meter.{Books, CountsFetch, IsBooked, IsMetered, IsSourceOf, KeepsTo, MeterState, RefusesFetch, TriesFetch, counts_of, is_passed, store_fault_of};
ghost use Rattle.mdmp_lister.specs.declared.fault.FetchFault.{FetchFault};

use crate::fault::FetchFault;
use mdmp_source::{Source, SourceFault, Store, Window};
use std::alloc::Allocator;
use std::marker::Model;

/// Bytes fetched, and calls of `fetch`.
#[derive(Clone, Copy)]
pub(crate) struct Amount {
    pub bytes: u128,
    pub calls: u128,
}

/// What was counted of a listing.
#[derive(Clone, Copy)]
pub(crate) struct MeterCounts {
    /// The bytes fetched for the listing.
    pub fetched: u128,
    /// The calls of `fetch` for it.
    pub calls: u128,
    /// The names that it reached.
    pub names: u128,
    /// What was fetched aside.
    pub aside: Amount,
    /// What the source's own counts were at first.
    pub start: Amount,
    /// The most bytes that may be fetched for the listing, where there is a most.
    pub budget: Option<u64>,
    /// The bytes fetched, with those of a fetch that was not made since it would have passed the budget.
    pub asked: u128,
}

/// A source that is read for a listing, and for that never for more bytes than its budget. Beside the
/// counts of the source itself, which go on, it counts what was fetched since it was made: for the listing,
/// and aside.
#[derive(Drop)]
pub(crate) struct Meter<S: Store> {
    source: Source<S>,
    fetched: u128,
    calls: u128,
    names: u128,
    aside: Amount,
    /// What the source's own counts were at first.
    start: Amount,
    /// The most bytes that may be fetched for the listing, where there is a most.
    budget: Option<u64>,
    /// The bytes of fetches that were not made since they would have passed the budget.
    refused: u128,
}

impl<S: Store> Model for Meter<S> {
    ghost use Rattle.std.specs.Prelude.{◌≤◌};
    ghost use Rattle.mdmp_source.specs.Count.{raised};
    ghost use Rattle.mdmp_lister.specs.Meter.{IsBookedBy, IsMetered, MeterState};

    ghost Value = { MeterState };

    ghost view = { λ m. record {
      source = m.source;
      fetched = m.fetched;
      calls = m.calls;
      names = m.names;
      aside = m.aside;
      start = m.start;
      budget = m.budget;
      asked = raised m.fetched m.refused;
    } };

    ghost invariant = { λ m. IsBookedBy m.source m.fetched m.calls m.aside m.start × IsMetered m.budget m.fetched (raised m.fetched m.refused) };
}

impl<S: Store> Meter<S> {
    /// A meter through which nothing was fetched, with a budget or none.
    pub(crate) fn new(source: Source<S>, budget: Option<u64>) -> Self
        ensures { result ≡ record {
          source = source;
          fetched = 0;
          calls = 0;
          names = 0;
          aside = record { bytes = 0; calls = 0 };
          start = record { bytes = source.fetched; calls = source.calls };
          budget = budget;
          asked = 0;
        } }
    {
        let start = Amount {
            bytes: source.fetched(),
            calls: source.calls(),
        };
        Meter {
            source,
            fetched: 0,
            calls: 0,
            names: 0,
            aside: Amount { bytes: 0, calls: 0 },
            start,
            budget,
            refused: 0,
        }
    }

    /// The number of bytes in the file.
    pub(crate) fn size(&self) -> u64
        ensures value { result ≡ self.now.source.size }
        ensures content { IsSizeOf self.now.source.store.content result }
        ensures bytes { IsOfBytes self.now.source.store.content }
    {
        self.source.size()
    }

    /// Fetches for the listing.
    pub(crate) fn fetch(&mut self, at: u64, out: &mut [u8]) -> Result<(), FetchFault>
        requires { IsInside at (length out.old) self.old.source.size }
        ensures reads { Reads (length out.new) (Books 1 (length out.new)) (λ file _. out.new ≡ bytes_at file at (length out.new)) result self.old self.new }
        ensures counts { CountsFetch 1 (length out.new) result self.old self.new }
        ensures refused { RefusesFetch at (length out.new) result self.old self.new }
        ensures tries { TriesFetch at (length out.new) result self.old self.new }
    {
        let size = out.len();
        if is_passed(self.budget, self.fetched, size) {
            self.refused = self.refused.saturating_add(size as u128);
            return over_budget(at, size);
        }
        self.fetched = self.fetched.saturating_add(size as u128);
        self.calls = self.calls.saturating_add(1);
        self.source.fetch(at, out)?;
        Ok(())
    }

    /// Fills a window for the listing, by one fetch, or by none where there is nothing to be fetched.
    pub(crate) fn fill<A: Allocator>(&mut self, window: &mut Window<A>) -> Result<(), FetchFault>
        requires { window.old.end ≤ self.old.source.size }
        ensures filled { OnOk result (IsFilled self.old.source.store.content window.old window.new) }
        ensures kept { OnErr result (window.new ≡ record window.old { touched = window.new.touched }) }
        ensures books { Books (min 1 (next_len_of window.old)) (next_len_of window.old) self.old self.new }
        ensures caused { IsCaused (store_fault_of result) self.old.source self.new.source }
        ensures refused { RefusesFetch (window.old.place + length window.old.held) (next_len_of window.old) result self.old self.new }
        ensures tries { TriesFetch (window.old.place + length window.old.held) (next_len_of window.old) result self.old self.new }
    {
        // The proof learns here that a place inside the file has 64 bits.
        let _size = self.size();
        let size = window.next_len();
        if is_passed(self.budget, self.fetched, size) {
            self.refused = self.refused.saturating_add(size as u128);
            return over_budget(window.place() + window.bytes().len() as u64, size);
        }
        self.fetched = self.fetched.saturating_add(size as u128);
        self.calls = self.calls.saturating_add(size.min(1) as u128);
        window.fill(&mut self.source)?;
        Ok(())
    }

    /// Fetches what is not of the listing.
    pub(crate) fn fetch_aside(&mut self, at: u64, out: &mut [u8]) -> Result<(), SourceFault>
        requires { IsInside at (length out.old) self.old.source.size }
        ensures reads { ReadsBeside 1 (length out.new) (λ file _. out.new ≡ bytes_at file at (length out.new)) result self.old self.new }
        ensures told { IfErr result (λ fault. IsToldAmong at (length out.new) fault self.old.source self.new.source) }
        ensures counted { self.new.aside.bytes ≡ raised self.old.aside.bytes (length out.new) }
    {
        self.aside = Amount {
            bytes: self.aside.bytes.saturating_add(out.len() as u128),
            calls: self.aside.calls.saturating_add(1),
        };
        self.source.fetch(at, out)
    }

    /// Lifts the budget, so that no later fetch for the listing is refused for it.
    pub(crate) fn lift_budget(&mut self)
        ensures lifted { self.new ≡ record self.old { budget = None; asked = self.old.fetched } }
        ensures within { self.old.fetched ≤ self.old.asked }
    {
        self.budget = None;
        self.refused = 0;
    }

    /// Counts a name that was reached.
    pub(crate) fn reach_name(&mut self)
        ensures { self.new ≡ record self.old { names = raised self.old.names 1 } }
    {
        self.names = self.names.saturating_add(1);
    }

    /// What was fetched is within the budget: it does nothing, and the proof learns that here.
    #[inline(always)]
    pub(crate) fn keeps_budget(&self)
        ensures { KeepsTo self.now.budget self.now.fetched }
    {
        let _ = &self.budget;
    }

    /// What was counted so far.
    pub(crate) fn counts(&self) -> MeterCounts
        ensures value { result ≡ counts_of self.now }
        ensures booked { IsBooked self.now.source result }
        ensures kept { IsMetered result.budget result.fetched result.asked }
    {
        MeterCounts {
            fetched: self.fetched,
            calls: self.calls,
            names: self.names,
            aside: self.aside,
            start: self.start,
            budget: self.budget,
            asked: self.fetched.saturating_add(self.refused),
        }
    }

    /// Hands the source back.
    pub(crate) fn into_source(self) -> Source<S>
        ensures { IsSourceOf self result }
    {
        let Meter { source, .. } = self;
        source
    }
}

/// These bytes are not fetched, since the budget has no room for them.
fn over_budget(offset: u64, size: usize) -> Result<(), FetchFault>
    ensures { result ≡ Err (FetchFault.Budget offset size) }
{
    Err(FetchFault::Budget {
        offset,
        size: size as u64,
    })
}

/// Whether so many bytes more than were fetched would pass a budget.
fn is_passed(budget: Option<u64>, fetched: u128, size: usize) -> bool
    ensures { result ≡ is_passed budget (raised fetched size) }
{
    match budget {
        Some(budget) => fetched.saturating_add(size as u128) > u128::from(budget),
        None => false,
    }
}
