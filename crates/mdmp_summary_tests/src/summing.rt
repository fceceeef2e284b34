//! Summaries of stores, and what a walker counts behind them.
use mdmp_lister::{Choice, Limits, Walker};
use mdmp_source::{MemoryStore, Source, Store};
use mdmp_summary::{FileSummary, SummaryFault, summarize, summarize_listing};
use std::alloc::{Allocator, Global};
use std::process::Abort;

/// The summary of a store.
pub fn summary_over<S: Store + Drop, A: Allocator + Copy>(
    alloc: A,
    store: S,
    limits: Limits,
) -> Result<FileSummary, SummaryFault> {
    summarize(alloc, Source::new(store), limits)
}

/// The summary of a file in memory.
pub fn summary_in(rt: &impl Abort, alloc: Global, file: &[u8]) -> FileSummary {
    summary_over(alloc, MemoryStore::new(file), Limits::default()).expect(rt, "a summary")
}

/// How many bytes the listing of a file and its summary have fetched together within these limits, and how many aside.
pub fn fetched_within(alloc: Global, file: &[u8], limits: Limits) -> Option<(u128, u128)> {
    let source = Source::new(MemoryStore::new(file));
    let Ok(mut walker) = Walker::open(alloc, source, limits, Choice::All) else {
        return None;
    };
    match summarize_listing(&mut walker) {
        Ok(_) => {
            let counts = walker.counts();
            Some((counts.fetched, counts.aside))
        }
        Err(_) => None,
    }
}
