//! What a lister may hold, fetch and call.

use crate::census::Census;
use mdmp_lister::{Counts, Limits, Lister};
use mdmp_source::MemoryStore;
use std::alloc::Global;

/// Keeps it as trouble where a lister that ended counts more than it may, or otherwise than its source.
pub fn check_bounds(lister: Lister<MemoryStore<'_>, Global>, limits: Limits, census: &mut Census) {
    let counts = counts_of(&lister);
    census.agree(
        counts.held == held_bound(&counts, limits),
        "held is not as told",
    );
    census.agree(
        counts.fetched <= fetch_bound(&counts, limits),
        "more was fetched than may be",
    );
    census.agree(
        counts.calls <= call_bound(&counts, limits),
        "more calls were made than may be",
    );
    census.agree(
        counts_as_its_source(lister, &counts),
        "the source counts otherwise",
    );
}

/// What a lister counts.
pub fn counts_of(lister: &Lister<MemoryStore<'_>, Global>) -> Counts {
    lister.counts()
}

/// Whether the source of a lister counts the same.
fn counts_as_its_source(lister: Lister<MemoryStore<'_>, Global>, counts: &Counts) -> bool {
    let source = lister.into_source();
    source.fetched() == counts.fetched && source.calls() == counts.calls
}

/// The window, 12 bytes for each entry, 24 for each range, and the longest name.
fn held_bound(counts: &Counts, limits: Limits) -> u128 {
    u128::from(limits.window)
        .saturating_add(counts.s.saturating_mul(12))
        .saturating_add(counts.r.saturating_mul(24))
        .saturating_add(u128::from(limits.name))
}

/// The header, 28 bytes for each entry, the streams, and for each name its length and the longest one.
fn fetch_bound(counts: &Counts, limits: Limits) -> u128 {
    let name = u128::from(limits.name).saturating_add(4);
    counts
        .s
        .saturating_mul(28)
        .saturating_add(32)
        .saturating_add(counts.n)
        .saturating_add(counts.m.saturating_mul(name))
}

/// Two calls at first and for each name, three for each entry, and one for each window of the directory
/// and of the streams. A window may keep all bytes of an entry or a record but one.
fn call_bound(counts: &Counts, limits: Limits) -> u128 {
    let window = u128::from(limits.window);
    let entries = quotient(counts.s.saturating_mul(12), window.saturating_sub(11));
    let streams = quotient(counts.n, window.saturating_sub(167));
    counts
        .m
        .saturating_mul(2)
        .saturating_add(2)
        .saturating_add(counts.s.saturating_mul(3))
        .saturating_add(entries)
        .saturating_add(streams)
}

fn quotient(number: u128, divisor: u128) -> u128 {
    number / divisor.max(1)
}
