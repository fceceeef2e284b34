//! What a lister holds and fetches, beside its bounds.
use crate::files::{FOUR, FileOf, file_of, made};
use crate::opening::{counts_of, fetched_by, limits_of, list_all, opened, patchy};
use crate::same::{assert_same, assert_same_at};
use crate::script::{APART_1000, LEAST, NAMED, WHOLE_BLOCKS};
use linked_list_allocator::LocalHeap;
use mdmp_lister::{Choice, Counts, Limits, Lister};
use mdmp_source::{MemoryStore, Source, Store};
use mdmp_test_support::{MEMORY64, SYSTEM, THREAD_NAME, THRICE, limits};
use std::alloc::{Allocator, Global};
use std::process::Abort;

/// What a lister counts behind all its items and four bytes of memory, and how many bytes and calls its source
/// does.
fn counted<S: Store + Drop, A: Allocator + Copy>(
    alloc: A,
    store: S,
    limits: Limits,
) -> Option<(Counts, (u128, u128))> {
    let Ok(mut lister) = Lister::open(alloc, Source::new(store), limits, Choice::All) else {
        return None;
    };
    let _ = list_all(&mut lister);
    let _ = lister.read_address(0x1000, &mut [0; 4], &mut [false; 4]);
    let counts = counts_of(&lister);
    Some((counts, fetched_by(lister)))
}

/// A file and its limits, and its bound: entries, ranges, listed bytes and names, what it holds, and the most that it
/// fetches.
struct BoundRow {
    shows: &'static str,
    file: FileOf,
    limits: (u32, u32),
    bound: [u128; 6],
}

/// Such a row.
macro_rules! bound {
    ($shows:expr, $file:expr, $window:expr, $name:expr, $bound:expr) => {
        BoundRow {
            shows: $shows,
            file: $file,
            limits: ($window, $name),
            bound: $bound,
        }
    };
}

/// No entries, in a directory that stands nowhere.
const EMPTY: FileOf = FileOf::Bytes(
    b"MDMP\x93\xa7\0\0\0\0\0\0\xff\xff\xff\xff\0\0\0\0\0\0\0\0\0\0\0\0\0\0\0\0",
);

/// An unloaded module whose name has ten bytes.
const LONG_NAME: [u32; 16] = [
    14, 36, 44, 12, 24, 1, 0, 0, 0, 0, 0, 80, 10, 0x00620061, 0x00640063, 0x65,
];

/// Two ranges of 64-bit memory, of which one is read aside.
const RANGES: FileOf = FileOf::Bytes(&MEMORY64);

static BOUNDS: [BoundRow; 10] = [
    bound!(
        "a list that a thousand entries name",
        FileOf::Thousand,
        168,
        0,
        [1000, 0, 4804000, 0, 12168, 4832032]
    ),
    bound!(
        "a long name",
        FileOf::Numbers(1, &LONG_NAME),
        168,
        8,
        [1, 0, 36, 1, 188, 108]
    ),
    bound!(
        "a thread's name",
        FileOf::Numbers(1, &THREAD_NAME),
        168,
        8,
        [1, 0, 16, 1, 188, 88]
    ),
    bound!("no entries", EMPTY, 168, 0, [0, 0, 0, 0, 168, 32]),
    bound!(
        "three modules",
        FileOf::Padded(1, 85, &[4, 328, 44, 3], &[]),
        168,
        0,
        [1, 0, 328, 0, 180, 388]
    ),
    bound!(
        "four bytes more",
        FileOf::Padded(1, 86, &[4, 332, 44, 3], &[]),
        168,
        0,
        [1, 0, 332, 0, 180, 392]
    ),
    bound!(
        "1000 bytes apart",
        APART_1000,
        168,
        0,
        [1, 0, 2012, 0, 180, 2072]
    ),
    bound!(
        "one list thrice",
        FileOf::Numbers(3, &THRICE),
        168,
        0,
        [3, 0, 156, 0, 204, 272]
    ),
    bound!(
        "a system",
        FileOf::Bytes(&SYSTEM),
        65536,
        4096,
        [1, 0, 56, 1, 69644, 4216]
    ),
    bound!("64-bit memory", RANGES, 168, 4096, [1, 2, 48, 0, 4324, 108]),
];

/// Asserts the bound of a file, that its listing fetches no more, and that each byte of it is booked.
fn assert_bound(rt: &impl Abort, alloc: Global, row: &BoundRow) {
    let file = made(rt, alloc, &row.file);
    let (window, name) = row.limits;
    let limits = limits_of(rt, window, name);
    let counted = counted(alloc, MemoryStore::new(&file), limits);
    let (counts, (bytes, _)) = counted.expect(rt, "a lister");
    let names = counts.m.saturating_mul(u128::from(name) + 4);
    let directory = counts.s.saturating_mul(28).saturating_add(32);
    let most = directory.saturating_add(counts.n).saturating_add(names);
    let found = [counts.s, counts.r, counts.n, counts.m, counts.held, most];
    assert_same_at(rt, &row.shows, found, row.bound);
    assert_same_at(rt, &row.shows, counts.fetched <= most, true);
    let booked = counts.fetched.saturating_add(counts.aside);
    assert_same_at(rt, &row.shows, bytes, booked);
}

#[test]
fn counts_succeed_and_bound_small_files(rt: HostRuntime) {
    for row in &BOUNDS {
        assert_bound(&rt, rt.alloc(), row);
    }
}

#[test]
fn long_name_costs_its_length(rt: HostRuntime) {
    let file = file_of(&rt, rt.alloc(), 1, &LONG_NAME);
    let counted = counted(rt.alloc(), MemoryStore::new(&file), limits!(168, 8));
    let (counts, _) = counted.expect(&rt, "a lister");
    // Header, entry, head, record and the length of the name are fetched.
    let fetched = 32 + 12 + 12 + 24 + 4;
    let found = (counts.m, counts.held, counts.fetched);
    assert_same(&rt, found, (1, 188, fetched));
}

/// The size of a heap, and what a lister of `FOUR` holds there, if it is opened.
static HEAPS: [(usize, Option<u128>); 2] = [(272, None), (288, Some(288))];

/// Four entries.
static FOUR_ENTRIES: FileOf = FileOf::Numbers(4, &FOUR);

/// What a lister of four entries holds in a heap of so many bytes, if it is opened there.
fn held_in(rt: &impl Abort, alloc: Global, size: usize) -> Option<u128> {
    let file = made(rt, alloc, &FOUR_ENTRIES);
    let heap = LocalHeap::new(alloc, size).expect(rt, "a heap");
    match counted(&heap, MemoryStore::new(&file), WHOLE_BLOCKS) {
        Some((counts, _)) => Some(counts.held),
        None => None,
    }
}

#[test]
fn heap_of_what_is_held_is_enough(rt: HostRuntime) {
    for (size, held) in &HEAPS {
        assert_same_at(&rt, size, held_in(&rt, rt.alloc(), *size), *held);
    }
}

/// Asserts that a store which fails at this call has each byte and call counted, so many calls aside, or is not
/// opened.
fn assert_all_counted(rt: &impl Abort, alloc: Global, fail_at: u64, aside: Option<u128>) {
    let store = patchy(rt, &MEMORY64, &[4096], Some(fail_at));
    let found = counted(alloc, store, LEAST);
    assert_same_at(rt, &fail_at, found.is_some(), aside.is_some());
    if let (Some((counts, fetched)), Some(aside)) = (found, aside) {
        let bytes = counts.fetched.saturating_add(counts.aside);
        let calls = counts.calls.saturating_add(aside);
        assert_same_at(rt, &fail_at, fetched, (bytes, calls));
    }
}

#[test]
fn store_that_fails_keeps_the_equation_of_the_counts(rt: HostRuntime) {
    // The header, the entry and the head that is read ahead are read as the file is opened.
    for fail_at in 0..3 {
        assert_all_counted(&rt, rt.alloc(), fail_at, None);
    }
    // Once the ranges are listed, memory is read aside, by one call.
    assert_all_counted(&rt, rt.alloc(), 3, Some(0));
    for fail_at in 4..10 {
        assert_all_counted(&rt, rt.alloc(), fail_at, Some(1));
    }
}

#[test]
fn calls_for_the_listing_are_counted(rt: HostRuntime) {
    let store = MemoryStore::new(&SYSTEM);
    let mut lister = opened(&rt, rt.alloc(), store, NAMED, Choice::All);
    let opened = counts_of(&lister).calls;
    let _ = list_all(&mut lister);
    let listed = counts_of(&lister).calls;
    let (_, calls) = fetched_by(lister);
    // The header and the entry; then the record, the length of its name and its units.
    assert_same(&rt, (opened, listed, calls), (2, 5, 5));
}
