//! The memory that a lister takes.
use crate::files::{FOUR, FileOf, crowded, file_of, made};
use crate::opening::{
    ListOutcome, all, chosen, close, limits_of, list_all, open_and_close, opened, run_over,
};
use crate::same::{assert_same, assert_same_at};
use crate::script::{LEAST, WHOLE_BLOCKS};
use linked_list_allocator::LocalHeap;
use mdmp_lister::{Choice, Limits, OpenFault};
use mdmp_source::{MemoryStore, Source};
use mdmp_test_support::OVERLAPPING;
use std::alloc::Global;
use std::process::Abort;

/// A heap of so many bytes.
fn heap_of(rt: &impl Abort, alloc: Global, size: usize) -> LocalHeap {
    LocalHeap::new(alloc, size).expect(rt, "a heap")
}

/// A file that is listed in heaps of these sizes, in steps of 16 bytes.
struct MemoryRow {
    file: FileOf,
    limits: (u32, u32),
    /// The first size and the last.
    heaps: (usize, usize),
    outcome: ListOutcome,
    /// What is fetched, if that is to be known.
    fetched: Option<u128>,
    /// How much a lister uses as it is opened and behind all its items, if it is to be known.
    used: Option<usize>,
}

/// Such a row, of a heap that gives too little.
macro_rules! refused {
    ($file:expr, $limits:expr, $heaps:expr, $fetched:expr) => {
        MemoryRow {
            file: $file,
            limits: $limits,
            heaps: $heaps,
            outcome: ListOutcome::Refused(OpenFault::Memory),
            fetched: $fetched,
            used: None,
        }
    };
}

/// One of a heap that gives enough.
macro_rules! listed {
    ($file:expr, $limits:expr, $heaps:expr, $items:expr, $mapped:expr, $used:expr) => {
        MemoryRow {
            file: $file,
            limits: $limits,
            heaps: $heaps,
            outcome: ListOutcome::Listed {
                fault: None,
                items: $items,
                mapped: $mapped,
            },
            fetched: None,
            used: $used,
        }
    };
}

/// Two ranges: in blocks of multiples of 16 a directory of 16 bytes, a window of 176, and a map of 48.
const RANGES: FileOf = FileOf::Numbers(1, &OVERLAPPING);

/// A directory of 48 bytes.
const UNUSED: FileOf = FileOf::Numbers(4, &[0; 12]);

/// A directory of 48 bytes, and a map of two ranges of 24.
const FOUR_LISTS: FileOf = FileOf::Numbers(4, &FOUR);

static ROWS: [MemoryRow; 9] = [
    refused!(RANGES, (168, 0), (0, 176), Some(32)),
    // The directory and the count are read before there is a map.
    refused!(RANGES, (168, 0), (192, 224), Some(48)),
    listed!(RANGES, (168, 0), (240, 304), 3, 2, None),
    refused!(UNUSED, (176, 16), (0, 0), Some(32)),
    refused!(UNUSED, (176, 16), (48, 48), Some(32)),
    refused!(UNUSED, (176, 16), (224, 224), Some(32)),
    listed!(UNUSED, (176, 16), (240, 240), 4, 0, Some(240)),
    refused!(FOUR_LISTS, (176, 16), (272, 272), None),
    listed!(FOUR_LISTS, (176, 16), (288, 288), 6, 0, Some(288)),
];

/// How much of a heap a lister of a file uses once it is opened, and behind all its items.
fn used_by(rt: &impl Abort, heap: &LocalHeap, file: &[u8], limits: Limits) -> (usize, usize) {
    let mut lister = opened(rt, heap, MemoryStore::new(file), limits, Choice::All);
    let opened = heap.used();
    assert_same(rt, list_all(&mut lister), None);
    let listed = heap.used();
    close(lister);
    (opened, listed)
}

/// Asserts what comes of a row in a heap of so many bytes, and that its source may be opened with ample memory.
fn assert_row_in(rt: &impl Abort, alloc: Global, row: &MemoryRow, size: usize) {
    let file = made(rt, alloc, &row.file);
    let (window, name) = row.limits;
    let limits = limits_of(rt, window, name);
    let heap = heap_of(rt, alloc, size);
    let source = Source::new(MemoryStore::new(&file));
    let (outcome, source) = run_over(&heap, source, limits, Choice::All);
    let (len, fetched) = (source.size(), source.fetched());
    let (ample, _) = open_and_close(alloc, source, limits, Choice::All);
    assert_same_at(rt, &size, outcome, row.outcome);
    assert_same_at(rt, &size, fetched, row.fetched.unwrap_or(fetched));
    let told = (len, ample, heap.used());
    assert_same_at(rt, &size, told, (file.len() as u64, None, 0));
    if let Some(used) = row.used {
        let found = used_by(rt, &heap, &file, limits);
        assert_same_at(rt, &size, found, (used, used));
    }
}

#[test]
fn want_of_memory_hands_the_source_back_until_there_is_enough(rt: HostRuntime) {
    for row in &ROWS {
        let (first, last) = row.heaps;
        for block in first / 16..last / 16 + 1 {
            assert_row_in(&rt, rt.alloc(), row, 16 * block);
        }
    }
}

#[test]
fn open_succeeds_with_ample_memory(rt: HostRuntime) {
    let file = file_of(&rt, rt.alloc(), 1, &OVERLAPPING);
    let heap = heap_of(&rt, rt.alloc(), 1 << 20);
    let limits = limits_of(&rt, 65536, 4096);
    let source = Source::new(MemoryStore::new(&file));
    let (outcome, _) = run_over(&heap, source, limits, Choice::All);
    assert_same(&rt, outcome, all(3, 2));
    // What is listed takes no more.
    let (opened, listed) = used_by(&rt, &heap, &file, limits);
    assert_same(&rt, opened, listed);
}

#[test]
fn list_that_is_not_chosen_takes_no_memory(rt: HostRuntime) {
    let file = file_of(&rt, rt.alloc(), 4, &FOUR);
    let heap = heap_of(&rt, rt.alloc(), 240);
    let source = Source::new(MemoryStore::new(&file));
    let (fault, _) = open_and_close(&heap, source, WHOLE_BLOCKS, chosen(&rt, &[3]));
    assert_same(&rt, fault, None);
}

#[test]
fn most_ranges_are_not_too_many(rt: HostRuntime) {
    let crowded = crowded(&rt, rt.alloc(), 16384);
    // There is memory for all but the map.
    let heap = heap_of(&rt, rt.alloc(), 12 * 16384 + 192);
    let source = Source::new(MemoryStore::new(&crowded));
    let (fault, source) = open_and_close(&heap, source, WHOLE_BLOCKS, Choice::All);
    let fetched = 32 + 16 * 16384;
    assert_same(
        &rt,
        (fault, source.fetched()),
        (Some(OpenFault::Memory), fetched),
    );
}

#[test]
fn directory_of_many_entries_is_opened(rt: HostRuntime) {
    let mut numbers = Vec::new(rt.alloc());
    numbers.resize(3 * 100_000, 0).expect(&rt, "memory");
    let unused = file_of(&rt, rt.alloc(), 100_000, &numbers);
    let source = Source::new(MemoryStore::new(&unused));
    let (outcome, _) = run_over(rt.alloc(), source, LEAST, Choice::All);
    assert_same(&rt, outcome, all(100_000, 0));
}
