//! What listers and walkers of large files take of a heap: the bytes that docs/promises.md tells for them, each once
//! and as they are opened, and with a limit that is a byte less than these only what is taken before it is tested.
use crate::opening::{ListOutcome, all, limits_of};
use crate::refusals::{Opener, run_by};
use crate::same::assert_same_at;
use mdmp_lister::{Limits, OpenFault};
use mdmp_source::{MemoryStore, Source};
use mdmp_test_support::{
    EMPTY_PART, HeapCounts, LONG_NAME, MANY_ENTRIES, MANY_RANGES, MANY_THREADS, MeteredHeap,
    OneStream, Refusal, one_stream_file,
};
use std::alloc::Global;
use std::process::Abort;

/// A file, and who opens it with which window W and names of how many bytes L; the items that are given, and how many
/// ranges are mapped.
#[derive(Clone, Copy)]
struct HeapRow {
    opener: Opener,
    file: OneStream<'static>,
    window: u32,
    name: u32,
    items: u64,
    mapped: usize,
    /// The number of promises.md: W + 12s + 24r + L of a lister, and W + 12s + L of a walker.
    held: u64,
    /// How many of these are taken before the limit of memory is tested for the last time: none, or of a lister with
    /// ranges all but 24r.
    before: u64,
    /// By how many growths all are taken, and those that come before that test.
    growths: (u64, u64),
}

/// Unused entries that a lister lists, by a window of 1 MiB.
const ENTRIES: HeapRow = HeapRow {
    opener: Opener::Lister,
    file: MANY_ENTRIES,
    window: 1 << 20,
    name: 4096,
    items: 5000,
    mapped: 0,
    held: (1 << 20) + 12 * 5000 + 4096,
    before: 0,
    growths: (3, 0),
};

static ROWS: [HeapRow; 8] = [
    HeapRow {
        opener: Opener::Lister,
        file: MANY_ENTRIES,
        window: 168,
        name: 0,
        items: 5000,
        mapped: 0,
        held: 168 + 12 * 5000,
        before: 0,
        growths: (2, 0),
    },
    ENTRIES,
    HeapRow {
        opener: Opener::Lister,
        file: MANY_RANGES,
        window: 70_000,
        name: 4096,
        items: 15_000,
        mapped: 0,
        held: 70_000 + 12 * 5000 + 24 * 10_000 + 4096,
        before: 70_000 + 12 * 5000 + 4096,
        growths: (4, 3),
    },
    HeapRow {
        opener: Opener::Lister,
        file: MANY_THREADS,
        window: 168,
        name: 70_000,
        items: 10_001,
        mapped: 0,
        held: 168 + 12 + 70_000,
        before: 0,
        growths: (3, 0),
    },
    HeapRow {
        opener: Opener::Lister,
        file: EMPTY_PART,
        window: 70_000,
        name: 0,
        items: 2,
        mapped: 0,
        held: 70_000 + 12 + 24,
        before: 70_000 + 12,
        growths: (3, 2),
    },
    HeapRow {
        opener: Opener::Walker,
        ..ENTRIES
    },
    HeapRow {
        opener: Opener::Walker,
        file: MANY_RANGES,
        window: 70_000,
        name: 4096,
        items: 15_000,
        mapped: 0,
        held: 70_000 + 12 * 5000 + 4096,
        before: 0,
        growths: (3, 0),
    },
    HeapRow {
        opener: Opener::Walker,
        file: LONG_NAME,
        window: 168,
        name: 70_000,
        items: 2,
        mapped: 0,
        held: 168 + 12 + 70_000,
        before: 0,
        growths: (3, 0),
    },
];

/// What came of a file of which all items were given, and what was taken of the heap.
fn taken_by(
    alloc: Global,
    file: &[u8],
    limits: Limits,
    opener: Opener,
) -> (ListOutcome, HeapCounts) {
    let heap = MeteredHeap::new(alloc, Refusal::Never);
    let source = Source::new(MemoryStore::new(file));
    let (outcome, _) = run_by(&heap, source, limits, opener);
    (outcome, heap.counts())
}

/// Asserts what a file takes without a limit of memory, at its limit, and with a byte less.
fn assert_row(rt: &impl Abort, alloc: Global, number: usize, row: &HeapRow) {
    let file = one_stream_file(alloc, row.file).expect(rt, "memory for a file");
    let limits = limits_of(rt, row.window, row.name);
    let (growths, before) = row.growths;
    let whole = (
        all(row.items, row.mapped),
        HeapCounts::once(row.held, growths),
    );
    let found = taken_by(alloc, &file, limits, row.opener);
    assert_same_at(rt, &(number, "no limit"), found, whole);
    let enough = limits.limit_memory(row.held);
    let found = taken_by(alloc, &file, enough, row.opener);
    assert_same_at(rt, &(number, "enough"), found, whole);
    let held = u128::from(row.held);
    let over = ListOutcome::Refused(OpenFault::MemoryLimit { held });
    let less = limits.limit_memory(row.held.saturating_sub(1));
    let found = taken_by(alloc, &file, less, row.opener);
    assert_same_at(
        rt,
        &(number, "less"),
        found,
        (over, HeapCounts::once(row.before, before)),
    );
}

#[test]
fn large_files_take_what_is_promised_and_no_more(rt: HostRuntime) {
    for (number, row) in ROWS.iter().enumerate() {
        assert_row(&rt, rt.alloc(), number, row);
    }
}
