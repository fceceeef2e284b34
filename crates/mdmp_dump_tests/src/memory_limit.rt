//! Files that need more memory than a limit allows, read into a value, and opened as a view: at the edge of the
//! limit, over each store, with each growth refused.
use crate::files::{ALL, SIX_FILE, Sample, choice_of, file_of};
use crate::same::assert_same_at;
use crate::store_calls::{ReadInto, fault_into};
use crate::viewed::two_faces;
use mdmp_dump::ReadFault;
use mdmp_lister::{Limits, OpenFault};
use mdmp_source::{MemoryStore, PatchyStore, Source, Store};
use mdmp_test_support::{HeapCounts, MeteredHeap, OVERLAPPING, Refusal, limits};
use std::alloc::Global;
use std::process::Abort;

/// The entries of these types of a file, what they are read into with this limit on memory, how many bytes are told to
/// be over it, if any, and by how many growths.
struct MemoryLimitRow {
    into: ReadInto,
    sample: Sample<'static>,
    types: &'static [u32],
    memory: u64,
    held: Option<u128>,
    growths: u64,
}

/// What the lists of a lister of two ranges take, but for these: a window, an entry and a name.
const LISTS: u64 = 168 + 12 + 32;

/// What the view of six entries takes: two windows, and 24 bytes for each.
const VIEW: u64 = 2 * 168 + 24 * 6;

/// Two ranges.
const RANGES: Sample<'static> = Sample::Numbers(1, &OVERLAPPING);

/// The ranges as a value.
const OF_RANGES: MemoryLimitRow = MemoryLimitRow {
    into: ReadInto::Value,
    sample: RANGES,
    types: ALL,
    memory: 0,
    held: None,
    growths: 0,
};

/// The thread and the exception of six streams as a view.
const OF_SIX: MemoryLimitRow = MemoryLimitRow {
    into: ReadInto::View,
    sample: SIX_FILE,
    types: &[3, 6],
    memory: 0,
    held: None,
    growths: 0,
};

static LIMITED: [MemoryLimitRow; 9] = [
    MemoryLimitRow {
        memory: LISTS + 48,
        held: None,
        growths: 8,
        ..OF_RANGES
    },
    MemoryLimitRow {
        memory: LISTS + 47,
        held: Some(260),
        growths: 3,
        ..OF_RANGES
    },
    MemoryLimitRow {
        memory: LISTS,
        held: Some(260),
        growths: 3,
        ..OF_RANGES
    },
    MemoryLimitRow {
        memory: LISTS - 1,
        held: Some(212),
        growths: 0,
        ..OF_RANGES
    },
    MemoryLimitRow {
        memory: 0,
        held: Some(212),
        growths: 0,
        ..OF_RANGES
    },
    MemoryLimitRow {
        memory: VIEW + 1,
        held: None,
        growths: 4,
        ..OF_SIX
    },
    MemoryLimitRow {
        memory: VIEW,
        held: None,
        growths: 4,
        ..OF_SIX
    },
    MemoryLimitRow {
        memory: VIEW - 1,
        held: Some(480),
        growths: 0,
        ..OF_SIX
    },
    MemoryLimitRow {
        memory: 0,
        held: Some(480),
        growths: 0,
        ..OF_SIX
    },
];

/// A window of 168 bytes and names of 32.
const AMPLE: Limits = limits!(168, 32);

/// What came of a reading: its fault, how often the heap was asked for a block, how many blocks were not given
/// back, and the fault of the source that came back, with ample memory and no limit.
type ReadInHeap = (Option<ReadFault>, u64, u64, Option<ReadFault>);

/// Asserts what comes of reading a store in a heap that refuses this growth.
fn assert_outcome<S: Store + Drop>(
    rt: &impl Abort,
    alloc: Global,
    store: S,
    row: &MemoryLimitRow,
    growth: u64,
    expected: ReadInHeap,
) {
    let heap = MeteredHeap::new(alloc, Refusal::Only(growth));
    let limited = AMPLE.limit_memory(row.memory);
    let source = Source::new(store);
    let (into, types) = (&row.into, row.types);
    let (fault, source) = fault_into(&heap, into, source, limited, choice_of(rt, types), 18);
    let HeapCounts { growths, out, .. } = heap.counts();
    let (again, _) = fault_into(alloc, into, source, AMPLE, choice_of(rt, types), 18);
    let at = (row.memory, growth);
    assert_same_at(rt, &at, (fault, growths, out, again), expected);
}

/// Asserts it over each store: in memory, by a byte a call, and one whose content is not known.
fn assert_over_each_store(
    rt: &impl Abort,
    alloc: Global,
    row: &MemoryLimitRow,
    growth: u64,
    expected: ReadInHeap,
) {
    let file = file_of(rt, alloc, &row.sample);
    assert_outcome(rt, alloc, MemoryStore::new(&file), row, growth, expected);
    let slow = PatchyStore::new(&file, &[1], None);
    assert_outcome(rt, alloc, slow, row, growth, expected);
    let unknown = two_faces(rt, &file, &file, u64::MAX);
    assert_outcome(rt, alloc, unknown, row, growth, expected);
}

/// Asserts what comes of a reading with a limit, and that each of its growths may be refused before that.
fn assert_limited(rt: &impl Abort, alloc: Global, row: &MemoryLimitRow) {
    for growth in 0..row.growths {
        let refused = (Some(ReadFault::Memory), growth.saturating_add(1), 0, None);
        assert_over_each_store(rt, alloc, row, growth, refused);
    }
    let fault = match row.held {
        Some(held) => Some(ReadFault::Opening(OpenFault::MemoryLimit { held })),
        None => None,
    };
    assert_over_each_store(rt, alloc, row, row.growths, (fault, row.growths, 0, None));
}

#[test]
fn file_is_read_within_the_limit_of_its_lister_or_of_a_copy(rt: HostRuntime) {
    for row in &LIMITED {
        assert_limited(&rt, rt.alloc(), row);
    }
}
