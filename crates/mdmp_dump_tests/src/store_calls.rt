//! Stores that give one byte a call, each of whose calls fails in turn: a file that is read into a value, and
//! one of which a view is opened.
use crate::dump::built::{value_fault, value_of};
use crate::files::{CRASH_READING, DumpReading, NAMED, SIX_READING, Sample, file_of};
use crate::same::assert_same_at;
use crate::viewed::view_fault;
use mdmp_dump::{Dump, ReadFault, read_dump};
use mdmp_lister::{Choice, FaultKind, Limits, ListFault, OpenFault};
use mdmp_source::{PatchyStore, Source, SourceFault, Store};
use std::alloc::{Allocator, Global};
use std::process::Abort;

/// What a source is read into.
pub enum ReadInto {
    Value,
    View,
}

/// Why a source is not read into this, and the source that comes back.
pub fn fault_into<S: Store + Drop, A: Allocator + Copy>(
    heap: A,
    into: &ReadInto,
    source: Source<S>,
    limits: Limits,
    choice: Choice,
    parts: u64,
) -> (Option<ReadFault>, Source<S>) {
    match into {
        ReadInto::Value => value_fault(heap, source, limits, choice, parts),
        ReadInto::View => view_fault(heap, source, limits, choice),
    }
}

/// What a call of a store is made for.
enum ReadFor {
    Opening,
    /// The records of an entry, and the names of a value's.
    Entry(u32),
    /// A part, or the bytes of a stream.
    Bytes,
}

/// Calls of a store, one behind the other: how many they are, where the byte of the first one stands, and
/// what they are made for.
type ReadCalls = (u64, u64, ReadFor);

/// A file, what it is read into, and all calls of its store that are made for that, how many they are.
struct CallsRow {
    into: ReadInto,
    reading: DumpReading,
    calls: &'static [ReadCalls],
    count: u64,
}

static CALLS: [CallsRow; 4] = [
    CallsRow {
        into: ReadInto::Value,
        reading: CRASH_READING,
        calls: &[
            (56, 0, ReadFor::Opening),
            (52, 56, ReadFor::Entry(0)),
            (10, 108, ReadFor::Bytes),
            (168, 120, ReadFor::Entry(1)),
            (4, 288, ReadFor::Bytes),
        ],
        count: 290,
    },
    CallsRow {
        into: ReadInto::Value,
        reading: SIX_READING,
        calls: &[
            // The header and the directory, and the head of the memory list.
            (104, 0, ReadFor::Opening),
            (4, 436, ReadFor::Opening),
            // A system, with its name.
            (56 + 4 + 28, 104, ReadFor::Entry(0)),
            (52, 196, ReadFor::Entry(1)),
            (10, 248, ReadFor::Bytes),
            (4, 260, ReadFor::Entry(2)),
            (168, 264, ReadFor::Entry(3)),
            (4, 432, ReadFor::Bytes),
            (4, 436, ReadFor::Entry(4)),
            (4, 440, ReadFor::Bytes),
        ],
        count: 442,
    },
    CallsRow {
        into: ReadInto::View,
        reading: CRASH_READING,
        calls: &[
            (56, 0, ReadFor::Opening),
            (52, 56, ReadFor::Entry(0)),
            (168, 120, ReadFor::Entry(1)),
        ],
        count: 276,
    },
    CallsRow {
        into: ReadInto::View,
        reading: SIX_READING,
        calls: &[
            (104, 0, ReadFor::Opening),
            // A system, and of its name the length.
            (56 + 4, 104, ReadFor::Entry(0)),
            (52, 196, ReadFor::Entry(1)),
            (4, 260, ReadFor::Entry(2)),
            (168, 264, ReadFor::Entry(3)),
            (4, 436, ReadFor::Entry(4)),
        ],
        count: 392,
    },
];

/// What comes of a store: its fault, and whether the source that comes back is then read as the value.
type StoreOutcome = (Option<ReadFault>, bool);

/// Asserts what comes of a store of these bytes that gives one a call, and fails at this one.
fn assert_outcome(
    rt: &impl Abort,
    alloc: Global,
    into: &ReadInto,
    bytes: &[u8],
    fail_at: u64,
    value: &Dump<Global>,
    expected: StoreOutcome,
) {
    let source = Source::new(PatchyStore::new(bytes, &[1], Some(fail_at)));
    let (fault, source) = fault_into(alloc, into, source, NAMED, Choice::All, 18);
    let is_value = match read_dump(alloc, source, NAMED, Choice::All, 18) {
        Ok(dump) => dump == *value,
        Err(_) => false,
    };
    let found = (fault, is_value);
    assert_same_at(rt, &(bytes.len(), fail_at), found, expected);
}

/// Asserts that the failure of each of these calls is told, which are numbered from `first` on.
fn assert_told(
    rt: &impl Abort,
    alloc: Global,
    into: &ReadInto,
    bytes: &[u8],
    first: u64,
    calls: &ReadCalls,
    value: &Dump<Global>,
) {
    let (count, place, read_for) = calls;
    for call in 0..*count {
        let fail_at = first.saturating_add(call);
        let at = place.saturating_add(call);
        let failed = SourceFault::Failed { at };
        let fault = match read_for {
            ReadFor::Opening => ReadFault::Opening(OpenFault::Source(failed)),
            ReadFor::Entry(entry) => ReadFault::List(ListFault {
                entry: *entry,
                index: None,
                kind: FaultKind::Source(failed),
                offset: at,
                size: 0,
            }),
            ReadFor::Bytes => ReadFault::Source(failed),
        };
        assert_outcome(rt, alloc, into, bytes, fail_at, value, (Some(fault), true));
    }
}

/// Asserts it of all calls by which a file is read or a view of it opened, and that a store is read well which fails at
/// none of them, but at the next one.
fn assert_all_told(rt: &impl Abort, alloc: Global, row: &CallsRow) {
    let bytes = file_of(rt, alloc, &row.reading.sample);
    let value = value_of(rt, alloc, &row.reading);
    let mut first: u64 = 0;
    for some in row.calls {
        assert_told(rt, alloc, &row.into, &bytes, first, some, &value);
        let (more, _, _) = some;
        first = first.saturating_add(*more);
    }
    assert_same_at(rt, &row.reading.name, first, row.count);
    assert_outcome(rt, alloc, &row.into, &bytes, first, &value, (None, false));
}

#[test]
fn each_call_of_reading_may_fail(rt: HostRuntime) {
    for row in &CALLS {
        assert_all_told(&rt, rt.alloc(), row);
    }
}

/// A directory of a thousand entries, which are unused.
const UNUSED: Sample<'static> = Sample::Numbers(1000, &[0; 3000]);

/// Files that give neither a value nor a view where the calls of a store give a byte, three, and none.
static STOPPING: [(Sample<'static>, ReadInto); 4] = [
    (UNUSED, ReadInto::Value),
    (UNUSED, ReadInto::View),
    (Sample::Thousand, ReadInto::Value),
    (Sample::Thousand, ReadInto::View),
];

#[test]
fn store_that_gives_nothing_is_told(rt: HostRuntime) {
    for (sample, into) in &STOPPING {
        let bytes = file_of(&rt, rt.alloc(), sample);
        let source = Source::new(PatchyStore::new(&bytes, &[1, 3, 0], None));
        let (found, _) = fault_into(rt.alloc(), into, source, NAMED, Choice::All, 18);
        let short = ReadFault::Opening(OpenFault::Source(SourceFault::ShortRead { at: 4 }));
        assert_same_at(&rt, &bytes.len(), found, Some(short));
    }
}
