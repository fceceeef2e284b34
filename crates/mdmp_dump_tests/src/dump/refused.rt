//! Files that give no dump.
use super::built::{fault_of, value_fault};
use crate::faults::{
    COMMENT_OUTSIDE, CONTEXT_OUTSIDE, DIRECTORY_FAILS, EXCEPTION_FAILS, HEADER_FAILS, NAME_OUTSIDE,
    RANGE_OUTSIDE, THREADS_FAIL,
};
use crate::files::{
    ABSENT_STACK_FILE, CRASH_FILE, EXACT_ROW, LEAST, LEAST_ROW, RowLimits, SYSTEM_FILE, Sample,
    file_of, limits_of_row,
};
use crate::same::assert_same_at;
use mdmp_dump::{PartName, ReadFault};
use mdmp_lister::{Choice, FaultKind, ListFault, OpenFault};
use mdmp_source::{MemoryStore, PatchyStore, Source, SourceFault};
use mdmp_test_support::{ABSENT_STACK, COMMENT, FAULTY, MEMORY64, OVERLAPPING};

/// A file, how it is read, why it gives no dump, and how many bytes are fetched of it.
struct NoDumpRow {
    name: &'static str,
    sample: Sample<'static>,
    limits: RowLimits,
    parts: u64,
    fault: Option<ReadFault>,
    fetched: u128,
}

/// A window of 176 bytes, and names of 32.
const LISTS_ROW: RowLimits = RowLimits {
    window: 176,
    name: 32,
    ..LEAST_ROW
};

static REFUSED: [NoDumpRow; 17] = [
    NoDumpRow {
        name: "a file that is too short",
        sample: Sample::Parts(&[], 31),
        limits: LEAST_ROW,
        parts: 0,
        fault: Some(ReadFault::Opening(OpenFault::TooShort { size: 31 })),
        fetched: 0,
    },
    NoDumpRow {
        name: "a part over the limit",
        sample: ABSENT_STACK_FILE,
        limits: LEAST_ROW,
        parts: 0,
        fault: Some(ReadFault::PartsTooLarge { entry: 0, index: 0 }),
        fetched: 32 + 12 + 52,
    },
    NoDumpRow {
        name: "parts over the limit",
        sample: CRASH_FILE,
        limits: LEAST_ROW,
        parts: 13,
        fault: Some(ReadFault::PartsTooLarge { entry: 1, index: 0 }),
        fetched: 32 + 24 + 52 + 10 + 168,
    },
    NoDumpRow {
        name: "a stream of bytes over the limit",
        sample: Sample::Cut(1, &COMMENT, 49),
        limits: LEAST_ROW,
        parts: 4,
        fault: Some(ReadFault::PartsTooLarge { entry: 0, index: 0 }),
        fetched: 32 + 12,
    },
    NoDumpRow {
        name: "a part outside",
        sample: Sample::Cut(1, &ABSENT_STACK, 96),
        limits: LEAST_ROW,
        parts: 1,
        fault: Some(CONTEXT_OUTSIDE),
        fetched: 32 + 12 + 52,
    },
    NoDumpRow {
        name: "a part outside, the first one within the limit",
        sample: Sample::Parts(&[&MEMORY64], 98),
        limits: LEAST_ROW,
        parts: 4,
        fault: Some(RANGE_OUTSIDE),
        // The head of a list of memory is read as the file is opened.
        fetched: 32 + 12 + 16 + 48 + 4,
    },
    NoDumpRow {
        name: "a part outside, the first one over the limit",
        sample: Sample::Parts(&[&MEMORY64], 98),
        limits: LEAST_ROW,
        parts: 3,
        fault: Some(ReadFault::PartsTooLarge { entry: 0, index: 0 }),
        fetched: 32 + 12 + 16 + 48,
    },
    NoDumpRow {
        name: "a long name",
        sample: Sample::Named(b"\x0a\0\0\0a\0b\0c\0d\0e\0"),
        limits: RowLimits {
            name: 8,
            ..LEAST_ROW
        },
        parts: 0,
        fault: Some(ReadFault::NameTooLong {
            entry: 0,
            index: 0,
            length: 10,
        }),
        fetched: 32 + 12 + 36 + 4,
    },
    NoDumpRow {
        name: "a name outside",
        sample: Sample::Numbers(3, &FAULTY),
        limits: LEAST_ROW,
        parts: 0,
        fault: Some(NAME_OUTSIDE),
        fetched: 32 + 36 + 56 + 112,
    },
    NoDumpRow {
        name: "a stream outside",
        sample: Sample::Cut(1, &COMMENT, 48),
        limits: LEAST_ROW,
        parts: 4,
        fault: Some(COMMENT_OUTSIDE),
        fetched: 32 + 12,
    },
    NoDumpRow {
        name: "a budget that ends in the directory",
        sample: SYSTEM_FILE,
        limits: RowLimits {
            budget: Some(43),
            ..EXACT_ROW
        },
        parts: 0,
        fault: Some(ReadFault::Opening(OpenFault::Budget {
            offset: 32,
            size: 12,
        })),
        fetched: 32,
    },
    NoDumpRow {
        name: "a budget that ends in the stream",
        sample: SYSTEM_FILE,
        limits: RowLimits {
            budget: Some(99),
            ..EXACT_ROW
        },
        parts: 0,
        fault: Some(ReadFault::List(ListFault {
            entry: 0,
            index: None,
            kind: FaultKind::Budget,
            offset: 44,
            size: 56,
        })),
        fetched: 44,
    },
    NoDumpRow {
        name: "a budget that suffices",
        sample: SYSTEM_FILE,
        limits: RowLimits {
            budget: Some(132),
            ..EXACT_ROW
        },
        parts: 0,
        fault: None,
        fetched: 132,
    },
    // The lists of a lister take its window, a name, an entry and two ranges; without the ranges 220 bytes.
    NoDumpRow {
        name: "a limit of memory that suffices",
        sample: Sample::Numbers(1, &OVERLAPPING),
        limits: RowLimits {
            memory: Some(268),
            ..LISTS_ROW
        },
        parts: 14,
        fault: None,
        fetched: 92,
    },
    NoDumpRow {
        name: "a limit of memory without a byte of the ranges",
        sample: Sample::Numbers(1, &OVERLAPPING),
        limits: RowLimits {
            memory: Some(267),
            ..LISTS_ROW
        },
        parts: 14,
        fault: Some(ReadFault::Opening(OpenFault::MemoryLimit { held: 268 })),
        fetched: 48,
    },
    NoDumpRow {
        name: "a limit of memory without the ranges",
        sample: Sample::Numbers(1, &OVERLAPPING),
        limits: RowLimits {
            memory: Some(220),
            ..LISTS_ROW
        },
        parts: 14,
        fault: Some(ReadFault::Opening(OpenFault::MemoryLimit { held: 268 })),
        fetched: 48,
    },
    NoDumpRow {
        name: "a limit of memory without a byte of the entry",
        sample: Sample::Numbers(1, &OVERLAPPING),
        limits: RowLimits {
            memory: Some(219),
            ..LISTS_ROW
        },
        parts: 14,
        fault: Some(ReadFault::Opening(OpenFault::MemoryLimit { held: 220 })),
        fetched: 32,
    },
];

#[test]
fn first_of_its_reasons_is_told_for_which_a_file_gives_no_dump(rt: HostRuntime) {
    for row in &REFUSED {
        let file = file_of(&rt, rt.alloc(), &row.sample);
        let limits = limits_of_row(&rt, &row.limits);
        let read = fault_of(rt.alloc(), &file, limits, row.parts);
        let source = Source::new(MemoryStore::new(&file));
        let (fault, source) = value_fault(rt.alloc(), source, limits, Choice::All, row.parts);
        let found = (read, fault, source.fetched());
        assert_same_at(&rt, &row.name, found, (row.fault, row.fault, row.fetched));
    }
}

/// Why the thread and the exception are not read from a store of which a call fails: this one of them, by their
/// number.
static FAILING: [Option<ReadFault>; 8] = [
    // The header, and the directory.
    Some(HEADER_FAILS),
    Some(DIRECTORY_FAILS),
    // Of each entry its stream, by one fetch, and the parts of its record.
    Some(THREADS_FAIL),
    Some(ReadFault::Source(SourceFault::Failed { at: 108 })),
    Some(ReadFault::Source(SourceFault::Failed { at: 112 })),
    Some(EXCEPTION_FAILS),
    Some(ReadFault::Source(SourceFault::Failed { at: 288 })),
    None,
];

#[test]
fn store_that_fails_gives_no_dump_and_comes_back_with_its_calls(rt: HostRuntime) {
    let file = file_of(&rt, rt.alloc(), &CRASH_FILE);
    let mut call: u64 = 0;
    for expected in &FAILING {
        let source = Source::new(PatchyStore::new(&file, &[4096], Some(call)));
        let (fault, source) = value_fault(rt.alloc(), source, LEAST, Choice::All, 14);
        // Seven calls read all of it.
        let calls = u128::from(call.saturating_add(1).min(7));
        assert_same_at(&rt, &call, (fault, source.calls()), (*expected, calls));
        call = call.saturating_add(1);
    }
}
