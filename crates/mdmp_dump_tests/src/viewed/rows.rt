//! What is written through a view of small files, and what it holds, fetches and counts.
use super::{ViewCounts, reads_of, two_faces, write_over};
use crate::files::{
    ALL, CRASH_FILE, LEAST, LEAST_ROW, NAMED_ROW, RowLimits, SIX_FILE, Sample, file_of,
    limits_of_row,
};
use crate::same::assert_same_at;
use mdmp_dump::ViewFault;
use mdmp_source::{MemoryStore, SourceFault};
use mdmp_test_support::COMMENT;
use mdmp_writer::WriteFault;
use std::alloc::Global;
use std::process::Abort;

/// Entries of a file, through which limits and buffer they are written, the file that this is, if it is told, and
/// how much their view holds, fetches and passes at most, and how much is asked of it, if that is.
struct CountedRow {
    name: &'static str,
    sample: Sample<'static>,
    types: &'static [u32],
    limits: RowLimits,
    room: usize,
    written: Option<Sample<'static>>,
    counts: Option<ViewCounts>,
    /// Whether all that a copy needs is spent.
    is_spent: bool,
}

/// A file of 372 bytes with a list of three modules without names and parts.
const MODULES: Sample<'static> = Sample::Parts(
    &[
        b"MDMP\x93\xa7\0\0\x01\0\0\0\x20\0\0\0\0\0\0\0\0\0\0\0\0\0\0\0\0\0\0\0",
        b"\x04\0\0\0\x48\x01\0\0\x2c\0\0\0", // the directory
        b"\x03\0\0\0",
    ],
    372,
);

/// Of the six streams those of some types, by seven bytes, of which only what is paid for them is told.
const PAID: CountedRow = CountedRow {
    name: "some of six streams",
    sample: SIX_FILE,
    types: &[3, 6],
    limits: NAMED_ROW,
    room: 7,
    written: None,
    counts: None,
    is_spent: false,
};

static COUNTED: [CountedRow; 8] = [
    CountedRow {
        name: "three modules",
        sample: MODULES,
        types: &[4],
        limits: LEAST_ROW,
        room: 168,
        written: Some(MODULES),
        counts: Some(ViewCounts {
            held: 168 + 24,
            needed: u128::MAX,
            opened: 32 + 12 + 328 + 12,
            fetched: 1064,
            passed: 680,
            asked: 0,
        }),
        is_spent: false,
    },
    CountedRow {
        name: "streams chosen of the room of a directory",
        sample: SIX_FILE,
        types: &[3, 6],
        limits: LEAST_ROW,
        room: 168,
        written: Some(CRASH_FILE),
        counts: Some(ViewCounts {
            held: 312,
            needed: u128::MAX,
            opened: 32 + 72 + 52 + 168,
            fetched: 778,
            passed: 440,
            asked: 14,
        }),
        is_spent: false,
    },
    CountedRow {
        name: "a type that has no place",
        types: &[200000],
        room: 1,
        written: Some(Sample::Numbers(0, &[])),
        ..PAID
    },
    PAID,
    CountedRow {
        name: "others of six streams",
        types: &[7, 4, 5, 12],
        ..PAID
    },
    CountedRow {
        name: "six streams",
        types: ALL,
        ..PAID
    },
    CountedRow {
        name: "six streams by a larger buffer",
        types: ALL,
        room: 168,
        is_spent: true,
        ..PAID
    },
    CountedRow {
        name: "a comment",
        sample: Sample::Numbers(1, &COMMENT),
        types: ALL,
        room: 168,
        is_spent: true,
        ..PAID
    },
];

/// Asserts what is written of a row, and that what is fetched is at most what a copy needs, and what the opening
/// fetched with what was passed and asked.
fn assert_counted(rt: &impl Abort, alloc: Global, row: &CountedRow) {
    let limits = limits_of_row(rt, &row.limits);
    let read = file_of(rt, alloc, &row.sample);
    let store = MemoryStore::new(&read);
    let written = write_over(rt, alloc, store, row.types, limits, row.room);
    if let Some(sample) = &row.written {
        let file = file_of(rt, alloc, sample);
        let wrote = Ok(Ok(file.len() as u64));
        let found = (written.outcome, written.bytes.as_slice());
        assert_same_at(rt, &row.name, found, (wrote, file.as_slice()));
    }
    let counts = &written.counts;
    if let Some(most) = &row.counts {
        let held = counts.held <= most.held && counts.opened <= most.opened;
        let fetched = counts.fetched <= most.fetched && counts.passed <= most.passed;
        let found = (held, fetched, counts.asked);
        assert_same_at(rt, &row.name, found, (true, true, most.asked));
    }
    let paid = counts.passed.saturating_add(counts.asked);
    let is_paid = counts.fetched <= counts.opened.saturating_add(paid);
    let is_enough = counts.fetched <= counts.needed;
    let is_spent = counts.fetched.saturating_add(paid) >= counts.needed;
    let found = (is_paid, is_enough, is_spent || !row.is_spent);
    assert_same_at(rt, &row.name, found, (true, true, true));
}

#[test]
fn open_succeeds(rt: HostRuntime) {
    for row in &COUNTED {
        assert_counted(&rt, rt.alloc(), row);
    }
}

#[test]
fn list_that_has_become_shorter_is_told_as_changed(rt: HostRuntime) {
    // The thread and the exception, of which the number of threads becomes 0 as soon as their view is open.
    let crash = file_of(&rt, rt.alloc(), &CRASH_FILE);
    let mut none = file_of(&rt, rt.alloc(), &CRASH_FILE);
    *none.get_mut(56).expect(&rt, "a byte of the file") = 0;
    let (turn, _) = reads_of(&rt, rt.alloc(), &crash, LEAST, 168);
    // The header, the directory, and two streams that the window holds.
    assert_same_at(&rt, &"reads", turn, 4);
    let store = two_faces(&rt, &crash, &none, turn);
    let written = write_over(&rt, rt.alloc(), store, ALL, LEAST, 168);
    let changed = ViewFault::Source(SourceFault::Changed { at: 56 });
    let stopped = Ok(Err(WriteFault::View(changed)));
    assert_same_at(&rt, &turn, written.outcome, stopped);
}
