//! Bad files: where a listing ends, and files that are not opened.
use crate::files::{FileOf, made};
use crate::given::stream;
use crate::opening::{fault, open_and_close};
use crate::playing::assert_scripts;
use crate::same::{assert_same, assert_same_at};
use crate::script::{BY_LEAST, Call, STANDARD, Script};
use mdmp_lister::{Choice, Fault, FaultKind, OpenFault};
use mdmp_source::{MemoryStore, Source, SourceFault};
use mdmp_test_support::SYSTEM;
use std::alloc::Global;
use std::process::Abort;

/// What comes behind the entry of a stream at 44, or at another place.
macro_rules! behind {
    ($shows:expr, $file:expr, $stream_type:expr, $size:expr, $call:expr) => {
        behind!($shows, $file, $stream_type, $size, 44, $call)
    };
    ($shows:expr, $file:expr, $stream_type:expr, $size:expr, $rva:expr, $call:expr) => {
        Script {
            shows: $shows,
            file: $file,
            calls: &[Call::Gives(stream!(0, $stream_type, $size, $rva)), $call],
            ..BY_LEAST
        }
    };
}

/// A list of one thread in so many bytes.
macro_rules! short_list {
    ($shows:expr, $size:expr, $kind:expr, $told:expr) => {
        behind!(
            $shows,
            FileOf::Padded(1, 18, &[3, $size, 44, 1, 7], &[]),
            3,
            $size,
            Call::Fails(fault!(None, $kind, 44, $told))
        )
    };
}

/// A list of no bytes that stands here.
macro_rules! empty_list {
    ($rva:expr) => {
        behind!(
            "a list of no bytes is too short wherever it stands",
            FileOf::Numbers(1, &[3, 0, $rva]),
            3,
            0,
            $rva,
            Call::Fails(fault!(None, FaultKind::ShortStream, $rva as u64, 0))
        )
    };
}

/// An unloaded list of 36 bytes with this head.
macro_rules! head {
    ($shows:expr, $first:expr, $stride:expr, $count:expr, $call:expr) => {
        behind!(
            $shows,
            FileOf::Numbers(1, &[14, 36, 44, $first, $stride, $count, 0, 0, 0, 0, 0, 0]),
            14,
            36,
            $call
        )
    };
}

/// A count that may be any number.
macro_rules! any_count {
    ($shows:expr, $numbers:expr, $stream_type:expr, $size:expr, $offset:expr, $told:expr) => {
        behind!(
            $shows,
            FileOf::Numbers(1, $numbers),
            $stream_type,
            $size,
            Call::Fails(fault!(None, FaultKind::BadCount, $offset, $told))
        )
    };
}

static SHORT: [Script<'static>; 5] = [
    short_list!("a thread's last byte", 51, FaultKind::BadCount, 1),
    short_list!("a count's last byte", 3, FaultKind::ShortStream, 3),
    empty_list!(0),
    empty_list!(44),
    empty_list!(4294967295),
];

#[test]
fn list_that_is_too_short_is_told_behind_its_entry(rt: HostRuntime) {
    assert_scripts(&rt, rt.alloc(), &SHORT);
}

static HEADS: [Script<'static>; 8] = [
    head!(
        "a short head",
        11,
        24,
        1,
        Call::Fails(fault!(None, FaultKind::BadHeaderSize, 44, 11))
    ),
    head!(
        "a long head",
        37,
        24,
        0,
        Call::Fails(fault!(None, FaultKind::BadHeaderSize, 44, 37))
    ),
    head!(
        "a short entry",
        12,
        23,
        1,
        Call::Fails(fault!(None, FaultKind::BadEntrySize, 48, 23))
    ),
    head!(
        "two records",
        12,
        24,
        2,
        Call::Fails(fault!(None, FaultKind::BadCount, 52, 2))
    ),
    head!("no record of a short entry", 12, 23, 0, Call::Ends),
    any_count!(
        "a count of regions",
        &[16, 16, 44, 16, u32::MAX, u32::MAX, u32::MAX],
        16,
        16,
        52,
        u64::MAX
    ),
    any_count!(
        "a count of 64-bit ranges whose bytes begin at 0, a head alone",
        &[9, 16, 44, u32::MAX, u32::MAX, 0, 0],
        9,
        16,
        44,
        u64::MAX
    ),
    any_count!(
        "a count of threads",
        &[3, 4, 44, u32::MAX],
        3,
        4,
        44,
        4294967295
    ),
];

#[test]
fn bad_heads_and_counts_are_told_behind_their_entry(rt: HostRuntime) {
    assert_scripts(&rt, rt.alloc(), &HEADS);
}

/// The first bytes of `SYSTEM`, so many, with others at this place, and why they are not opened.
struct RefusedRow {
    shows: &'static str,
    size: usize,
    at: usize,
    bytes: &'static [u8],
    fault: Option<OpenFault>,
}

static REFUSED: [RefusedRow; 7] = [
    RefusedRow {
        shows: "too short",
        size: 31,
        at: 0,
        bytes: b"",
        fault: Some(OpenFault::TooShort { size: 31 }),
    },
    RefusedRow {
        shows: "another signature",
        size: 136,
        at: 0,
        bytes: b"P",
        fault: Some(OpenFault::BadSignature),
    },
    RefusedRow {
        shows: "the signature is told before the version",
        size: 136,
        at: 0,
        bytes: b"PDMP\x94",
        fault: Some(OpenFault::BadSignature),
    },
    RefusedRow {
        shows: "another version",
        size: 136,
        at: 4,
        bytes: b"\x94",
        fault: Some(OpenFault::BadVersion { low: 0xa794 }),
    },
    RefusedRow {
        shows: "a directory that is cut",
        size: 43,
        at: 0,
        bytes: b"",
        fault: Some(OpenFault::DirectoryOutside {
            offset: 32,
            size: 12,
        }),
    },
    RefusedRow {
        shows: "a directory of the most entries",
        size: 44,
        at: 8,
        bytes: b"\xff\xff\xff\xff",
        fault: Some(OpenFault::DirectoryOutside {
            offset: 32,
            size: 51539607540,
        }),
    },
    RefusedRow {
        shows: "the whole file is opened",
        size: 136,
        at: 0,
        bytes: b"",
        fault: None,
    },
];

/// Asserts why the file of a row is not opened, that its header alone was fetched then, and that its size is handed
/// back.
fn assert_refused(rt: &impl Abort, alloc: Global, row: &RefusedRow) {
    let mut file = made(rt, alloc, &FileOf::First(row.size, &SYSTEM));
    for i in 0..row.bytes.len() {
        let place = row.at.saturating_add(i);
        assert!(rt; place < file.len());
        file[place] = row.bytes[i];
    }
    let source = Source::new(MemoryStore::new(&file));
    let (fault, source) = open_and_close(alloc, source, STANDARD, Choice::All);
    assert_same_at(rt, &row.shows, fault, row.fault);
    assert_same_at(rt, &row.shows, source.size(), row.size as u64);
    let is_header = fault.is_none() || source.fetched() <= 32;
    assert_same_at(rt, &row.shows, is_header, true);
}

#[test]
fn file_that_cannot_be_listed_is_refused(rt: HostRuntime) {
    for row in &REFUSED {
        assert_refused(&rt, rt.alloc(), row);
    }
}

#[test]
fn fault_of_the_store_names_its_place(rt: HostRuntime) {
    let short = SourceFault::ShortRead { at: 7 };
    let told = Fault {
        kind: FaultKind::Source(short),
        offset: 7,
        size: 0,
    };
    assert_same(&rt, Fault::from(short), told);
}
