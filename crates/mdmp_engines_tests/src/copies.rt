//! What `copy` writes of files, how much it reads, and which types it copies.
use crate::commands::{CallWay, CommandRun, StoreWay, Task};
use crate::files::{File, bytes_of};
use crate::over_budget;
use crate::runs::{
    OF_CRASH, RunAnswer, USUAL, Within, assert_wrote, run_bytes, run_file, run_over, run_within,
};
use crate::same::assert_same_at;
use crate::watched::Watched;
use mdmp_engines::{LayoutFault, PartName, ReadFault, ToolFault, copied, first_not_copied};
use mdmp_source::MemoryStore;
use mdmp_test_support::{ABSENT_STACK, CRASH, Room, SIX, SYSTEM, THREAD_NAME};
use std::alloc::Global;
use std::cell::Cell;
use std::process::Abort;

/// The file of six streams.
const SIX_FILE: File<'static> = File::Numbers(6, &SIX);

/// Its threads and its exception.
const CRASH_FILE: File<'static> = File::Numbers(2, &CRASH);

/// Nothing.
const NOTHING: File<'static> = File::Bytes(b"");

/// What a copy of the crash may fetch: the header, the directory, both streams three times, and their parts.
pub const NEEDED: u64 = 32 + 72 + 3 * (52 + 168) + 14;

/// What it holds with a window of 168 bytes: that window twice, and 24 bytes for each of six entries.
pub const HELD: u64 = 2 * 168 + 24 * 6;

/// What a copy of the crowded file may fetch: the header, 1,100 entries, and the 4,000,000 bytes that each names.
const CROWDED: u64 = 32 + 12 * 1100 + 1100 * 4_000_000;

const TOO_LARGE: RunAnswer = Err(ToolFault::Layout(LayoutFault::TooLarge));

const OVER_MEMORY: RunAnswer = Err(ToolFault::MemoryLimit { held: 480 });

/// The least window, and names of no byte.
const LEAST: Within = (168, 0, None, None, None);

/// Which types are copied out of a file, in which way, within which limits, what is answered and written, and how many
/// bytes are fetched, where a source tells it.
#[derive(Clone, Copy)]
struct CopyRow<'a> {
    file: File<'a>,
    types: &'a [u32],
    way: CallWay,
    within: Within,
    answer: RunAnswer,
    copy: File<'a>,
    fetched: Option<u128>,
}

/// A copy of the crash, over a store.
const COPY: CopyRow<'static> = CopyRow {
    file: SIX_FILE,
    types: &[3, 6],
    way: CallWay::Store,
    within: LEAST,
    answer: Ok(292),
    copy: CRASH_FILE,
    fetched: None,
};

/// A copy of the crash, over a source.
const COPY_READ: CopyRow<'static> = CopyRow {
    way: CallWay::Source,
    fetched: Some(778),
    ..COPY
};

/// A copy of the crash over a source, of which nothing is written.
const NO_COPY: CopyRow<'static> = CopyRow {
    way: CallWay::Source,
    answer: OVER_MEMORY,
    copy: NOTHING,
    ..COPY
};

static ROWS: [CopyRow<'static>; 11] = [
    CopyRow { ..COPY },
    CopyRow {
        types: &[6, 200000, 3, 3],
        ..COPY
    },
    CopyRow {
        within: USUAL,
        ..COPY_READ
    },
    // The name of a thread.
    CopyRow {
        file: File::Numbers(1, &THREAD_NAME),
        types: &[24],
        within: (168, 8, None, None, None),
        answer: Ok(76),
        copy: File::NumbersThenBytes(1, &THREAD_NAME, &[0; 4]),
        ..COPY
    },
    // No stream.
    CopyRow {
        types: &[200000],
        answer: Ok(32),
        copy: File::Numbers(0, &[]),
        ..COPY
    },
    // A stream of a user is copied as its bytes, and the location of an unused entry is not looked at.
    CopyRow {
        file: File::NumbersThenBytes(2, &[0, 7, 0xffff_ffff, 65536, 3, 60], b"gap!abc"),
        types: &[65536, 0],
        answer: Ok(60),
        copy: File::NumbersThenBytes(2, &[0, 0, 0, 65536, 3, 56], b"abc\0"),
        ..COPY
    },
    // A part of 2 MiB.
    CopyRow {
        file: File::Large,
        types: &[5],
        answer: Ok(2_097_216),
        copy: File::Large,
        ..COPY
    },
    // A context that ends one byte past the file, and one that does not.
    CopyRow {
        file: File::FirstOfNumbers(&ABSENT_STACK, 96),
        types: &[3],
        answer: Err(ToolFault::Reading(OUTSIDE)),
        copy: NOTHING,
        ..COPY
    },
    CopyRow {
        file: File::FirstOfNumbers(&ABSENT_STACK, 97),
        types: &[3],
        answer: Ok(100),
        copy: File::Numbers(1, &ABSENT_STACK),
        ..COPY
    },
    // A name that is too long, and one that is not.
    CopyRow {
        file: File::Bytes(&SYSTEM),
        types: &[7],
        within: (168, 27, None, None, None),
        answer: Err(ToolFault::Reading(LONG_NAME)),
        copy: NOTHING,
        ..COPY
    },
    CopyRow {
        file: File::Bytes(&SYSTEM),
        types: &[7],
        within: (168, 28, None, None, None),
        answer: Ok(136),
        copy: File::Bytes(&SYSTEM),
        ..COPY
    },
];

/// Copies at their limits.
static LIMITED: [CopyRow<'static>; 12] = [
    // A copy past the greatest place. Its budget is tested first.
    CopyRow {
        file: File::Crowded,
        types: &[10],
        way: CallWay::Store,
        answer: TOO_LARGE,
        ..NO_COPY
    },
    CopyRow {
        file: File::Crowded,
        types: &[10],
        within: (168, 0, Some(CROWDED), None, None),
        answer: TOO_LARGE,
        ..NO_COPY
    },
    CopyRow {
        file: File::Crowded,
        types: &[10],
        within: (168, 0, Some(CROWDED - 1), None, None),
        answer: Err(ToolFault::CopyBudget { needed: 4400013232 }),
        ..NO_COPY
    },
    // A budget that ends the opening. The list of threads stands at 196, and the exception at 264.
    CopyRow {
        within: (168, 0, Some(31), None, None),
        answer: over_budget!(0, 32),
        ..NO_COPY
    },
    CopyRow {
        within: (168, 0, Some(103), None, None),
        answer: over_budget!(32, 72),
        ..NO_COPY
    },
    CopyRow {
        within: (168, 0, Some(155), None, None),
        answer: over_budget!(196, 52),
        ..NO_COPY
    },
    // A limit of memory.
    CopyRow {
        within: (168, 0, None, Some(0), None),
        fetched: Some(32),
        ..NO_COPY
    },
    CopyRow {
        within: (168, 0, None, Some(HELD - 2), None),
        fetched: Some(32),
        ..NO_COPY
    },
    CopyRow {
        within: (168, 0, None, Some(HELD - 1), None),
        fetched: Some(32),
        ..NO_COPY
    },
    CopyRow {
        within: (168, 0, None, Some(HELD), None),
        ..COPY_READ
    },
    CopyRow {
        within: (168, 0, None, Some(HELD + 1), None),
        ..COPY_READ
    },
    CopyRow {
        within: (168, 0, None, Some(18446744073709551615), None),
        ..COPY_READ
    },
];

const OUTSIDE: ReadFault = ReadFault::PartOutside {
    entry: 0,
    index: 0,
    part: PartName::Context,
    offset: 96,
    size: 1,
};

const LONG_NAME: ReadFault = ReadFault::NameTooLong {
    entry: 0,
    index: 0,
    length: 28,
};

/// Asserts what is copied.
fn assert_rows(rt: &impl Abort, alloc: Global, rows: &[CopyRow<'_>]) {
    for row in rows {
        let CopyRow {
            file,
            types,
            way,
            within,
            answer,
            copy,
            fetched,
        } = row;
        let wanted = bytes_of(rt, alloc, copy);
        let room = Room {
            all: wanted.len().saturating_add(100),
            call: 4096,
        };
        let run = run_within(Task::Copy(*types), *way, *within);
        let outcome = run_file(rt, alloc, file, &CommandRun { room, ..run });
        let is_copied = outcome.bytes == wanted;
        let found = (outcome.end.answer, outcome.bytes.len(), is_copied);
        assert_same_at(rt, &(types, within), found, (*answer, wanted.len(), true));
        let found = outcome.end.fetched;
        assert_same_at(rt, &(types, within), found, fetched.unwrap_or(found));
    }
}

#[test]
fn run_copy_succeeds(rt: HostRuntime) {
    assert_rows(&rt, rt.alloc(), &ROWS);
}

#[test]
fn copy_keeps_to_its_limits(rt: HostRuntime) {
    assert_rows(&rt, rt.alloc(), &LIMITED);
}

/// Asserts of each of these types whether streams of it are copied.
fn assert_copied(rt: &impl Abort, types: &[u32], is_copied: bool) {
    for stream_type in types {
        assert_same_at(rt, stream_type, copied(*stream_type), is_copied);
    }
}

#[test]
fn types_are_copied_or_not(rt: HostRuntime) {
    let types = [
        0, 3, 4, 5, 6, 7, 9, 10, 11, 14, 15, 16, 24, 65536, 0x43500001,
    ];
    assert_copied(&rt, &types, true);
    assert_copied(&rt, &[1, 2, 8, 12, 13, 17, 23, 25, 0x8000, 65535], false);
}

/// The first of these types that is not copied. They fill a block, so that a read past the last one is found.
fn first_of(rt: &impl Abort, alloc: Global, types: &[u32]) -> Option<u32> {
    let kept = types.to_vec(alloc).expect(rt, "memory for types");
    first_not_copied(&kept)
}

#[test]
fn first_type_that_is_not_copied_is_one_of_those_given(rt: HostRuntime) {
    let types = [3, 6, 12, 13];
    assert_same_at(&rt, &0, first_of(&rt, rt.alloc(), &types[..0]), None);
    assert_same_at(&rt, &2, first_of(&rt, rt.alloc(), &types[..2]), None);
    assert_same_at(&rt, &3, first_of(&rt, rt.alloc(), &types[..3]), Some(12));
    assert_same_at(&rt, &4, first_of(&rt, rt.alloc(), &types[1..]), Some(12));
    assert_same_at(&rt, &1, first_of(&rt, rt.alloc(), &types[3..]), Some(13));
}

/// Asserts that types are refused for the first that is not copied, before the first call of a store, which would fail;
/// and before a store is read that is dropped, which is read where all types are copied.
fn assert_refused_unread(rt: &impl Abort, alloc: Global, types: &[u32], first: u32) {
    let task = Task::Copy(types);
    let refused = Err(ToolFault::NotCopied(first));
    let reads = StoreWay::Patchy(&[1], Some(0));
    let run = run_within(task, CallWay::Source, USUAL);
    let outcome = run_bytes(rt, alloc, b"MDMP", &CommandRun { reads, ..run });
    assert_wrote(rt, &first, &outcome, refused, b"");
    assert_same_at(rt, &first, outcome.end.calls, 0);
    let (answer, reads) = read_of_copy(rt, alloc, task);
    assert_same_at(rt, &first, (answer, reads), (refused, 0));
    let (answer, reads) = read_of_copy(rt, alloc, OF_CRASH);
    assert_same_at(rt, &first, (answer, reads > 0), (Ok(292), true));
}

/// What a copy answers over a store, and how often that was read.
fn read_of_copy(rt: &impl Abort, alloc: Global, task: Task<'_>) -> (RunAnswer, u64) {
    let six = bytes_of(rt, alloc, &SIX_FILE);
    let reads = Cell::new(0);
    let store = Watched {
        store: MemoryStore::new(&six),
        reads: &reads,
    };
    let outcome = run_over(rt, alloc, store, &run_within(task, CallWay::Store, LEAST));
    (outcome.end.answer, reads.get())
}

#[test]
fn type_that_is_not_copied_is_refused_before_the_store_is_read(rt: HostRuntime) {
    assert_refused_unread(&rt, rt.alloc(), &[12], 12);
    assert_refused_unread(&rt, rt.alloc(), &[3, 12], 12);
    assert_refused_unread(&rt, rt.alloc(), &[3, 13, 12], 13);
}
