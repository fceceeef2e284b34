//! Small reads of a file of the system, and how many calls of the system they take.
use crate::failing_system::{FailingSystem, FileCalls, NONE_FAILS};
use crate::same::assert_same_at;
use crate::spread_files::write_spread;
use mdmp_source::{FileStore, Source, Store};
use std::alloc::AllocGlobal;
use std::cell::Cell;
use std::process::Abort;
use std::rt::Files;

/// How many bytes a block holds at most: a read of fewer is answered from it.
const BLOCK: usize = 16_384;

/// A read of a file: its place, its room, and what is counted behind it, or none, if it failed.
type CountedRead = (u64, usize, Option<u64>);

/// What is read of a file that was opened.
#[derive(Clone, Copy)]
pub enum OpenedReads<'a> {
    /// Reads, one behind the other: all calls of the system so far are counted, the opening among them.
    Called(&'a [CountedRead]),
    /// Reads, one behind the other: the bytes are counted that each asks the system for.
    Asked(&'a [CountedRead]),
    /// Names, and how many calls of the system there were in all.
    Names(u64),
}

/// A file, which call of the system fails, how many bytes the file has, if it can be opened, and what is read of it.
pub type FileRow<'a> = (&'a str, u64, Option<u64>, OpenedReads<'a>);

/// Asserts what a read takes. It goes into as much room of a block.
fn assert_read<S: Store>(
    rt: &impl Abort,
    store: &mut S,
    calls: &FileCalls,
    has_calls: bool,
    read: &CountedRead,
) {
    let (at, room, counted) = *read;
    let before = calls.asked.get();
    let mut bytes = [0; BLOCK];
    let out = bytes.get_mut(..room).expect(rt, "a part of a block");
    let is_read = store.read_at(at, out).is_ok();
    let asked = calls.asked.get().wrapping_sub(before);
    let count = if has_calls { calls.made.get() } else { asked };
    assert_same_at(rt, &at, is_read.then_some(count), counted);
}

/// How many names are read, and how many bytes each has, with its length.
const NAMES: u64 = 1_000;

const NAME: u64 = 368;

/// Reads a name by its length and its text.
fn read_name<S: Store>(rt: &impl Abort, source: &mut Source<S>, at: u64) {
    let mut bytes = [0; 364];
    assert!(rt; at <= 1_000_000 && at + 368 <= source.size());
    source.fetch(at, &mut bytes[..4]).expect(rt, "a length");
    source.fetch(at + 4, &mut bytes).expect(rt, "a text");
}

/// Asserts what reads of a store take.
fn assert_reads<S: Store + Drop>(
    rt: &impl Abort,
    mut store: S,
    calls: &FileCalls,
    reads: OpenedReads<'_>,
) {
    match reads {
        OpenedReads::Called(reads) => {
            for read in reads {
                assert_read(rt, &mut store, calls, true, read);
            }
        }
        OpenedReads::Asked(reads) => {
            for read in reads {
                assert_read(rt, &mut store, calls, false, read);
            }
        }
        OpenedReads::Names(count) => {
            let mut source = Source::new(store);
            for number in 0..NAMES {
                read_name(rt, &mut source, number * NAME);
            }
            assert_same_at(rt, &"names", calls.made.get(), count);
        }
    }
}

/// Asserts whether a file is opened, its size, and what is read of it.
pub fn assert_file(rt: &(impl Files + AllocGlobal + Abort), row: &FileRow<'_>) {
    let (name, fail_at, size, reads) = *row;
    let calls = FileCalls {
        made: Cell::new(0),
        asked: Cell::new(0),
    };
    let system = FailingSystem {
        rt,
        calls: &calls,
        fail_at,
    };
    match FileStore::open(&system, name) {
        Ok(store) => {
            assert_same_at(rt, &name, Some(store.size()), size);
            assert_reads(rt, store, &calls, reads);
        }
        Err(_) => assert_same_at(rt, &fail_at, None, size),
    }
}

/// Reads of 65,536 zeros, of which no call of the system fails.
macro_rules! of_zeros {
    ($reads:expr) => {
        (
            "zeros",
            NONE_FAILS,
            Some(65_536),
            OpenedReads::Asked($reads),
        )
    };
}

static ROWS: [FileRow<'static>; 14] = [
    // A file is opened, and asked for its size. It is sought only if it does not stand at the place. A read is
    // answered from the block that holds its place, a long one too, and the next one begins where the file stands.
    (
        "zeros",
        NONE_FAILS,
        Some(65_536),
        OpenedReads::Called(&[
            (0, 4, Some(4)),
            (4, 4, Some(4)),
            (508, 8, Some(4)),
            (512, 8, Some(5)),
            (1_020, 4, Some(5)),
            (0, 4, Some(7)),
            (100, BLOCK, Some(7)),
            (512, BLOCK, Some(8)),
            (20_000, BLOCK, Some(10)),
            (4, 4, Some(10)),
        ]),
    ),
    // A small read fails, and one that goes past the block.
    (
        "zeros",
        5,
        Some(65_536),
        OpenedReads::Called(&[(0, 4, Some(4)), (20_000, 4, None), (0, 4, Some(8))]),
    ),
    (
        "zeros",
        5,
        Some(65_536),
        OpenedReads::Called(&[(0, 4, Some(4)), (20_000, BLOCK, None), (4, 4, Some(8))]),
    ),
    // Reads that follow each other, which use half of each block, and at last one at a new place.
    of_zeros!(&[
        (0, 4, Some(512)),
        (512, 4, Some(1_024)),
        (516, 256, Some(0)),
        (1_536, 4, Some(2_048)),
        (1_540, 768, Some(0)),
        (3_584, 4, Some(4_096)),
        (3_588, 1_792, Some(0)),
        (7_680, 4, Some(8_192)),
        (7_684, 3_840, Some(0)),
        (15_872, 4, Some(16_384)),
        (15_876, 7_936, Some(0)),
        (32_256, 4, Some(16_384)),
        (32_260, 7_936, Some(0)),
        (0, 4, Some(512)),
    ]),
    // Two places that are read in turn.
    of_zeros!(&[
        (0, 4, Some(512)),
        (30_000, 4, Some(512)),
        (0, 4, Some(512)),
        (30_000, 4, Some(512)),
        (0, 4, Some(512)),
    ]),
    // Reads that follow a block of which a byte less than half was used.
    of_zeros!(&[
        (0, 4, Some(512)),
        (512, 255, Some(1_024)),
        (1_536, 4, Some(512)),
    ]),
    // Reads that follow a block of which half was used.
    of_zeros!(&[
        (0, 4, Some(512)),
        (512, 256, Some(1_024)),
        (1_536, 4, Some(2_048)),
    ]),
    // Few bytes that are read at every 500th place.
    of_zeros!(&[
        (0, 4, Some(512)),
        (500, 4, Some(0)),
        (1_000, 4, Some(1_024)),
        (1_500, 4, Some(0)),
        (2_000, 4, Some(0)),
        (2_500, 4, Some(2_048)),
        (3_000, 4, Some(0)),
        (4_500, 4, Some(0)),
    ]),
    // Few bytes that are read one block apart.
    of_zeros!(&[
        (0, 4, Some(512)),
        (512, 4, Some(1_024)),
        (1_536, 4, Some(512)),
        (2_048, 4, Some(1_024)),
    ]),
    // The last place that follows a block, the one behind that, and the last one before a block.
    of_zeros!(&[(0, 4, Some(512)), (1_023, 4, Some(1_024))]),
    of_zeros!(&[(0, 4, Some(512)), (1_024, 4, Some(512))]),
    of_zeros!(&[(20_000, 4, Some(512)), (19_999, 4, Some(512))]),
    // Reads of more than the block would ask for.
    of_zeros!(&[
        (0, 3_000, Some(3_000)),
        (3_000, 4, Some(6_000)),
        (20_000, 16_383, Some(16_383)),
        (36_383, 4, Some(16_384)),
    ]),
    // It is opened, asked for its size, and sought; five blocks that grow and 22 of 16 KiB hold the names.
    (
        "names",
        NONE_FAILS,
        Some(NAMES * NAME),
        OpenedReads::Names(30),
    ),
];

#[test]
fn small_reads_are_answered_from_a_block_that_grows(rt: HostRuntime) {
    write_spread(&rt, "zeros", &[(65_535, b"\0")]);
    write_spread(&rt, "names", &[(NAMES * NAME - 1, b"\0")]);
    for row in &ROWS {
        assert_file(&rt, row);
    }
}
