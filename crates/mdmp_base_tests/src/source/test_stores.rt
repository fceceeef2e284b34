//! Calls of a store over a file in memory, over files of the system, of which no contract knows size or bytes, and
//! of the store that changes while it is read.
use super::part;
use crate::same::assert_same_at;
use mdmp_source::{FileStore, MemoryStore, Store, StoreFailed, TwoFaces};
use std::fs;
use std::fs::File;
use std::io::{Seek, SeekFrom, Write};
use std::process::Abort;

/// 4 GiB, the first offset that 32 bits do not hold.
const FOUR_GIB: u64 = 4_294_967_296;

/// How many bytes a block holds at most. Calls for fewer are answered from a block.
const BLOCK: usize = 16_384;

/// Where a call begins, for how many bytes it has room, how many it gives, and the last four of the room.
type ReadRow = (u64, usize, Result<usize, StoreFailed>, [u8; 4]);

/// Asserts that calls one behind the other answer as their rows say.
fn assert_reads<S: Store>(rt: &impl Abort, name: &str, store: &mut S, rows: &[ReadRow]) {
    for (at, room, answer, last) in rows {
        let mut bytes = [0; BLOCK];
        let found = store.read_at(*at, bytes.get_mut(..*room).expect(rt, "a room"));
        assert_same_at(
            rt,
            &(name, at, room),
            (found, part(rt, &bytes, room.saturating_sub(4), *room)),
            (*answer, last.as_slice()),
        );
    }
}

/// Reads of a file of six bytes. Some begin where the one before it ended, and some in what that read.
const SIX_BYTES: [ReadRow; 9] = [
    (4, 4, Ok(2), *b"ef\0\0"),
    (0, 4, Ok(4), *b"abcd"),
    (4, 4, Ok(2), *b"ef\0\0"),
    (6, 4, Ok(0), [0; 4]),
    (6, 4, Ok(0), [0; 4]),
    (1, 4, Ok(4), *b"bcde"),
    (5, 4, Ok(1), *b"f\0\0\0"),
    (FOUR_GIB, 4, Ok(0), [0; 4]),
    (2, 4, Ok(4), *b"cdef"),
];

/// Reads of `abcdef` in two of the calls, and of `uvwxyz` behind them.
static TWO_FACES: [ReadRow; 4] = [
    (0, 4, Ok(4), *b"abcd"),
    (4, 4, Ok(2), *b"ef\0\0"),
    (4, 4, Ok(2), *b"yz\0\0"),
    (6, 4, Ok(0), [0; 4]),
];

#[test]
fn stores_in_memory_give_all_that_is_there(rt: HostRuntime) {
    assert_reads(&rt, "memory", &mut MemoryStore::new(b"abcdef"), &SIX_BYTES);
    // The store with two faces turns at its read.
    let mut store = TwoFaces::new(b"abcdef", b"uvwxyz", 2);
    assert_same_at(&rt, &"no read", (store.size(), store.reads()), (6, 0));
    assert_reads(&rt, "two faces", &mut store, &TWO_FACES);
    assert_same_at(&rt, &"four reads", (store.size(), store.reads()), (6, 4));
}

/// Reads of a file of six bytes behind zeros, of which two stand in the first block, which has 512 bytes.
const ACROSS_BLOCKS: [ReadRow; 10] = [
    (0, 4, Ok(4), [0; 4]),
    (508, 4, Ok(4), *b"\0\0ab"),
    (510, 4, Ok(2), *b"ab\0\0"),
    (511, 4, Ok(1), *b"b\0\0\0"),
    (512, 4, Ok(4), *b"cdef"),
    (515, 4, Ok(1), *b"f\0\0\0"),
    (516, 4, Ok(0), [0; 4]),
    (511, 4, Ok(4), *b"bcde"),
    (510, 4, Ok(4), *b"abcd"),
    (528, 4, Ok(0), [0; 4]),
];

/// Reads of a file of six bytes behind 4 GiB of zeros.
const PAST_4_GIB: [ReadRow; 5] = [
    (FOUR_GIB, 4, Ok(4), *b"abcd"),
    (0, 4, Ok(4), [0; 4]),
    (FOUR_GIB - 2, 4, Ok(4), *b"\0\0ab"),
    (FOUR_GIB + 3, 4, Ok(3), *b"def\0"),
    (FOUR_GIB + 6, 4, Ok(0), [0; 4]),
];

/// Reads of a file of six bytes behind 16,382 zeros, each answered from the block that is held, or past it
/// anew.
const FROM_THE_LAST_BYTES: [ReadRow; 5] = [
    (16_384, 4, Ok(4), *b"cdef"),
    (0, BLOCK, Ok(BLOCK), *b"\0\0ab"),
    (4, BLOCK, Ok(BLOCK), *b"cdef"),
    (16_384, 4, Ok(4), *b"cdef"),
    (1, 4, Ok(4), [0; 4]),
];

/// Reads of the same file, which begin with a small block.
const FROM_A_SMALL_BLOCK: [ReadRow; 6] = [
    (2, 4, Ok(4), [0; 4]),
    (2, BLOCK, Ok(512), [0; 4]),
    (6, BLOCK, Ok(508), [0; 4]),
    (514, BLOCK, Ok(15_874), [0; 4]),
    (16_384, 4, Ok(4), *b"cdef"),
    (16_386, BLOCK, Ok(2), [0; 4]),
];

/// A file, how many zeros it begins with, and reads of it.
static FILES: [(&str, u64, &[ReadRow]); 5] = [
    ("six_bytes", 0, &SIX_BYTES),
    ("across_blocks", 510, &ACROSS_BLOCKS),
    ("past_4_gib", FOUR_GIB, &PAST_4_GIB),
    ("rooms", 16_382, &FROM_THE_LAST_BYTES),
    ("small_rooms", 16_382, &FROM_A_SMALL_BLOCK),
];

#[test]
fn file_store_reads_a_file(rt: HostRuntime) {
    for (path, at, rows) in &FILES {
        // The zeros take no room on the disk.
        let mut file = File::create(&rt, *path).expect(&rt, "a file");
        file.seek(SeekFrom::Start(*at)).expect(&rt, "a seek");
        file.write_all(b"abcdef").expect(&rt, "a write");
        let mut store = FileStore::open(&rt, *path).expect(&rt, "a store");
        assert_same_at(&rt, path, store.size(), at.saturating_add(6));
        assert_reads(&rt, *path, &mut store, *rows);
        fs::remove_file(&rt, *path).expect(&rt, "the removal of a file");
    }
}

/// Reads of a folder, each of which the system refuses.
static FOLDER: [ReadRow; 3] = [
    (0, 4, Err(StoreFailed), [0; 4]),
    (0, 4, Err(StoreFailed), [0; 4]),
    (4, 4, Err(StoreFailed), [0; 4]),
];

#[test]
fn file_store_tells_that_a_read_failed(rt: HostRuntime) {
    // The system opens a folder for reading.
    let mut store = FileStore::open(&rt, ".").expect(&rt, "a store");
    assert_reads(&rt, "a folder", &mut store, &FOLDER);
}
