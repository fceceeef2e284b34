//! How many records a stream has, told before the first of them is given.
use crate::files::file_of;
use crate::opening::fault;
use crate::same::assert_same_at;
use crate::script::LEAST;
use crate::walking::{close, open_over, records_of, step_of};
use mdmp_lister::{Choice, FaultKind, ListFault, Step, Walker};
use mdmp_source::{MemoryStore, Store};
use std::alloc::Global;
use std::process::Abort;

/// A stream at 44: its type, how many bytes it has, and the numbers that it begins with, with zeros behind
/// them; and how many of its last bytes are cut.
type GivenStream = (u32, u32, [u32; 4], u32);

/// A file with one such stream.
fn stream_file(rt: &impl Abort, alloc: Global, given: GivenStream) -> Vec<u8> {
    let (stream_type, size, [first, second, third, fourth], cut) = given;
    let numbers = [stream_type, size, 44, first, second, third, fourth];
    let mut file = file_of(rt, alloc, 1, &numbers);
    let len = 44u32.saturating_add(size).saturating_sub(cut);
    file.resize(len as usize, 0).expect(rt, "memory");
    file
}

/// How many records come, at most four.
fn read<S: Store + Drop>(walker: &mut Walker<S, Global>) -> Result<u64, ListFault> {
    for count in 0..4 {
        match step_of(walker) {
            Ok(Some(Step::Record(_))) => {}
            Ok(_) => return Ok(count),
            Err(fault) => return Err(fault),
        }
    }
    Ok(4)
}

/// What is told of the records of a stream before they are read, twice, and what comes of reading them.
fn told_of(
    rt: &impl Abort,
    alloc: Global,
    given: GivenStream,
) -> [Option<Result<u64, ListFault>>; 3] {
    let file = stream_file(rt, alloc, given);
    let mut walker = open_over(rt, alloc, MemoryStore::new(&file), LEAST, Choice::All);
    assert!(rt; matches!(step_of(&mut walker), Ok(Some(Step::Stream(_)))));
    let first = records_of(&mut walker);
    let again = records_of(&mut walker);
    let read = read(&mut walker);
    close(walker);
    [first, again, Some(read)]
}

/// A stream of which no byte is cut, and how many records it has.
macro_rules! counted {
    ($stream_type:expr, $size:expr, $head:expr, $count:expr) => {
        (($stream_type, $size, $head, 0), Ok($count))
    };
}

/// A stream whose last bytes are cut, so many, and the fault of its shape.
macro_rules! bad {
    ($stream_type:expr, $size:expr, $head:expr, $cut:expr, $kind:expr, $at:expr, $told:expr) => {
        (
            ($stream_type, $size, $head, $cut),
            Err(fault!(None, $kind, $at, $told)),
        )
    };
}

static STREAMS: [(GivenStream, Result<u64, ListFault>); 24] = [
    counted!(0, 7, [9, 9, 9, 9], 0),
    counted!(10, 20, [9, 9, 9, 9], 0),
    counted!(3, 100, [2, 0, 0, 0], 2),
    counted!(3, 104, [2, 0, 0, 0], 2),
    counted!(3, 4, [0, 0, 0, 0], 0),
    counted!(4, 328, [3, 0, 0, 0], 3),
    counted!(4, 332, [3, 0, 0, 0], 3),
    counted!(5, 36, [2, 0, 0, 0], 2),
    counted!(6, 168, [u32::MAX; 4], 1),
    counted!(7, 56, [u32::MAX; 4], 1),
    counted!(9, 48, [2, 0, 92, 0], 2),
    counted!(14, 2012, [12, 1000, 2, 0], 2),
    counted!(16, 112, [16, 48, 2, 0], 2),
    counted!(16, 16, [16, 0, 0, 0], 0),
    // A fault of a shape is told in the place of a count.
    bad!(3, 52, [1, 7, 0, 0], 1, FaultKind::StreamOutside, 44, 52),
    bad!(10, 20, [0, 0, 0, 0], 20, FaultKind::StreamOutside, 44, 20),
    bad!(3, 3, [1, 0, 0, 0], 0, FaultKind::ShortStream, 44, 3),
    bad!(6, 167, [0, 0, 0, 0], 0, FaultKind::ShortStream, 44, 167),
    bad!(14, 36, [11, 24, 1, 0], 0, FaultKind::BadHeaderSize, 44, 11),
    bad!(16, 64, [65, 48, 1, 0], 0, FaultKind::BadHeaderSize, 44, 65),
    bad!(14, 36, [12, 23, 1, 0], 0, FaultKind::BadEntrySize, 48, 23),
    bad!(3, 51, [1, 7, 0, 0], 0, FaultKind::BadCount, 44, 1),
    bad!(
        9,
        16,
        [u32::MAX, u32::MAX, 0, 0],
        0,
        FaultKind::BadCount,
        44,
        u64::MAX
    ),
    bad!(
        16,
        16,
        [16, 48, u32::MAX, u32::MAX],
        0,
        FaultKind::BadCount,
        52,
        u64::MAX
    ),
];

#[test]
fn records_of_each_kind_or_the_fault_of_their_shape_are_told_before_they_come(rt: HostRuntime) {
    for (given, expected) in &STREAMS {
        let told = told_of(&rt, rt.alloc(), *given);
        assert_same_at(&rt, given, told, [Some(*expected); 3]);
    }
}
