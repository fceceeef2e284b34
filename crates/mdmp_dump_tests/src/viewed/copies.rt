//! What is written through a view is what is written of the value.
use super::{ViewOutcome, outcome_of, view_of, write_over};
use crate::dump::built::{read_chosen, value_of};
use crate::dump::view::{StreamTold, told_of};
use crate::files::{
    ABSENT_STACK_FILE, CRASH_FILE, MEMORY64_FILE, NAMED, SIX_FILE, SIX_READING, SYSTEM_FILE,
    Sample, choice_of, file_of,
};
use crate::same::assert_same_at;
use crate::vectors::REGION;
use mdmp_dump::{Dump, DumpView, ReadFault};
use mdmp_source::MemoryStore;
use mdmp_test_support::{
    ABSENT_STACK, COMMENT, FAR_NAME, FAULTY, MEMORY64, MODULE, OVERLAPPING, THREAD_NAME, THRICE,
};
use std::alloc::Global;
use std::process::Abort;

/// Each type of stream, by itself, and all.
static CHOICES: [&[u32]; 14] = [
    &[],
    &[0],
    &[3],
    &[4],
    &[5],
    &[6],
    &[7],
    &[9],
    &[10],
    &[12],
    &[14],
    &[16],
    &[24],
    &[65536],
];

/// What is written of a value through a buffer of so many bytes.
fn by_value(
    rt: &impl Abort,
    alloc: Global,
    value: Result<Dump<Global>, ReadFault>,
    room: usize,
) -> (ViewOutcome, Vec<u8, Global>) {
    match value {
        Ok(dump) => outcome_of(rt, alloc, &mut dump.view(), room),
        Err(fault) => (Err(fault), Vec::new(alloc)),
    }
}

/// Asserts that the streams of these types are written through a view as they are written of the value, each
/// through a buffer of so many bytes.
fn assert_same_bytes(rt: &impl Abort, alloc: Global, file: &[u8], types: &[u32], room: usize) {
    let value = read_chosen(alloc, file, NAMED, choice_of(rt, types), u64::MAX);
    let (outcome, bytes) = by_value(rt, alloc, value, room);
    let written = write_over(rt, alloc, MemoryStore::new(file), types, NAMED, room);
    let found = (written.outcome, written.bytes);
    assert_same_at(rt, &(file, types, room), found, (outcome, bytes));
}

/// Asserts it of each choice of one type, and of all.
fn assert_same_copies(rt: &impl Abort, alloc: Global, sample: &Sample<'static>) {
    let file = file_of(rt, alloc, sample);
    for types in &CHOICES {
        assert_same_bytes(rt, alloc, &file, *types, 1);
        assert_same_bytes(rt, alloc, &file, *types, 7);
        assert_same_bytes(rt, alloc, &file, *types, 4096);
    }
}

static SAMPLES: [Sample<'static>; 30] = [
    SIX_FILE,
    // Threads and modules.
    CRASH_FILE,
    Sample::Numbers(1, &MODULE),
    ABSENT_STACK_FILE,
    // Memory: ranges, and one of which the second range ends outside.
    Sample::Numbers(1, &OVERLAPPING),
    Sample::Parts(&[&MEMORY64], 98),
    MEMORY64_FILE,
    Sample::Numbers(1, &[5, 36, 44, 2, 0x1000, 0, 4, 0, 0x2000, 0, 0, 80]),
    // A system, and other records without parts.
    SYSTEM_FILE,
    Sample::Named(b"\x04\0\0\0a\0b\0"),
    Sample::Numbers(1, &REGION),
    Sample::Numbers(1, &THREAD_NAME),
    // Names of threads: one that stands nowhere, and those that are read past every place of 32 bits.
    Sample::Numbers(1, &[24, 16, 44, 1, 7, 0, 0, 8, 0x00620061, 0x00640063]),
    Sample::Numbers(1, &FAR_NAME),
    Sample::Numbers(1, &[24, 16, 44, 1, 7, 60, 1, 8, 0x00620061, 0x00640063]),
    // Lists with longer heads and records.
    Sample::Numbers(1, &[14, 44, 44, 16, 28, 1, 9, 1, 2, 3, 4, 5, 0, 9]),
    Sample::Numbers(
        1,
        &[
            16, 136, 44, 24, 56, 2, 0, 9, 9, // two regions behind a head of 24 bytes
            4096, 0, 4096, 0, 4, 0, 8192, 0, 4096, 4, 131072, 0, 9, 9, //
            12288, 0, 4096, 0, 4, 0, 8192, 0, 4096, 4, 131072, 0, 9, 9,
        ],
    ),
    // One thread behind four bytes that align it.
    Sample::Numbers(1, &[3, 56, 44, 1, 9, 7, 0, 0, 0, 0, 0, 0, 0, 0, 0, 0, 0]),
    // Unused, raw and empty streams.
    Sample::Numbers(2, &[0, 7, 4294967295, 10, 0, 0]),
    Sample::Cut(1, &COMMENT, 49),
    Sample::Cut(
        3,
        &[65536, 3, 72, 65536, 0, 0xffff_ffff, 0, 1, 2, 0, 0x00636261],
        75,
    ),
    // No streams, and a list without records.
    Sample::Numbers(0, &[]),
    Sample::Numbers(1, &[4, 4, 44, 0]),
    // Repeated entries. Of a list of memory, a comment and the list once more two streams of three are chosen by type 9;
    // of the list that stands four bytes before its place there are too many ranges.
    Sample::Numbers(3, &THRICE),
    Sample::Cut(
        3,
        &[
            9, 32, 72, 10, 2, 32, 9, 32, 72, // the directory
            0, 1, 0, 104, 0, 0x1000, 0, 3, 0, // one range
            0x007a7978,
        ],
        107,
    ),
    Sample::Cut(
        3,
        &[
            9, 32, 72, 10, 2, 32, 9, 32, 72, // the directory
            1, 0, 104, 0, 0x1000, 0, 3, 0, 0, // one range
            0x007a7978,
        ],
        107,
    ),
    // A fault of the listing: a module whose name lies outside, and behind it a comment that does.
    Sample::Numbers(3, &FAULTY),
    // A part that is cut off.
    Sample::Cut(1, &ABSENT_STACK, 96),
    // Ranges past every place.
    Sample::Endless,
    Sample::Last,
];

#[test]
fn each_kind_of_stream_is_written_as_its_value(rt: HostRuntime) {
    for sample in &SAMPLES {
        assert_same_copies(&rt, rt.alloc(), sample);
    }
}

/// What is told of streams of the six, of which each is told, and some again.
fn told_of_six<V: DumpView>(view: &mut V) -> [Option<StreamTold>; 10] {
    [
        told_of(view, 0),
        told_of(view, 1),
        told_of(view, 2),
        told_of(view, 3),
        told_of(view, 4),
        told_of(view, 5),
        told_of(view, 6),
        told_of(view, 2),
        told_of(view, 5),
        told_of(view, 0),
    ]
}

#[test]
fn streams_are_told_as_by_the_view_of_the_value(rt: HostRuntime) {
    let file = file_of(&rt, rt.alloc(), &SIX_FILE);
    let value = value_of(&rt, rt.alloc(), &SIX_READING);
    let expected = told_of_six(&mut value.view());
    let mut view = view_of(&rt, rt.alloc(), MemoryStore::new(&file), NAMED);
    assert_same_at(&rt, &"six", told_of_six(&mut view), expected);
}
