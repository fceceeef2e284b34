//! What large files take of a heap that are read into values, or opened as views: the bytes that docs/promises.md tells,
//! each once, and with a limit that is a byte too small only what is taken before it is tested.
use crate::dump::built::read_chosen;
use crate::files::{ALL, LEAST_ROW, RowLimits, choice_of, limits_of_row};
use crate::same::assert_same_at;
use crate::writer::{patchy_out, stored_size, write_view};
use mdmp_dump::{FileView, MemoryRange, ReadFault, Stream, Thread};
use mdmp_lister::{Choice, Limits, OpenFault};
use mdmp_source::{MemoryStore, Source};
use mdmp_test_support::{
    EMPTY_COMMENT, EMPTY_PART, HeapCounts, LARGE, LARGE_PART, LONG_COMMENT, MANY_ENTRIES,
    MANY_RANGES, MANY_THREADS, MeteredHeap, OneStream, Refusal, one_stream_file,
};
use std::alloc::Global;
use std::process::Abort;

type Heap<'a> = &'a MeteredHeap<Global>;

/// How many bytes were written, or why there is no dump.
type WrittenAnswer = Result<u64, ReadFault>;

/// A file that is read into a value, without names.
struct ValueRow {
    file: OneStream<'static>,
    types: &'static [u32],
    window: u32,
    /// The most bytes of its parts.
    parts: u64,
    /// What its lister takes, W + 12s + 24r bytes, and by how many growths.
    lister: (u64, u64),
    /// How many streams and ranges of memory its lists have room for, how many threads, and how many bytes there are of
    /// parts.
    lists: (u64, u64, u64, u64),
    /// By how many growths these are taken.
    growths: u64,
    /// How many bytes its dump has that is then written into memory, or 0 if it is not; none if the parts of its first
    /// entry are over the limit.
    written: Option<u64>,
}

static VALUES: [ValueRow; 10] = [
    ValueRow {
        file: MANY_ENTRIES,
        types: ALL,
        window: 1 << 20,
        parts: 0,
        lister: ((1 << 20) + 12 * 5000, 2),
        lists: (5000, 0, 0, 0),
        growths: 1,
        written: Some(32 + 12 * 5000),
    },
    ValueRow {
        file: MANY_RANGES,
        types: ALL,
        window: 70_000,
        parts: 0,
        lister: (70_000 + 12 * 5000 + 24 * 10_000, 3),
        lists: (5000, 10_000, 0, 0),
        growths: 5001,
        written: Some(32 + (12 + 36) * 5000),
    },
    ValueRow {
        file: MANY_THREADS,
        types: ALL,
        window: 168,
        parts: 0,
        lister: (168 + 12, 2),
        lists: (1, 0, 10_000, 0),
        growths: 2,
        written: Some(32 + 12 + 480_004),
    },
    ValueRow {
        file: LARGE_PART,
        types: ALL,
        window: 1 << 20,
        parts: LARGE as u64,
        lister: ((1 << 20) + 12 + 24, 3),
        lists: (1, 1, 0, LARGE as u64),
        growths: 3,
        written: Some(0),
    },
    // Nothing of the part is taken, and no list of ranges, which comes behind it.
    ValueRow {
        file: LARGE_PART,
        types: ALL,
        window: 168,
        parts: LARGE as u64 - 1,
        lister: (168 + 12 + 24, 3),
        lists: (1, 0, 0, 0),
        growths: 1,
        written: None,
    },
    ValueRow {
        file: EMPTY_PART,
        types: ALL,
        window: 70_000,
        parts: 0,
        lister: (70_000 + 12 + 24, 3),
        lists: (1, 1, 0, 0),
        growths: 2,
        written: Some(64),
    },
    ValueRow {
        file: LONG_COMMENT,
        types: ALL,
        window: 168,
        parts: 1 << 21,
        lister: (168 + 12, 2),
        lists: (1, 0, 0, 1 << 21),
        growths: 2,
        written: Some(44 + (1 << 21)),
    },
    ValueRow {
        file: LONG_COMMENT,
        types: ALL,
        window: 168,
        parts: (1 << 21) - 1,
        lister: (168 + 12, 2),
        lists: (1, 0, 0, 0),
        growths: 1,
        written: None,
    },
    ValueRow {
        file: EMPTY_COMMENT,
        types: ALL,
        window: 168,
        parts: 0,
        lister: (168 + 12, 2),
        lists: (1, 0, 0, 0),
        growths: 1,
        written: Some(44),
    },
    // Of 5,000 entries none is chosen. How many are is not known before they are listed, so a list of streams for all
    // of them would be 5,000 too long.
    ValueRow {
        file: MANY_ENTRIES,
        types: &[4],
        window: 168,
        parts: 0,
        lister: (168 + 12 * 5000, 2),
        lists: (0, 0, 0, 0),
        growths: 0,
        written: Some(32),
    },
];

/// Reads a file into a value, and writes this into memory, if it is to have so many bytes there.
fn read_within(
    alloc: Global,
    file: &[u8],
    limits: Limits,
    choice: Choice,
    row: &ValueRow,
) -> (WrittenAnswer, HeapCounts) {
    let heap = MeteredHeap::new(alloc, Refusal::Never);
    let written = match read_chosen(&heap, file, limits, choice, row.parts) {
        Ok(_) if row.written == Some(0) => Ok(0),
        Ok(dump) => match stored_size(&heap, &dump) {
            Ok(size) => Ok(size as u64),
            Err(_) => Err(ReadFault::Memory),
        },
        Err(fault) => Err(fault),
    };
    (written, heap.counts())
}

/// Asserts what a row takes at the limit of memory of its lister. The dump takes its own bytes behind the value, once
/// the lister is dropped.
fn assert_value(rt: &impl Abort, alloc: Global, number: usize, row: &ValueRow) {
    let file = one_stream_file(alloc, row.file).expect(rt, "memory for a file");
    let (lister, opening) = row.lister;
    let (streams, ranges, threads, parts) = row.lists;
    let streams = streams.saturating_mul(size_of::<Stream<Heap<'static>>>() as u64);
    let ranges = ranges.saturating_mul(size_of::<MemoryRange<Heap<'static>>>() as u64);
    let threads = threads.saturating_mul(size_of::<Thread<Heap<'static>>>() as u64);
    let records = streams.saturating_add(ranges).saturating_add(threads);
    let value = records.saturating_add(parts);
    let read = lister.saturating_add(value);
    let growths = opening.saturating_add(row.growths);
    let within = RowLimits {
        window: row.window,
        memory: Some(lister),
        ..LEAST_ROW
    };
    let choice = choice_of(rt, row.types);
    let found = read_within(alloc, &file, limits_of_row(rt, &within), choice, row);
    let expected = match row.written {
        Some(0) => (Ok(0), HeapCounts::once(read, growths)),
        Some(size) => (
            Ok(size),
            HeapCounts::given_back(
                read.max(value.saturating_add(size)),
                read.saturating_add(size),
                growths.saturating_add(1),
            ),
        ),
        None => (
            Err(ReadFault::PartsTooLarge { entry: 0, index: 0 }),
            HeapCounts::once(read, growths),
        ),
    };
    assert_same_at(rt, &number, found, expected);
}

#[test]
fn value_takes_its_lists_and_parts_and_what_its_lister_does(rt: HostRuntime) {
    let mut number: usize = 0;
    for row in &VALUES {
        assert_value(&rt, rt.alloc(), number, row);
        number = number.saturating_add(1);
    }
}

/// A file of which a view is opened through a window of so many bytes, what it takes, W + 24s bytes, and how many bytes
/// its dump has.
type ViewHeapRow = (OneStream<'static>, u32, u64, u64);

static VIEWS: [ViewHeapRow; 6] = [
    (MANY_ENTRIES, 1 << 20, (1 << 20) + 24 * 5000, 32 + 12 * 5000),
    (
        MANY_RANGES,
        70_000,
        70_000 + 24 * 5000,
        32 + (12 + 36) * 5000,
    ),
    (MANY_THREADS, 168, 168 + 24, 32 + 12 + 480_004),
    (LONG_COMMENT, 1 << 20, (1 << 20) + 24, 44 + (1 << 21)),
    (EMPTY_PART, 70_000, 70_000 + 24, 64),
    (EMPTY_COMMENT, 168, 168 + 24, 44),
];

/// Opens a view of a file, and writes it to an output that takes nothing of the heap.
fn viewed_within(
    rt: &impl Abort,
    alloc: Global,
    file: &[u8],
    limits: Limits,
    size: u64,
) -> (WrittenAnswer, HeapCounts) {
    let heap = MeteredHeap::new(alloc, Refusal::Never);
    let mut out = patchy_out(rt, alloc, size as usize, 1 << 20, None);
    let source = Source::new(MemoryStore::new(file));
    let written = match FileView::open(&heap, source, limits, Choice::All) {
        Ok(opened) => {
            let mut view = opened;
            match write_view(&mut view, &mut out, 4096) {
                Ok(size) => Ok(size),
                Err(_) => Err(ReadFault::Memory),
            }
        }
        Err(fault) => Err(fault),
    };
    (written, heap.counts())
}

/// Asserts what a row takes at the limit of memory of a copy, 2W + 24s, and that with a byte less it takes nothing.
fn assert_view(rt: &impl Abort, alloc: Global, number: usize, row: &ViewHeapRow) {
    let (file, window, held, size) = *row;
    let bytes = one_stream_file(alloc, file).expect(rt, "memory for a file");
    let most = held.saturating_add(u64::from(window));
    let within = RowLimits {
        window,
        memory: Some(most),
        ..LEAST_ROW
    };
    let limits = limits_of_row(rt, &within);
    let found = viewed_within(rt, alloc, &bytes, limits, size);
    assert_same_at(rt, &number, found, (Ok(size), HeapCounts::once(held, 4)));
    let limits = limits.limit_memory(most.saturating_sub(1));
    let found = viewed_within(rt, alloc, &bytes, limits, size);
    let held = u128::from(most);
    let over = Err(ReadFault::Opening(OpenFault::MemoryLimit { held }));
    assert_same_at(rt, &number, found, (over, HeapCounts::once(0, 0)));
}

#[test]
fn view_takes_a_window_and_24_bytes_an_entry(rt: HostRuntime) {
    let mut number: usize = 0;
    for row in &VIEWS {
        assert_view(&rt, rt.alloc(), number, row);
        number = number.saturating_add(1);
    }
}
