//! A walker: the items that it gives, what it fetches and holds, and stores that fail.
use crate::files::{FileOf, file_of, made};
use crate::given::{stream, thread};
use crate::opening::{chosen, limits_of, patchy, store_fault};
use crate::same::{assert_same, assert_same_at};
use crate::script::{Call, LEAST, NAMED};
use crate::walking::{
    assert_walk, close, counts_of, entry_of, fetched_of, is_chosen, open_and_close, open_over,
    part_of, passed_of, step_of,
};
use linked_list_allocator::LocalHeap;
use mdmp_lister::{Choice, Counts, Limits, ListFault, NameRead, OpenFault, Step, Walker};
use mdmp_source::{Location, MemoryStore, Source, SourceFault, Store};
use mdmp_test_support::{SYSTEM, THRICE};
use mdmp_wire::Entry;
use std::alloc::Global;
use std::process::Abort;

/// What a walker counts of `THRICE` as it is opened: the header and the directory are fetched.
static OPENED: Counts = Counts {
    s: 3,
    r: 0,
    n: 156,
    m: 0,
    held: 168 + 36,
    fetched: 68,
    calls: 2,
    aside: 0,
};

/// Its last entry.
static THIRD: Entry = Entry {
    stream_type: 3,
    location: Location { size: 52, rva: 68 },
};

/// The third entry, as it is sought.
static SOUGHT: [Call; 2] = [Call::Seeks(2), Call::Gives(stream!(2, 3, 52, 68))];

/// How many records it has.
static COUNTED: [Call; 1] = [Call::Counts(1)];

/// What is left of it then.
static REST: [Call; 3] = [Call::Counts(1), Call::Gives(thread!(2, 7)), Call::Ends];

#[test]
fn walker_goes_to_an_entry_by_no_fetch(rt: HostRuntime) {
    let file = file_of(&rt, rt.alloc(), 3, &THRICE);
    let store = MemoryStore::new(&file);
    let mut walker = open_over(&rt, rt.alloc(), store, LEAST, Choice::All);
    assert_same(&rt, entry_of(&walker, 2), Some(THIRD));
    assert_same(&rt, entry_of(&walker, 3), None);
    assert_same(&rt, counts_of(&walker), OPENED);
    // Nothing is fetched as it goes to an entry.
    assert_walk(&rt, rt.alloc(), "sought", &mut walker, &SOUGHT);
    assert_same(&rt, counts_of(&walker), OPENED);
    // What is fetched to count its records is not fetched again.
    assert_walk(&rt, rt.alloc(), "counted", &mut walker, &COUNTED);
    let counted = counts_of(&walker);
    assert_same(&rt, counted.fetched, 68 + 52);
    assert_walk(&rt, rt.alloc(), "the rest", &mut walker, &REST);
    assert_same(&rt, counts_of(&walker), counted);
    assert_same(&rt, fetched_of(walker), counted.fetched);
}

/// Types, and which entries of a file of four are chosen by them, or by none each one; and what is told of a fifth.
static CHOSEN: [(&[u32], [Option<bool>; 5]); 2] = [
    (
        &[3, 10],
        [Some(false), Some(false), Some(true), Some(true), None],
    ),
    (&[], [Some(true), Some(true), Some(true), Some(true), None]),
];

/// Four entries of the types 0, 7, 3 and 10.
static FOUR_TYPES: [u32; 13] = [0, 0, 0, 7, 0, 0, 3, 4, 80, 10, 0, 0, 0];

#[test]
fn walker_tells_which_entries_are_chosen(rt: HostRuntime) {
    let file = file_of(&rt, rt.alloc(), 4, &FOUR_TYPES);
    for (types, told) in &CHOSEN {
        let store = MemoryStore::new(&file);
        let walker = open_over(&rt, rt.alloc(), store, LEAST, chosen(&rt, types));
        for number in 0..5 {
            let found = is_chosen(&walker, number);
            assert_same_at(&rt, &(types, number), found, told[number]);
        }
        close(walker);
    }
}

/// What came of a walk: how many items it gave, and the fault behind them; or why it was refused.
type WalkEnd = Result<(u64, Option<ListFault>), OpenFault>;

/// Counts the items of a walker, at most four, as they are given or passed over.
fn walk<S: Store + Drop>(walker: &mut Walker<S, Global>, passes: bool) -> (u64, Option<ListFault>) {
    for count in 0..4 {
        let more = if passes {
            passed_of(walker)
        } else {
            is_given(walker)
        };
        match more {
            Ok(true) => {}
            Ok(false) => return (count, None),
            Err(fault) => return (count, Some(fault)),
        }
    }
    (4, None)
}

/// Whether a walker gives a step.
fn is_given<S: Store + Drop>(walker: &mut Walker<S, Global>) -> Result<bool, ListFault> {
    match step_of(walker) {
        Ok(step) => Ok(step.is_some()),
        Err(fault) => Err(fault),
    }
}

/// A walk over a store of one system that gives a byte a call and fails at this one.
fn walk_failing(rt: &impl Abort, alloc: Global, fail_at: u64, passes: bool) -> WalkEnd {
    let source = Source::new(patchy(rt, &SYSTEM, &[1], Some(fail_at)));
    match Walker::open(alloc, source, NAMED, Choice::All) {
        Ok(mut walker) => Ok(walk(&mut walker, passes)),
        Err(refused) => Err(refused.fault),
    }
}

/// Call k is of the byte at k: of the header, the entry, the record from 44 on, its name from 100 on.
fn expected_walk(fail_at: u64) -> WalkEnd {
    if fail_at < 44 {
        Err(OpenFault::Source(SourceFault::Failed { at: fail_at }))
    } else if fail_at < 132 {
        Ok((1, Some(store_fault!(0, fail_at))))
    } else {
        Ok((2, None))
    }
}

#[test]
fn store_fails_at_each_call_in_turn(rt: HostRuntime) {
    for fail_at in 0..133 {
        let found = walk_failing(&rt, rt.alloc(), fail_at, false);
        assert_same_at(&rt, &fail_at, found, expected_walk(fail_at));
        let passed = walk_failing(&rt, rt.alloc(), fail_at, true);
        assert_same_at(&rt, &fail_at, passed, expected_walk(fail_at));
    }
}

#[test]
fn step_that_is_passed_over_costs_as_much(rt: HostRuntime) {
    let file = file_of(&rt, rt.alloc(), 3, &THRICE);
    let mut given = open_over(&rt, rt.alloc(), MemoryStore::new(&file), NAMED, Choice::All);
    let mut passed = open_over(&rt, rt.alloc(), MemoryStore::new(&file), NAMED, Choice::All);
    for step in 0..8 {
        assert_same_at(&rt, &step, passed_of(&mut passed), is_given(&mut given));
        assert_same_at(&rt, &step, counts_of(&passed), counts_of(&given));
    }
    assert_same(&rt, fetched_of(passed), fetched_of(given));
}

/// A file, its limits and sizes of heaps; the fault of its opening, what is fetched, and how much of the heap is
/// taken.
struct WalkerHeap {
    shows: &'static str,
    file: FileOf,
    limits: (u32, u32),
    heaps: (usize, usize),
    told: (Option<OpenFault>, u128, usize),
}

/// Four entries of 12 bytes.
const FOUR_ENTRIES: FileOf = FileOf::Numbers(
    4,
    &[0, 0, 0, 0, 0, 0, 0, 0, 0, 5, 20, 80, 1, 0x1000, 0, 0, 0],
);

static HEAPS: [WalkerHeap; 4] = [
    // A window of 176 and a name of 16: blocks are multiples of 16. The list of ranges takes none.
    WalkerHeap {
        shows: "want of memory",
        file: FOUR_ENTRIES,
        limits: (176, 16),
        heaps: (0, 14),
        told: (Some(OpenFault::Memory), 32, 0),
    },
    WalkerHeap {
        shows: "enough memory",
        file: FOUR_ENTRIES,
        limits: (176, 16),
        heaps: (15, 19),
        told: (None, 32 + 48, 240),
    },
    WalkerHeap {
        shows: "the last number of the directory is missing",
        file: FileOf::Numbers(3, &[3, 52, 68, 3, 52, 68, 3, 52]),
        limits: (168, 0),
        heaps: (256, 256),
        told: (
            Some(OpenFault::DirectoryOutside {
                offset: 32,
                size: 36,
            }),
            32,
            0,
        ),
    },
    WalkerHeap {
        shows: "too short",
        file: FileOf::Bytes(&[0; 31]),
        limits: (168, 0),
        heaps: (256, 256),
        told: (Some(OpenFault::TooShort { size: 31 }), 0, 0),
    },
];

/// Why a walker is not opened in a heap, what its source has fetched, and how much of the heap it takes.
fn opened_in(heap: &LocalHeap, file: &[u8], limits: Limits) -> (Option<OpenFault>, u128, usize) {
    let source = Source::new(MemoryStore::new(file));
    let (fault, source) = open_and_close(heap, source, limits);
    let fetched = source.fetched();
    let source = Source::new(MemoryStore::new(file));
    let opened = Walker::open(heap, source, limits, Choice::All);
    let taken = heap.used();
    let _ = opened.is_ok();
    (fault, fetched, taken)
}

/// Asserts what comes of a row in a heap of so many blocks of 16 bytes, which has them all behind that.
fn assert_opened_in(rt: &impl Abort, alloc: Global, row: &WalkerHeap, blocks: usize) {
    let file = made(rt, alloc, &row.file);
    let heap = LocalHeap::new(alloc, blocks.saturating_mul(16)).expect(rt, "a heap");
    let (window, name) = row.limits;
    let found = opened_in(&heap, &file, limits_of(rt, window, name));
    assert_same_at(rt, &(row.shows, blocks), found, row.told);
    assert_same_at(rt, &(row.shows, blocks), heap.used(), 0);
}

#[test]
fn want_of_memory_hands_the_source_back(rt: HostRuntime) {
    for row in &HEAPS {
        let (first, last) = row.heaps;
        for blocks in first..last.saturating_add(1) {
            assert_opened_in(&rt, rt.alloc(), row, blocks);
        }
    }
}

/// The first Stream item of `THRICE`.
static FIRST: [Call; 1] = [Call::Gives(stream!(0, 3, 52, 68))];

/// The records behind it.
static FIRST_THREAD: [Call; 2] = [Call::Counts(1), Call::Gives(thread!(0, 7))];

#[test]
fn part_is_read_beside_the_listing(rt: HostRuntime) {
    let file = file_of(&rt, rt.alloc(), 3, &THRICE);
    let store = MemoryStore::new(&file);
    let mut walker = open_over(&rt, rt.alloc(), store, LEAST, Choice::All);
    assert_walk(&rt, rt.alloc(), "before", &mut walker, &FIRST);
    assert_same(&rt, part_of(&mut walker, 72), Some(Ok([7, 0, 0, 0])));
    assert_same(&rt, part_of(&mut walker, 117), None);
    let behind = counts_of(&walker);
    assert_same(&rt, (behind.fetched, behind.aside), (68, 4));
    assert_walk(&rt, rt.alloc(), "behind", &mut walker, &FIRST_THREAD);
    close(walker);
}

/// An unloaded module whose name has ten bytes.
static LONG_NAME: [u32; 16] = [
    14, 36, 44, 12, 24, 1, 0x10000, 0, 4096, 0, 0, 80, 10, 0x00620061, 0x00640063, 0x65,
];

/// The next answer of a walker: entry, type or index, the place of a name, and that name, if it has one.
fn told_next<S: Store + Drop>(
    walker: &mut Walker<S, Global>,
) -> Option<(u32, u64, Option<u64>, Option<NameRead>)> {
    match step_of(walker) {
        Ok(Some(Step::Stream(stream))) => {
            Some((stream.entry, u64::from(stream.stream_type), None, None))
        }
        Ok(Some(Step::Record(read))) => {
            Some((
                read.entry,
                read.index,
                read.fields.name_rva(),
                Some(read.name),
            ))
        }
        _ => None,
    }
}

#[test]
fn step_tells_a_record_as_it_stands_in_the_file(rt: HostRuntime) {
    let file = file_of(&rt, rt.alloc(), 1, &LONG_NAME);
    let store = MemoryStore::new(&file);
    let mut walker = open_over(&rt, rt.alloc(), store, LEAST, Choice::All);
    assert_same(&rt, told_next(&mut walker), Some((0, 14, None, None)));
    let record = (0, 0, Some(80), Some(NameRead::Long(10)));
    assert_same(&rt, told_next(&mut walker), Some(record));
    assert_same(&rt, step_of(&mut walker).is_ok(), true);
    close(walker);
}
