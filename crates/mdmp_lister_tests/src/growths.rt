//! What listers and walkers ask of a heap: nothing, once they are opened.
use crate::codeview::told_at;
use crate::files::{FileOf, made};
use crate::opening::{counts_of, patchy};
use crate::playing::answer_of;
use crate::same::assert_same_at;
use crate::script::{NAMED, ScriptStep};
use crate::walking;
use mdmp_lister::{Choice, Lister, StopAt, Walker};
use mdmp_source::{Location, MemoryStore, Source, Store};
use mdmp_test_support::{
    COMMENT, CRASH, FAULTY, MEMORY64, MODULE, MeteredHeap, OVERLAPPING, Refusal, SIX, SYSTEM,
    THRICE,
};
use std::alloc::{Allocator, Global};
use std::process::Abort;

/// How often a heap was asked for a block, by the opening and by all calls behind it, and how many
/// blocks were not given back; none where nothing is opened.
type Growths = Option<(u64, u64, u64)>;

/// An opening by so many growths, and nothing behind it.
fn opened_by(opening: u64) -> Growths {
    Some((opening, 0, 0))
}

/// What was asked of a heap by an opening, and since then.
fn growths_of(heap: &MeteredHeap<Global>, opening: u64) -> Growths {
    let counts = heap.counts();
    Some((opening, counts.growths.saturating_sub(opening), counts.out))
}

/// Calls between two items, which change none of them.
static ASIDE: [ScriptStep; 8] = [
    ScriptStep::Entries,
    ScriptStep::Room,
    ScriptStep::Find(0x1000),
    ScriptStep::Read(0xffe, 16),
    ScriptStep::Part(28, 16),
    ScriptStep::Numbers,
    ScriptStep::RecordsLeft,
    ScriptStep::Fresh,
];

/// All items up to the end, with a call behind it.
static ITEMS: [ScriptStep; 12] = [ScriptStep::Next; 12];

/// Verdicts, and what is left behind them.
static VERDICTS: [ScriptStep; 5] = [
    ScriptStep::Check(2),
    ScriptStep::SameSink,
    ScriptStep::Skip,
    ScriptStep::Check(u64::MAX),
    ScriptStep::Next,
];

/// Runs into sinks, of which the first wants one item, and entries that are skipped.
static RUNS: [ScriptStep; 6] = [
    ScriptStep::NewSink(1),
    ScriptStep::Skip,
    ScriptStep::NewSink(2),
    ScriptStep::SameSink,
    ScriptStep::Skip,
    ScriptStep::SameSink,
];

/// Makes the calls that stand aside.
fn call_aside<S: Store + Drop, A: Allocator + Copy>(
    rt: &impl Abort,
    alloc: Global,
    lister: &mut Lister<S, A>,
    sink: &mut StopAt,
) {
    for step in &ASIDE {
        let _ = answer_of(rt, alloc, lister, sink, *step);
    }
    let _ = told_at(lister, Location { size: 30, rva: 4 });
    let _ = counts_of(lister);
}

/// Makes these calls of a lister, and behind each all that stand aside.
fn make_calls<S: Store + Drop, A: Allocator + Copy>(
    rt: &impl Abort,
    alloc: Global,
    lister: &mut Lister<S, A>,
    steps: &[ScriptStep],
) {
    let mut sink = StopAt::new(u64::MAX);
    for step in steps {
        let _ = answer_of(rt, alloc, lister, &mut sink, *step);
        call_aside(rt, alloc, lister, &mut sink);
    }
}

/// Makes these calls of a lister in a heap of which the opening alone has asked: what was asked of it.
fn asked_behind<S: Store + Drop>(
    rt: &impl Abort,
    alloc: Global,
    heap: &MeteredHeap<Global>,
    lister: Lister<S, &MeteredHeap<Global>>,
    steps: &[ScriptStep],
) -> Growths {
    let opening = heap.counts().growths;
    let mut lister = lister;
    make_calls(rt, alloc, &mut lister, steps);
    let _ = lister.into_source();
    growths_of(heap, opening)
}

/// What a lister of a store asks for that makes these calls.
fn asked_by_lister<S: Store + Drop>(
    rt: &impl Abort,
    alloc: Global,
    store: S,
    steps: &[ScriptStep],
) -> Growths {
    let heap = MeteredHeap::new(alloc, Refusal::Never);
    match Lister::open(&heap, Source::new(store), NAMED, Choice::All) {
        Ok(lister) => asked_behind(rt, alloc, &heap, lister, steps),
        Err(_) => None,
    }
}

/// Items and entries that a walker goes to.
static WALKS: [ScriptStep; 14] = [
    ScriptStep::Entries,
    ScriptStep::Next,
    ScriptStep::Records,
    ScriptStep::Next,
    ScriptStep::Skip,
    ScriptStep::Next,
    ScriptStep::Records,
    ScriptStep::Seek(0),
    ScriptStep::Next,
    ScriptStep::Next,
    ScriptStep::Next,
    ScriptStep::Next,
    ScriptStep::Next,
    ScriptStep::Next,
];

/// Reads bytes of the file, and what a walker tells of itself and of its first entry.
fn read_aside<S: Store + Drop, A: Allocator + Copy>(walker: &mut Walker<S, A>) {
    let _ = walking::part_of(walker, 0);
    let _ = walking::counts_of(walker);
    let _ = walking::entry_of(walker, 0);
    let _ = walking::is_chosen(walker, 0);
    let _ = walker.is_begun();
}

/// Makes these calls of a walker, and behind each what stands aside.
fn make_walks<S: Store + Drop, A: Allocator + Copy>(
    rt: &impl Abort,
    alloc: Global,
    walker: &mut Walker<S, A>,
    steps: &[ScriptStep],
) {
    for step in steps {
        let _ = walking::answer_of(rt, alloc, walker, *step);
        read_aside(walker);
    }
}

/// What a walker of a store asks for that makes all these calls.
fn asked_by_walker<S: Store + Drop>(
    rt: &impl Abort,
    alloc: Global,
    store: S,
    steps: &[ScriptStep],
) -> Growths {
    let heap = MeteredHeap::new(alloc, Refusal::Never);
    let Ok(mut walker) = Walker::open(&heap, Source::new(store), NAMED, Choice::All) else {
        return None;
    };
    let opening = heap.counts().growths;
    make_walks(rt, alloc, &mut walker, steps);
    let _ = walker.into_source();
    growths_of(&heap, opening)
}

/// Files, and by how many growths a lister of each is opened: a directory, a window, a name, and a map where memory is
/// listed.
static FILES: [(FileOf, u64); 9] = [
    (FileOf::Bytes(&SYSTEM), 3),
    (FileOf::Bytes(&MEMORY64), 4),
    (FileOf::Numbers(3, &FAULTY), 3),
    (FileOf::Numbers(3, &THRICE), 3),
    (FileOf::Numbers(1, &OVERLAPPING), 4),
    (FileOf::Numbers(2, &CRASH), 3),
    (FileOf::Numbers(6, &SIX), 3),
    (FileOf::Numbers(1, &MODULE), 3),
    (FileOf::Numbers(1, &COMMENT), 3),
];

/// Asserts that a lister of a file asks for nothing but by so many growths of its opening, whatever calls it makes.
fn assert_asked(rt: &impl Abort, alloc: Global, number: usize, file: &[u8], opening: u64) {
    let items = asked_by_lister(rt, alloc, MemoryStore::new(file), &ITEMS);
    let verdicts = asked_by_lister(rt, alloc, MemoryStore::new(file), &VERDICTS);
    let runs = asked_by_lister(rt, alloc, MemoryStore::new(file), &RUNS);
    assert_same_at(
        rt,
        &number,
        [items, verdicts, runs],
        [opened_by(opening); 3],
    );
}

#[test]
fn lister_asks_for_no_memory_once_it_is_opened(rt: HostRuntime) {
    for (number, (file, opening)) in FILES.iter().enumerate() {
        let file = made(&rt, rt.alloc(), file);
        assert_asked(&rt, rt.alloc(), number, &file, *opening);
    }
}

#[test]
fn walker_asks_for_no_memory_once_it_is_opened(rt: HostRuntime) {
    for (number, (file, _)) in FILES.iter().enumerate() {
        let file = made(&rt, rt.alloc(), file);
        let asked = asked_by_walker(&rt, rt.alloc(), MemoryStore::new(&file), &WALKS);
        assert_same_at(&rt, &number, asked, opened_by(3));
    }
}

/// Asserts what a lister and a walker ask for over a store of 64-bit memory that fails at this call.
fn assert_asked_failing(
    rt: &impl Abort,
    alloc: Global,
    fail_at: u64,
    by_lister: Growths,
    by_walker: Growths,
) {
    let store = patchy(rt, &MEMORY64, &[20], Some(fail_at));
    let asked = asked_by_lister(rt, alloc, store, &ITEMS);
    assert_same_at(rt, &fail_at, asked, by_lister);
    let store = patchy(rt, &MEMORY64, &[20], Some(fail_at));
    let asked = asked_by_walker(rt, alloc, store, &WALKS);
    assert_same_at(rt, &fail_at, asked, by_walker);
}

#[test]
fn fault_of_the_store_takes_no_memory(rt: HostRuntime) {
    for fail_at in 0..3 {
        assert_asked_failing(&rt, rt.alloc(), fail_at, None, None);
    }
    // Of a lister the head of the list is read as the file is opened.
    assert_asked_failing(&rt, rt.alloc(), 3, None, opened_by(3));
    for fail_at in 4..12 {
        assert_asked_failing(&rt, rt.alloc(), fail_at, opened_by(4), opened_by(3));
    }
}
