//! The memory that a view takes as it is opened.
use super::{counts_of, outcome_of};
use crate::dump::view::{Wanted, first_record, raw_bytes, told_of};
use crate::files::{CRASH_FILE, SIX_FILE, Sample, choice_of, file_of};
use crate::same::assert_same_at;
use linked_list_allocator::LocalHeap;
use mdmp_dump::{FileView, ReadFault, ViewRefused};
use mdmp_lister::{Choice, Limits};
use mdmp_source::{MemoryStore, PatchyStore, Source, Store};
use mdmp_test_support::{MODULE, MeteredHeap, OVERLAPPING, Refusal, limits};
use std::alloc::{Allocator, Global};
use std::process::Abort;

/// A window of 176 bytes, a multiple of 16 as a heap's blocks are. No name is read.
const LIMITS: Limits = limits!(176, 4096);

/// What comes of opening a view of the thread and the exception in a heap: why it is not opened, what was
/// fetched by then, what the view tells that it holds, and what the heap holds.
type Opened = (Option<ReadFault>, u128, u128, usize);

fn opened_in(rt: &impl Abort, heap: &LocalHeap, file: &[u8]) -> Opened {
    let source = Source::new(MemoryStore::new(file));
    match FileView::open_source(heap, source, LIMITS, choice_of(rt, &[3, 6])) {
        Ok(view) => (None, view.fetched(), view.held(), heap.used()),
        Err(ViewRefused { fault, source }) => (Some(fault), source.fetched(), 0, heap.used()),
    }
}

/// Asserts what comes of it in a heap of so many bytes, of which nothing is used in the end. Six entries have 12 bytes, a
/// window 176, and there are 4 and 8 bytes for each entry: blocks are multiples of 16.
fn assert_opened(rt: &impl Abort, alloc: Global, size: usize, file: &[u8]) {
    let heap = LocalHeap::new(alloc, size).expect(rt, "a heap");
    let opened = opened_in(rt, &heap, file);
    let expected = if size < 80 + 176 {
        (Some(ReadFault::Memory), 32, 0, 0)
    } else if size < 80 + 176 + 32 + 48 {
        // The directory is read behind the first two lists.
        (Some(ReadFault::Memory), 32 + 72, 0, 0)
    } else {
        (None, 32 + 72 + 52 + 168, 176 + 24 * 6, 80 + 176 + 32 + 48)
    };
    assert_same_at(rt, &size, (opened, heap.used()), (expected, 0));
}

#[test]
fn open_source_succeeds_where_the_heap_suffices(rt: HostRuntime) {
    let file = file_of(&rt, rt.alloc(), &SIX_FILE);
    for step in 0..24 {
        assert_opened(&rt, rt.alloc(), 16 * step, &file);
    }
    assert_opened(&rt, rt.alloc(), 1 << 16, &file);
}

#[test]
fn view_takes_no_memory_once_it_is_opened(rt: HostRuntime) {
    let file = file_of(&rt, rt.alloc(), &SIX_FILE);
    let heap = LocalHeap::new(rt.alloc(), 80 + 176 + 32 + 48).expect(&rt, "a heap");
    {
        let source = Source::new(MemoryStore::new(&file));
        let mut view = FileView::open(&heap, source, LIMITS, Choice::All).expect(&rt, "a view");
        let opened = heap.used();
        let (outcome, _) = outcome_of(&rt, rt.alloc(), &mut view, 7);
        let used = (opened, outcome, heap.used());
        assert_same_at(&rt, &"used", used, (336, Ok(Ok(444)), 336));
    }
    assert_same_at(&rt, &"given back", heap.used(), 0);
}

/// Makes each call of a view of one of its streams.
fn call_on<S: Store + Drop, A: Allocator + Copy>(view: &mut FileView<S, A>, stream: u64) {
    let _ = told_of(view, stream);
    for which in 0..3 {
        let wanted = Wanted {
            stream,
            which,
            at: 0,
        };
        let _ = first_record(view, &wanted, &mut [0; 2]);
        let _ = raw_bytes(view, &wanted, &mut [0; 2]);
    }
}

/// How often a heap was asked for a block, by the opening of a view and by all its calls, and how many blocks
/// were not given back.
type ViewGrowths = (u64, u64, u64);

/// What the view of a store asks for, if it is opened, each of whose first streams is asked for all, and which is then
/// written.
fn asked_by_view<S: Store + Drop>(rt: &impl Abort, alloc: Global, store: S) -> Option<ViewGrowths> {
    let heap = MeteredHeap::new(alloc, Refusal::Never);
    let mut view = match FileView::open(&heap, Source::new(store), LIMITS, Choice::All) {
        Ok(view) => view,
        Err(_) => return None,
    };
    let opening = heap.counts().growths;
    for stream in 0..8 {
        call_on(&mut view, stream);
    }
    let _ = counts_of(&mut view, 0);
    let _ = outcome_of(rt, alloc, &mut view, 7);
    let _ = view.into_source();
    let counts = heap.counts();
    Some((opening, counts.growths.saturating_sub(opening), counts.out))
}

/// The directory, the window and two lists are asked for as a view is opened, and nothing by its calls.
const ASKED: Option<ViewGrowths> = Some((4, 0, 0));

/// Files of which views are opened.
static SAMPLES: [Sample<'static>; 4] = [
    Sample::Numbers(1, &OVERLAPPING),
    Sample::Numbers(1, &MODULE),
    CRASH_FILE,
    SIX_FILE,
];

#[test]
fn view_asks_for_no_memory_once_it_is_opened(rt: HostRuntime) {
    for sample in &SAMPLES {
        let file = file_of(&rt, rt.alloc(), sample);
        let asked = asked_by_view(&rt, rt.alloc(), MemoryStore::new(&file));
        assert_same_at(&rt, &file.len(), asked, ASKED);
    }
    // A call of the store may fail. The header, the directory and each stream are read as the view is opened.
    let file = file_of(&rt, rt.alloc(), &CRASH_FILE);
    for fail_at in 0..20 {
        let store = PatchyStore::new(&file, &[4096], Some(fail_at));
        let expected = if fail_at < 4 { None } else { ASKED };
        assert_same_at(
            &rt,
            &fail_at,
            asked_by_view(&rt, rt.alloc(), store),
            expected,
        );
    }
}
