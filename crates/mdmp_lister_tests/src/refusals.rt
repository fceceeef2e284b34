//! Openings that are refused one of their growths.
use crate::files::{FileOf, made};
use crate::opening::{ListOutcome, all, limits_of, run_over};
use crate::same::assert_same_at;
use crate::walking::step_of;
use mdmp_lister::{Choice, Limits, OpenFault, OpenRefused, RunFault, Walker};
use mdmp_source::{MemoryStore, Source, Store};
use mdmp_test_support::{MEMORY64, MeteredHeap, OVERLAPPING, Refusal, SYSTEM, THRICE};
use std::alloc::{Allocator, Global};
use std::process::Abort;

/// Who opens a file.
#[derive(Clone, Copy)]
pub enum Opener {
    Lister,
    Walker,
}

/// What comes of a store that is opened in a heap.
#[derive(Clone, Copy)]
pub struct MeteredOpening {
    pub outcome: ListOutcome,
    /// What comes of the source that is handed back, with ample memory.
    pub again: ListOutcome,
    /// The bytes that were fetched before the source was handed back.
    pub fetched: u128,
    /// How often the heap was asked for a block, and how many blocks were not given back.
    pub growths: u64,
    pub out: u64,
}

/// Counts all items of a walker, at most 20,000.
fn count_items<S: Store + Drop, A: Allocator + Copy>(walker: &mut Walker<S, A>) -> ListOutcome {
    for count in 0..20_000 {
        match step_of(walker) {
            Ok(Some(_)) => {}
            Ok(None) => return all(count, 0),
            Err(found) => {
                return ListOutcome::Listed {
                    fault: Some(RunFault::At(found)),
                    items: count,
                    mapped: 0,
                };
            }
        }
    }
    all(20_000, 0)
}

/// Counts all items of a walker, and then hands its source back.
fn walk_over<S: Store + Drop, A: Allocator + Copy>(
    alloc: A,
    source: Source<S>,
    limits: Limits,
) -> (ListOutcome, Source<S>) {
    match Walker::open(alloc, source, limits, Choice::All) {
        Ok(mut walker) => {
            let outcome = count_items(&mut walker);
            (outcome, walker.into_source())
        }
        Err(refused) => {
            let OpenRefused { fault, source } = refused;
            (ListOutcome::Refused(fault), source)
        }
    }
}

/// Counts all items of a file, and then hands its source back.
pub fn run_by<S: Store + Drop, A: Allocator + Copy>(
    alloc: A,
    source: Source<S>,
    limits: Limits,
    opener: Opener,
) -> (ListOutcome, Source<S>) {
    match opener {
        Opener::Lister => run_over(alloc, source, limits, Choice::All),
        Opener::Walker => walk_over(alloc, source, limits),
    }
}

/// What comes of a store that is opened in a heap, and then of its source with ample memory and no limit.
pub fn opened_in<S: Store + Drop>(
    alloc: Global,
    refusal: Refusal,
    store: S,
    limits: Limits,
    opener: Opener,
) -> MeteredOpening {
    let heap = MeteredHeap::new(alloc, refusal);
    let (outcome, source) = run_by(&heap, Source::new(store), limits, opener);
    let counts = heap.counts();
    let fetched = source.fetched();
    let ample = Limits {
        window: limits.window,
        name: limits.name,
        budget: limits.budget,
        memory: None,
        aside: limits.aside,
    };
    let (again, _) = run_by(alloc, source, ample, opener);
    MeteredOpening {
        outcome,
        again,
        fetched,
        growths: counts.growths,
        out: counts.out,
    }
}

/// A file, who opens it with names of so many bytes, by how many growths, and what comes of it.
struct RefusalRow {
    opener: Opener,
    file: FileOf,
    name: u32,
    growths: u64,
    outcome: ListOutcome,
}

/// Such a row.
macro_rules! opened_by {
    ($opener:ident, $file:expr, $name:expr, $growths:expr, $items:expr, $mapped:expr) => {
        RefusalRow {
            opener: Opener::$opener,
            file: $file,
            name: $name,
            growths: $growths,
            outcome: ListOutcome::Listed {
                fault: None,
                items: $items,
                mapped: $mapped,
            },
        }
    };
}

static ROWS: [RefusalRow; 9] = [
    // A directory, a window, a name, and a map where memory is listed.
    opened_by!(Lister, FileOf::Bytes(&SYSTEM), 4096, 3, 2, 0),
    opened_by!(Lister, FileOf::Bytes(&SYSTEM), 0, 2, 2, 0),
    opened_by!(Lister, FileOf::Bytes(&MEMORY64), 4096, 4, 3, 1),
    opened_by!(Lister, FileOf::Bytes(&MEMORY64), 0, 3, 3, 1),
    opened_by!(Lister, FileOf::Numbers(3, &THRICE), 4096, 3, 6, 0),
    opened_by!(Lister, FileOf::Numbers(1, &OVERLAPPING), 4096, 4, 3, 2),
    // A directory, a window and a name: a walker has no map.
    opened_by!(Walker, FileOf::Bytes(&SYSTEM), 4096, 3, 2, 0),
    opened_by!(Walker, FileOf::Bytes(&SYSTEM), 0, 2, 2, 0),
    opened_by!(Walker, FileOf::Bytes(&MEMORY64), 4096, 3, 3, 0),
];

/// Asserts what comes of a file in a heap that refuses this growth, by how many growths, and of its source with
/// ample memory.
fn assert_opened_without(
    rt: &impl Abort,
    alloc: Global,
    row: &RefusalRow,
    growth: u64,
    outcome: ListOutcome,
    growths: u64,
) {
    let file = made(rt, alloc, &row.file);
    let limits = limits_of(rt, 168, row.name);
    let store = MemoryStore::new(&file);
    let found = opened_in(alloc, Refusal::Only(growth), store, limits, row.opener);
    let told = (found.outcome, found.again, found.growths, found.out);
    assert_same_at(
        rt,
        &(row.outcome, growths),
        told,
        (outcome, row.outcome, growths, 0),
    );
}

#[test]
fn each_growth_of_a_lister_and_of_a_walker_may_be_refused(rt: HostRuntime) {
    let refused = ListOutcome::Refused(OpenFault::Memory);
    for row in &ROWS {
        for growth in 0..row.growths {
            let asked = growth.saturating_add(1);
            assert_opened_without(&rt, rt.alloc(), row, growth, refused, asked);
        }
        assert_opened_without(&rt, rt.alloc(), row, row.growths, row.outcome, row.growths);
    }
}
