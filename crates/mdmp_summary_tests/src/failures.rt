//! Stores that fail, memory that is refused, and read limits.
use crate::files::{LINUX, crash_file};
use crate::same::assert_same_at;
use crate::summing::{fetched_within, summary_in, summary_over};
use mdmp_lister::{FaultKind, Limits, OpenFault};
use mdmp_source::{MemoryStore, PatchyStore};
use mdmp_summary::{FileSummary, SummaryFault};
use mdmp_test_support::{MeteredHeap, Refusal};
use std::process::Abort;

/// A summary, or by a word why there is none.
type SummaryEnd = Result<FileSummary, &'static str>;

fn end_of(told: Result<FileSummary, SummaryFault>) -> SummaryEnd {
    match told {
        Ok(summary) => Ok(summary),
        Err(SummaryFault::Source(_)) | Err(SummaryFault::Opening(OpenFault::Source(_))) => Err(
            "unread",
        ),
        Err(SummaryFault::Opening(OpenFault::Budget { .. })) => Err("budget"),
        Err(SummaryFault::Opening(OpenFault::Memory)) => Err("memory"),
        Err(SummaryFault::Opening(_)) => Err("refused"),
        Err(SummaryFault::List(fault)) => match fault.kind {
            FaultKind::Source(_) => Err("unread"),
            FaultKind::Budget => Err("budget"),
            _ => Err("refused"),
        },
    }
}

#[test]
fn store_that_fails_at_a_call_ends_the_summary(rt: HostRuntime) {
    let file = crash_file(&rt, rt.alloc(), &LINUX);
    let whole = Ok(summary_in(&rt, rt.alloc(), &file));
    let mut calls = 0u32;
    for call in 0..40u64 {
        let store = PatchyStore::new(&file, &[1 << 20], Some(call));
        let end = end_of(summary_over(rt.alloc(), store, Limits::default()));
        if end == Err("unread") {
            calls = calls.saturating_add(1);
        } else {
            assert_same_at(&rt, &call, end, whole);
        }
    }
    assert_same_at(&rt, &"calls", calls, 9);
}

#[test]
fn growth_of_memory_that_is_refused_ends_the_summary(rt: HostRuntime) {
    let file = crash_file(&rt, rt.alloc(), &LINUX);
    let whole = Ok(summary_in(&rt, rt.alloc(), &file));
    for (growth, expected) in [(0, Err("memory")), (2, Err("memory")), (3, whole)] {
        let heap = MeteredHeap::new(rt.alloc(), Refusal::Only(growth));
        let store = MemoryStore::new(&file);
        let end = end_of(summary_over(&heap, store, Limits::default()));
        assert_same_at(&rt, &growth, end, expected);
    }
}

#[test]
fn budget_of_what_is_fetched_is_enough(rt: HostRuntime) {
    let file = crash_file(&rt, rt.alloc(), &LINUX);
    let whole = Ok(summary_in(&rt, rt.alloc(), &file));
    // Header, directory, two exceptions, and twice a module list and a system: what is searched is among no exceptions.
    let fetched = 32 + 60 + 168 + 168 + 2 * (112 + 56);
    assert_same_at(
        &rt,
        &"fetched",
        fetched_within(rt.alloc(), &file, Limits::default()),
        Some((fetched, 272)),
    );
    for (budget, expected) in [(fetched as u64, whole), (fetched as u64 - 1, Err("budget"))] {
        let limits = Limits::with_budget(65536, 4096, budget).expect(&rt, "limits");
        let store = MemoryStore::new(&file);
        let end = end_of(summary_over(rt.alloc(), store, limits));
        assert_same_at(&rt, &budget, end, expected);
    }
}
