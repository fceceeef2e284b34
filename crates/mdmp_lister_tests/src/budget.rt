//! Listings that may fetch so many bytes and no more.
use crate::files::{FileOf, made};
use crate::given::stream;
use crate::opening::{ListOutcome, fault, open_and_close, run_over};
use crate::playing::play;
use crate::same::{assert_same, assert_same_at, assert_that};
use crate::script::Call;
use crate::walking;
use mdmp_lister::{Choice, FaultKind, Limits, OpenFault, RunFault};
use mdmp_source::{MemoryStore, Source};
use mdmp_test_support::{MEMORY64, SYSTEM};
use std::alloc::Global;
use std::process::Abort;

/// A window and names of so many bytes, with a budget.
fn within(rt: &impl Abort, window: u32, name: u32, budget: u64) -> Limits {
    Limits::with_budget(window, name, budget).expect(rt, "limits")
}

/// What a listing of a file comes to with these limits, and how many bytes it fetched.
fn listed(alloc: Global, file: &[u8], limits: Limits) -> (ListOutcome, u128) {
    let source = Source::new(MemoryStore::new(file));
    let (outcome, source) = run_over(alloc, source, limits, Choice::All);
    (outcome, source.fetched())
}

/// A file and a budget; what a listing comes to by the limits of the program, and how many bytes it fetches.
type BudgetRow = (&'static [u8], u64, ListOutcome, u128);

/// A listing that is refused in the place of a fetch of these bytes.
macro_rules! refused {
    ($file:expr, $budget:expr, $offset:expr, $size:expr) => {
        (
            &$file,
            $budget,
            ListOutcome::Refused(OpenFault::Budget {
                offset: $offset,
                size: $size,
            }),
            $offset,
        )
    };
}

/// One of the system that ends behind its Stream item, in the place of a fetch of these bytes.
macro_rules! ended {
    ($budget:expr, $offset:expr, $size:expr) => {
        (
            &SYSTEM,
            $budget,
            ListOutcome::Listed {
                fault: Some(RunFault::At(fault!(None, FaultKind::Budget, $offset, $size))),
                items: 1,
                mapped: 0,
            },
            $offset,
        )
    };
}

/// One of the system whose budget is enough.
macro_rules! whole {
    ($budget:expr) => {
        (
            &SYSTEM,
            $budget,
            ListOutcome::Listed {
                fault: None,
                items: 2,
                mapped: 0,
            },
            132,
        )
    };
}

static BUDGETS: [BudgetRow; 14] = [
    refused!(SYSTEM, 0, 0, 32),
    refused!(SYSTEM, 31, 0, 32),
    refused!(SYSTEM, 32, 32, 12),
    refused!(SYSTEM, 43, 32, 12),
    ended!(44, 44, 56),
    ended!(99, 44, 56),
    ended!(100, 100, 4),
    ended!(103, 100, 4),
    ended!(104, 104, 28),
    ended!(131, 104, 28),
    whole!(132),
    whole!(133),
    whole!(u64::MAX),
    // The head of a memory list.
    refused!(MEMORY64, 59, 44, 16),
];

#[test]
fn fetch_that_would_pass_the_budget_is_not_made(rt: HostRuntime) {
    for (file, budget, outcome, fetched) in &BUDGETS {
        let limits = within(&rt, 65536, 4096, *budget);
        let found = listed(rt.alloc(), file, limits);
        assert_same_at(&rt, budget, found, (*outcome, *fetched));
    }
}

#[test]
fn file_that_is_too_short_is_told_before_the_budget(rt: HostRuntime) {
    let source = Source::new(MemoryStore::new(&SYSTEM[..31]));
    let limits = within(&rt, 65536, 4096, 0);
    let (fault, source) = open_and_close(rt.alloc(), source, limits, Choice::All);
    assert_same(&rt, fault, Some(OpenFault::TooShort { size: 31 }));
    assert_same(&rt, source.fetched(), 0);
}

/// What a lister of the system answers with a budget of 99 bytes.
static REACHED: [Call; 6] = [
    Call::Entries(1),
    Call::Gives(stream!(0, 7, 56, 44)),
    Call::Fails(fault!(None, FaultKind::Budget, 44, 56)),
    Call::Skips,
    Call::Fails(fault!(None, FaultKind::Budget, 44, 56)),
    Call::HasNumbers(136, 0),
];

#[test]
fn budget_that_is_reached_stays_so(rt: HostRuntime) {
    let limits = within(&rt, 65536, 4096, 99);
    let store = MemoryStore::new(&SYSTEM);
    let size = play(&rt, rt.alloc(), "99", store, limits, Choice::All, &REACHED);
    assert_same(&rt, size, 136);
}

/// The file that a thousand entries make large.
static LARGE: FileOf = FileOf::Thousand;

#[test]
fn list_that_a_thousand_entries_name_ends_at_the_budget(rt: HostRuntime) {
    let file = made(&rt, rt.alloc(), &LARGE);
    let limits = within(&rt, 168, 0, 20000);
    let (outcome, fetched) = listed(rt.alloc(), &file, limits);
    let ListOutcome::Listed {
        fault: Some(RunFault::At(found)),
        items,
        ..
    } = outcome
    else {
        panic!(&rt; "no fault")
    };
    assert_same(&rt, (found.kind, found.index), (FaultKind::Budget, None));
    assert_that(&rt, items > 1);
    assert_that(&rt, fetched <= 20000);
    assert_that(&rt, fetched.saturating_add(u128::from(found.size)) > 20000);
}

/// A window and a budget, and the budget of limits with these, or none where there are no such limits.
static ANY_BUDGET: [(u32, u64, Option<Option<u64>>); 4] = [
    (167, 1, None),
    (168, 0, Some(Some(0))),
    (168, 1, Some(Some(1))),
    (168, u64::MAX, Some(Some(u64::MAX))),
];

#[test]
fn budgets_are_any_number(rt: HostRuntime) {
    for (window, budget, expected) in &ANY_BUDGET {
        let found = match Limits::with_budget(*window, 0, *budget) {
            Some(limits) => Some(limits.budget),
            None => None,
        };
        assert_same_at(&rt, &(*window, *budget), found, *expected);
    }
    let usual = Limits::new(168, 0).expect(&rt, "limits");
    assert_same(&rt, usual.budget, None);
}

#[test]
fn walker_is_not_opened_over_its_budget(rt: HostRuntime) {
    let source = Source::new(MemoryStore::new(&SYSTEM));
    let limits = within(&rt, 65536, 4096, 43);
    let (fault, source) = walking::open_and_close(rt.alloc(), source, limits);
    let refused = OpenFault::Budget {
        offset: 32,
        size: 12,
    };
    assert_same(&rt, fault, Some(refused));
    assert_same(&rt, source.fetched(), 32);
}

#[test]
fn walker_ends_at_its_budget(rt: HostRuntime) {
    let store = MemoryStore::new(&SYSTEM);
    let limits = within(&rt, 65536, 4096, 99);
    let mut walker = walking::open_over(&rt, rt.alloc(), store, limits, Choice::All);
    assert_that(&rt, walking::step_of(&mut walker).is_ok());
    let second = walking::step_of(&mut walker).err();
    let reached = fault!(None, FaultKind::Budget, 44, 56);
    assert_same(&rt, second, Some(reached));
    assert_same(&rt, walking::fetched_of(walker), 44);
}
