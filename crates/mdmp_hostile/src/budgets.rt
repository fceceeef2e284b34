//! A file listed within a budget.

use crate::bounds::{check_bounds, counts_of};
use crate::census::{Census, Counted};
use crate::lists::{Companion, FileListed, ListEnd, ends_next, not_listed, run};
use crate::windows::open;
use mdmp_lister::{FaultKind, Limits, Lister, OpenFault, RunFault};
use mdmp_source::MemoryStore;
use std::alloc::Global;

/// A fetch that was not made since the budget had no room for it.
#[derive(Clone, Copy)]
struct UnmadeFetch {
    offset: u64,
    size: u64,
}

/// Lists a file again within what its list fetched through this window, and within half of it.
pub fn check_budgets(
    alloc: Global,
    file: &[u8],
    limits: Limits,
    whole: &FileListed,
    census: &mut Census,
) {
    let again = list_within(alloc, file, limits, whole.fetched, census);
    census.agree(
        again.end == whole.end && again.items == whole.items,
        "a budget that is enough changes the list",
    );
    census.agree(
        again.fetched == whole.fetched,
        "a budget that is enough changes what is fetched",
    );
    if whole.fetched > 0 {
        let budget = whole.fetched / 2;
        let half = list_within(alloc, file, limits, budget, census);
        check_half(&half, budget, census);
        let size = file.len() as u64;
        check_unmade(unmade_fetch(half.end), &half, budget, limits, size, census);
    }
}

/// Counts what is listed within half of what a list fetched, for which no more is fetched.
fn check_half(half: &FileListed, budget: u128, census: &mut Census) {
    census.agree(half.fetched <= budget, "more is fetched than the budget");
    census.count(Counted::Halves);
    census.add(Counted::HalvesItems, half.items);
    match half.end {
        ListEnd::Refused(_) => census.count(Counted::HalvesRefused),
        ListEnd::At(_) => census.count(Counted::HalvesEnded),
        ListEnd::Whole => {},
    }
}

/// Keeps it as trouble where the fetch at which a list ended is none that passes its budget.
fn check_unmade(
    unmade: Option<UnmadeFetch>,
    half: &FileListed,
    budget: u128,
    limits: Limits,
    file_size: u64,
    census: &mut Census,
) {
    let Some(UnmadeFetch { offset, size }) = unmade else {
        return census.keep_trouble("half of what is fetched does not reach the budget");
    };
    census.agree(
        size > 0 && size <= u64::from(limits.window.max(limits.name)),
        "a fetch of another size reaches the budget",
    );
    census.agree(
        half.fetched.saturating_add(u128::from(size)) > budget,
        "a fetch that the budget has room for reaches it",
    );
    census.agree(
        offset.saturating_add(size) <= file_size,
        "a fetch outside the file reaches the budget",
    );
}

/// The fetch that was not made, where a list ends at a budget: by a fault of no item.
fn unmade_fetch(end: ListEnd) -> Option<UnmadeFetch> {
    match end {
        ListEnd::Refused(OpenFault::Budget { offset, size }) => Some(UnmadeFetch { offset, size }),
        ListEnd::At(fault) => match (fault.kind, fault.index) {
            (FaultKind::Budget, None) => Some(UnmadeFetch {
                offset: fault.offset,
                size: fault.size,
            }),
            _ => None,
        },
        ListEnd::Refused(_) | ListEnd::Whole => None,
    }
}

/// Lists a file within a budget, beside a lister without one.
fn list_within(
    alloc: Global,
    file: &[u8],
    limits: Limits,
    budget: u128,
    census: &mut Census,
) -> FileListed {
    let within = limits_within(limits, budget, census);
    let one = open(alloc, file, within);
    let other = open(alloc, file, limits);
    match (one, other) {
        (Ok(one), Ok(other)) => list_first(one, other, within, census),
        (Err(refusal), Ok(_)) | (Err(refusal), Err(_)) => not_listed(refusal),
        (Ok(_), Err(refusal)) => {
            census.keep_trouble("a budget opens a file that is refused");
            not_listed(refusal)
        },
    }
}

/// The same limits with a budget.
fn limits_within(limits: Limits, budget: u128, census: &mut Census) -> Limits {
    let budget = u64::try_from(budget).unwrap_or(u64::MAX);
    match Limits::with_budget(limits.window, limits.name, budget) {
        Some(within) => within,
        None => {
            census.keep_trouble("limits have no room for a budget");
            limits
        },
    }
}

/// Lists what the budget of a lister has room for. The other one gives the same items, and may give more.
fn list_first<'a>(
    mut one: Lister<MemoryStore<'a>, Global>,
    other: Lister<MemoryStore<'a>, Global>,
    limits: Limits,
    census: &mut Census,
) -> FileListed {
    let mut companion = Companion::new(other, Census::new());
    let fault = run(&mut one, &mut companion);
    let end = end_within(fault, &mut one, census);
    let fetched = counts_of(&one).fetched;
    check_bounds(one, limits, census);
    FileListed {
        end,
        items: companion.items,
        fetched,
    }
}

/// How a run ended. The lister has to end so again.
fn end_within(
    fault: Option<RunFault>,
    lister: &mut Lister<MemoryStore<'_>, Global>,
    census: &mut Census,
) -> ListEnd {
    match fault {
        None => {
            census.agree(ends_next(lister, None), "the end of a list does not stay");
            ListEnd::Whole
        },
        Some(RunFault::At(fault)) => {
            census.agree(
                ends_next(lister, Some(fault)),
                "the fault of a list does not stay",
            );
            ListEnd::At(fault)
        },
        Some(RunFault::Stopped) => {
            census.keep_trouble("a budget gives other items");
            ListEnd::Whole
        },
    }
}
