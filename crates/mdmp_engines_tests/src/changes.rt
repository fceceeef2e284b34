//! Files that change while they are read, and copies within each budget: no limit is passed.
use crate::commands::{CallWay, CommandRun, StoreWay, Task};
use crate::copies::NEEDED;
use crate::files::{File, bytes_of};
use crate::runs::{OF_CRASH, RunOutcome, assert_wrote, run_bytes, run_over, run_within};
use crate::same::assert_same_at;
use mdmp_engines::ToolFault;
use mdmp_source::TwoFaces;
use mdmp_test_support::{CODEVIEW_RECORD, CRASH, SIX};
use std::alloc::Global;
use std::process::Abort;

/// What opening a view of the crash fetches: the header, the directory, and both streams once.
const OPENED: u64 = 32 + 72 + 52 + 168;

/// Asserts that nothing was written within this budget, nor more fetched, and why.
fn assert_over(rt: &impl Abort, budget: u64, outcome: &RunOutcome) {
    let is_right = match outcome.end.answer {
        Err(ToolFault::Budget { .. }) => budget < OPENED,
        Err(ToolFault::CopyBudget { needed }) => {
            budget >= OPENED && needed == u128::from(NEEDED)
        }
        _ => false,
    };
    let is_within = outcome.end.fetched <= u128::from(budget);
    let found = (is_right, is_within, outcome.bytes.len());
    assert_same_at(rt, &budget, found, (true, true, 0));
}

/// Asserts what comes of copies of the crash, over a store that gives so many bytes a call, within each of these
/// budgets.
fn assert_within(rt: &impl Abort, alloc: Global, cap: usize, budgets: &[u64]) {
    let six = bytes_of(rt, alloc, &File::Numbers(6, &SIX));
    let crash = bytes_of(rt, alloc, &File::Numbers(2, &CRASH));
    for budget in budgets {
        let within = (168, 0, Some(*budget), None, None);
        let run = CommandRun {
            reads: StoreWay::Patchy(&[cap], None),
            ..run_within(OF_CRASH, CallWay::Source, within)
        };
        let outcome = run_bytes(rt, alloc, &six, &run);
        if *budget < NEEDED {
            assert_over(rt, *budget, &outcome);
        } else {
            assert_wrote(rt, budget, &outcome, Ok(292), &crash);
            assert_same_at(rt, budget, outcome.end.fetched, u128::from(NEEDED));
        }
    }
}

#[test]
fn copy_is_made_within_a_budget_of_what_it_needs(rt: HostRuntime) {
    for budget in 0..NEEDED + 2 {
        assert_within(&rt, rt.alloc(), 1000, &[budget]);
    }
    let ends = [0, OPENED - 1, OPENED, NEEDED - 1, NEEDED];
    assert_within(&rt, rt.alloc(), 1, &ends);
}

/// What comes of a run over a file that is another one of the same size from this read on.
fn run_changing(
    rt: &impl Abort,
    alloc: Global,
    first: &[u8],
    second: &[u8],
    turn: u64,
    run: &CommandRun<'_>,
) -> RunOutcome {
    if first.len() != second.len() {
        rt.panic("a file of another length");
    }
    run_over(rt, alloc, TwoFaces::new(first, second, turn), run)
}

/// Asserts that copies of a file that changes keep to their budgets. The size of the thread's stack changes, by 192
/// bytes more.
fn assert_copies_kept(rt: &impl Abort, alloc: Global, budgets: &[u64]) {
    let six = bytes_of(rt, alloc, &File::Numbers(6, &SIX));
    let mut other = bytes_of(rt, alloc, &File::Numbers(6, &SIX));
    *other.get_mut(232).expect(rt, "a byte of the file") = 196;
    for turn in 0..12 {
        for budget in budgets {
            let within = (168, 0, Some(*budget), None, None);
            let run = run_within(OF_CRASH, CallWay::Source, within);
            let outcome = run_changing(rt, alloc, &six, &other, turn, &run);
            let is_kept = outcome.end.fetched <= u128::from(*budget);
            assert_same_at(rt, &(turn, budget), is_kept, true);
        }
    }
}

#[test]
fn copy_of_a_file_that_changes_keeps_to_its_budget(rt: HostRuntime) {
    let budgets = [OPENED, NEEDED - 1, NEEDED, NEEDED + 192];
    assert_copies_kept(&rt, rt.alloc(), &budgets);
}

/// Asserts that lists of a module whose record is shorter from a read on keep to their limits: the budget is that of
/// the header, the entry and the list of modules.
fn assert_lists_kept(rt: &impl Abort, alloc: Global, budget: u64) {
    let first = bytes_of(rt, alloc, &File::Module(30, CODEVIEW_RECORD));
    let second = bytes_of(rt, alloc, &File::Module(28, CODEVIEW_RECORD));
    for turn in 0..5 {
        for aside in 27..32 {
            let within = (168, 4096, Some(budget), None, Some(aside));
            let run = run_within(Task::Symbols, CallWay::Source, within);
            let outcome = run_changing(rt, alloc, &first, &second, turn, &run);
            let most = u128::from(budget).saturating_add(u128::from(aside));
            let size = if turn < 3 { 28 } else { 30 };
            let found = (
                outcome.end.fetched <= most,
                matches!(outcome.end.answer, Ok(_)),
            );
            assert_same_at(rt, &(turn, aside), found, (true, aside >= size));
        }
    }
}

#[test]
fn list_of_a_file_that_changes_keeps_to_its_limit_aside(rt: HostRuntime) {
    assert_lists_kept(&rt, rt.alloc(), 32 + 12 + 112);
}
