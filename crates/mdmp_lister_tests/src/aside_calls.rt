//! Calls beside a listing, of a lister and of a walker, over stores that give one byte a call, each of whose
//! calls fails in turn.
use crate::files::{FileOf, file_of};
use crate::given::{stream, thread};
use crate::opening::{listed_ranges, patchy, store_fault};
use crate::playing::{assert_script, assert_scripts};
use crate::same::assert_same_at;
use crate::script::{BY_LEAST, BY_NAMED_WALKER, Call, LEAST, NAMED, Script};
use crate::walking::{PartRead, assert_walk, close, open_over, part_of};
use mdmp_lister::{Choice, ListFault};
use mdmp_source::SourceFault;
use mdmp_test_support::{OVERLAPPING, THRICE};
use std::alloc::Global;
use std::process::Abort;

/// A lister of two ranges that overlap, over a store that gives one byte a call and fails at this one.
macro_rules! ranges {
    ($shows:expr, $fail_at:expr, $calls:expr) => {
        Script {
            shows: $shows,
            file: FileOf::Numbers(1, &OVERLAPPING),
            caps: &[1],
            fail_at: Some($fail_at),
            calls: $calls,
            ..BY_LEAST
        }
    };
}

/// What is answered where a call ends a read of memory with the fault of this byte, and no other.
macro_rules! read_fails {
    ($fail_at:expr, $at:expr) => {
        ranges!(
            "a call of a read of memory fails",
            $fail_at,
            &[
                Call::Runs(u64::MAX, None, 3),
                Call::ReadFails(0xfff, 8, SourceFault::Failed { at: $at }),
                Call::Reads(0xfff, b"\0ABCDyz\0", 0b0111_1110),
                Call::Ends,
            ]
        )
    };
}

static READS: [Script<'static>; 7] = [
    // 48 calls open the file, and 36 list it: then come four bytes of the first range, and two of the second.
    read_fails!(84, 80),
    read_fails!(85, 81),
    read_fails!(86, 82),
    read_fails!(87, 83),
    read_fails!(88, 86),
    read_fails!(89, 87),
    ranges!(
        "the call behind a read of memory fails",
        90,
        &[
            Call::Runs(u64::MAX, None, 3),
            Call::Reads(0xfff, b"\0ABCDyz\0", 0b0111_1110),
            Call::Ends,
        ]
    ),
];

#[test]
fn each_call_of_a_read_of_memory_may_fail(rt: HostRuntime) {
    assert_scripts(&rt, rt.alloc(), &READS);
}

/// What is answered where a call of a read of eight bytes ends it with its own fault, and no other.
macro_rules! part_fails {
    ($call:expr) => {
        ranges!(
            "a call of a part fails",
            48 + $call,
            &[
                Call::PartFails(80, 8, SourceFault::Failed { at: 80 + $call }),
                Call::HasPart(80, b"ABCDwxyz"),
                Call::Runs(u64::MAX, None, 3),
            ]
        )
    };
}

static PARTS: [Script<'static>; 9] = [
    part_fails!(0),
    part_fails!(1),
    part_fails!(2),
    part_fails!(3),
    part_fails!(4),
    part_fails!(5),
    part_fails!(6),
    part_fails!(7),
    // That call is of the list.
    ranges!(
        "the call behind a part fails",
        56,
        &[
            Call::HasPart(80, b"ABCDwxyz"),
            Call::Gives(stream!(0, 5, 36, 44)),
            Call::Fails(store_fault!(0, 44)),
        ]
    ),
];

#[test]
fn each_call_of_a_part_of_a_lister_may_fail(rt: HostRuntime) {
    assert_scripts(&rt, rt.alloc(), &PARTS);
}

/// What ended a listing of two ranges, and how many were mapped; none where they are not opened.
type RangesListed = Option<(Result<(), ListFault>, usize)>;

/// That of a listing over a store that gives one byte a call and fails at this one.
fn ranges_listed(rt: &impl Abort, alloc: Global, fail_at: u64) -> RangesListed {
    let file = file_of(rt, alloc, 1, &OVERLAPPING);
    listed_ranges(alloc, patchy(rt, &file, &[1], Some(fail_at)), LEAST)
}

/// 48 calls open the file, and 36 list it.
fn expected_ranges(fail_at: u64) -> RangesListed {
    if fail_at < 48 {
        None
    } else if fail_at < 84 {
        let at = fail_at.saturating_sub(4);
        Some((Err(store_fault!(0, at)), 0))
    } else {
        Some((Ok(()), 2))
    }
}

#[test]
fn each_call_of_a_listing_of_ranges_may_fail(rt: HostRuntime) {
    for call in 0..85 {
        let listed = ranges_listed(&rt, rt.alloc(), call);
        assert_same_at(&rt, &call, listed, expected_ranges(call));
    }
}

/// A walker of three entries that name one thread list, over a store that gives one byte a call and fails at this
/// one.
macro_rules! thrice {
    ($shows:expr, $fail_at:expr, $calls:expr) => {
        Script {
            shows: $shows,
            file: FileOf::Numbers(3, &THRICE),
            caps: &[1],
            fail_at: Some($fail_at),
            calls: $calls,
            ..BY_NAMED_WALKER
        }
    };
}

/// Asserts that the call for this byte of the list ends a count of its records, and the third entry, to which a
/// walker goes.
fn assert_third_fails(rt: &impl Abort, alloc: Global, at: u64) {
    let failed = store_fault!(2, at);
    let begins = Call::Gives(stream!(2, 3, 52, 68));
    let counted = [
        Call::Seeks(2),
        begins,
        Call::CountFails(failed),
        Call::Fails(failed),
        Call::Seeks(0),
        Call::Fails(failed),
    ];
    assert_script(rt, alloc, &thrice!("a call of a count fails", at, &counted));
    let sought = [Call::Seeks(2), begins, Call::Fails(failed)];
    assert_script(rt, alloc, &thrice!("a call of a record fails", at, &sought));
}

/// Asserts that the second call for this byte of the list ends the first entry, to which a walker goes from the
/// third.
fn assert_first_fails(rt: &impl Abort, alloc: Global, at: u64) {
    let calls = [
        Call::Seeks(2),
        Call::Gives(stream!(2, 3, 52, 68)),
        Call::Gives(thread!(2, 7)),
        Call::Seeks(0),
        Call::Gives(stream!(0, 3, 52, 68)),
        Call::Fails(store_fault!(0, at)),
    ];
    let fail_at = at.saturating_add(52);
    assert_script(
        rt,
        alloc,
        &thrice!("a call of another record fails", fail_at, &calls),
    );
}

static BEHIND: [Script<'static>; 2] = [
    thrice!(
        "the call behind a count fails",
        120,
        &[
            Call::Seeks(2),
            Call::Gives(stream!(2, 3, 52, 68)),
            Call::Counts(1),
            Call::Counts(1),
            Call::Gives(thread!(2, 7)),
            Call::Ends,
        ]
    ),
    thrice!(
        "the call behind another record fails",
        172,
        &[
            Call::Seeks(2),
            Call::Gives(stream!(2, 3, 52, 68)),
            Call::Gives(thread!(2, 7)),
            Call::Seeks(0),
            Call::Gives(stream!(0, 3, 52, 68)),
            Call::Gives(thread!(0, 7)),
        ]
    ),
];

#[test]
fn each_call_of_a_count_and_behind_a_sought_entry_may_fail(rt: HostRuntime) {
    // 68 calls open the file. The list is fetched for each of the two entries, and what is counted is not fetched again.
    for at in 68..120 {
        assert_third_fails(&rt, rt.alloc(), at);
        assert_first_fails(&rt, rt.alloc(), at);
    }
    assert_scripts(&rt, rt.alloc(), &BEHIND);
}

/// The four bytes at 72.
const WHOLE: PartRead = Some(Ok([7, 0, 0, 0]));

/// The fault of one of them.
macro_rules! failed {
    ($at:expr) => {
        Some(Err(SourceFault::Failed { at: $at }))
    };
}

/// The call of a store that fails, and what a walker answers then that is asked twice for these bytes.
static PARTS_OF_A_WALKER: [(u64, PartRead, PartRead); 5] = [
    (68, failed!(72), WHOLE),
    (69, failed!(73), WHOLE),
    (70, failed!(74), WHOLE),
    (71, failed!(75), WHOLE),
    // The call behind them is of the second part.
    (72, WHOLE, failed!(72)),
];

/// What a walker gives of the first entry.
static FIRST_ENTRY: [Call; 3] = [
    Call::Gives(stream!(0, 3, 52, 68)),
    Call::Counts(1),
    Call::Gives(thread!(0, 7)),
];

#[test]
fn each_call_of_a_part_of_a_walker_may_fail(rt: HostRuntime) {
    let file = file_of(&rt, rt.alloc(), 3, &THRICE);
    for (fail_at, first, second) in &PARTS_OF_A_WALKER {
        let store = patchy(&rt, &file, &[1], Some(*fail_at));
        let mut walker = open_over(&rt, rt.alloc(), store, NAMED, Choice::All);
        assert_same_at(&rt, fail_at, part_of(&mut walker, 72), *first);
        assert_same_at(&rt, fail_at, part_of(&mut walker, 72), *second);
        assert_walk(
            &rt,
            rt.alloc(),
            "behind the parts",
            &mut walker,
            &FIRST_ENTRY,
        );
        close(walker);
    }
}
