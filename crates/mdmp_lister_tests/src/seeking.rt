//! Entries that a walker goes to.
use crate::files::FileOf;
use crate::given::{stream, thread};
use crate::opening::{fault, store_fault};
use crate::playing::assert_scripts;
use crate::script::{BY_WALKER, Call, Script};
use mdmp_lister::{FaultKind, ListFault};
use mdmp_test_support::THRICE;

/// A list of two threads that three entries name, and an entry of five bytes that stands outside.
const TWO_THREADS: FileOf = FileOf::Padded(
    4,
    37,
    &[3, 100, 80, 3, 100, 80, 3, 100, 80, 10, 5, 1000, 2, 7],
    &[(25, 8)],
);

/// The fault of that entry.
const OUTSIDE: ListFault = fault!(3, None, FaultKind::StreamOutside, 1000, 5);

/// The Stream item of an entry.
macro_rules! begins {
    ($entry:expr) => {
        Call::Gives(stream!($entry, 3, 100, 80))
    };
}

/// Its first thread.
macro_rules! first {
    ($entry:expr) => {
        Call::Gives(thread!($entry, 7))
    };
}

/// Its second thread.
macro_rules! second {
    ($entry:expr) => {
        Call::Gives(thread!($entry, 1, 8))
    };
}

/// The Stream item of the entry that stands outside.
const BEGINS_OUTSIDE: Call = Call::Gives(stream!(3, 10, 5, 1000));

/// What a walker of the threads gives that goes to the second entry behind these calls.
macro_rules! sought_behind {
    ($shows:expr, $($call:expr),+) => {
        Script {
            shows: $shows,
            file: TWO_THREADS,
            types: &[3],
            calls: &[
                $($call,)+
                Call::Seeks(1),
                Call::CannotCount,
                Call::Skips,
                begins!(1),
                Call::Counts(2),
                first!(1),
                second!(1),
                begins!(2),
                first!(2),
                second!(2),
                Call::Ends,
            ],
            ..BY_WALKER
        }
    };
}

static SOUGHT: [Script<'static>; 7] = [
    sought_behind!("fresh", Call::Entries(4), Call::CannotCount),
    sought_behind!("behind a Stream item", begins!(0)),
    sought_behind!("whose records are counted", begins!(0), Call::Counts(2)),
    sought_behind!("in a stream", begins!(0), first!(0)),
    sought_behind!(
        "behind its last record",
        begins!(0),
        first!(0),
        second!(0),
        Call::CannotCount
    ),
    sought_behind!(
        "behind an entry that was skipped",
        begins!(0),
        first!(0),
        Call::Skips
    ),
    sought_behind!(
        "at the end",
        begins!(0),
        first!(0),
        second!(0),
        begins!(1),
        first!(1),
        second!(1),
        begins!(2),
        first!(2),
        second!(2),
        Call::Ends,
        Call::Ends
    ),
];

#[test]
fn entry_is_sought_wherever_a_listing_stands(rt: HostRuntime) {
    assert_scripts(&rt, rt.alloc(), &SOUGHT);
}

static SOUGHT_ONCE_MORE: [Script<'static>; 5] = [
    sought_behind!("behind another", Call::Seeks(2)),
    sought_behind!(
        "behind the Stream item of another",
        Call::Seeks(2),
        begins!(2)
    ),
    sought_behind!(
        "behind one that is not there",
        begins!(0),
        Call::CannotSeek(4)
    ),
    // The entry is not chosen.
    sought_behind!(
        "behind a fault of an entry",
        Call::Seeks(3),
        BEGINS_OUTSIDE,
        Call::Fails(OUTSIDE),
        Call::Fails(OUTSIDE)
    ),
    sought_behind!(
        "behind a fault in the place of a count",
        Call::Seeks(3),
        BEGINS_OUTSIDE,
        Call::CountFails(OUTSIDE)
    ),
];

#[test]
fn entry_is_sought_behind_another_and_behind_a_fault(rt: HostRuntime) {
    assert_scripts(&rt, rt.alloc(), &SOUGHT_ONCE_MORE);
}

/// The fault of an entry of five bytes that stands outside.
const FIVE_OUTSIDE: ListFault = fault!(2, None, FaultKind::StreamOutside, 130, 5);

/// The fault of a thread list of three bytes.
const SHORT: ListFault = fault!(3, None, FaultKind::ShortStream, 80, 3);

/// What is answered over a store that fails where it reads the head of a stream, if this is told.
macro_rules! not_sought {
    ($shows:expr, $told:expr) => {
        Script {
            shows: $shows,
            file: FileOf::Numbers(3, &THRICE),
            caps: &[4096],
            fail_at: Some(2),
            calls: &[
                Call::Seeks(2),
                Call::Gives(stream!(2, 3, 52, 68)),
                $told,
                Call::Seeks(0),
                Call::Skips,
                Call::Fails(store_fault!(2, 68)),
                Call::Fails(store_fault!(2, 68)),
                Call::CannotCount,
            ],
            ..BY_WALKER
        }
    };
}

static FAULTS: [Script<'static>; 3] = [
    Script {
        shows: "an entry that is not chosen may be sought",
        // An unused entry, a thread list, one of five bytes that stands outside, and a thread list of three bytes.
        file: FileOf::Numbers(
            4,
            &[
                0, 0, 0, 3, 52, 80, 10, 5, 130, 3, 3, 80, 1, 7, 0, 0, 0, 0, 0, 0, 0, 0, 0, 0, 0,
            ],
        ),
        types: &[3],
        calls: &[
            Call::Seeks(0),
            Call::Gives(stream!(0, 0, 0, 0)),
            Call::Counts(0),
            Call::Gives(stream!(1, 3, 52, 80)),
            Call::Counts(1),
            // The entry that is not chosen is passed, but a fault of one that is sought is told.
            Call::Skips,
            Call::Gives(stream!(3, 3, 3, 80)),
            Call::Seeks(2),
            Call::Gives(stream!(2, 10, 5, 130)),
            Call::CountFails(FIVE_OUTSIDE),
            Call::CountFails(FIVE_OUTSIDE),
            Call::Fails(FIVE_OUTSIDE),
            Call::Fails(FIVE_OUTSIDE),
            Call::CannotCount,
            // It stays until an entry is skipped or sought.
            Call::Skips,
            Call::Gives(stream!(3, 3, 3, 80)),
            Call::CountFails(SHORT),
            Call::Fails(SHORT),
            Call::Seeks(0),
            Call::Gives(stream!(0, 0, 0, 0)),
        ],
        ..BY_WALKER
    },
    not_sought!(
        "no entry is sought behind a count that the store fails",
        Call::CountFails(store_fault!(2, 68))
    ),
    not_sought!(
        "no entry is sought behind a record that the store fails",
        Call::Fails(store_fault!(2, 68))
    ),
];

#[test]
fn entry_that_is_not_chosen_is_sought_but_none_behind_a_fault_of_the_store(rt: HostRuntime) {
    assert_scripts(&rt, rt.alloc(), &FAULTS);
}
