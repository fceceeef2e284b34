//! Sinks that stop at each item of a file in turn, and at each verdict.
use crate::files::FileOf;
use crate::given::stream;
use crate::playing::{assert_script, assert_scripts};
use crate::script::{BY_NAMED, Call, Script};
use crate::six::{SIX_ITEMS, STREAMS};
use mdmp_lister::RunFault;
use mdmp_test_support::SIX;
use std::alloc::Global;
use std::process::Abort;

/// A lister of the six streams, or of those of these types.
macro_rules! six {
    ($shows:expr, $types:expr, $calls:expr) => {
        Script {
            shows: $shows,
            file: FileOf::Numbers(6, &SIX),
            types: $types,
            calls: $calls,
            ..BY_NAMED
        }
    };
}

/// The calls that give the six streams.
static ITEMS: [Call; 9] = SIX_ITEMS;

/// The call that gives this item, or the end behind the last one.
fn comes(item: usize) -> Call {
    match ITEMS.get(item) {
        Some(call) => *call,
        None => Call::Ends,
    }
}

/// The call that gives the Stream item of this stream, or the end where there is none.
fn begins(stream: usize) -> Call {
    match STREAMS.get(stream) {
        Some(place) => comes(*place),
        None => Call::Ends,
    }
}

/// How many streams were begun when so many items had been given.
fn begun_by(count: usize) -> usize {
    let mut begun: usize = 0;
    for place in &STREAMS {
        if *place < count {
            begun = begun.saturating_add(1);
        }
    }
    begun
}

/// Asserts that a sink has the item at which it stops, and what comes behind it: an item, the rest of them, or
/// another stream.
fn assert_stops(rt: &impl Abort, alloc: Global, stop_at: usize) {
    let given = stop_at.saturating_add(1);
    let stops = Call::Runs(stop_at as u64, Some(RunFault::Stopped), given as u64);
    let next = [stops, comes(given)];
    assert_script(rt, alloc, &six!("the next item comes", &[], &next));
    let taken = [stops, Call::RunsOn(None, 9), Call::Ends];
    assert_script(rt, alloc, &six!("the same sink takes all", &[], &taken));
    let skipped = [stops, Call::Skips, begins(begun_by(given))];
    assert_script(rt, alloc, &six!("the entry is skipped", &[], &skipped));
}

#[test]
fn sink_stops_at_each_item_in_turn_and_its_entry_is_skipped(rt: HostRuntime) {
    for stop_at in 0..9 {
        assert_stops(&rt, rt.alloc(), stop_at);
    }
}

/// Asserts that a sink of verdicts has the one at which it stops, and the next stream is begun or the end comes.
fn assert_verdict(rt: &impl Abort, alloc: Global, stop_at: usize) {
    let told = stop_at.saturating_add(1);
    let stops = Call::Checks(stop_at as u64, Some(RunFault::Stopped), told as u64);
    let calls = [stops, Call::HasBegun, begins(told)];
    assert_script(rt, alloc, &six!("a sink of verdicts stops", &[], &calls));
}

#[test]
fn sink_stops_at_each_verdict_in_turn(rt: HostRuntime) {
    for stop_at in 0..6 {
        assert_verdict(&rt, rt.alloc(), stop_at);
    }
}

/// A sink of the verdicts on a system, a thread and a stream of bytes that stops at this one, and what comes then.
macro_rules! chosen_verdict {
    ($stop_at:expr, $next:expr) => {
        six!(
            "the next chosen entry comes behind a verdict",
            &[3, 7, 12],
            &[
                Call::Checks($stop_at, Some(RunFault::Stopped), $stop_at + 1),
                $next
            ]
        )
    };
}

static ENDS: [Script<'static>; 5] = [
    six!(
        "a sink that does not stop takes all items",
        &[],
        &[Call::Runs(9, None, 9), Call::Ends]
    ),
    six!(
        "a sink that does not stop takes all verdicts",
        &[],
        &[Call::Checks(6, None, 6), Call::HasBegun, Call::Ends]
    ),
    chosen_verdict!(0, Call::Gives(stream!(1, 3, 52, 196))),
    chosen_verdict!(1, Call::Gives(stream!(5, 12, 4, 440))),
    chosen_verdict!(2, Call::Ends),
];

#[test]
fn next_chosen_entry_or_the_end_comes_behind_a_sink(rt: HostRuntime) {
    assert_scripts(&rt, rt.alloc(), &ENDS);
}
