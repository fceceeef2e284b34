//! Stores that give one byte a call, each of whose calls fails in turn: what a lister and a walker gave by
//! then, and what they answer.
use crate::files::{FileOf, made};
use crate::given::{module, range, stream};
use crate::opening::{open_and_close, patchy, store_fault};
use crate::playing::assert_script;
use crate::same::assert_same_at;
use crate::script::{BY_NAMED, BY_NAMED_WALKER, Call, NAMED, Script};
use crate::six::SIX_ITEMS;
use crate::walking;
use mdmp_lister::{Choice, OpenFault, RunFault};
use mdmp_source::{Extent, PatchyStore, Source, SourceFault};
use mdmp_test_support::{MEMORY64, SIX};
use std::alloc::Global;
use std::process::Abort;

/// Calls of a store, one behind the other: how many they are, and where the byte of the first one stands.
#[derive(Clone, Copy)]
struct StoreCalls {
    count: u64,
    place: u64,
    /// The entry that they are of, and how many items were given by then.
    entry: u32,
    given: usize,
}

/// Calls that are made for an entry, behind so many items; or those by which a file is opened.
macro_rules! calls {
    ($count:expr, $place:expr) => {
        calls!($count, $place, 0, 0)
    };
    ($count:expr, $place:expr, $entry:expr, $given:expr) => {
        StoreCalls {
            count: $count,
            place: $place,
            entry: $entry,
            given: $given,
        }
    };
}

/// A file, what is given of it, and by which calls.
struct ReadFile {
    shows: &'static str,
    file: FileOf,
    entries: u64,
    /// All its items, as calls that give them.
    items: &'static [Call],
    /// The calls by which a lister opens it, of which a walker makes the first.
    opening: &'static [StoreCalls],
    listing: &'static [StoreCalls],
}

static FILES: [ReadFile; 3] = [
    ReadFile {
        shows: "six streams",
        file: FileOf::Numbers(6, &SIX),
        entries: 6,
        items: &SIX_ITEMS,
        // The header and the directory, and the head of the memory list.
        opening: &[calls!(104, 0), calls!(4, 436)],
        listing: &[
            // The system, its name's length and that name.
            calls!(56 + 4 + 28, 104, 0, 1),
            calls!(52, 196, 1, 3),
            calls!(4, 260, 2, 5),
            calls!(168, 264, 3, 6),
            calls!(4, 436, 4, 8),
        ],
    },
    ReadFile {
        shows: "64-bit memory",
        file: FileOf::Bytes(&MEMORY64),
        entries: 1,
        items: &[
            Call::Gives(stream!(0, 9, 48, 44)),
            Call::Gives(range!(0, 0x1000, 4, Extent::Inside, 92)),
            Call::Gives(range!(1, 0x2000, 4, Extent::Outside, 96)),
        ],
        opening: &[calls!(44, 0), calls!(16, 44)],
        listing: &[calls!(48, 44, 0, 1)],
    },
    // By a fill for the head and the first module, and one for each of the others.
    ReadFile {
        shows: "a list of three modules, longer than the window",
        file: FileOf::Padded(1, 85, &[4, 328, 44, 3], &[]),
        entries: 1,
        items: &[
            Call::Gives(stream!(0, 4, 328, 44)),
            Call::Gives(module!(0, 0)),
            Call::Gives(module!(1, 0)),
            Call::Gives(module!(2, 0)),
        ],
        opening: &[calls!(44, 0)],
        listing: &[
            calls!(168, 44, 0, 1),
            calls!(112, 212, 0, 2),
            calls!(48, 324, 0, 3),
        ],
    },
];

/// Who reads a file, and how.
#[derive(Clone, Copy)]
enum Reading {
    /// A lister, by an item a call.
    Next,
    /// A lister that hands all items to a sink.
    Run,
    /// A lister that hands all verdicts to a sink.
    Check,
    /// A walker.
    Walk,
}

static READINGS: [Reading; 4] = [Reading::Next, Reading::Run, Reading::Check, Reading::Walk];

/// What is answered where a call of the store fails: what was given by then, and the fault for good.
fn failing_calls(
    rt: &impl Abort,
    alloc: Global,
    reading: Reading,
    items: &[Call],
    calls: StoreCalls,
    at: u64,
) -> Vec<Call> {
    let mut script = Vec::new(alloc);
    let fault = store_fault!(calls.entry, at);
    let ended = Some(RunFault::At(fault));
    match reading {
        Reading::Next | Reading::Walk => {
            let given = items.get(..calls.given).expect(rt, "so many items");
            script.extend_from_slice(given).expect(rt, "memory");
        }
        Reading::Run => {
            let told = Call::Runs(u64::MAX, ended, calls.given as u64);
            script.push(told).expect(rt, "memory");
        }
        Reading::Check => {
            let told = Call::Checks(u64::MAX, ended, u64::from(calls.entry));
            let begun = [told, Call::HasBegun];
            script.extend_from_slice(&begun).expect(rt, "memory");
        }
    }
    let for_good = [Call::Fails(fault), Call::Skips, Call::Fails(fault)];
    script.extend_from_slice(&for_good).expect(rt, "memory");
    script
}

/// What is answered where no call fails.
fn whole_calls(rt: &impl Abort, alloc: Global, reading: Reading, file: &ReadFile) -> Vec<Call> {
    let count = file.items.len() as u64;
    let mut script = Vec::new(alloc);
    match reading {
        Reading::Next | Reading::Walk => {
            script.extend_from_slice(file.items).expect(rt, "memory");
        }
        Reading::Run => {
            let told = Call::Runs(u64::MAX, None, count);
            let twice = [told, Call::RunsOn(None, count)];
            script.extend_from_slice(&twice).expect(rt, "memory");
        }
        Reading::Check => {
            let told = Call::Checks(u64::MAX, None, file.entries);
            script.push(told).expect(rt, "memory");
        }
    }
    script.push(Call::Ends).expect(rt, "memory");
    script
}

/// Asserts that a lister or a walker gives these answers, over a store that gives one byte a call and fails at this
/// one.
fn assert_answers(
    rt: &impl Abort,
    alloc: Global,
    reading: Reading,
    file: &ReadFile,
    fail_at: u64,
    calls: &[Call],
) {
    let by = match reading {
        Reading::Walk => BY_NAMED_WALKER,
        _ => BY_NAMED,
    };
    let script = Script {
        shows: file.shows,
        file: file.file,
        caps: &[1],
        fail_at: Some(fail_at),
        calls,
        ..by
    };
    assert_script(rt, alloc, &script);
}

/// Why a lister or a walker of a store is refused, and the size of the source that is handed back.
fn refusal_of(alloc: Global, reading: Reading, store: PatchyStore<'_>) -> (Option<OpenFault>, u64) {
    let source = Source::new(store);
    let (fault, source) = match reading {
        Reading::Walk => walking::open_and_close(alloc, source, NAMED),
        _ => open_and_close(alloc, source, NAMED, Choice::All),
    };
    (fault, source.size())
}

/// Asserts that a failure of each call that opens a file hands its source back, and gives how many these calls
/// are.
fn assert_opening(rt: &impl Abort, alloc: Global, reading: Reading, file: &ReadFile) -> u64 {
    let bytes = made(rt, alloc, &file.file);
    let opening = match reading {
        Reading::Walk => &file.opening[..file.opening.len().min(1)],
        _ => file.opening,
    };
    let mut number: u64 = 0;
    for calls in opening {
        for i in 0..calls.count {
            let at = calls.place.saturating_add(i);
            let failed = OpenFault::Source(SourceFault::Failed { at });
            let store = patchy(rt, &bytes, &[1], Some(number));
            let refusal = refusal_of(alloc, reading, store);
            let expected = (Some(failed), bytes.len() as u64);
            assert_same_at(rt, &(file.shows, number), refusal, expected);
            number = number.saturating_add(1);
        }
    }
    number
}

/// Asserts what is answered where each call from `first` on fails, and where the one behind them fails, which is
/// not made.
fn assert_listing(rt: &impl Abort, alloc: Global, reading: Reading, file: &ReadFile, first: u64) {
    let mut number = first;
    for calls in file.listing {
        for i in 0..calls.count {
            let at = calls.place.saturating_add(i);
            let script = failing_calls(rt, alloc, reading, file.items, *calls, at);
            assert_answers(rt, alloc, reading, file, number, &script);
            number = number.saturating_add(1);
        }
    }
    let script = whole_calls(rt, alloc, reading, file);
    assert_answers(rt, alloc, reading, file, number, &script);
}

#[test]
fn each_call_over_a_file_may_fail(rt: HostRuntime) {
    for file in &FILES {
        for reading in &READINGS {
            let opening = assert_opening(&rt, rt.alloc(), *reading, file);
            assert_listing(&rt, rt.alloc(), *reading, file, opening);
        }
    }
}

/// A directory of a thousand entries, which are unused, or name one list of threads; and how many bytes that takes.
static LARGE: [(FileOf, u64); 2] = [
    (FileOf::Numbers(1000, &[0; 3000]), 12_032),
    (FileOf::Thousand, 16_836),
];

/// Asserts that a store of these bytes, as many as `size`, is handed back that gives a byte, three, and none.
fn assert_handed_back(rt: &impl Abort, alloc: Global, reading: Reading, file: &FileOf, size: u64) {
    let bytes = made(rt, alloc, file);
    let store = patchy(rt, &bytes, &[1, 3, 0], None);
    let short = OpenFault::Source(SourceFault::ShortRead { at: 4 });
    let refusal = refusal_of(alloc, reading, store);
    assert_same_at(rt, &size, refusal, (Some(short), size));
}

#[test]
fn store_that_gives_nothing_is_handed_back(rt: HostRuntime) {
    for (file, size) in &LARGE {
        assert_handed_back(&rt, rt.alloc(), Reading::Next, file, *size);
        assert_handed_back(&rt, rt.alloc(), Reading::Walk, file, *size);
    }
}
