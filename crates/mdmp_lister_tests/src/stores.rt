//! A lister over stores that give few bytes a call, or fail.
use crate::files::FileOf;
use crate::given::{SERVICE_PACK, range, stream, system};
use crate::opening::{fault, open_and_close, patchy};
use crate::playing::assert_scripts;
use crate::same::assert_same_at;
use crate::script::{
    BY_LEAST, BY_NAMED, BY_NAMED_WALKER, BY_STANDARD, Call, ITEMS_OF_MEMORY64, STANDARD, Script,
};
use mdmp_lister::{Choice, FaultKind, OpenFault, RunFault};
use mdmp_source::{Extent, Source, SourceFault};
use mdmp_test_support::{MEMORY64, SYSTEM};
use std::alloc::Global;
use std::process::Abort;

/// What a walker gives of `SYSTEM` over a store that gives so many bytes a call, in turn.
macro_rules! walks_system {
    ($caps:expr) => {
        Script {
            shows: "a walker of a system",
            file: FileOf::Bytes(&SYSTEM),
            caps: $caps,
            calls: &[
                Call::Gives(stream!(0, 7, 56, 44)),
                Call::Counts(1),
                Call::Gives(system!(4, 7601, SERVICE_PACK)),
                Call::Ends,
            ],
            ..BY_NAMED_WALKER
        }
    };
}

/// The same of `MEMORY64`.
macro_rules! walks_memory64 {
    ($caps:expr) => {
        Script {
            shows: "a walker of 64-bit memory",
            file: FileOf::Bytes(&MEMORY64),
            caps: $caps,
            calls: &[
                Call::Gives(stream!(0, 9, 48, 44)),
                Call::Counts(2),
                Call::Gives(range!(0, 0x1000, 4, Extent::Inside, 92)),
                Call::Gives(range!(1, 0x2000, 4, Extent::Outside, 96)),
                Call::Ends,
            ],
            ..BY_NAMED_WALKER
        }
    };
}

static FEW_BYTES: [Script<'static>; 6] = [
    Script {
        shows: "a lister of a system",
        file: FileOf::Bytes(&SYSTEM),
        caps: &[1],
        calls: &[
            Call::Gives(stream!(0, 7, 56, 44)),
            Call::Gives(system!(4, 7601, SERVICE_PACK)),
            Call::Ends,
        ],
        ..BY_NAMED
    },
    Script {
        shows: "a lister of 64-bit memory",
        file: FileOf::Bytes(&MEMORY64),
        caps: &[1, 3],
        calls: &ITEMS_OF_MEMORY64,
        ..BY_LEAST
    },
    walks_system!(&[1, 1]),
    walks_system!(&[1, 3]),
    walks_memory64!(&[1, 1]),
    walks_memory64!(&[1, 3]),
];

#[test]
fn store_that_gives_few_bytes_a_call_gives_the_same_items(rt: HostRuntime) {
    assert_scripts(&rt, rt.alloc(), &FEW_BYTES);
}

/// How many bytes a store gives a call, and which call fails; and the fault that its opening has.
static REFUSED: [(usize, Option<u64>, SourceFault); 3] = [
    (1, Some(0), SourceFault::Failed { at: 0 }),
    (1, Some(43), SourceFault::Failed { at: 43 }),
    (0, None, SourceFault::ShortRead { at: 0 }),
];

/// Why a store of one system is not opened, and the size of the source that is handed back.
fn refusal(
    rt: &impl Abort,
    alloc: Global,
    cap: usize,
    fail_at: Option<u64>,
) -> (Option<OpenFault>, u64) {
    let caps = [cap];
    let source = Source::new(patchy(rt, &SYSTEM, &caps, fail_at));
    let (fault, source) = open_and_close(alloc, source, STANDARD, Choice::All);
    (fault, source.size())
}

#[test]
fn store_that_fails_at_once_is_handed_back(rt: HostRuntime) {
    for (cap, fail_at, fault) in &REFUSED {
        let expected = (Some(OpenFault::Source(*fault)), 136);
        let found = refusal(&rt, rt.alloc(), *cap, *fail_at);
        assert_same_at(&rt, &(*cap, *fail_at), found, expected);
    }
}

/// What is answered where a fault of a store of one system stands for good.
macro_rules! for_good {
    ($caps:expr, $fail_at:expr, $fault:expr, $at:expr) => {
        Script {
            shows: "a fault of the store stands for good",
            file: FileOf::Bytes(&SYSTEM),
            caps: $caps,
            fail_at: $fail_at,
            calls: &[
                Call::Gives(stream!(0, 7, 56, 44)),
                Call::Fails(fault!(None, FaultKind::Source($fault), $at, 0)),
                Call::Skips,
                Call::Fails(fault!(None, FaultKind::Source($fault), $at, 0)),
                Call::Runs(
                    0,
                    Some(RunFault::At(fault!(None, FaultKind::Source($fault), $at, 0))),
                    0
                ),
            ],
            ..BY_STANDARD
        }
    };
}

/// The fault of a call that fails, which is of the byte at this place.
macro_rules! fails_for_good {
    ($at:expr) => {
        for_good!(&[1], Some($at), SourceFault::Failed { at: $at }, $at)
    };
}

/// 44 calls that give a byte each, and one that gives none.
const NONE_AT_44: [usize; 45] = [
    1, 1, 1, 1, 1, 1, 1, 1, 1, 1, 1, 1, 1, 1, 1, 1, 1, 1, 1, 1, 1, 1, 1, 1, 1, 1, 1, 1, 1, 1, 1, 1,
    1, 1, 1, 1, 1, 1, 1, 1, 1, 1, 1, 1, 0,
];

static FOR_GOOD: [Script<'static>; 5] = [
    // One byte a call: call k is of the byte at k. The calls from 44 on are of the record, those
    // from 100 on of its name.
    fails_for_good!(44),
    fails_for_good!(99),
    fails_for_good!(100),
    fails_for_good!(131),
    for_good!(&NONE_AT_44, None, SourceFault::ShortRead { at: 44 }, 44),
];

#[test]
fn store_fault_stands_for_good(rt: HostRuntime) {
    assert_scripts(&rt, rt.alloc(), &FOR_GOOD);
}
