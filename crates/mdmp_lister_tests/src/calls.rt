//! The lister's calls, one by one.
use crate::files::FileOf;
use crate::given::{Named, SERVICE_PACK, stream, system, thread};
use crate::opening::{FAULTY_NAME, FAULTY_STREAM, fault};
use crate::playing::assert_scripts;
use crate::script::{BY_LEAST, BY_STANDARD, Call, Script};
use mdmp_lister::{FaultKind, RunFault};
use mdmp_test_support::{FAULTY, OVERLAPPING, SYSTEM, THRICE};

static CALLS: [Script<'static>; 9] = [
    Script {
        shows: "a lister is fresh up to its first answer",
        file: FileOf::Numbers(1, &OVERLAPPING),
        calls: &[
            Call::IsFresh(true),
            Call::Gives(stream!(0, 5, 36, 44)),
            Call::IsFresh(false),
        ],
        ..BY_LEAST
    },
    Script {
        shows: "open succeeds and lists",
        file: FileOf::Bytes(&SYSTEM),
        calls: &[
            Call::Entries(1),
            Call::Gives(stream!(0, 7, 56, 44)),
            Call::Gives(system!(4, 7601, SERVICE_PACK)),
            Call::Ends,
            Call::Ends,
        ],
        ..BY_STANDARD
    },
    Script {
        shows: "types that are not chosen are not handed over",
        file: FileOf::Numbers(3, &FAULTY),
        types: &[7],
        calls: &[Call::Runs(u64::MAX, None, 2)],
        ..BY_STANDARD
    },
    Script {
        shows: "a fault is answered until the entry is skipped",
        file: FileOf::Numbers(1, &[14, 36, 44, 12, 23, 1, 0, 0, 0, 0, 0, 0]),
        calls: &[
            Call::Gives(stream!(0, 14, 36, 44)),
            Call::Fails(fault!(None, FaultKind::BadEntrySize, 48, 23)),
            Call::Fails(fault!(None, FaultKind::BadEntrySize, 48, 23)),
            Call::Skips,
            Call::Ends,
        ],
        ..BY_STANDARD
    },
    Script {
        shows: "skipping an entry leaves the next one",
        file: FileOf::Numbers(3, &THRICE),
        calls: &[
            Call::Gives(stream!(0, 3, 52, 68)),
            Call::Skips,
            Call::Gives(stream!(1, 3, 52, 68)),
            Call::Gives(thread!(1, 7)),
            Call::Skips,
            Call::Skips,
            Call::Gives(stream!(2, 3, 52, 68)),
            Call::Skips,
            Call::Ends,
            Call::Skips,
            Call::Ends,
        ],
        ..BY_STANDARD
    },
    Script {
        shows: "skipping changes nothing before the first item",
        file: FileOf::Numbers(3, &THRICE),
        calls: &[
            Call::Skips,
            Call::Gives(stream!(0, 3, 52, 68)),
            Call::Gives(thread!(0, 7)),
        ],
        ..BY_STANDARD
    },
    Script {
        shows: "a sink that stops has the item",
        file: FileOf::Numbers(3, &THRICE),
        calls: &[
            Call::Runs(1, Some(RunFault::Stopped), 2),
            Call::Gives(stream!(1, 3, 52, 68)),
            // It stops at that one call alone.
            Call::RunsOn(None, 5),
            Call::Ends,
        ],
        ..BY_STANDARD
    },
    Script {
        shows: "a sink has the items before a fault",
        file: FileOf::Numbers(3, &FAULTY),
        calls: &[
            Call::Runs(u64::MAX, Some(RunFault::At(FAULTY_NAME)), 3),
            Call::RunsOn(Some(RunFault::At(FAULTY_NAME)), 3),
            // The entry behind it has a fault of its own.
            Call::Skips,
            Call::Gives(stream!(2, 10, 5, 236)),
            Call::Fails(FAULTY_STREAM),
        ],
        ..BY_STANDARD
    },
    Script {
        shows: "nothing is listed behind the first fault",
        file: FileOf::Numbers(3, &FAULTY),
        calls: &[
            Call::Gives(stream!(0, 7, 56, 68)),
            Call::Gives(system!(0, 0, Named::None)),
            Call::Gives(stream!(1, 4, 112, 124)),
            Call::Fails(FAULTY_NAME),
        ],
        ..BY_LEAST
    },
];

#[test]
fn each_call_of_a_lister_is_answered(rt: HostRuntime) {
    assert_scripts(&rt, rt.alloc(), &CALLS);
}
