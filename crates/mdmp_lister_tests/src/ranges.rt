//! Which ranges of memory are mapped as they are given, and how many records are left then.
use crate::files::FileOf;
use crate::given::{range, stream};
use crate::playing::assert_scripts;
use crate::script::{BY_LEAST, Call, Script};
use mdmp_lister::RunFault;
use mdmp_source::Extent;
use mdmp_test_support::{MEMORY64, OVERLAPPING};

/// The Stream item of `OVERLAPPING`.
const ENTRY: Call = Call::Gives(stream!(0, 5, 36, 44));

/// Its first range.
const FIRST: Call = Call::Gives(range!(0, 0x1000, 4, Extent::Inside, 80));

/// Its second range.
const SECOND: Call = Call::Gives(range!(1, 0x1002, 4, Extent::Inside, 84));

static MAPPED: [Script<'static>; 7] = [
    Script {
        shows: "ranges are mapped as they are given",
        file: FileOf::Numbers(1, &OVERLAPPING),
        calls: &[
            Call::HasRoom(0, 2),
            ENTRY,
            Call::HasRoom(0, 2),
            FIRST,
            Call::HasRoom(1, 1),
            Call::FindsNothing(0x1004),
            SECOND,
            Call::Ends,
            Call::HasRoom(2, 0),
            Call::Finds(0x1000, 80, 4),
            Call::Finds(0x1004, 86, 2),
        ],
        ..BY_LEAST
    },
    Script {
        shows: "of a range inside, one outside, one cut, an empty one and an absent one the first is mapped",
        file: FileOf::Numbers(
            1,
            &[
                5, 84, 44, 5, 0x1000, 0, 4, 128, 0x2000, 0, 4, 400, 0x3000, 0, 8, 128, 0x4000, 0,
                0, 128, 0x5000, 0, 4, 0, 0xaaaaaaaa,
            ],
        ),
        calls: &[
            Call::HasRoom(0, 5),
            Call::Runs(u64::MAX, None, 6),
            Call::HasRoom(1, 4),
            Call::Finds(0x1001, 129, 3),
            Call::FindsNothing(0x2000),
            Call::FindsNothing(0x3000),
            Call::FindsNothing(0x4000),
            Call::FindsNothing(0x5000),
        ],
        ..BY_LEAST
    },
    Script {
        shows: "a 64-bit range without bytes in the file is not mapped",
        file: FileOf::Bytes(&MEMORY64),
        calls: &[
            Call::Runs(u64::MAX, None, 3),
            Call::HasRoom(1, 1),
            Call::Finds(0x1000, 92, 4),
            Call::FindsNothing(0x2000),
        ],
        ..BY_LEAST
    },
    Script {
        shows: "a run maps what it hands over",
        file: FileOf::Numbers(1, &OVERLAPPING),
        calls: &[
            Call::Runs(1, Some(RunFault::Stopped), 2),
            Call::HasRoom(1, 1),
            Call::Finds(0x1002, 82, 2),
            Call::RunsOn(None, 3),
            Call::HasRoom(2, 0),
        ],
        ..BY_LEAST
    },
    Script {
        shows: "no range is mapped of a list that is skipped",
        file: FileOf::Numbers(1, &OVERLAPPING),
        calls: &[ENTRY, Call::Skips, Call::Ends, Call::HasRoom(0, 2)],
        ..BY_LEAST
    },
    Script {
        shows: "one is mapped of a list that is skipped behind its first range",
        file: FileOf::Numbers(1, &OVERLAPPING),
        calls: &[ENTRY, FIRST, Call::Skips, Call::Ends, Call::HasRoom(1, 1)],
        ..BY_LEAST
    },
    Script {
        shows: "both are mapped of a list that is skipped behind them",
        file: FileOf::Numbers(1, &OVERLAPPING),
        calls: &[
            ENTRY,
            FIRST,
            SECOND,
            Call::Skips,
            Call::Ends,
            Call::HasRoom(2, 0),
        ],
        ..BY_LEAST
    },
];

#[test]
fn ranges_are_mapped_as_they_are_given(rt: HostRuntime) {
    assert_scripts(&rt, rt.alloc(), &MAPPED);
}

/// An unused entry, and a memory list of three ranges of four bytes.
const THREE: FileOf = FileOf::Numbers(
    2,
    &[
        0, 0, 0, 5, 52, 56, // the directory
        3, 0x1000, 0, 4, 4, 0x2000, 0, 4, 8, 0x3000, 0, 4, 12,
    ],
);

static LEFT: [Script<'static>; 2] = [
    Script {
        shows: "records left are told once the first was given",
        file: THREE,
        calls: &[
            Call::HasRecordsLeft(0),
            Call::Gives(stream!(0, 0, 0, 0)),
            Call::HasRecordsLeft(0),
            Call::Gives(stream!(1, 5, 52, 56)),
            Call::HasRecordsLeft(0),
            Call::Gives(range!(1, 0, 0x1000, 4, Extent::Inside, 4)),
            Call::HasRecordsLeft(2),
            Call::Gives(range!(1, 1, 0x2000, 4, Extent::Inside, 8)),
            Call::HasRecordsLeft(1),
            Call::Gives(range!(1, 2, 0x3000, 4, Extent::Inside, 12)),
            Call::HasRecordsLeft(0),
            Call::Ends,
            Call::HasRecordsLeft(0),
        ],
        ..BY_LEAST
    },
    Script {
        shows: "no record is left of an entry that is skipped",
        file: THREE,
        calls: &[
            Call::Gives(stream!(0, 0, 0, 0)),
            Call::Gives(stream!(1, 5, 52, 56)),
            Call::Gives(range!(1, 0, 0x1000, 4, Extent::Inside, 4)),
            Call::HasRecordsLeft(2),
            Call::Skips,
            Call::HasRecordsLeft(0),
            Call::Ends,
        ],
        ..BY_LEAST
    },
];

#[test]
fn records_left_are_told_behind_the_first(rt: HostRuntime) {
    assert_scripts(&rt, rt.alloc(), &LEFT);
}
