//! Which ranges of memory are counted when a file is opened.
use crate::files::{FileOf, crowded};
use crate::given::{range, stream};
use crate::opening::{chosen, fault, open_and_close};
use crate::playing::assert_scripts;
use crate::same::assert_same;
use crate::script::{BY_LEAST, Call, LEAST, Script};
use mdmp_lister::{Choice, FaultKind, OpenFault};
use mdmp_source::{Extent, MemoryStore, Source};
use mdmp_test_support::OVERLAPPING;
use std::alloc::Global;
use std::process::Abort;

/// What a lister of this type alone gives of two ranges, and how many of them it maps.
macro_rules! chosen_alone {
    ($stream_type:expr, $items:expr, $ranges:expr) => {
        Script {
            shows: "a list that is not chosen is not mapped",
            file: FileOf::Numbers(1, &OVERLAPPING),
            types: &[$stream_type],
            calls: &[
                Call::HasRoom(0, $ranges),
                Call::Runs(u64::MAX, None, $items),
                Call::HasRoom($ranges, 0),
            ],
            ..BY_LEAST
        }
    };
}

static COUNTED: [Script<'static>; 5] = [
    Script {
        shows: "each list adds its ranges, and a repeated one again",
        // A memory list, one of 64 bits, and the first once more; ABCD and EFGH stand behind them.
        file: FileOf::Numbers(
            3,
            &[
                5, 20, 68, 9, 32, 88, 5, 20, 68, // the directory
                1, 0x1000, 0, 4, 120, // at 68
                1, 0, 124, 0, 0x2000, 0, 4, 0, // at 88
                0x44434241, 0x48474645,
            ],
        ),
        calls: &[
            Call::HasRoom(0, 3),
            Call::Gives(stream!(0, 5, 20, 68)),
            Call::Gives(range!(0, 0x1000, 4, Extent::Inside, 120)),
            Call::HasRoom(1, 2),
            Call::Gives(stream!(1, 9, 32, 88)),
            Call::Gives(range!(1, 0, 0x2000, 4, Extent::Inside, 124)),
            Call::HasRoom(2, 1),
            Call::Gives(stream!(2, 5, 20, 68)),
            Call::Gives(range!(2, 0, 0x1000, 4, Extent::Inside, 120)),
            Call::HasRoom(3, 0),
            Call::Ends,
            Call::Finds(0x1003, 123, 1),
            Call::Finds(0x2000, 124, 4),
        ],
        ..BY_LEAST
    },
    chosen_alone!(3, 0, 0),
    chosen_alone!(9, 0, 0),
    chosen_alone!(5, 3, 2),
    Script {
        shows: "a list with a bad count is opened, and told later",
        // A memory list of 20 bytes that counts two ranges, and one that counts one.
        file: FileOf::Numbers(
            2,
            &[
                5, 20, 56, 5, 20, 76, 2, 0x1000, 0, 4, 32, 1, 0x2000, 0, 4, 36,
            ],
        ),
        calls: &[
            Call::HasRoom(0, 1),
            Call::Gives(stream!(0, 5, 20, 56)),
            Call::Fails(fault!(None, FaultKind::BadCount, 56, 2)),
            Call::HasRoom(0, 1),
            Call::Skips,
            Call::Gives(stream!(1, 5, 20, 76)),
            Call::Gives(range!(1, 0, 0x2000, 4, Extent::Inside, 36)),
            Call::Ends,
            Call::HasRoom(1, 0),
            Call::Finds(0x2000, 36, 4),
        ],
        ..BY_LEAST
    },
];

#[test]
fn ranges_of_each_chosen_list_are_counted(rt: HostRuntime) {
    assert_scripts(&rt, rt.alloc(), &COUNTED);
}

/// Why a file is refused whose ranges 16,384 entries name, its size, whether more than its counts was fetched, and
/// why without the ranges.
fn open_crowded(
    rt: &impl Abort,
    alloc: Global,
    ranges: u16,
) -> (Option<OpenFault>, u64, bool, Option<OpenFault>) {
    let crowded = crowded(rt, alloc, ranges);
    let source = Source::new(MemoryStore::new(&crowded));
    let (fault, source) = open_and_close(alloc, source, LEAST, Choice::All);
    let (size, fetched) = (source.size(), source.fetched());
    let (without, _) = open_and_close(alloc, source, LEAST, chosen(rt, &[3]));
    (fault, size, fetched > 32 + 28 * 16384, without)
}

#[test]
fn too_many_ranges_are_refused(rt: HostRuntime) {
    let refused = OpenFault::TooManyRanges { count: 268451840 };
    let found = open_crowded(&rt, rt.alloc(), 16385);
    assert_same(&rt, found, (Some(refused), 458804, false, None));
}
