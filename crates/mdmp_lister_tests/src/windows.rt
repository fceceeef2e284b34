//! Streams that pass through a window: how few fetches that takes, what a fill that fails leaves, and
//! the same items by any window.
use crate::files::{FileOf, made};
use crate::given::{Named, stream, unloaded};
use crate::opening::{close, counts_of, limits_of, list_all, opened, store_fault};
use crate::playing::{assert_script, assert_scripts};
use crate::same::assert_same_at;
use crate::script::{APART_1000, BY_LEAST, Call, ITEMS_APART, Script};
use mdmp_lister::{Choice, RunFault};
use mdmp_source::MemoryStore;
use std::alloc::Global;
use std::process::Abort;

/// Two unloaded modules, of base 1 and 2, without a name, whose records stand 24 bytes apart.
const APART_24: FileOf = FileOf::Numbers(
    1,
    &[14, 60, 44, 12, 24, 2, 1, 0, 0, 0, 0, 0, 2, 0, 0, 0, 0, 0],
);

/// Three modules.
const THREE: FileOf = FileOf::Padded(1, 85, &[4, 328, 44, 3], &[]);

/// The same behind a count and four bytes more.
const BEHIND: FileOf = FileOf::Padded(1, 86, &[4, 332, 44, 3], &[]);

/// Two modules, both named ab: a name is two fetches, of its length and of its units.
const TWO_NAMED: FileOf = FileOf::Padded(
    1,
    60,
    &[4, 220, 44, 2, 1],
    &[(9, 264), (36, 264), (58, 4), (59, 0x00620061)],
);

/// A file with one entry, a window, and how many calls and bytes all items take then, with names of up to 16 bytes.
struct SpentRow {
    shows: &'static str,
    file: FileOf,
    window: u32,
    calls: u128,
    bytes: u128,
}

/// Such a row.
macro_rules! spent {
    ($shows:expr, $file:expr, $window:expr, $calls:expr, $bytes:expr) => {
        SpentRow {
            shows: $shows,
            file: $file,
            window: $window,
            calls: $calls,
            bytes: $bytes,
        }
    };
}

static SPENT: [SpentRow; 9] = [
    spent!(
        "a stream that fits the window is one fetch",
        FileOf::Padded(1, 2704, &[4, 10804, 44, 100], &[]),
        65536,
        3,
        44 + 10804
    ),
    spent!("three modules fit", THREE, 65536, 3, 44 + 328),
    spent!(
        "two of them have no room in the least window",
        THREE,
        168,
        5,
        44 + 328
    ),
    spent!(
        "three modules fit behind four bytes more",
        BEHIND,
        65536,
        3,
        44 + 332
    ),
    spent!("two of these have no room", BEHIND, 168, 5, 44 + 332),
    spent!(
        "names leave a window as it is",
        TWO_NAMED,
        65536,
        3 + 4,
        44 + 220 + 16
    ),
    spent!(
        "names leave the least window as it is",
        TWO_NAMED,
        168,
        4 + 4,
        44 + 220 + 16
    ),
    spent!("a short stride", APART_24, 168, 3, 44 + 60),
    // The head and what the window holds behind it, and the second record alone.
    spent!(
        "a long stride is jumped over",
        APART_1000,
        168,
        4,
        44 + 168 + 168
    ),
];

/// Asserts how many calls and bytes all items of a row take.
fn assert_spent(rt: &impl Abort, alloc: Global, row: &SpentRow) {
    let file = made(rt, alloc, &row.file);
    let limits = limits_of(rt, row.window, 16);
    let mut lister = opened(rt, alloc, MemoryStore::new(&file), limits, Choice::All);
    let _ = list_all(&mut lister);
    let counts = counts_of(&lister);
    close(lister);
    let found = (counts.calls, counts.fetched);
    assert_same_at(rt, &row.shows, found, (row.calls, row.bytes));
}

#[test]
fn stream_takes_as_few_fetches_as_its_window_allows(rt: HostRuntime) {
    for row in &SPENT {
        assert_spent(&rt, rt.alloc(), row);
    }
}

/// A run over three modules that ends where this call of the store fails, behind so many items.
macro_rules! fill_fails {
    ($fail_at:expr, $at:expr, $items:expr) => {
        Script {
            shows: "a fill that fails leaves the records that are held",
            file: THREE,
            caps: &[4096],
            fail_at: Some($fail_at),
            calls: &[Call::Runs(
                u64::MAX,
                Some(RunFault::At(store_fault!(0, $at))),
                $items,
            )],
            ..BY_LEAST
        }
    };
}

static FILLS: [Script<'static>; 5] = [
    // Three modules: behind the header and the entry a fill for the head and the first of them, one for
    // the second, and one for the third.
    fill_fails!(2, 44, 1),
    fill_fails!(3, 212, 2),
    fill_fails!(4, 324, 3),
    Script {
        shows: "the items of a short stride",
        file: APART_24,
        calls: &[
            Call::Gives(stream!(0, 14, 60, 44)),
            Call::Gives(unloaded!(0, 1, Named::None)),
            Call::Gives(unloaded!(1, 2, Named::None)),
            Call::Ends,
        ],
        ..BY_LEAST
    },
    Script {
        shows: "the items of a long stride",
        file: APART_1000,
        calls: &ITEMS_APART,
        ..BY_LEAST
    },
];

#[test]
fn fill_that_fails_leaves_the_records_that_are_held(rt: HostRuntime) {
    assert_scripts(&rt, rt.alloc(), &FILLS);
}

/// The sizes of windows, each also that of the longest name.
static WINDOWS: [u32; 6] = [168, 169, 255, 1012, 65536, 1 << 20];

/// Two modules that stand 1000 bytes apart, over stores that give so many bytes a call, in turn.
static APART: [Script<'static>; 3] = [
    Script {
        shows: "whole blocks",
        file: APART_1000,
        caps: &[4096, 4096],
        calls: &ITEMS_APART,
        ..BY_LEAST
    },
    Script {
        shows: "a byte a call",
        file: APART_1000,
        caps: &[1, 1],
        calls: &ITEMS_APART,
        ..BY_LEAST
    },
    Script {
        shows: "one byte and three",
        file: APART_1000,
        caps: &[1, 3],
        calls: &ITEMS_APART,
        ..BY_LEAST
    },
];

#[test]
fn any_window_and_any_store_give_the_same_items(rt: HostRuntime) {
    for window in &WINDOWS {
        for row in &APART {
            let limits = (*window, *window);
            assert_script(&rt, rt.alloc(), &Script { limits, ..*row });
        }
    }
}
