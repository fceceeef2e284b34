//! Files that need more memory than a limit allows, at the edge of the limit.
use crate::changes::{counting, faces};
use crate::files::{FileOf, crowded, file_of, made};
use crate::opening::{ListOutcome, all, limits_of, open_and_close, patchy};
use crate::refusals::{MeteredOpening, Opener, opened_in};
use crate::same::{assert_same, assert_same_at};
use crate::script::LEAST;
use mdmp_lister::{Choice, Limits, OpenFault};
use mdmp_source::{MemoryStore, Source};
use mdmp_test_support::{OVERLAPPING, Refusal, SYSTEM, limits};
use std::alloc::Global;
use std::process::Abort;

/// A refusal since the lists would take so many bytes.
macro_rules! over {
    ($held:expr) => {
        ListOutcome::Refused(OpenFault::MemoryLimit { held: $held })
    };
}

/// A refusal since the heap gives no block.
const NO_BLOCK: ListOutcome = ListOutcome::Refused(OpenFault::Memory);

/// What comes of a file whose items are so many, and that lists memory.
macro_rules! listed {
    ($items:expr, $mapped:expr) => {
        ListOutcome::Listed {
            fault: None,
            items: $items,
            mapped: $mapped,
        }
    };
}

/// Asserts what came of an opening, by how many growths, of which none is kept, and that its source may be opened
/// again.
fn assert_opening(
    rt: &impl Abort,
    held: u64,
    found: MeteredOpening,
    outcome: ListOutcome,
    growths: u64,
    again: ListOutcome,
) {
    let told = (found.outcome, found.growths, found.out, found.again);
    assert_same_at(rt, &(held, growths), told, (outcome, growths, 0, again));
}

/// A file, what comes of it, and the least limit of memory for that; and the growths with that limit and with a
/// byte less.
struct EdgeRow {
    opener: Opener,
    file: FileOf,
    limits: (u32, u32),
    listed: ListOutcome,
    held: u64,
    growths: (u64, u64),
}

/// Such a row.
macro_rules! edge {
    ($opener:ident, $file:expr, $name:expr, $listed:expr, $held:expr, $growths:expr) => {
        EdgeRow {
            opener: Opener::$opener,
            file: $file,
            limits: (168, $name),
            listed: $listed,
            held: $held,
            growths: $growths,
        }
    };
}

/// One entry, without a name and with one.
const ONE: FileOf = FileOf::Bytes(&SYSTEM);

/// One entry and two ranges, which a walker does not keep.
const RANGES: FileOf = FileOf::Numbers(1, &OVERLAPPING);

static EDGES: [EdgeRow; 8] = [
    edge!(Lister, ONE, 0, listed!(2, 0), 168 + 12, (2, 0)),
    edge!(Lister, ONE, 4096, listed!(2, 0), 168 + 12 + 4096, (3, 0)),
    edge!(Lister, RANGES, 0, listed!(3, 2), 168 + 12 + 48, (3, 2)),
    edge!(
        Lister,
        RANGES,
        4096,
        listed!(3, 2),
        168 + 12 + 48 + 4096,
        (4, 3)
    ),
    edge!(Walker, ONE, 0, listed!(2, 0), 168 + 12, (2, 0)),
    edge!(Walker, ONE, 4096, listed!(2, 0), 168 + 12 + 4096, (3, 0)),
    edge!(Walker, RANGES, 0, listed!(3, 0), 168 + 12, (2, 0)),
    edge!(Walker, RANGES, 4096, listed!(3, 0), 168 + 12 + 4096, (3, 0)),
];

/// Asserts an opening over each store: in memory, by a byte a call, and one whose content is not known.
fn assert_over_each_store(
    rt: &impl Abort,
    alloc: Global,
    row: &EdgeRow,
    limits: Limits,
    growth: u64,
    outcome: ListOutcome,
    growths: u64,
) {
    let bytes = made(rt, alloc, &row.file);
    let refusal = Refusal::Only(growth);
    let found = opened_in(alloc, refusal, MemoryStore::new(&bytes), limits, row.opener);
    assert_opening(rt, row.held, found, outcome, growths, row.listed);
    let slow = patchy(rt, &bytes, &[1], None);
    let found = opened_in(alloc, refusal, slow, limits, row.opener);
    assert_opening(rt, row.held, found, outcome, growths, row.listed);
    let unknown = faces(rt, &bytes, &bytes, u64::MAX);
    let found = opened_in(alloc, refusal, unknown, limits, row.opener);
    assert_opening(rt, row.held, found, outcome, growths, row.listed);
}

/// Asserts what comes of a file with a limit by so many growths, and that each of these may be refused before that.
fn assert_limited(
    rt: &impl Abort,
    alloc: Global,
    row: &EdgeRow,
    most: u64,
    growths: u64,
    outcome: ListOutcome,
) {
    let (window, name) = row.limits;
    let limits = limits_of(rt, window, name).limit_memory(most);
    for growth in 0..growths {
        let asked = growth.saturating_add(1);
        assert_over_each_store(rt, alloc, row, limits, growth, NO_BLOCK, asked);
    }
    assert_over_each_store(rt, alloc, row, limits, growths, outcome, growths);
}

#[test]
fn lister_and_walker_are_opened_at_their_limit_of_memory(rt: HostRuntime) {
    for row in &EDGES {
        let (enough, less) = row.growths;
        assert_limited(&rt, rt.alloc(), row, row.held, enough, row.listed);
        let held = u128::from(row.held);
        let most = row.held.saturating_sub(1);
        assert_limited(&rt, rt.alloc(), row, most, less, over!(held));
    }
}

/// A limit and a growth that is refused; what comes of `OVERLAPPING` by how many growths, and, if it matters,
/// what is fetched.
static REFUSED_GROWTHS: [(u64, Refusal, ListOutcome, u64, Option<u128>); 9] = [
    (228, Refusal::Only(0), NO_BLOCK, 1, None),
    (228, Refusal::Only(1), NO_BLOCK, 2, None),
    (228, Refusal::Only(2), NO_BLOCK, 3, None),
    (227, Refusal::Only(0), NO_BLOCK, 1, None),
    (227, Refusal::Only(1), NO_BLOCK, 2, None),
    (227, Refusal::Only(2), over!(228), 2, None),
    // Without the ranges there is too little as well.
    (179, Refusal::Only(0), over!(180), 0, None),
    // The header alone is fetched.
    (179, Refusal::Never, over!(180), 0, Some(32)),
    // Behind the directory and the head of the list.
    (227, Refusal::Never, over!(228), 2, Some(32 + 12 + 4)),
];

#[test]
fn growth_that_is_refused_comes_before_a_limit_that_is_tested_behind_it(rt: HostRuntime) {
    let file = file_of(&rt, rt.alloc(), 1, &OVERLAPPING);
    for (most, refusal, outcome, growths, fetched) in &REFUSED_GROWTHS {
        let limits = LEAST.limit_memory(*most);
        let store = MemoryStore::new(&file);
        let found = opened_in(rt.alloc(), *refusal, store, limits, Opener::Lister);
        assert_opening(&rt, *most, found, *outcome, *growths, all(3, 2));
        let expected = fetched.unwrap_or(found.fetched);
        assert_same_at(&rt, most, found.fetched, expected);
    }
}

/// A file, a budget if there is one, and a limit on memory; and why it is not opened then.
static FIRST_FAULTS: [(FileOf, Option<u64>, u64, OpenFault); 9] = [
    // The header and the place of the directory are tested before memory.
    (
        FileOf::Numbers(0, &[]),
        None,
        0,
        OpenFault::MemoryLimit { held: 168 },
    ),
    (
        FileOf::Bytes(b"MDMP\x93\xa7\0\0\0\0\0\0\x20\0\0\0\0\0\0\0\0\0\0\0\0\0\0\0\0\0\0"),
        None,
        0,
        OpenFault::TooShort { size: 31 },
    ),
    (FileOf::Bytes(&[0; 32]), None, 0, OpenFault::BadSignature),
    (
        FileOf::Numbers(1, &[]),
        None,
        0,
        OpenFault::DirectoryOutside {
            offset: 32,
            size: 12,
        },
    ),
    // A budget and memory are tested in the order in which a file is opened.
    (
        RANGES,
        Some(31),
        0,
        OpenFault::Budget {
            offset: 0,
            size: 32,
        },
    ),
    (RANGES, Some(32), 0, OpenFault::MemoryLimit { held: 180 }),
    (
        RANGES,
        Some(43),
        227,
        OpenFault::Budget {
            offset: 32,
            size: 12,
        },
    ),
    (
        RANGES,
        Some(47),
        227,
        OpenFault::Budget {
            offset: 44,
            size: 4,
        },
    ),
    (RANGES, Some(48), 227, OpenFault::MemoryLimit { held: 228 }),
];

#[test]
fn header_budget_and_memory_are_tested_in_the_order_in_which_a_file_is_opened(rt: HostRuntime) {
    for (file, budget, most, fault) in &FIRST_FAULTS {
        let file = made(&rt, rt.alloc(), file);
        let limits = limits!(168, 0, *budget, Some(*most));
        let source = Source::new(MemoryStore::new(&file));
        let (found, _) = open_and_close(rt.alloc(), source, limits, Choice::All);
        assert_same_at(&rt, &(*budget, *most), found, Some(*fault));
    }
}

/// Why a list that counts two ranges as far as this call, and one from there on, is not opened in so many bytes.
fn refused_at_turn(rt: &impl Abort, alloc: Global, turn: u64, most: u64) -> Option<OpenFault> {
    let two = counting(rt, alloc, 2);
    let one = counting(rt, alloc, 1);
    let source = Source::new(faces(rt, &two, &one, turn));
    open_and_close(alloc, source, LEAST.limit_memory(most), Choice::All).0
}

/// The turn of a list, which has to be opened in so many bytes, and refused in one less: its head is the third read.
static TURNS: [(u64, u64); 5] = [(0, 204), (1, 204), (2, 204), (3, 228), (4, 228)];

#[test]
fn limit_is_tested_by_the_ranges_that_were_counted_of_a_file_that_changes(rt: HostRuntime) {
    for (turn, held) in &TURNS {
        let enough = refused_at_turn(&rt, rt.alloc(), *turn, *held);
        let less = refused_at_turn(&rt, rt.alloc(), *turn, held.saturating_sub(1));
        let held = u128::from(*held);
        let over = Some(OpenFault::MemoryLimit { held });
        assert_same_at(&rt, turn, (enough, less), (None, over));
    }
}

/// How many ranges a list has that 16,384 entries name, and why it is not opened: for its memory, or for their
/// number.
static CROWDS: [(u16, OpenFault); 2] = [
    (
        16384,
        OpenFault::MemoryLimit {
            held: 168 + 12 * 16384 + 24 * (1 << 28),
        },
    ),
    (16385, OpenFault::TooManyRanges { count: 268451840 }),
];

#[test]
fn ranges_are_counted_before_their_memory(rt: HostRuntime) {
    for (ranges, fault) in &CROWDS {
        let file = crowded(&rt, rt.alloc(), *ranges);
        let source = Source::new(MemoryStore::new(&file));
        let limits = LEAST.limit_memory(1 << 26);
        let (found, _) = open_and_close(rt.alloc(), source, limits, Choice::All);
        assert_same_at(&rt, ranges, found, Some(*fault));
    }
}

#[test]
fn limits_are_set_one_by_one(rt: HostRuntime) {
    let set = LEAST.limit_memory(7).limit_aside(9);
    assert_same(&rt, (set.window, set.name, set.budget), (168, 0, None));
    assert_same(&rt, (set.memory, set.aside), (Some(7), Some(9)));
}
