//! Views that are opened within a budget and a limit of memory.
use super::two_faces;
use crate::files::{
    NAMED_ROW, RowLimits, SIX_FILE, SYSTEM_FILE, Sample, choice_of, file_of, limits_of_row,
};
use crate::same::assert_same_at;
use mdmp_dump::{FileView, ReadFault, ViewRefused};
use mdmp_lister::{Limits, OpenFault};
use mdmp_source::{MemoryStore, PatchyStore, Source, Store};
use std::alloc::Global;
use std::process::Abort;

/// What comes of opening a view of some streams: what a copy of these needs, or why they are not opened, and
/// what was fetched.
type OpenedWithin = (Result<u128, ReadFault>, u128);

/// Opens a view of the entries of these types within these limits.
fn opened_within<S: Store + Drop>(
    rt: &impl Abort,
    alloc: Global,
    store: S,
    limits: Limits,
    types: &[u32],
) -> OpenedWithin {
    match FileView::open_source(alloc, Source::new(store), limits, choice_of(rt, types)) {
        Ok(view) => (Ok(view.needed()), view.fetched()),
        Err(ViewRefused { fault, source }) => (Err(fault), source.fetched()),
    }
}

/// What opening a view of the threads and the exception of the six streams fetches: the header, the
/// directory, and both streams.
const OPENED: u64 = 32 + 72 + 52 + 168;

/// What their copy may fetch: two passes more, and 14 bytes of parts.
const NEEDED: u128 = 32 + 72 + 3 * (52 + 168) + 14;

/// What two windows take, and 24 bytes for each of six entries.
const HELD: u64 = 2 * 168 + 24 * 6;

/// Entries of a file, the least and the most of the limits within which a view of them is opened, whether these are of
/// its budget or of its memory, and what comes of each.
struct WithinRow {
    sample: Sample<'static>,
    types: &'static [u32],
    is_budget: bool,
    from: u64,
    to: u64,
    answer: Result<u128, ReadFault>,
}

/// The threads and the exception of the six streams, within a budget.
const BUDGET: WithinRow = WithinRow {
    sample: SIX_FILE,
    types: &[3, 6],
    is_budget: true,
    from: OPENED,
    to: OPENED + 1,
    answer: Ok(NEEDED),
};

/// The same, within a limit of memory.
const MEMORY: WithinRow = WithinRow {
    is_budget: false,
    from: HELD,
    to: HELD + 1,
    ..BUDGET
};

/// A system with a name, within a budget: 100 bytes are the header, the directory and the stream, and 4 the length of
/// the name. A copy passes the stream twice more, and reads the 28 bytes of the name.
const NAME: WithinRow = WithinRow {
    sample: SYSTEM_FILE,
    types: &[7],
    is_budget: true,
    from: 104,
    to: 104,
    answer: Ok(104 + 2 * 60 + 28),
};

static WITHIN: [WithinRow; 12] = [
    WithinRow {
        from: 0,
        to: 31,
        answer: Err(ReadFault::Opening(OpenFault::Budget {
            offset: 0,
            size: 32,
        })),
        ..BUDGET
    },
    WithinRow {
        from: 32,
        to: 103,
        answer: Err(ReadFault::Opening(OpenFault::Budget {
            offset: 32,
            size: 72,
        })),
        ..BUDGET
    },
    WithinRow {
        from: 104,
        to: 155,
        answer: Err(ReadFault::Opening(OpenFault::Budget {
            offset: 196,
            size: 52,
        })),
        ..BUDGET
    },
    WithinRow {
        from: 156,
        to: OPENED - 1,
        answer: Err(ReadFault::Opening(OpenFault::Budget {
            offset: 264,
            size: 168,
        })),
        ..BUDGET
    },
    BUDGET,
    WithinRow {
        from: 99,
        to: 99,
        answer: Err(ReadFault::Opening(OpenFault::Budget {
            offset: 44,
            size: 56,
        })),
        ..NAME
    },
    WithinRow {
        from: 100,
        to: 100,
        answer: Err(ReadFault::Opening(OpenFault::Budget {
            offset: 44,
            size: 60,
        })),
        ..NAME
    },
    WithinRow {
        from: 103,
        to: 103,
        answer: Err(ReadFault::Opening(OpenFault::Budget {
            offset: 44,
            size: 60,
        })),
        ..NAME
    },
    NAME,
    WithinRow {
        from: 0,
        to: 0,
        answer: Err(ReadFault::Opening(OpenFault::MemoryLimit { held: 480 })),
        ..MEMORY
    },
    WithinRow {
        from: HELD - 2,
        to: HELD - 1,
        answer: Err(ReadFault::Opening(OpenFault::MemoryLimit { held: 480 })),
        ..MEMORY
    },
    MEMORY,
];

/// Asserts what comes of opening a view of the entries of a row within this limit, of a store in memory and of one that
/// gives a byte a call, and that no more is fetched than the budget.
fn assert_opened_within(rt: &impl Abort, alloc: Global, file: &[u8], row: &WithinRow, limit: u64) {
    let within = if row.is_budget {
        RowLimits {
            budget: Some(limit),
            ..NAMED_ROW
        }
    } else {
        RowLimits {
            memory: Some(limit),
            ..NAMED_ROW
        }
    };
    let most = u128::from(within.budget.unwrap_or(u64::MAX));
    let limits = limits_of_row(rt, &within);
    let (found, fetched) = opened_within(rt, alloc, MemoryStore::new(file), limits, row.types);
    let at = (file.len(), row.is_budget, limit);
    assert_same_at(rt, &at, (found, fetched <= most), (row.answer, true));
    let slow = PatchyStore::new(file, &[1], None);
    let (found, fetched) = opened_within(rt, alloc, slow, limits, row.types);
    assert_same_at(rt, &at, (found, fetched <= most), (row.answer, true));
}

/// Asserts it of each limit of a row.
fn assert_within(rt: &impl Abort, alloc: Global, row: &WithinRow) {
    let file = file_of(rt, alloc, &row.sample);
    for limit in row.from..row.to.saturating_add(1) {
        assert_opened_within(rt, alloc, &file, row, limit);
    }
}

#[test]
fn view_is_opened_within_a_budget_and_a_limit_of_memory(rt: HostRuntime) {
    for row in &WITHIN {
        assert_within(&rt, rt.alloc(), row);
    }
}

#[test]
fn file_that_changes_is_opened_within_a_budget(rt: HostRuntime) {
    let six = file_of(&rt, rt.alloc(), &SIX_FILE);
    let mut other = file_of(&rt, rt.alloc(), &SIX_FILE);
    *other.get_mut(196).expect(&rt, "a byte of the file") = 0;
    let within = RowLimits {
        budget: Some(300),
        ..NAMED_ROW
    };
    let limits = limits_of_row(&rt, &within);
    for turn in 0..8 {
        let store = two_faces(&rt, &six, &other, turn);
        let (_, fetched) = opened_within(&rt, rt.alloc(), store, limits, &[3, 6]);
        assert_same_at(&rt, &turn, fetched <= 300, true);
    }
}
