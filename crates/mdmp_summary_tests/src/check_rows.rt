//! Rows of checks of small files.
use crate::files::{CRASH_SIZE, LINUX, crash_file};
use crate::same::assert_same_at;
use mdmp_lister::{Choice, Limits, Lister, RunFault, Stopped};
use mdmp_source::{MemoryStore, PatchyStore, Source, Store};
use mdmp_summary::{CheckRow, CheckRowSink, check_parts_into};
use mdmp_wire::PartName;
use std::alloc::Global;
use std::process::Abort;

/// A row as plain values: an entry, a part with its place and size or whether the entry is good, and whether it loses parts.
type RowSeen = (u32, Result<bool, (PartName, u128, u64)>, bool);

/// Keeps rows, as many as it may.
#[derive(Drop)]
struct Rows {
    kept: Vec<RowSeen>,
    most: usize,
}

fn plain(row: &CheckRow) -> RowSeen {
    match row {
        CheckRow::Part(part) => (part.entry, Err((part.part, part.offset, part.size)), true),
        CheckRow::Entry(of) => {
            let is_good = of.verdict.fault.is_none();
            (of.verdict.entry, Ok(is_good), of.loses_parts)
        }
    }
}

impl CheckRowSink for Rows {
    ghost use Rattle.std.specs.Prelude.{◌≡◌};

    ghost step = { λ old row result new. Unit {0} };

    fn take(&mut self, row: &CheckRow) -> Result<(), Stopped> {
        if self.kept.push(plain(row)).is_err() {
            return Err(Stopped);
        }
        if self.kept.len() >= self.most {
            return Err(Stopped);
        }
        Ok(())
    }
}

/// The rows of a check of a store, up to so many, and how it ends; none if the file is not opened.
fn rows_over<S: Store + Drop>(
    alloc: Global,
    store: S,
    most: usize,
) -> Option<(Vec<RowSeen>, Result<(), RunFault>)> {
    let mut rows = Rows {
        kept: Vec::new(alloc),
        most,
    };
    let source = Source::new(store);
    let Ok(mut lister) = Lister::open(alloc, source, Limits::default(), Choice::All) else {
        return None;
    };
    let end = check_parts_into(&mut lister, &mut rows);
    Some((rows.kept, end))
}

/// The rows of the crash file, cut to so many bytes.
fn assert_rows(
    rt: &impl Abort,
    alloc: Global,
    size: usize,
    most: usize,
    expected: &[RowSeen],
    stops: bool,
) {
    let file = crash_file(rt, alloc, &LINUX);
    assert!(rt; size <= file.len());
    let Some(told) = rows_over(alloc, MemoryStore::new(&file[..size]), most) else {
        panic!(rt; "a lister");
    };
    let (rows, end) = told;
    assert_same_at(rt, &size, end.is_err(), stops);
    assert_eq!(rt; &rows[..], expected, "{size}");
}

static WHOLE: [RowSeen; 5] = [
    (0, Ok(false), false),
    (1, Ok(true), false),
    (2, Ok(true), false),
    (3, Ok(true), false),
    (4, Ok(true), false),
];

/// The rows if the last byte is cut off, which is the last one of a context.
static CUT: [RowSeen; 6] = [
    (0, Ok(false), false),
    (1, Ok(true), false),
    (2, Err((PartName::Context, 596, 272)), true),
    (2, Ok(true), true),
    (3, Ok(true), false),
    (4, Ok(true), false),
];

#[test]
fn check_parts_succeeds_in_a_cut_file(rt: HostRuntime) {
    assert_rows(&rt, rt.alloc(), CRASH_SIZE, 100, &WHOLE, false);
    assert_rows(&rt, rt.alloc(), CRASH_SIZE - 1, 100, &CUT, false);
}

#[test]
fn sink_stops_at_each_row(rt: HostRuntime) {
    for most in 1..7 {
        assert_rows(&rt, rt.alloc(), CRASH_SIZE - 1, most, &CUT[..most], true);
    }
}

#[test]
fn store_that_fails_at_a_call_ends_the_check(rt: HostRuntime) {
    let file = crash_file(&rt, rt.alloc(), &LINUX);
    let mut calls = 0u32;
    for call in 0..40u64 {
        let store = PatchyStore::new(&file, &[1 << 20], Some(call));
        match rows_over(rt.alloc(), store, 100) {
            None => calls = calls.saturating_add(1),
            Some(told) => {
                let (rows, end) = told;
                if end.is_ok() {
                    assert_eq!(&rt; &rows[..], &WHOLE[..], "{call}");
                } else {
                    calls = calls.saturating_add(1);
                    assert!(&rt; end != Err(RunFault::Stopped));
                    assert!(&rt; rows.len() < WHOLE.len());
                    assert_eq!(&rt; &rows[..], &WHOLE[..rows.len()], "{call}");
                }
            }
        }
    }
    assert_same_at(&rt, &"calls", calls, 6);
}
