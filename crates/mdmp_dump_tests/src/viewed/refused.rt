//! Files that give no view, and the source that comes back.
use super::view_fault_of;
use crate::dump::built::fault_of;
use crate::faults::{
    COMMENT_OUTSIDE, CONTEXT_OUTSIDE, DIRECTORY_FAILS, EXCEPTION_FAILS, HEADER_FAILS, NAME_OUTSIDE,
    RANGE_OUTSIDE, THREADS_FAIL,
};
use crate::files::{CRASH_FILE, LEAST, Sample, file_of};
use crate::same::assert_same_at;
use mdmp_dump::{FileView, PartName, ReadFault, ViewRefused};
use mdmp_lister::{Choice, FaultKind, ListFault, OpenFault};
use mdmp_source::{MemoryStore, PatchyStore, Source, SourceFault, Store};
use mdmp_test_support::{ABSENT_STACK, COMMENT, FAULTY, MEMORY64};
use std::alloc::Global;

/// Why a file gives no view, what was fetched of it by then, and why the source that comes back gives none.
type RefusedView = (ReadFault, u128, Option<ReadFault>);

/// Opens a view of all entries, and another one over the source that comes back.
fn refusal_of<S: Store + Drop>(alloc: Global, store: S) -> Option<RefusedView> {
    match FileView::open_source(alloc, Source::new(store), LEAST, Choice::All) {
        Ok(_) => None,
        Err(ViewRefused { fault, source }) => {
            let fetched = source.fetched();
            Some((fault, fetched, view_fault_of(alloc, source, LEAST)))
        }
    }
}

/// A file that gives neither a view nor a value, why, and what is fetched for the view.
struct NoViewRow {
    name: &'static str,
    sample: Sample<'static>,
    fault: ReadFault,
    fetched: u128,
}

static REFUSED: [NoViewRow; 8] = [
    NoViewRow {
        name: "a file that is too short",
        sample: Sample::Parts(&[], 31),
        fault: ReadFault::Opening(OpenFault::TooShort { size: 31 }),
        fetched: 0,
    },
    NoViewRow {
        name: "a directory outside",
        sample: Sample::Numbers(1, &[]),
        fault: ReadFault::Opening(OpenFault::DirectoryOutside {
            offset: 32,
            size: 12,
        }),
        fetched: 32,
    },
    // A system and a module, and of the module's name not even the length.
    NoViewRow {
        name: "a name outside",
        sample: Sample::Numbers(3, &FAULTY),
        fault: NAME_OUTSIDE,
        fetched: 32 + 36 + 56 + 112,
    },
    NoViewRow {
        name: "a stream outside",
        sample: Sample::Cut(1, &COMMENT, 48),
        fault: COMMENT_OUTSIDE,
        fetched: 32 + 12,
    },
    // Its head is read, and the window is filled behind it.
    NoViewRow {
        name: "a list of two threads in the room of one",
        sample: Sample::Numbers(1, &[3, 52, 44, 2, 0, 0, 0, 0, 0, 0, 0, 0, 0, 0, 0, 0]),
        fault: ReadFault::List(ListFault {
            entry: 0,
            index: None,
            kind: FaultKind::BadCount,
            offset: 44,
            size: 2,
        }),
        fetched: 32 + 12 + 52,
    },
    NoViewRow {
        name: "a context outside",
        sample: Sample::Cut(1, &ABSENT_STACK, 96),
        fault: CONTEXT_OUTSIDE,
        fetched: 32 + 12 + 52,
    },
    NoViewRow {
        name: "a range of memory outside",
        sample: Sample::Parts(&[&MEMORY64], 98),
        fault: RANGE_OUTSIDE,
        fetched: 32 + 12 + 48,
    },
    // The units are not fetched.
    NoViewRow {
        name: "a long name",
        sample: Sample::Named(b"\x02\0\0\0a\0"),
        fault: ReadFault::NameTooLong {
            entry: 0,
            index: 0,
            length: 2,
        },
        fetched: 32 + 12 + 36 + 4,
    },
];

#[test]
fn file_that_gives_no_view_gives_no_value_and_its_source_comes_back(rt: HostRuntime) {
    for row in &REFUSED {
        let file = file_of(&rt, rt.alloc(), &row.sample);
        let view = refusal_of(rt.alloc(), MemoryStore::new(&file));
        let value = fault_of(rt.alloc(), &file, LEAST, u64::MAX);
        let fault = Some(row.fault);
        let expected = (Some((row.fault, row.fetched, fault)), fault);
        assert_same_at(&rt, &row.name, (view, value), expected);
    }
}

/// Why the thread and the exception give no view over a store of which a call fails: this one of them, by their number.
static FAILING: [Option<ReadFault>; 5] = [
    // The header, the directory, and both streams, each by one read.
    Some(HEADER_FAILS),
    Some(DIRECTORY_FAILS),
    Some(THREADS_FAIL),
    Some(EXCEPTION_FAILS),
    // No read of a part is made.
    None,
];

#[test]
fn store_that_fails_once_is_handed_back_and_opened_then(rt: HostRuntime) {
    let file = file_of(&rt, rt.alloc(), &CRASH_FILE);
    let mut call: u64 = 0;
    for expected in &FAILING {
        let store = PatchyStore::new(&file, &[4096], Some(call));
        let found = match refusal_of(rt.alloc(), store) {
            Some((fault, _, again)) => (Some(fault), again),
            None => (None, None),
        };
        assert_same_at(&rt, &call, found, (*expected, None));
        call = call.saturating_add(1);
    }
}
