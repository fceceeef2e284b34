//! Tests of a view of a file, by its own calls and as it is written.
mod calls;
mod changes;
mod copies;
mod limits;
mod memory;
mod names;
mod refused;
mod rows;
mod stores;

use crate::dump::view::{CallFault, Wanted, first_record, raw_bytes};
use crate::files::choice_of;
use crate::writer::{patchy_out, size_of, write_view};
use mdmp_dump::{DumpView, FileView, ReadFault, ViewRefused};
use mdmp_lister::{Choice, Limits};
use mdmp_source::{Source, Store, TwoFaces};
use mdmp_writer::WriteFault;
use std::alloc::{Allocator, Global};
use std::process::Abort;

/// What came of writing a file through a view of it: how many bytes the dump has, all of which went out, or why a first part
/// alone did; or why the file gives no view.
type ViewOutcome = Result<Result<u64, WriteFault>, ReadFault>;

/// What a view counted, `needed`, what a copy needs, and `opened`, what it had fetched as it was opened.
#[derive(Clone, Copy)]
struct ViewCounts {
    held: u128,
    needed: u128,
    opened: u128,
    fetched: u128,
    passed: u128,
    asked: u128,
}

/// No view was opened.
const NOTHING: ViewCounts = ViewCounts {
    held: 0,
    needed: 0,
    opened: 0,
    fetched: 0,
    passed: 0,
    asked: 0,
};

/// What was written through a view.
#[derive(Drop)]
struct Written {
    outcome: ViewOutcome,
    /// How many bytes the dump has, as it was told before any was written; 0 where it can't be written.
    told: u64,
    bytes: Vec<u8, Global>,
    counts: ViewCounts,
}

/// Why a source gives no view of all its entries.
pub fn view_fault_of<S: Store + Drop, A: Allocator + Copy>(
    alloc: A,
    source: Source<S>,
    limits: Limits,
) -> Option<ReadFault> {
    match FileView::open(alloc, source, limits, Choice::All) {
        Ok(_) => None,
        Err(fault) => Some(fault),
    }
}

/// Why a source gives no view of these entries, and the source that comes back, or that the view had.
pub fn view_fault<S: Store + Drop, A: Allocator + Copy>(
    alloc: A,
    source: Source<S>,
    limits: Limits,
    choice: Choice,
) -> (Option<ReadFault>, Source<S>) {
    match FileView::open_source(alloc, source, limits, choice) {
        Ok(view) => (None, view.into_source()),
        Err(ViewRefused { fault, source }) => (Some(fault), source),
    }
}

/// A view of all entries of a store.
fn view_of<S: Store + Drop>(
    rt: &impl Abort,
    alloc: Global,
    store: S,
    limits: Limits,
) -> FileView<S, Global> {
    FileView::open(alloc, Source::new(store), limits, Choice::All).expect(rt, "a view")
}

/// What a view has counted by now.
fn counts_of<S: Store + Drop, A: Allocator + Copy>(
    view: &mut FileView<S, A>,
    opened: u128,
) -> ViewCounts {
    ViewCounts {
        held: view.held(),
        needed: view.needed(),
        opened,
        fetched: view.fetched(),
        passed: view.passed(),
        asked: view.asked(),
    }
}

/// Writes what a view gives, and hands on what went out.
fn outcome_of<V: DumpView>(
    rt: &impl Abort,
    alloc: Global,
    view: &mut V,
    room: usize,
) -> (ViewOutcome, Vec<u8, Global>) {
    let mut out = patchy_out(rt, alloc, 4096, 4096, None);
    let outcome = Ok(write_view(view, &mut out, room));
    let bytes = out.bytes().to_vec(alloc).expect(rt, "memory for bytes");
    (outcome, bytes)
}

/// Writes the entries of a view that is open.
fn write_opened<S: Store + Drop>(
    rt: &impl Abort,
    alloc: Global,
    opened: FileView<S, Global>,
    room: usize,
) -> Written {
    let mut view = opened;
    let fetched = view.fetched();
    let told = size_of(&mut view).unwrap_or(0);
    let (outcome, bytes) = outcome_of(rt, alloc, &mut view, room);
    Written {
        outcome,
        told,
        bytes,
        counts: counts_of(&mut view, fetched),
    }
}

/// Writes the entries of these types of a file through a view of it.
fn write_over<S: Store + Drop>(
    rt: &impl Abort,
    alloc: Global,
    store: S,
    types: &[u32],
    limits: Limits,
    room: usize,
) -> Written {
    match FileView::open(alloc, Source::new(store), limits, choice_of(rt, types)) {
        Ok(view) => write_opened(rt, alloc, view, room),
        Err(fault) => Written {
            outcome: Err(fault),
            told: 0,
            bytes: Vec::new(alloc),
            counts: NOTHING,
        },
    }
}

/// A file that becomes another one of the same length at this read.
pub fn two_faces<'a>(
    rt: &impl Abort,
    first: &'a [u8],
    second: &'a [u8],
    turn: u64,
) -> TwoFaces<'a> {
    if first.len() != second.len() {
        rt.panic("a file of another length")
    }
    TwoFaces::new(first, second, turn)
}

/// How many reads of a store it takes to open a view of all entries of this file, and how many to open one and to
/// write them through a buffer.
fn reads_of(
    rt: &impl Abort,
    alloc: Global,
    file: &[u8],
    limits: Limits,
    room: usize,
) -> (u64, u64) {
    let mut view = view_of(rt, alloc, two_faces(rt, file, file, u64::MAX), limits);
    let opened = view_of(rt, alloc, two_faces(rt, file, file, u64::MAX), limits);
    let (outcome, _) = outcome_of(rt, alloc, &mut view, room);
    let reads = opened.into_source().into_store().reads();
    match outcome {
        Ok(Ok(_)) => (reads, view.into_source().into_store().reads()),
        _ => rt.panic("a file that is written"),
    }
}

/// Four bytes of a stream, zeros where there are none, or the fault of the call that did not give them.
type FourBytes = Result<[u8; 4], CallFault>;

/// Asks for four bytes of a stream of raw bytes, or of the first record of one that has records.
fn four_bytes<V: DumpView>(view: &mut V, wanted: &Wanted) -> FourBytes {
    let mut out = [0; 4];
    let found = match raw_bytes(view, wanted, &mut out) {
        Ok(true) => return Ok(out),
        Ok(false) => first_record(view, wanted, &mut out),
        Err(fault) => Err(fault),
    };
    match found {
        Ok(_) => Ok(out),
        Err(fault) => Err(fault),
    }
}

/// What a view of a store answers that is asked three times.
fn asked_thrice<S: Store + Drop>(
    rt: &impl Abort,
    alloc: Global,
    store: S,
    limits: Limits,
    wanted: &Wanted,
) -> [FourBytes; 3] {
    let mut view = view_of(rt, alloc, store, limits);
    [
        four_bytes(&mut view, wanted),
        four_bytes(&mut view, wanted),
        four_bytes(&mut view, wanted),
    ]
}
