//! Views over stores that fail, and outputs that refuse.
use super::{FourBytes, ViewOutcome, asked_thrice, four_bytes, view_of, write_over};
use crate::dump::view::{PART, REWIND, Wanted};
use crate::files::{ALL, CRASH_FILE, LEAST, NAMED, SIX_FILE, Sample, file_of};
use crate::same::assert_same_at;
use crate::vectors::REGION;
use crate::writer::{assert_wrote, patchy_out};
use mdmp_dump::{DumpView, ReadFault, ViewFault};
use mdmp_lister::{FaultKind, ListFault, OpenFault};
use mdmp_source::{MemoryStore, PatchyStore, SourceFault};
use mdmp_writer::WriteFault;
use std::alloc::Global;
use std::process::Abort;

/// Whether an outcome tells that a call of the store failed.
fn tells_failure(outcome: ViewOutcome) -> bool {
    let fault = match outcome {
        Err(ReadFault::Opening(OpenFault::Source(fault))) => fault,
        Err(
            ReadFault::List(
                ListFault {
                    kind: FaultKind::Source(fault),
                    ..
                },
            ),
        ) => fault,
        Ok(Err(WriteFault::View(ViewFault::Source(fault)))) => fault,
        _ => return false,
    };
    matches!(fault, SourceFault::Failed { .. })
}

/// A buffer of so many bytes, and how many calls are made: 324 bytes to open, twice the two streams, and their parts.
static CALLS: [(usize, u64); 2] = [(1, 324 + 2 * 220 + 14), (168, 778)];

/// Asserts that each of so many calls that fails is told as the thread and the exception of a file are written, and leaves
/// a first part, and that there are no more. A call gives a byte.
fn assert_calls(rt: &impl Abort, alloc: Global, room: usize, calls: u64) {
    let file = file_of(rt, alloc, &SIX_FILE);
    let expected = file_of(rt, alloc, &CRASH_FILE);
    for fail_at in 0..calls.saturating_add(1) {
        let store = PatchyStore::new(&file, &[1], Some(fail_at));
        let written = write_over(rt, alloc, store, &[3, 6], LEAST, room);
        let (is_told, size) = if fail_at < calls {
            (tells_failure(written.outcome), written.bytes.len())
        } else {
            (written.outcome == Ok(Ok(292)), expected.len())
        };
        let found = (is_told, Some(written.bytes.as_slice()));
        assert_same_at(rt, &(room, fail_at), found, (true, expected.get(..size)));
    }
}

#[test]
fn store_that_fails_leaves_a_first_part(rt: HostRuntime) {
    for (room, calls) in &CALLS {
        assert_calls(&rt, rt.alloc(), *room, *calls);
    }
}

/// A file with one region, of 108 bytes.
const REGION_FILE: Sample<'static> = Sample::Numbers(1, &REGION);

/// A call gives a byte: 108 open the file, and 64 begin its stream again and give the region.
#[test]
fn store_that_fails_at_a_region_gives_no_view(rt: HostRuntime) {
    let file = file_of(&rt, rt.alloc(), &REGION_FILE);
    for fail_at in 0..173 {
        let store = PatchyStore::new(&file, &[1], Some(fail_at));
        let outcome = write_over(&rt, rt.alloc(), store, ALL, LEAST, 168).outcome;
        let found = (matches!(outcome, Err(_)), tells_failure(outcome));
        assert_same_at(&rt, &fail_at, found, (fail_at < 108, fail_at < 172));
    }
}

/// Buffers through which the six streams are written. The third has room for some of the records.
static ROOMS: [usize; 4] = [1, 7, 200, 4096];

#[test]
fn store_of_few_bytes_a_call_gives_the_same_bytes(rt: HostRuntime) {
    let six = file_of(&rt, rt.alloc(), &SIX_FILE);
    for room in &ROOMS {
        let store = PatchyStore::new(&six, &[1, 3], None);
        let written = write_over(&rt, rt.alloc(), store, ALL, NAMED, *room);
        let found = (written.outcome, written.bytes.as_slice());
        let wrote = Ok(Ok(444));
        assert_same_at(&rt, room, found, (wrote, six.as_slice()));
    }
}

/// Asserts that an output that takes a byte a call and fails at this one has what it took of the six streams, through a
/// buffer of so many bytes.
fn assert_taken(rt: &impl Abort, alloc: Global, six: &[u8], call: u64, room: usize) {
    let mut view = view_of(rt, alloc, MemoryStore::new(six), NAMED);
    let out = patchy_out(rt, alloc, 4096, 1, Some(call));
    let expected = if call < 444 {
        Err(WriteFault::Out)
    } else {
        Ok(444)
    };
    let first = six.get(..call as usize).expect(rt, "a first part");
    assert_wrote(rt, &mut view, out, room, expected, first);
}

#[test]
fn output_that_fails_has_what_it_took(rt: HostRuntime) {
    let six = file_of(&rt, rt.alloc(), &SIX_FILE);
    for call in 0..445 {
        assert_taken(&rt, rt.alloc(), &six, call, 1);
        assert_taken(&rt, rt.alloc(), &six, call, 4096);
    }
}

/// The stack of the first thread.
const STACK: Wanted = Wanted {
    stream: 0,
    which: 0,
    at: 0,
};

/// What is answered where the pass of the stream failed.
const BEGUN: FourBytes = Err((REWIND, ViewFault::Source(SourceFault::Failed { at: 56 })));

/// What is answered where the part could not be read.
const UNREAD: FourBytes = Err((PART, ViewFault::Source(SourceFault::Failed { at: 108 })));

/// A call of the store that fails, and what is answered where the stack is asked for three times. Four calls open the
/// view, the fifth begins the stream, and the sixth is for the stack: the fault of a pass is told for good, and behind
/// the fault of a part the stream is begun again.
static STACKS: [(u64, &[FourBytes]); 3] = [
    (4, &[BEGUN, BEGUN, BEGUN]),
    (5, &[UNREAD, Ok(*b"STAK"), Ok(*b"STAK")]),
    (6, &[Ok(*b"STAK"), BEGUN, BEGUN]),
];

#[test]
fn fault_of_a_pass_is_told_for_good_and_that_of_a_part_once(rt: HostRuntime) {
    let crash = file_of(&rt, rt.alloc(), &CRASH_FILE);
    for (fail_at, expected) in &STACKS {
        let store = PatchyStore::new(&crash, &[4096], Some(*fail_at));
        let found = asked_thrice(&rt, rt.alloc(), store, LEAST, &STACK);
        assert_same_at(&rt, fail_at, found.as_slice(), *expected);
    }
}

#[test]
fn counts_of_a_view_stay_where_nothing_is_asked_of_it(rt: HostRuntime) {
    let crash = file_of(&rt, rt.alloc(), &CRASH_FILE);
    let mut view = view_of(&rt, rt.alloc(), MemoryStore::new(&crash), LEAST);
    let before = (view.passed(), view.asked());
    let stack = four_bytes(&mut view, &STACK);
    let behind = (view.passed(), view.asked(), view.fetched());
    let expected = ((0, 0), Ok(*b"STAK"), (52, 4, 276 + 52 + 4));
    assert_same_at(&rt, &"stack", (before, stack, behind), expected);
}
