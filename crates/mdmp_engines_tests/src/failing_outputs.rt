//! Commands to outputs of which each call fails in turn, or that are full.
use crate::commands::{AddressSpan, CallWay, CommandRun, Task};
use crate::faults::told;
use crate::files::{File, bytes_of, first_of};
use crate::runs::{
    BAD_NAME, COPY_WAYS, EACH_WAY, FOUR, OF_CRASH, PARTS, RunAnswer, USUAL, WIDE_PARTS,
    WITHOUT_ITEMS, assert_wrote, run_bytes, run_within,
};
use crate::same::assert_same_at;
use crate::summary_objects::OBJECT;
use crate::texts::{CRASH_OBJECT, CRASH_SUMMARY, NAMED, NAMED_SUMMARY, SYMBOL_LINES};
use mdmp_engines::{LINE_ROOM, LineForm, ToolFault};
use mdmp_test_support::{
    CODEVIEW_RECORD, CRASH, FAULTY, FAULTY_TEXT, FAULTY_TOLD, FAULTY_VERDICTS, ListedRange,
    MEMORY64, Room, SIX, SYSTEM, SYSTEM_TEXT, WIDE_TEXT,
};
use std::alloc::Global;
use std::process::Abort;

/// Ways, what is asked of a file, what is answered, and what is written.
type SweptRow<'a> = (&'a [CallWay], Task<'a>, File<'a>, RunAnswer, File<'a>);

/// Two bytes at 0x10 and 0x12.
const LETTERS: [ListedRange; 2] = [
    ListedRange {
        start: 0x10,
        size: 1,
        rva: 80,
    },
    ListedRange {
        start: 0x12,
        size: 1,
        rva: 82,
    },
];

static SWEPT: [SweptRow<'static>; 10] = [
    (
        &COPY_WAYS,
        Task::Summary(LineForm::Text),
        File::Numbers(1, &NAMED),
        Ok(0),
        File::Text(NAMED_SUMMARY),
    ),
    (
        &COPY_WAYS,
        Task::Summary(LineForm::Text),
        File::Numbers(2, &CRASH),
        Ok(0),
        File::Text(CRASH_SUMMARY),
    ),
    (
        &EACH_WAY,
        Task::List,
        File::Bytes(&SYSTEM),
        Ok(0),
        File::Text(SYSTEM_TEXT),
    ),
    (
        &EACH_WAY,
        Task::List,
        File::Numbers(3, &FAULTY),
        Err(BAD_NAME),
        File::Text(FAULTY_TEXT),
    ),
    (
        &EACH_WAY,
        Task::Symbols,
        File::Module(30, CODEVIEW_RECORD),
        Ok(0),
        File::Text(SYMBOL_LINES),
    ),
    (
        &WITHOUT_ITEMS,
        Task::Check,
        File::Numbers(3, &FAULTY),
        Ok(2),
        File::Text(FAULTY_VERDICTS),
    ),
    (
        &WITHOUT_ITEMS,
        PARTS,
        File::Bytes(&MEMORY64),
        Ok(1),
        File::Text(WIDE_PARTS),
    ),
    (
        &WITHOUT_ITEMS,
        FOUR,
        File::Bytes(&MEMORY64),
        Ok(0),
        File::Text(WIDE_TEXT),
    ),
    (
        &WITHOUT_ITEMS,
        Task::Hex(AddressSpan {
            address: 0x10,
            length: 3,
        }),
        File::TwoRanges(&LETTERS, b"ABC"),
        Ok(0),
        File::Text("0x0000000000000010: 41 ?? 43\n"),
    ),
    (
        &COPY_WAYS,
        OF_CRASH,
        File::Numbers(6, &SIX),
        Ok(292),
        File::Numbers(2, &CRASH),
    ),
];

/// An object, which is gathered in blocks.
static SWEPT_OBJECT: [SweptRow<'static>; 1] = [(
    &[CallWay::Blocks(LINE_ROOM)],
    OBJECT,
    File::Numbers(2, &CRASH),
    Ok(0),
    File::Text(CRASH_OBJECT),
)];

/// Asserts that a run writes all, and that an output of which any call of one byte fails, or that takes any number of
/// bytes that is too few, has the first of them, which is told.
fn assert_swept_in(
    rt: &impl Abort,
    alloc: Global,
    run: &CommandRun<'_>,
    bytes: &[u8],
    answer: RunAnswer,
    whole: &[u8],
) {
    let by_one = Room { all: 4000, call: 1 };
    let room = by_one;
    let outcome = run_bytes(rt, alloc, bytes, &CommandRun { room, ..*run });
    assert_wrote(rt, &run.way, &outcome, answer, whole);
    for taken in 0..whole.len() {
        let start = first_of(rt, whole, taken);
        let out_fail_at = Some(taken as u64);
        let failing = CommandRun {
            room,
            out_fail_at,
            ..*run
        };
        let outcome = run_bytes(rt, alloc, bytes, &failing);
        assert_wrote(rt, &(run.way, taken), &outcome, Err(ToolFault::Out), start);
        let full = Room {
            all: taken,
            call: 1000,
        };
        let outcome = run_bytes(rt, alloc, bytes, &CommandRun { room: full, ..*run });
        assert_wrote(rt, &(run.way, taken), &outcome, Err(ToolFault::Out), start);
    }
}

/// Asserts it in each way, with the least window, so that a copy is written as it is read.
fn assert_swept(rt: &impl Abort, alloc: Global, rows: &[SweptRow<'_>]) {
    for (ways, task, file, answer, written) in rows {
        let bytes = bytes_of(rt, alloc, file);
        let whole = bytes_of(rt, alloc, written);
        for way in *ways {
            let run = run_within(*task, *way, (168, 48, None, None, None));
            assert_swept_in(rt, alloc, &run, &bytes, *answer, &whole);
        }
    }
}

#[test]
fn each_call_of_an_output_may_fail(rt: HostRuntime) {
    assert_swept(&rt, rt.alloc(), &SWEPT);
}

#[test]
fn each_call_of_an_output_of_an_object_may_fail(rt: HostRuntime) {
    assert_swept(&rt, rt.alloc(), &SWEPT_OBJECT);
}

/// Asserts that a last block that is refused is told in place of a fault of the file, all of which was read.
fn assert_last_block_refused(rt: &impl Abort, alloc: Global) {
    let room = Room {
        all: 100,
        call: 100,
    };
    let run = run_within(Task::List, CallWay::Blocks(2 * LINE_ROOM), USUAL);
    let bytes = bytes_of(rt, alloc, &File::Numbers(3, &FAULTY));
    let outcome = run_bytes(rt, alloc, &bytes, &CommandRun { room, ..run });
    let start = first_of(rt, FAULTY_TEXT.as_bytes(), 100);
    assert_wrote(rt, &100, &outcome, Err(ToolFault::Out), start);
    // The header, three entries, the system, the count of the modules and the first one.
    assert_same_at(rt, &100, outcome.end.fetched, 236);
}

#[test]
fn refused_last_block_is_told_in_place_of_the_fault(rt: HostRuntime) {
    assert_last_block_refused(&rt, rt.alloc());
}

/// Faults, and the line of each.
static TOLD: [(ToolFault, &str); 3] = [
    (BAD_NAME, FAULTY_TOLD),
    (ToolFault::Memory, "mdmp: out of memory\n"),
    (ToolFault::NotCopied(12), "mdmp: type 12 is not copied\n"),
];

/// Asserts that each byte of the line of a fault may be refused, and that all of it is told where none is.
fn assert_told(rt: &impl Abort, alloc: Global, rows: &[(ToolFault, &str)]) {
    for (fault, line) in rows {
        for taken in 0..line.len().saturating_add(1) {
            let room = Room { all: 2000, call: 1 };
            let (is_told, bytes) = told(rt, alloc, fault, room, Some(taken as u64));
            let start = first_of(rt, line.as_bytes(), taken);
            let found = (is_told, bytes.as_slice());
            assert_same_at(rt, &(fault, taken), found, (taken == line.len(), start));
        }
    }
}

#[test]
fn line_of_a_fault_has_the_first_bytes(rt: HostRuntime) {
    assert_told(&rt, rt.alloc(), &TOLD);
}
