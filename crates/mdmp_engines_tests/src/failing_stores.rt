//! Commands over stores that give few bytes a call, of which each call fails in turn.
use crate::commands::{CallWay, CommandRun, StoreWay, Task};
use crate::copies::NEEDED;
use crate::files::{File, bytes_of, first_of};
use crate::runs::{
    BAD_NAME, COPY_WAYS, EACH_WAY, FOUR, OF_CRASH, PARTS, RunAnswer, USUAL, WIDE_PARTS,
    WITHOUT_ITEMS, Within, assert_wrote, run_bytes, run_file, run_within,
};
use crate::same::assert_same_at;
use crate::texts::{NAMED, NAMED_SUMMARY, SYMBOL_LINES};
use mdmp_engines::{LineForm, ToolFault};
use mdmp_source::SourceFault;
use mdmp_test_support::{
    CODEVIEW_RECORD, CRASH, FAULTY, FAULTY_TEXT, FAULTY_VERDICTS, MEMORY64, Room, SIX, SYSTEM,
    SYSTEM_TEXT, WIDE_TEXT,
};
use std::alloc::Global;
use std::process::Abort;

/// Bytes that are read one behind the other: how many were read before them, where the first of them stands, and how
/// many bytes were written before they were all read.
type ReadSpan = (u64, u64, usize);

/// Ways, what is asked of a file, the limits, all that is read, how many bytes that are, what is answered, and the text.
type StoreRow<'a> = (
    &'a [CallWay],
    Task<'a>,
    File<'a>,
    Within,
    &'a [ReadSpan],
    u64,
    RunAnswer,
    &'a str,
);

/// The header and the directory, before whose last byte nothing is written.
const OPENING: ReadSpan = (0, 0, 0);

static SWEPT: [StoreRow<'static>; 7] = [
    // All is read before the first line is written: after the pass the name of the program once more.
    (
        &COPY_WAYS,
        Task::Summary(LineForm::Text),
        File::Numbers(1, &NAMED),
        USUAL,
        &[OPENING, (168, 156, 0)],
        180,
        Ok(0),
        NAMED_SUMMARY,
    ),
    // Behind the directory of one entry the first two lines are written. The two zeros behind the name are not read.
    (
        &EACH_WAY,
        Task::List,
        File::Bytes(&SYSTEM),
        USUAL,
        &[OPENING, (44, 44, 117)],
        132,
        Ok(0),
        SYSTEM_TEXT,
    ),
    // The bytes of the record are read behind the line of its module.
    (
        &EACH_WAY,
        Task::Symbols,
        File::Module(30, CODEVIEW_RECORD),
        USUAL,
        &[OPENING, (44, 44, 118), (156, 156, 230)],
        186,
        Ok(0),
        SYMBOL_LINES,
    ),
    // The first entry is judged behind the 56 bytes of its system.
    (
        &WITHOUT_ITEMS,
        Task::Check,
        File::Numbers(3, &FAULTY),
        USUAL,
        &[OPENING, (124, 124, 12)],
        236,
        Ok(2),
        FAULTY_VERDICTS,
    ),
    (
        &WITHOUT_ITEMS,
        Task::Check,
        File::Numbers(3, &FAULTY),
        (168, 48, None, None, None),
        &[OPENING, (124, 124, 12)],
        236,
        Ok(2),
        FAULTY_VERDICTS,
    ),
    // So are they for a check of parts, whose lines of ranges follow the read of both.
    (
        &WITHOUT_ITEMS,
        PARTS,
        File::Bytes(&MEMORY64),
        USUAL,
        &[OPENING, (60, 44, 0)],
        108,
        Ok(1),
        WIDE_PARTS,
    ),
    // The 16 bytes of the head of the list are read, and then again with its ranges and the four bytes, before
    // anything is written.
    (
        &WITHOUT_ITEMS,
        FOUR,
        File::Bytes(&MEMORY64),
        USUAL,
        &[OPENING, (60, 44, 0)],
        112,
        Ok(0),
        WIDE_TEXT,
    ),
];

/// Where the byte stands that is read behind so many, and how many bytes are written by then.
fn place_of(spans: &[ReadSpan], read: u64) -> (u64, usize) {
    let mut found = (0, 0);
    for (before, place, written) in spans {
        if *before <= read {
            found = (place.saturating_add(read.saturating_sub(*before)), *written);
        }
    }
    found
}

/// An output that takes one byte a call.
const BY_ONE: Room = Room { all: 4000, call: 1 };

/// Asserts that each call of a store that fails is told, behind what was written up to there, and that none is left
/// behind the last of them.
fn assert_swept(rt: &impl Abort, alloc: Global, rows: &[StoreRow<'_>]) {
    for (ways, task, file, within, spans, reads, answer, text) in rows {
        let bytes = bytes_of(rt, alloc, file);
        for way in *ways {
            let run = CommandRun {
                room: BY_ONE,
                ..run_within(*task, *way, *within)
            };
            for fail_at in 0..*reads {
                let outcome = run_bytes(rt, alloc, &bytes, &failing(&run, fail_at));
                let (at, written) = place_of(*spans, fail_at);
                let fault = Err(ToolFault::Source(SourceFault::Failed { at }));
                let start = first_of(rt, text.as_bytes(), written);
                assert_wrote(rt, &(way, fail_at), &outcome, fault, start);
            }
            let outcome = run_bytes(rt, alloc, &bytes, &failing(&run, *reads));
            assert_wrote(rt, way, &outcome, *answer, text.as_bytes());
        }
    }
}

/// The same run over a store that gives one byte a call, and of which this call fails.
fn failing<'a>(run: &CommandRun<'a>, fail_at: u64) -> CommandRun<'a> {
    CommandRun {
        reads: StoreWay::Patchy(&[1], Some(fail_at)),
        ..*run
    }
}

#[test]
fn each_call_of_a_store_may_fail(rt: HostRuntime) {
    assert_swept(&rt, rt.alloc(), &SWEPT);
}

/// Asserts of a copy in each way that each call that fails is told behind a first part of it, and that the copy is
/// whole where the call behind the last one fails; and how much is written where some of them fail.
fn assert_copy_swept(rt: &impl Abort, alloc: Global, rows: &[(u64, usize)]) {
    let six = bytes_of(rt, alloc, &File::Numbers(6, &SIX));
    let crash = bytes_of(rt, alloc, &File::Numbers(2, &CRASH));
    for way in &COPY_WAYS {
        let run = run_within(OF_CRASH, *way, (168, 0, None, None, None));
        for fail_at in 0..NEEDED {
            let outcome = run_bytes(rt, alloc, &six, &failing(&run, fail_at));
            let is_start = crash.starts_with(outcome.bytes.as_slice());
            let found = (is_failed(outcome.end.answer), is_start);
            assert_same_at(rt, &(way, fail_at), found, (true, true));
        }
        let outcome = run_bytes(rt, alloc, &six, &failing(&run, NEEDED));
        assert_wrote(rt, way, &outcome, Ok(292), &crash);
        for (fail_at, written) in rows {
            let outcome = run_bytes(rt, alloc, &six, &failing(&run, *fail_at));
            let found = (is_failed(outcome.end.answer), outcome.bytes.len());
            assert_same_at(rt, &(way, fail_at), found, (true, *written));
        }
    }
}

fn is_failed(answer: RunAnswer) -> bool {
    matches!(answer, Err(ToolFault::Source(SourceFault::Failed { .. })))
}

/// Calls of a copy, and how many bytes are written where they fail: before the view is opened none, and at the last
/// one, where the buffer has gone out once.
static COPIED: [(u64, usize); 9] = [
    (0, 0),
    (31, 0),
    (32, 0),
    (103, 0),
    (104, 0),
    (155, 0),
    (156, 0),
    (323, 0),
    (NEEDED - 1, 168),
];

#[test]
fn each_call_of_a_store_that_is_copied_may_fail(rt: HostRuntime) {
    assert_copy_swept(&rt, rt.alloc(), &COPIED);
}

/// How many bytes the calls of a store give, in turn, what a list answers, and its text.
type SlowRow<'a> = (File<'a>, &'a [usize], RunAnswer, &'a str);

static SLOW: [SlowRow<'static>; 4] = [
    (File::Bytes(&SYSTEM), &[1], Ok(0), SYSTEM_TEXT),
    (File::Bytes(&SYSTEM), &[5, 2], Ok(0), SYSTEM_TEXT),
    (File::Numbers(3, &FAULTY), &[1], Err(BAD_NAME), FAULTY_TEXT),
    (
        File::Bytes(&SYSTEM),
        &[0],
        Err(ToolFault::Source(SourceFault::ShortRead { at: 0 })),
        "",
    ),
];

/// Asserts what is listed of slow stores, by three bytes a call.
fn assert_slow(rt: &impl Abort, alloc: Global, rows: &[SlowRow<'_>]) {
    for (file, caps, answer, text) in rows {
        let run = CommandRun {
            reads: StoreWay::Patchy(*caps, None),
            room: Room { all: 4000, call: 3 },
            ..run_within(Task::List, CallWay::Store, USUAL)
        };
        let outcome = run_file(rt, alloc, file, &run);
        assert_wrote(rt, text, &outcome, *answer, text.as_bytes());
    }
}

#[test]
fn slow_store_gives_the_whole_text(rt: HostRuntime) {
    assert_slow(&rt, rt.alloc(), &SLOW);
}
