//! Commands without limits, each of whose growths is refused, over each store.
use crate::commands::{CallWay, CommandRun, StoreWay, Task};
use crate::copies::HELD;
use crate::files::{File, bytes_of};
use crate::runs::{
    BAD_NAME, COPY_WAYS, EACH_WAY, FOUR, OF_CRASH, PARTS, RunAnswer, WIDE_PARTS, WITHOUT_ITEMS,
    Within, assert_wrote, run_bytes, run_within,
};
use crate::same::assert_same_at;
use crate::summary_objects::OBJECT;
use crate::texts::{
    CRASH_OBJECT, CRASH_SUMMARY, NAMED, NAMED_OBJECT, NAMED_SUMMARY, SIX_TEXT, SYMBOL_LINES,
};
use mdmp_engines::{LineForm, ToolFault};
use mdmp_test_support::{
    CODEVIEW_RECORD, CRASH, FAULTY, FAULTY_TEXT, FAULTY_VERDICTS, MEMORY64, Room, SIX, SYSTEM,
    SYSTEM_TEXT, WIDE_TEXT,
};
use std::alloc::Global;
use std::process::Abort;

/// What is asked of a file, in which ways and within which limits; what is answered and written; and by how many
/// growths, of how many bytes, where that is told.
#[derive(Clone, Copy)]
pub struct GrownRow<'a> {
    pub file: File<'a>,
    pub task: Task<'a>,
    pub ways: &'a [CallWay],
    pub within: Within,
    pub answer: RunAnswer,
    pub written: File<'a>,
    pub growths: u64,
    pub asked: Option<u64>,
}

/// A store in memory, one that gives a byte a call, and one whose content is not known.
static EACH_STORE: [StoreWay<'static>; 3] = [
    StoreWay::Whole,
    StoreWay::Patchy(&[1], None),
    StoreWay::Unknown,
];

/// Asserts what a run answers and writes over each store; by how many growths, of how many bytes, where that is told,
/// and that all blocks are given back.
fn assert_grown(
    rt: &impl Abort,
    alloc: Global,
    bytes: &[u8],
    run: &CommandRun<'_>,
    (answer, written): (RunAnswer, &[u8]),
    (growths, asked): (u64, Option<u64>),
) {
    let at = (run.way, run.growth);
    for reads in &EACH_STORE {
        let reads = *reads;
        let outcome = run_bytes(rt, alloc, bytes, &CommandRun { reads, ..*run });
        assert_wrote(rt, &at, &outcome, answer, written);
        let heap = outcome.heap;
        let found = (heap.growths, heap.out, heap.bytes);
        assert_same_at(rt, &at, found, (growths, 0, asked.unwrap_or(heap.bytes)));
    }
}

/// Asserts it of each row in each way, and that each growth may be refused before anything is written.
pub fn assert_rows(rt: &impl Abort, alloc: Global, rows: &[GrownRow<'_>]) {
    for row in rows {
        let GrownRow {
            file,
            task,
            ways,
            within,
            answer,
            written,
            growths,
            asked,
        } = row;
        let bytes = bytes_of(rt, alloc, file);
        let whole = bytes_of(rt, alloc, written);
        let room = Room {
            all: whole.len().saturating_add(100),
            call: 100,
        };
        for way in *ways {
            let run = CommandRun {
                room,
                ..run_within(*task, *way, *within)
            };
            for number in 0..*growths {
                let growth = Some(number);
                let refused = CommandRun { growth, ..run };
                let wanted = (Err(ToolFault::Memory), b"".as_slice());
                let counts = (number.saturating_add(1), None);
                assert_grown(rt, alloc, &bytes, &refused, wanted, counts);
            }
            let wanted = (*answer, whole.as_slice());
            assert_grown(rt, alloc, &bytes, &run, wanted, (*growths, *asked));
        }
    }
}

const GOOD: File<'static> = File::Bytes(&SYSTEM);

pub const WIDE: File<'static> = File::Bytes(&MEMORY64);

pub const SIX_FILE: File<'static> = File::Numbers(6, &SIX);

const SIX_VERDICTS: &str = "entry 0: ok
entry 1: ok
entry 2: ok
entry 3: ok
entry 4: ok
entry 5: ok\n";

/// The threads and the exception of that file.
pub const CRASH_FILE: File<'static> = File::Numbers(2, &CRASH);

/// The file whose second entry and third one are bad.
const BAD_TWICE: File<'static> = File::Numbers(3, &FAULTY);

/// The file of a module with a CodeView record of 30 bytes that lies inside it.
pub const MODULE: File<'static> = File::Module(30, CODEVIEW_RECORD);

/// Nothing is written.
pub const NOTHING: File<'static> = File::Bytes(b"");

/// A command without limits.
pub const UNBOUNDED: GrownRow<'static> = GrownRow {
    file: SIX_FILE,
    task: Task::Check,
    ways: &WITHOUT_ITEMS,
    within: (168, 28, None, None, None),
    answer: Ok(0),
    written: NOTHING,
    growths: 3,
    asked: None,
};

/// Commands without limits: a directory, a window and a name; and where memory is printed, a map of the ranges, the
/// bytes, and which of them are known; where streams are copied, a directory, a window, two lists and a buffer.
static UNLIMITED: [GrownRow<'static>; 12] = [
    GrownRow {
        file: File::Numbers(1, &NAMED),
        task: Task::Summary(LineForm::Text),
        ways: &COPY_WAYS,
        written: File::Text(NAMED_SUMMARY),
        growths: 4,
        ..UNBOUNDED
    },
    GrownRow {
        file: CRASH_FILE,
        task: Task::Summary(LineForm::Text),
        ways: &COPY_WAYS,
        written: File::Text(CRASH_SUMMARY),
        ..UNBOUNDED
    },
    // The object takes room for the name of a symbol file too.
    GrownRow {
        file: File::Numbers(1, &NAMED),
        task: OBJECT,
        written: File::Text(NAMED_OBJECT),
        growths: 5,
        ..UNBOUNDED
    },
    GrownRow {
        task: Task::List,
        ways: &EACH_WAY,
        written: File::Text(SIX_TEXT),
        ..UNBOUNDED
    },
    GrownRow {
        written: File::Text(SIX_VERDICTS),
        ..UNBOUNDED
    },
    GrownRow {
        file: WIDE,
        task: PARTS,
        answer: Ok(1),
        written: File::Text(WIDE_PARTS),
        growths: 4,
        ..UNBOUNDED
    },
    GrownRow {
        task: FOUR,
        written: File::Text("0x0000000000001000: ?? ?? ?? ??\n"),
        growths: 5,
        ..UNBOUNDED
    },
    GrownRow {
        task: OF_CRASH,
        ways: &COPY_WAYS,
        answer: Ok(292),
        written: CRASH_FILE,
        growths: 5,
        ..UNBOUNDED
    },
    GrownRow {
        file: WIDE,
        task: FOUR,
        written: File::Text(WIDE_TEXT),
        growths: 6,
        ..UNBOUNDED
    },
    GrownRow {
        file: GOOD,
        written: File::Text("entry 0: ok\n"),
        ..UNBOUNDED
    },
    GrownRow {
        file: GOOD,
        task: Task::List,
        ways: &EACH_WAY,
        written: File::Text(SYSTEM_TEXT),
        ..UNBOUNDED
    },
    // The record of a module takes no memory.
    GrownRow {
        file: MODULE,
        task: Task::Symbols,
        ways: &EACH_WAY,
        written: File::Text(SYMBOL_LINES),
        ..UNBOUNDED
    },
];

/// A command over a store.
const BY_STORE: GrownRow<'static> = GrownRow {
    ways: &[CallWay::Store],
    ..UNBOUNDED
};

/// A copy of unused entries, by a window of 176 bytes.
const COPY_OF_ZEROS: GrownRow<'static> = GrownRow {
    file: File::Zeros(1),
    task: Task::Copy(&[0]),
    ways: &[CallWay::Store],
    within: (176, 0, None, None, None),
    growths: 5,
    ..UNBOUNDED
};

/// The summary of `NAMED`, whose name is over the limit.
const LONG_SUMMARY: &str = "a.dmp: no crash
  program (name of 8 bytes)
  written not set
  streams 1 threads 0 modules 1 exceptions 0 ranges 0 memory 0
  file good\n";

/// The bytes of these growths are counted.
static COUNTED: [GrownRow<'static>; 10] = [
    // A name over the limit takes no memory of its own.
    GrownRow {
        file: File::Numbers(1, &NAMED),
        task: Task::Summary(LineForm::Text),
        within: (168, 6, None, None, None),
        written: File::Text(LONG_SUMMARY),
        asked: Some(12 + 168 + 6),
        ..BY_STORE
    },
    GrownRow {
        file: BAD_TWICE,
        within: (168, 48, None, None, None),
        answer: Ok(2),
        written: File::Text(FAULTY_VERDICTS),
        asked: Some(36 + 168 + 48),
        ..BY_STORE
    },
    GrownRow {
        file: BAD_TWICE,
        task: Task::List,
        within: (168, 48, None, None, None),
        answer: Err(BAD_NAME),
        written: File::Text(FAULTY_TEXT),
        asked: Some(36 + 168 + 48),
        ..BY_STORE
    },
    GrownRow {
        file: WIDE,
        task: FOUR,
        within: (168, 0, None, None, None),
        written: File::Text(WIDE_TEXT),
        growths: 5,
        asked: Some(12 + 168 + 2 * 24 + 2 * 4),
        ..BY_STORE
    },
    GrownRow {
        task: OF_CRASH,
        within: (168, 0, None, None, None),
        answer: Ok(292),
        written: CRASH_FILE,
        growths: 5,
        asked: Some(HELD),
        ..BY_STORE
    },
    // Room for the name of a symbol file: as many bytes as the limit, or as the file if those are fewer.
    GrownRow {
        file: CRASH_FILE,
        task: OBJECT,
        ways: &[CallWay::Source],
        within: (168, 48, None, None, None),
        written: File::Text(CRASH_OBJECT),
        growths: 4,
        asked: Some(24 + 168 + 2 * 48),
        ..BY_STORE
    },
    GrownRow {
        file: CRASH_FILE,
        task: OBJECT,
        ways: &[CallWay::Source],
        within: (168, 1000, None, None, None),
        written: File::Text(CRASH_OBJECT),
        growths: 4,
        asked: Some(24 + 168 + 1000 + 292),
        ..BY_STORE
    },
    // A copy holds two windows, and 24 bytes an entry.
    GrownRow {
        answer: Ok(44),
        written: File::Zeros(1),
        asked: Some(2 * 176 + 24 * 1),
        ..COPY_OF_ZEROS
    },
    GrownRow {
        file: File::Zeros(100),
        answer: Ok(1232),
        written: File::Zeros(100),
        asked: Some(2 * 176 + 24 * 100),
        ..COPY_OF_ZEROS
    },
    GrownRow {
        file: File::Zeros(1000),
        answer: Ok(12032),
        written: File::Zeros(1000),
        asked: Some(2 * 176 + 24 * 1000),
        ..COPY_OF_ZEROS
    },
];

#[test]
fn each_growth_may_be_refused(rt: HostRuntime) {
    assert_rows(&rt, rt.alloc(), &UNLIMITED);
}

#[test]
fn growths_are_of_what_the_limits_say(rt: HostRuntime) {
    assert_rows(&rt, rt.alloc(), &COUNTED);
}
