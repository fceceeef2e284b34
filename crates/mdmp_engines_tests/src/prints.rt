//! What `check` and `list` print in each way, and how much is read.
use crate::commands::{CallWay, Task};
use crate::files::{EMPTY, File};
use crate::runs::{BAD_NAME, FOUR, RunAnswer, USUAL, Within, assert_wrote, run_file, run_within};
use crate::same::assert_same_at;
use mdmp_engines::{LINE_ROOM, OpenFault, ToolFault};
use mdmp_test_support::{FAULTY, FAULTY_TEXT, FAULTY_VERDICTS, MEMORY64, SYSTEM, SYSTEM_TEXT};
use std::alloc::Global;
use std::process::Abort;

/// What is asked of a file, in which way and within which limits, what is answered and printed, and how many bytes
/// are fetched, where a source tells it.
#[derive(Clone, Copy)]
pub struct PrintRow<'a> {
    pub file: File<'a>,
    pub task: Task<'a>,
    pub way: CallWay,
    pub within: Within,
    pub answer: RunAnswer,
    pub text: &'a str,
    pub fetched: Option<u128>,
}

/// The file whose second entry and third one are bad.
pub const BAD_TWICE: File<'static> = File::Numbers(3, &FAULTY);

pub const GOOD: File<'static> = File::Bytes(&SYSTEM);

pub const WIDE: File<'static> = File::Bytes(&MEMORY64);

pub const SHORT: RunAnswer = Err(ToolFault::Opening(OpenFault::TooShort { size: 31 }));

/// Limits of the least window, and names up to 48 bytes.
pub const LEAST: Within = (168, 48, None, None, None);

/// A check of the system, over a store.
pub const CHECK: PrintRow<'static> = PrintRow {
    file: GOOD,
    task: Task::Check,
    way: CallWay::Store,
    within: LEAST,
    answer: Ok(0),
    text: "entry 0: ok\n",
    fetched: None,
};

/// A check of the file with two bad entries, over a source.
const CHECK_OF_BAD: PrintRow<'static> = PrintRow {
    file: BAD_TWICE,
    way: CallWay::Source,
    within: USUAL,
    answer: Ok(2),
    text: FAULTY_VERDICTS,
    fetched: Some(236),
    ..CHECK
};

static CHECKS: [PrintRow<'static>; 9] = [
    PrintRow { ..CHECK },
    PrintRow {
        file: BAD_TWICE,
        answer: Ok(2),
        text: FAULTY_VERDICTS,
        ..CHECK
    },
    PrintRow {
        file: File::Bytes(EMPTY),
        text: "",
        ..CHECK
    },
    PrintRow {
        file: File::Bytes(&[0; 31]),
        answer: SHORT,
        text: "",
        ..CHECK
    },
    // The header, three entries, the system, the count of the modules and the first one.
    PrintRow { ..CHECK_OF_BAD },
    // Through blocks of any size.
    PrintRow {
        way: CallWay::Blocks(LINE_ROOM),
        ..CHECK_OF_BAD
    },
    PrintRow {
        way: CallWay::Blocks(LINE_ROOM + 7),
        ..CHECK_OF_BAD
    },
    PrintRow {
        way: CallWay::Blocks(LINE_ROOM + 100),
        ..CHECK_OF_BAD
    },
    PrintRow {
        way: CallWay::Blocks(4096),
        ..CHECK_OF_BAD
    },
];

/// A list of the system.
const LIST: PrintRow<'static> = PrintRow {
    task: Task::List,
    within: USUAL,
    text: SYSTEM_TEXT,
    ..CHECK
};

/// A list of the file with two bad entries.
const LIST_OF_BAD: PrintRow<'static> = PrintRow {
    file: BAD_TWICE,
    answer: Err(BAD_NAME),
    text: FAULTY_TEXT,
    ..LIST
};

static LISTS: [PrintRow<'static>; 10] = [
    PrintRow {
        way: CallWay::Blocks(LINE_ROOM),
        ..LIST
    },
    PrintRow {
        way: CallWay::Blocks(LINE_ROOM + 7),
        ..LIST
    },
    PrintRow {
        way: CallWay::Blocks(LINE_ROOM + 100),
        ..LIST
    },
    PrintRow {
        way: CallWay::Blocks(4096),
        ..LIST
    },
    PrintRow {
        way: CallWay::Blocks(LINE_ROOM),
        ..LIST_OF_BAD
    },
    PrintRow {
        way: CallWay::Blocks(LINE_ROOM + 7),
        ..LIST_OF_BAD
    },
    PrintRow {
        way: CallWay::Blocks(LINE_ROOM + 100),
        ..LIST_OF_BAD
    },
    PrintRow {
        way: CallWay::Blocks(4096),
        ..LIST_OF_BAD
    },
    // Item by item, with a bar before each call for one.
    PrintRow {
        way: CallWay::BarredItems,
        within: (168, 4096, None, None, None),
        text: BARRED,
        ..LIST
    },
    PrintRow {
        way: CallWay::BarredItems,
        within: (168, 0, None, None, None),
        text: BARRED_FAULTY,
        ..LIST_OF_BAD
    },
];

const BARRED: &str =
    "dump version 0x0000 streams 1 directory 32 checksum 0 time 0 flags 0x0000000000000000
|stream 0 type 7 size 56 rva 44
|system architecture 9 level 6 revision 3 processors 4 product 1 version 6.1.7601 platform 2 suite 256 csd \"Service Pack 1\"
|";

const BARRED_FAULTY: &str =
    "dump version 0x0000 streams 3 directory 32 checksum 0 time 0 flags 0x0000000000000000
|stream 0 type 7 size 56 rva 68
|system architecture 0 level 0 revision 0 processors 0 product 0 version 0.0.0 platform 0 suite 0 csd none
|stream 1 type 4 size 112 rva 124
|";

/// Asserts what is printed in each way.
pub fn assert_rows(rt: &impl Abort, alloc: Global, rows: &[PrintRow<'_>]) {
    for row in rows {
        let PrintRow {
            file,
            task,
            way,
            within,
            answer,
            text,
            fetched,
        } = row;
        let outcome = run_file(rt, alloc, file, &run_within(*task, *way, *within));
        assert_wrote(rt, &(text, way), &outcome, *answer, text.as_bytes());
        let found = outcome.end.fetched;
        assert_same_at(rt, &(text, way), found, fetched.unwrap_or(found));
    }
}

#[test]
fn checks_succeed_in_each_way(rt: HostRuntime) {
    assert_rows(&rt, rt.alloc(), &CHECKS);
}

#[test]
fn lists_succeed_in_each_way(rt: HostRuntime) {
    assert_rows(&rt, rt.alloc(), &LISTS);
}

/// Asserts by how many calls of a source how many bytes are fetched.
fn assert_calls(
    rt: &impl Abort,
    alloc: Global,
    file: &File<'_>,
    task: Task<'_>,
    calls: (u128, u128),
) {
    let run = run_within(task, CallWay::Source, (168, 0, None, None, None));
    let outcome = run_file(rt, alloc, file, &run);
    let found = (outcome.end.calls, outcome.end.fetched);
    assert_same_at(rt, &calls, found, calls);
}

#[test]
fn source_is_read_by_few_calls(rt: HostRuntime) {
    // The header, an entry, the head of the list, the list, and four bytes; and a directory that passes through the
    // window.
    assert_calls(&rt, rt.alloc(), &WIDE, FOUR, (5, 112));
    assert_calls(&rt, rt.alloc(), &File::Unused(30), Task::List, (4, 392));
}
