//! What `check --parts` prints in each way, and how much it reads.
use crate::commands::{CallWay, Task};
use crate::files::{EMPTY, File};
use crate::over_budget;
use crate::prints::{BAD_TWICE, CHECK, PrintRow, SHORT, WIDE, assert_rows};
use crate::runs::{PARTS, USUAL, WIDE_PARTS};
use mdmp_engines::{LINE_ROOM, LineForm, ToolFault};
use mdmp_test_support::FAULTY_VERDICTS;

/// A file of one thread, whose stack of four bytes begins at its end, at 96.
const LOST_STACK: File<'static> = File::Numbers(
    1,
    &[
        3, 52, 44, 1, 7, 0, 32, 0, 0x5000, 0, 0x7000, 0, 4, 96, 6, 90,
    ],
);

/// The same file with two bytes behind it.
const CUT_STACK: File<'static> = File::NumbersThenBytes(
    1,
    &[
        3, 52, 44, 1, 7, 0, 32, 0, 0x5000, 0, 0x7000, 0, 4, 96, 6, 90,
    ],
    b"AB",
);

/// The same file with its stack.
const WHOLE_STACK: File<'static> = File::NumbersThenBytes(
    1,
    &[
        3, 52, 44, 1, 7, 0, 32, 0, 0x5000, 0, 0x7000, 0, 4, 96, 6, 90,
    ],
    b"ABCD",
);

/// A thread whose stack and context lie outside.
const LOST_TWICE: File<'static> = File::Numbers(
    1,
    &[
        3, 52, 44, 1, 7, 0, 32, 0, 0x5000, 0, 0x7000, 0, 4, 96, 6, 97,
    ],
);

const LOST_STACK_TEXT: &str =
    "entry 0 item 0: stack outside the file: offset 96 size 4\nentry 0: ok\n";

const OBJECTS: Task<'static> = Task::CheckParts(LineForm::Json);

/// A check of parts of the system, over a store.
const PART_CHECK: PrintRow<'static> = PrintRow {
    task: PARTS,
    ..CHECK
};

/// A check of parts of the thread whose stack is lost, over a source.
const LOST: PrintRow<'static> = PrintRow {
    file: LOST_STACK,
    way: CallWay::Source,
    within: USUAL,
    answer: Ok(1),
    text: LOST_STACK_TEXT,
    fetched: Some(96),
    ..PART_CHECK
};

/// A check of parts of ranges of memory, over a source.
const PARTS_OF_WIDE: PrintRow<'static> = PrintRow {
    file: WIDE,
    way: CallWay::Source,
    answer: Ok(1),
    text: WIDE_PARTS,
    fetched: Some(108),
    ..PART_CHECK
};

static PART_CHECKS: [PrintRow<'static>; 14] = [
    PrintRow { ..PART_CHECK },
    PrintRow {
        file: WHOLE_STACK,
        ..PART_CHECK
    },
    PrintRow {
        file: CUT_STACK,
        answer: Ok(1),
        text: LOST_STACK_TEXT,
        ..PART_CHECK
    },
    PrintRow { ..LOST },
    // An entry that loses two parts is one bad entry.
    PrintRow {
        file: LOST_TWICE,
        text: "entry 0 item 0: stack outside the file: offset 96 size 4
entry 0 item 0: context outside the file: offset 97 size 6
entry 0: ok
",
        ..LOST
    },
    PrintRow {
        task: Task::Check,
        answer: Ok(0),
        text: "entry 0: ok\n",
        ..LOST
    },
    PrintRow {
        file: LOST_STACK,
        task: OBJECTS,
        answer: Ok(1),
        text: "{\"line\":\"part\",\"entry\":0,\"item\":\"0\",\"part\":\"stack\",\"offset\":\"96\",\"size\":\"4\"}
{\"line\":\"entry\",\"entry\":0,\"fault\":null}
",
        ..PART_CHECK
    },
    PrintRow {
        file: BAD_TWICE,
        way: CallWay::Blocks(LINE_ROOM),
        within: USUAL,
        answer: Ok(2),
        text: FAULTY_VERDICTS,
        fetched: Some(236),
        ..PART_CHECK
    },
    PrintRow {
        file: File::Bytes(EMPTY),
        text: "",
        ..PART_CHECK
    },
    PrintRow {
        file: File::Bytes(&[0; 31]),
        answer: SHORT,
        text: "",
        ..PART_CHECK
    },
    PrintRow {
        way: CallWay::Blocks(LINE_ROOM),
        within: USUAL,
        ..PARTS_OF_WIDE
    },
    // The read limit at its edge: the header, an entry, the head of the list, and the list.
    PrintRow {
        within: (168, 48, Some(108), None, None),
        ..PARTS_OF_WIDE
    },
    PrintRow {
        within: (168, 48, Some(107), None, None),
        answer: over_budget!(44, 48),
        text: "",
        fetched: Some(60),
        ..PARTS_OF_WIDE
    },
    PrintRow {
        within: (168, 48, Some(95), None, None),
        answer: over_budget!(44, 52),
        text: "",
        fetched: Some(44),
        ..LOST
    },
];

#[test]
fn part_checks_succeed_in_each_way(rt: HostRuntime) {
    assert_rows(&rt, rt.alloc(), &PART_CHECKS);
}
