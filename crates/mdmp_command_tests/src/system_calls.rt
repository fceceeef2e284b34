//! Command lines over files of the system, of which each call fails in turn.
use crate::commands::{CommandCall, GOOD, Trial, run};
use crate::file_blocks::{FileRow, OpenedReads, assert_file};
use crate::files::write_files;
use crate::same::assert_same_at;
use crate::spread_files::{SPREAD_MEMORY, SPREAD_NAME, SPREAD_SYSTEM, SPREAD_TEXT, write_spread};
use mdmp_test_support::{SYSTEM, SYSTEM_TEXT, WIDE_TEXT};
use std::alloc::{AllocGlobal, Global};
use std::process::Abort;
use std::rt::Files;

/// The number behind the last of some calls, and what is told where one of them fails.
type FailingCalls<'a> = (u64, &'a str);

/// A command line, what it prints, the file that it makes, if it makes one, and what is told of its calls.
type SystemCallsRow<'a> = (
    &'a [&'a str],
    &'a str,
    Option<&'a [u8]>,
    &'a [FailingCalls<'a>],
);

/// Asserts how a command line ends where this call fails: with this status and this told, behind a first part of what
/// is printed or made. What is copied is opened before the copy is made.
fn assert_at<R: Files + Input + AllocGlobal + Abort>(
    rt: &R,
    alloc: Global,
    row: &SystemCallsRow<'_>,
    system_call: u64,
    (status, told): (u8, &str),
) {
    let (words, text, made, _) = *row;
    let trial = Trial {
        system_call,
        ..GOOD
    };
    let ran = run(rt, alloc, CommandCall::System(words), &trial);
    let is_made = made.is_some() && !told.starts_with("mdmp: cannot ");
    let found = (ran.end.status, ran.end.told.as_str(), ran.made.is_some());
    assert_same_at(rt, &(words, system_call), found, (status, told, is_made));
    let copy = ran.made.unwrap_or(Vec::new(alloc));
    let bytes = made.unwrap_or(b"");
    let is_start = text.starts_with(ran.end.text.as_str()) && bytes.starts_with(copy.as_slice());
    let is_whole = ran.end.text.len() == text.len() && copy.len() == bytes.len();
    let found = (is_start, status == 3 || is_whole);
    assert_same_at(rt, &(words, system_call), found, (true, true));
}

/// Asserts that each call of the system that fails is told, and that the command line ends well where none does.
fn assert_calls<R: Files + Input + AllocGlobal + Abort>(
    rt: &R,
    alloc: Global,
    row: &SystemCallsRow<'_>,
) {
    let mut first = 0;
    for (end, told) in row.3 {
        for call in first..*end {
            assert_at(rt, alloc, row, call, (3, *told));
        }
        first = *end;
    }
    assert_at(rt, alloc, row, first, (0, ""));
}

/// Where no block holds two parts, the header is sought and read, the directory, the system, and the length of its
/// name, whose text stands in one block with that.
const SPREAD_LISTED: [FailingCalls<'static>; 5] = [
    (3, "mdmp: cannot open spread.dmp\n"),
    (5, "mdmp: store failed at 0\n"),
    (7, "mdmp: store failed at 20000\n"),
    (9, "mdmp: store failed at 40000\n"),
    (11, "mdmp: store failed at 60000\n"),
];

/// A small file is looked up, opened, asked for its size, and read into a block.
const SMALL: [FailingCalls<'static>; 2] = [
    (3, "mdmp: cannot open system.dmp\n"),
    (5, "mdmp: store failed at 0\n"),
];

static ROWS: [SystemCallsRow<'static>; 11] = [
    (&["list", "system.dmp"], SYSTEM_TEXT, None, &SMALL),
    (&["list", "system.dmp", "--pdb"], SYSTEM_TEXT, None, &SMALL),
    (&["check", "system.dmp"], "entry 0: ok\n", None, &SMALL),
    (
        &["hex", "wide.dmp", "0x1000", "4"],
        WIDE_TEXT,
        None,
        &[
            (3, "mdmp: cannot open wide.dmp\n"),
            (5, "mdmp: store failed at 0\n"),
        ],
    ),
    (&["list", "spread.dmp"], SPREAD_TEXT, None, &SPREAD_LISTED),
    (
        &["list", "spread.dmp", "--pdb"],
        SPREAD_TEXT,
        None,
        &SPREAD_LISTED,
    ),
    (
        &["check", "spread.dmp"],
        "entry 0: ok\n",
        None,
        &SPREAD_LISTED,
    ),
    // The text of a name alone is read where a block ends behind its length: the file stands there.
    (
        &["list", "name.dmp"],
        SPREAD_TEXT,
        None,
        &[
            (3, "mdmp: cannot open name.dmp\n"),
            (5, "mdmp: store failed at 0\n"),
            (7, "mdmp: store failed at 20000\n"),
            (9, "mdmp: store failed at 40000\n"),
            (10, "mdmp: store failed at 40512\n"),
        ],
    ),
    // Behind the heads of the lists they are sought again, and then the memory.
    (
        &["hex", "memory.dmp", "0x1000", "4"],
        WIDE_TEXT,
        None,
        &[
            (3, "mdmp: cannot open memory.dmp\n"),
            (5, "mdmp: store failed at 0\n"),
            (7, "mdmp: store failed at 20000\n"),
            (9, "mdmp: store failed at 40000\n"),
            (11, "mdmp: store failed at 60000\n"),
            (13, "mdmp: store failed at 40000\n"),
            (15, "mdmp: store failed at 60000\n"),
            (17, "mdmp: store failed at 100000\n"),
        ],
    ),
    // What is copied is looked up, opened and asked for its size, and the copy made.
    (
        &["copy", "system.dmp", "copy.dmp", "7"],
        "",
        Some(&SYSTEM),
        &[
            (3, "mdmp: cannot open system.dmp\n"),
            (4, "mdmp: cannot create copy.dmp\n"),
            (6, "mdmp: store failed at 0\n"),
            (7, "mdmp: output failed\n"),
        ],
    ),
    (
        &["copy", "spread.dmp", "copy.dmp", "7"],
        "",
        Some(&SYSTEM),
        &[
            (3, "mdmp: cannot open spread.dmp\n"),
            (4, "mdmp: cannot create copy.dmp\n"),
            (6, "mdmp: store failed at 0\n"),
            (8, "mdmp: store failed at 20000\n"),
            (10, "mdmp: store failed at 40000\n"),
            (12, "mdmp: store failed at 60000\n"),
            (14, "mdmp: store failed at 40000\n"),
            (16, "mdmp: store failed at 60000\n"),
            (18, "mdmp: store failed at 40000\n"),
            (20, "mdmp: store failed at 60000\n"),
            (21, "mdmp: output failed\n"),
        ],
    ),
];

#[test]
fn each_call_behind_a_command_may_fail(rt: HostRuntime) {
    write_files(&rt, rt.alloc());
    write_spread(&rt, "spread.dmp", &SPREAD_SYSTEM);
    write_spread(&rt, "name.dmp", &SPREAD_NAME);
    write_spread(&rt, "memory.dmp", &SPREAD_MEMORY);
    for row in &ROWS {
        assert_calls(&rt, rt.alloc(), row);
    }
}

/// A file is opened, and asked for its size.
static OPENED: [FileRow<'static>; 3] = [
    ("system.dmp", 0, None, OpenedReads::Asked(&[])),
    ("system.dmp", 1, None, OpenedReads::Asked(&[])),
    ("system.dmp", 2, Some(136), OpenedReads::Asked(&[])),
];

#[test]
fn file_store_open_tells_each_call_that_fails(rt: HostRuntime) {
    write_files(&rt, rt.alloc());
    for row in &OPENED {
        assert_file(&rt, row);
    }
}
