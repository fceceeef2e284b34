//! How commands end: their exit status, what they print and tell, the file that they make, and what they ask of
//! a disk in memory.
use crate::commands::{
    CommandCall, DiskRequests, Ending, GOOD, Outlet, Shown, Trial, assert_end, run, written,
};
use crate::files::SmallFile;
use crate::same::assert_same_at;
use crate::texts::WIDE_PARTS;
use crate::{shown_names, summaries};
use mdmp_test_support::{
    FAULTY_TEXT, FAULTY_TOLD, FAULTY_VERDICTS, Room, SYSTEM, SYSTEM_TEXT, WIDE_TEXT,
};
use std::alloc::{AllocGlobal, Global};
use std::io::ErrorKind;
use std::process::Abort;
use std::rt::Files;

/// A command, how it ends, which bytes its file has, if it makes one, and what it asks of the disk.
pub type EndingRow<'a> = (CommandCall<'a>, Ending<'a>, Option<&'a [u8]>, DiskRequests);

/// The requests of a command that has no disk, or asks nothing of it.
const NO_REQUEST: DiskRequests = (0, 0, 0);

/// The memory lists of the file with faults, of which it has none, are good.
const UNKNOWN: Ending<'static> = (0, "0x0000000000000010: ?? ??\n", "");

static ROWS: [EndingRow<'static>; 25] = [
    (
        CommandCall::Print(Shown::Verdicts, SmallFile::System),
        (0, "entry 0: ok\n", ""),
        None,
        NO_REQUEST,
    ),
    (
        CommandCall::Print(Shown::Items, SmallFile::System),
        (0, SYSTEM_TEXT, ""),
        None,
        NO_REQUEST,
    ),
    (
        CommandCall::Print(Shown::Verdicts, SmallFile::Faulty),
        (1, FAULTY_VERDICTS, "mdmp: 2 bad entries\n"),
        None,
        NO_REQUEST,
    ),
    (
        CommandCall::Print(Shown::ItemsAndSymbols, SmallFile::Faulty),
        (1, FAULTY_TEXT, FAULTY_TOLD),
        None,
        NO_REQUEST,
    ),
    (
        CommandCall::Print(Shown::Memory, SmallFile::Faulty),
        UNKNOWN,
        None,
        NO_REQUEST,
    ),
    (
        CommandCall::Copy(&[7], SmallFile::System),
        (0, "", ""),
        Some(&SYSTEM),
        NO_REQUEST,
    ),
    (
        CommandCall::Copy(&[3, 12], SmallFile::Six),
        (2, "", "mdmp: type 12 is not copied\n"),
        Some(b""),
        NO_REQUEST,
    ),
    (
        CommandCall::Program(&["list", "system.dmp", "--window", "168"]),
        (0, SYSTEM_TEXT, ""),
        None,
        (1, 0, 0),
    ),
    (
        CommandCall::Program(&["list", "system.dmp", "--window", "167"]),
        (
            2,
            "",
            "mdmp: bad command line: --window '167': expected a decimal number, 168 to 1073741824\n",
        ),
        None,
        NO_REQUEST,
    ),
    (
        CommandCall::Line(&["list", "system.dmp"]),
        (0, SYSTEM_TEXT, ""),
        None,
        (1, 0, 0),
    ),
    (
        CommandCall::Line(&["check", "system.dmp"]),
        (0, "entry 0: ok\n", ""),
        None,
        (1, 0, 0),
    ),
    (
        CommandCall::Line(&["check", "wide.dmp"]),
        (0, "entry 0: ok\n", ""),
        None,
        (1, 0, 0),
    ),
    (
        CommandCall::Line(&["check", "--parts", "wide.dmp"]),
        (1, WIDE_PARTS, "mdmp: 1 bad entries\n"),
        None,
        (1, 0, 0),
    ),
    (
        CommandCall::Line(&["hex", "system.dmp", "0x10", "1"]),
        (0, "0x0000000000000010: ??\n", ""),
        None,
        (1, 0, 0),
    ),
    (
        CommandCall::Line(&["hex", "wide.dmp", "0x1000", "4"]),
        (0, WIDE_TEXT, ""),
        None,
        (1, 0, 0),
    ),
    (
        CommandCall::Line(&["list", "empty.dmp"]),
        (1, "", "mdmp: file of 0 bytes is too short\n"),
        None,
        (1, 0, 0),
    ),
    (
        CommandCall::Line(&["list", "other.dmp"]),
        (3, "", "mdmp: cannot open other.dmp\n"),
        None,
        (0, 0, 1),
    ),
    // What is copied is not there, and the copy would be.
    (
        CommandCall::Line(&["copy", "other.dmp", "system.dmp", "7"]),
        (3, "", "mdmp: cannot open other.dmp\n"),
        None,
        (0, 0, 1),
    ),
    // A file is there already.
    (
        CommandCall::Line(&["copy", "system.dmp", "empty.dmp", "7"]),
        (3, "", "mdmp: cannot create empty.dmp\n"),
        None,
        (1, 0, 1),
    ),
    // It is the same.
    (
        CommandCall::Line(&["copy", "system.dmp", "system.dmp", "7"]),
        (3, "", "mdmp: cannot create system.dmp\n"),
        None,
        (1, 0, 1),
    ),
    // A type is refused.
    (
        CommandCall::Line(&["copy", "system.dmp", "copy.dmp", "12"]),
        (2, "", "mdmp: type 12 is not copied\n"),
        None,
        NO_REQUEST,
    ),
    (
        CommandCall::Line(&["copy", "system.dmp", "copy.dmp", "7"]),
        (0, "", ""),
        Some(&SYSTEM),
        (1, 1, 0),
    ),
    (
        CommandCall::Line(&["copy", "empty.dmp", "copy.dmp", "7"]),
        (1, "", "mdmp: file of 0 bytes is too short\n"),
        Some(b""),
        (1, 1, 0),
    ),
    // Arguments that cannot be had: one is no text, or memory runs out.
    (
        CommandCall::NoArguments(ErrorKind::InvalidData),
        (2, "", "mdmp: bad command line\n"),
        None,
        NO_REQUEST,
    ),
    (
        CommandCall::NoArguments(ErrorKind::OutOfMemory),
        (3, "", "mdmp: out of memory\n"),
        None,
        NO_REQUEST,
    ),
];

/// An output that takes nothing.
const TAKES_NOTHING: Outlet = Outlet {
    room: Room { all: 0, call: 7 },
    fail_at: None,
};

/// Asserts how a command ends in a trial, what it made, and what it asked of its disk. An output that takes nothing is
/// told nothing.
pub fn assert_ends<R: Files + Input + AllocGlobal + Abort>(
    rt: &R,
    alloc: Global,
    row: &EndingRow<'_>,
    trial: &Trial,
) {
    let (call, (status, text, told), made, requests) = *row;
    let told = if trial.err.room.all == 0 { "" } else { told };
    let ran = run(rt, alloc, call, trial);
    assert_end(rt, &row.1, &ran.end, (status, text, told));
    let found = (ran.made.is_some(), written(&ran), ran.requests);
    let bytes = made.unwrap_or(text.as_bytes());
    assert_same_at(rt, &row.1, found, (made.is_some(), bytes, requests));
}

/// Asserts how commands end, and that an output that takes nothing of what is told changes nothing.
pub fn assert_each_ends<R: Files + Input + AllocGlobal + Abort>(
    rt: &R,
    alloc: Global,
    rows: &[EndingRow<'_>],
) {
    let untold = Trial {
        err: TAKES_NOTHING,
        ..GOOD
    };
    for row in rows {
        assert_ends(rt, alloc, row, &GOOD);
        assert_ends(rt, alloc, row, &untold);
    }
}

#[test]
fn commands_succeed_or_tell_why(rt: HostRuntime) {
    assert_each_ends(&rt, rt.alloc(), &ROWS);
    assert_each_ends(&rt, rt.alloc(), &summaries::ROWS);
    assert_each_ends(&rt, rt.alloc(), &shown_names::ROWS);
}

/// Words that are refused, whoever judges them.
static REFUSED: [CommandCall<'static>; 8] = [
    CommandCall::Line(&[]),
    CommandCall::Line(&["list"]),
    CommandCall::Line(&["list", "system.dmp", "--window", "167"]),
    CommandCall::Line(&["hex", "system.dmp", "0x", "1"]),
    CommandCall::Line(&["hex", "system.dmp", "0xffffffffffffffff", "2"]),
    CommandCall::Line(&["copy", "system.dmp", "copy.dmp"]),
    // A program without arguments has no words.
    CommandCall::Arguments(&[]),
    CommandCall::Arguments(&["list"]),
];

#[test]
fn words_that_are_refused_touch_no_file(rt: HostRuntime) {
    for call in &REFUSED {
        let ran = run(&rt, rt.alloc(), *call, &GOOD);
        let is_told = !ran.end.told.is_empty();
        let found = (ran.end.status, written(&ran).is_empty(), is_told);
        assert_same_at(&rt, &ran.end.told.as_str(), found, (2, true, true));
        assert_same_at(&rt, &ran.end.told.as_str(), ran.requests, NO_REQUEST);
    }
}

/// A copy that is made, and then refused since it is there.
static COPIED: EndingRow<'static> = (
    CommandCall::Line(&["copy", "system.dmp", "copy.dmp", "7"]),
    (3, "", "mdmp: cannot create copy.dmp\n"),
    Some(&SYSTEM),
    (2, 1, 1),
);

#[test]
fn copy_stands_and_is_not_made_again(rt: HostRuntime) {
    let trial = Trial { times: 2, ..GOOD };
    assert_ends(&rt, rt.alloc(), &COPIED, &trial);
}
