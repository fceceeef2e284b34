//! Commands to outputs that fail: at each byte in turn, or where they are full.
use crate::commands::{
    CommandCall, GOOD, Outlet, Ran, Shown, TAKES_ALL, Trial, assert_written, failing_at, run,
    written,
};
use crate::files::{SmallFile, write_files};
use crate::same::assert_same_at;
use mdmp_test_support::Room;
use std::alloc::{AllocGlobal, Global};
use std::process::Abort;
use std::rt::Files;

/// Asserts that an output that takes so many bytes of what is written has the first of them, and that this is
/// told.
fn assert_cut<R: Files + Input + AllocGlobal + Abort>(
    rt: &R,
    alloc: Global,
    call: CommandCall<'_>,
    out: Outlet,
    taken: usize,
    whole: &Ran,
) {
    let start = written(whole).get(..taken).expect(rt, "a first part");
    let wanted = (3, start, "mdmp: output failed\n");
    let trial = Trial { out, ..GOOD };
    assert_written(rt, alloc, call, &trial, taken as u64, wanted);
}

/// Asserts it of each byte of what is written.
fn assert_swept<R: Files + Input + AllocGlobal + Abort>(
    rt: &R,
    alloc: Global,
    call: CommandCall<'_>,
) {
    let whole = run(rt, alloc, call, &GOOD);
    let size = written(&whole).len();
    assert_same_at(rt, &size, (whole.end.status < 2, size > 0), (true, true));
    for taken in 0..size {
        let out = failing_at(taken as u64);
        assert_cut(rt, alloc, call, out, taken, &whole);
    }
}

/// Commands that write something.
static WRITING: [CommandCall<'static>; 15] = [
    CommandCall::Print(Shown::Items, SmallFile::System),
    CommandCall::Print(Shown::Items, SmallFile::Faulty),
    CommandCall::Print(Shown::ItemsAndSymbols, SmallFile::Faulty),
    CommandCall::Print(Shown::Verdicts, SmallFile::Faulty),
    CommandCall::Print(Shown::Objects, SmallFile::Faulty),
    CommandCall::Print(Shown::VerdictObjects, SmallFile::Faulty),
    CommandCall::Print(Shown::Memory, SmallFile::Faulty),
    CommandCall::Copy(&[7], SmallFile::System),
    CommandCall::Line(&["list", "system.dmp"]),
    CommandCall::Line(&["list", "faulty.dmp"]),
    CommandCall::Line(&["check", "faulty.dmp"]),
    CommandCall::Line(&["check", "--parts", "wide.dmp"]),
    CommandCall::Line(&["hex", "wide.dmp", "0x1000", "4"]),
    CommandCall::Line(&["--help"]),
    CommandCall::Line(&["--version"]),
];

/// A command, how much its output takes in all and a call, and which call fails.
type CutRow<'a> = (CommandCall<'a>, usize, usize, Option<u64>);

/// Outputs that are full, and last one of which the second call fails.
static FULL: [CutRow<'static>; 22] = [
    (
        CommandCall::Print(Shown::Verdicts, SmallFile::Faulty),
        40,
        7,
        None,
    ),
    (
        CommandCall::Print(Shown::Items, SmallFile::Faulty),
        40,
        7,
        None,
    ),
    (
        CommandCall::Print(Shown::ItemsAndSymbols, SmallFile::Faulty),
        40,
        7,
        None,
    ),
    (CommandCall::Line(&["list", "faulty.dmp"]), 100, 100, None),
    (CommandCall::Line(&["check", "faulty.dmp"]), 40, 100, None),
    (
        CommandCall::Line(&["hex", "wide.dmp", "0x1000", "4"]),
        22,
        100,
        None,
    ),
    (CommandCall::Line(&["-h"]), 9, 4, None),
    (CommandCall::Line(&["--help"]), 9, 4, None),
    (CommandCall::Line(&["help"]), 9, 4, None),
    (CommandCall::Line(&["--version"]), 9, 4, None),
    (CommandCall::Line(&["-V"]), 9, 4, None),
    (CommandCall::Line(&["help", "copy"]), 9, 4, None),
    (CommandCall::Line(&["check", "--help"]), 9, 4, None),
    (CommandCall::Line(&["check", "-h"]), 9, 4, None),
    (CommandCall::Line(&["list", "--help"]), 9, 4, None),
    (CommandCall::Line(&["hex", "--help"]), 9, 4, None),
    (
        CommandCall::Line(&["hex", "none.dmp", "0", "--help"]),
        9,
        4,
        None,
    ),
    (CommandCall::Line(&["copy", "--help"]), 9, 4, None),
    (
        CommandCall::Line(&["copy", "none.dmp", "--help"]),
        9,
        4,
        None,
    ),
    (
        CommandCall::System(&["hex", "wide.dmp", "0x1000", "4"]),
        22,
        100,
        None,
    ),
    (CommandCall::Copy(&[3, 6], SmallFile::Six), 40, 40, None),
    (CommandCall::Copy(&[3, 6], SmallFile::Six), 80, 40, Some(1)),
];

/// Asserts that an output that takes less than all has the first bytes.
fn assert_full<R: Files + Input + AllocGlobal + Abort>(rt: &R, alloc: Global, row: &CutRow<'_>) {
    let (command, all, call, fail_at) = *row;
    let whole = run(rt, alloc, command, &GOOD);
    let room = Room { all, call };
    let taken = if fail_at.is_some() { call } else { all };
    let out = Outlet { room, fail_at };
    assert_cut(rt, alloc, command, out, taken, &whole);
}

#[test]
fn what_is_written_may_fail_at_each_byte(rt: HostRuntime) {
    write_files(&rt, rt.alloc());
    for call in &WRITING {
        assert_swept(&rt, rt.alloc(), *call);
    }
    for row in &FULL {
        assert_full(&rt, rt.alloc(), row);
    }
}

/// Asserts that what is told has its first bytes, whichever of its calls fails, and that the status and what is
/// written are the same.
fn assert_told_in_part<R: Files + Input + AllocGlobal + Abort>(
    rt: &R,
    alloc: Global,
    out: Outlet,
    call: CommandCall<'_>,
) {
    let whole = run(rt, alloc, call, &Trial { out, ..GOOD });
    let told = whole.end.told.as_str();
    assert_same_at(rt, &told, told.is_empty(), false);
    for taken in 0..told.len() {
        let err = failing_at(taken as u64);
        let start = told.get(..taken).expect(rt, "a first part");
        let wanted = (whole.end.status, written(&whole), start);
        let trial = Trial { out, err, ..GOOD };
        assert_written(rt, alloc, call, &trial, taken as u64, wanted);
    }
}

/// Commands that tell something.
static TELLING: [CommandCall<'static>; 15] = [
    CommandCall::Print(Shown::Items, SmallFile::Faulty),
    CommandCall::Print(Shown::Objects, SmallFile::Faulty),
    CommandCall::Print(Shown::Verdicts, SmallFile::Faulty),
    CommandCall::Copy(&[7, 12], SmallFile::System),
    CommandCall::Line(&["list", "faulty.dmp"]),
    CommandCall::Line(&["check", "faulty.dmp"]),
    CommandCall::Line(&["hex", "none.dmp", "0x1000", "4"]),
    CommandCall::Line(&["copy", "faulty.dmp", "copy.dmp", "4"]),
    CommandCall::Line(&["copy", "system.dmp", "wide.dmp", "7"]),
    CommandCall::Line(&["copy", "system.dmp", "copy.dmp", "12"]),
    CommandCall::Line(&["list", "system.dmp", "--window", "167"]),
    // What clap says of words.
    CommandCall::Line(&[]),
    CommandCall::Line(&["list"]),
    CommandCall::Line(&["list", "system.dmp", "more"]),
    CommandCall::Line(&["print", "system.dmp"]),
];

/// Command lines that print more than three bytes.
static PRINTING: [CommandCall<'static>; 5] = [
    CommandCall::Line(&["list", "system.dmp"]),
    CommandCall::Line(&["check", "faulty.dmp"]),
    CommandCall::Line(&["hex", "wide.dmp", "0x1000", "4"]),
    CommandCall::Line(&["--help"]),
    CommandCall::Line(&["--version"]),
];

#[test]
fn what_is_told_may_fail_at_each_byte(rt: HostRuntime) {
    for call in &TELLING {
        assert_told_in_part(&rt, rt.alloc(), TAKES_ALL, *call);
    }
    // Both outputs fail.
    for call in &PRINTING {
        assert_told_in_part(&rt, rt.alloc(), failing_at(3), *call);
    }
}
