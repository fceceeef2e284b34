//! Commands over a store, or over a file, of which each read fails in turn: what they write, what they tell, and
//! their status.
use crate::commands::{CommandCall, Ending, GOOD, Ran, Shown, Trial, assert_end, run, written};
use crate::files::SmallFile;
use crate::same::assert_same_at;
use crate::texts::{SYMBOL_LINES, SYMBOL_OBJECTS};
use mdmp_test_support::{
    CRASH, FAULTY_VERDICTS, SYSTEM, SYSTEM_TEXT, WIDE_TEXT, file_of_numbers, limits,
};
use mdmp_tool::Limits;
use std::alloc::{AllocGlobal, Global};
use std::process::Abort;
use std::rt::Files;

/// Where a read of a byte before this one fails, how many bytes are written, and by how many bytes the place of
/// the failure is less than the number of the read.
type FailingStage = (u64, usize, u64);

/// What is printed, how it ends, and its stages.
type StagedRow<'a> = (CommandCall<'a>, Ending<'a>, &'a [FailingStage]);

static STAGED: [StagedRow<'static>; 5] = [
    // A list of the system has two lines behind its header and its directory.
    (
        CommandCall::Print(Shown::Items, SmallFile::System),
        (0, SYSTEM_TEXT, ""),
        &[(44, 0, 0), (132, 117, 0)],
    ),
    // That of a module too, its line behind the list, and that of the symbols behind their record.
    (
        CommandCall::Print(Shown::ItemsAndSymbols, SmallFile::Module),
        (0, SYMBOL_LINES, ""),
        &[(44, 0, 0), (156, 118, 0), (186, 230, 0)],
    ),
    (
        CommandCall::Print(Shown::Objects, SmallFile::Module),
        (0, SYMBOL_OBJECTS, ""),
        &[(44, 0, 0), (156, 196, 0), (186, 440, 0)],
    ),
    // A check has a verdict behind its first entry.
    (
        CommandCall::Print(Shown::Verdicts, SmallFile::Faulty),
        (1, FAULTY_VERDICTS, "mdmp: 2 bad entries\n"),
        &[(124, 0, 0), (236, 12, 0)],
    ),
    // Two bytes from 16 on, of which none is known: the head of the list is read, and then again with its ranges.
    (
        CommandCall::Print(Shown::Memory, SmallFile::Wide),
        (0, "0x0000000000000010: ?? ??\n", ""),
        &[(60, 0, 0), (108, 0, 16)],
    ),
];

/// A run over a store that gives one byte a call, and fails at the call of this number.
fn by_bytes<R: Files + Input + AllocGlobal + Abort>(
    rt: &R,
    alloc: Global,
    call: CommandCall<'_>,
    limits: Limits,
    fail_at: u64,
) -> Ran {
    let read = Some(fail_at);
    let trial = Trial {
        read,
        cap: 1,
        limits,
        ..GOOD
    };
    run(rt, alloc, call, &trial)
}

/// Asserts that a run whose read of this number fails tells this place, behind these bytes.
fn assert_failed<R: Files + Input + AllocGlobal + Abort>(
    rt: &R,
    alloc: Global,
    call: CommandCall<'_>,
    limits: Limits,
    fail_at: u64,
    at: u64,
    start: &[u8],
) {
    let ran = by_bytes(rt, alloc, call, limits, fail_at);
    let told = format!(in alloc; "mdmp: store failed at {at}\n").expect(rt, "memory for a line");
    let found = (ran.end.status, written(&ran), ran.end.told.as_str());
    assert_same_at(rt, &fail_at, found, (3, start, told.as_str()));
}

/// Asserts what is printed and told, whichever read fails, and how it ends where that is none.
fn assert_stages<R: Files + Input + AllocGlobal + Abort>(
    rt: &R,
    alloc: Global,
    (call, wanted, stages): StagedRow<'_>,
) {
    let limits = GOOD.limits;
    let mut first = 0;
    for (end, size, again) in stages {
        let start = wanted.1.as_bytes().get(..*size).expect(rt, "a first part");
        for fail_at in first..*end {
            let at = fail_at.saturating_sub(*again);
            assert_failed(rt, alloc, call, limits, fail_at, at, start);
        }
        first = *end;
    }
    let ran = by_bytes(rt, alloc, call, limits, first);
    assert_end(rt, &wanted, &ran.end, wanted);
}

/// The least window, and names of no byte.
const LEAST: Limits = limits!(168, 0);

/// A copy of the thread and the exception of `SIX`.
const COPY: CommandCall<'static> = CommandCall::Copy(&[3, 6], SmallFile::Six);

/// How many bytes it reads: the header, the directory, both streams three times, and their parts.
const READS: u64 = 32 + 72 + 3 * (52 + 168) + 14;

/// The number of a read of the copy that fails, what place is told, and how many bytes are written before.
type FailedCopy = (u64, u64, usize);

/// In the header, in the directory, and, behind the first 168 bytes that went out, at the last byte of all.
static FAILED_COPIES: [FailedCopy; 3] = [(0, 0, 0), (103, 103, 0), (777, 435, 168)];

/// The name of a command, the command, how it ends, the file that it makes, and how often it reads its file.
type ReadingRow<'a> = (&'a str, CommandCall<'a>, Ending<'a>, Option<&'a [u8]>, u64);

static READING: [ReadingRow<'static>; 6] = [
    // The header and the directory; then the system, the length of its name and the name, or the head of a list,
    // that again with its ranges, and four bytes.
    (
        "list",
        CommandCall::Line(&["list", "system.dmp"]),
        (0, SYSTEM_TEXT, ""),
        None,
        5,
    ),
    (
        "list --pdb",
        CommandCall::Line(&["list", "system.dmp", "--pdb"]),
        (0, SYSTEM_TEXT, ""),
        None,
        5,
    ),
    (
        "check",
        CommandCall::Line(&["check", "system.dmp"]),
        (0, "entry 0: ok\n", ""),
        None,
        5,
    ),
    (
        "check --parts",
        CommandCall::Line(&["check", "--parts", "system.dmp"]),
        (0, "entry 0: ok\n", ""),
        None,
        5,
    ),
    (
        "hex",
        CommandCall::Line(&["hex", "wide.dmp", "0x1000", "4"]),
        (0, WIDE_TEXT, ""),
        None,
        5,
    ),
    // The header, the directory, the stream and the length of its name; both again twice, and the name.
    (
        "copy",
        CommandCall::Line(&["copy", "system.dmp", "copy.dmp", "7", "--window", "168"]),
        (0, "", ""),
        Some(&SYSTEM),
        9,
    ),
];

/// Asserts that a command whose read of this number fails has written a first part of these bytes, and whether it
/// made a file.
fn assert_start<R: Files + Input + AllocGlobal + Abort>(
    rt: &R,
    alloc: Global,
    at: (&str, u64),
    call: CommandCall<'_>,
    whole: &[u8],
    is_made: bool,
) {
    let ran = by_bytes(rt, alloc, call, LEAST, at.1);
    let is_start = whole.starts_with(written(&ran)) && ran.made.is_some() == is_made;
    let is_told = ran.end.told.starts_with("mdmp: store failed at ");
    let found = (ran.end.status, is_start, is_told);
    assert_same_at(rt, &at, found, (3, true, true));
}

/// Asserts that each read of a command may fail, and how it ends where none does.
fn assert_reads<R: Files + Input + AllocGlobal + Abort>(
    rt: &R,
    alloc: Global,
    (name, call, wanted, made, reads): ReadingRow<'_>,
) {
    let whole = made.unwrap_or(wanted.1.as_bytes());
    for fail_at in 0..reads {
        assert_start(rt, alloc, (name, fail_at), call, whole, made.is_some());
    }
    let ran = by_bytes(rt, alloc, call, LEAST, reads);
    assert_end(rt, &name, &ran.end, wanted);
    assert_same_at(rt, &name, written(&ran), whole);
}

/// Asserts that a copy has a first part, whichever read fails, and is whole where that is none of them.
fn assert_copies<R: Files + Input + AllocGlobal + Abort>(rt: &R, alloc: Global) {
    let crash = file_of_numbers(alloc, 2, &CRASH).expect(rt, "memory for a file");
    assert_reads(
        rt,
        alloc,
        ("copy of six", COPY, (0, "", ""), Some(&crash), READS),
    );
    for (fail_at, at, size) in &FAILED_COPIES {
        let start = crash.get(..*size).expect(rt, "a first part");
        assert_failed(rt, alloc, COPY, LEAST, *fail_at, *at, start);
    }
}

#[test]
fn each_read_may_fail(rt: HostRuntime) {
    for row in &STAGED {
        assert_stages(&rt, rt.alloc(), *row);
    }
    for row in &READING {
        assert_reads(&rt, rt.alloc(), *row);
    }
    assert_copies(&rt, rt.alloc());
}
