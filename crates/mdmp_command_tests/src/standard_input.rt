//! Commands whose FILE is `-`: standard input, over a disk in memory that has some.
use crate::commands::{CommandCall, Ending, GOOD, Trial, assert_end, run};
use crate::same::assert_same_at;
use mdmp_disk::GivenInput;
use mdmp_test_support::{MEMORY64, SYSTEM, SYSTEM_TEXT, WIDE_TEXT};
use std::alloc::{AllocGlobal, Global};
use std::process::Abort;
use std::rt::Files;

/// How many files were opened, how often standard input was read, and how often that was refused.
type InputRequests = (u128, u128, u128);

/// A command line, what standard input gives, how the command ends, and what it asks of the disk.
type InputRow<'a> = (
    &'a [&'a str],
    GivenInput<'static>,
    Ending<'a>,
    InputRequests,
);

/// An input that is a file of a system record.
const SYSTEM_INPUT: GivenInput<'static> = GivenInput {
    bytes: &SYSTEM,
    fail_at: None,
};

/// An input that is a file of 64-bit memory.
const MEMORY_INPUT: GivenInput<'static> = GivenInput {
    bytes: &MEMORY64,
    fail_at: None,
};

/// An input of no bytes.
const NO_INPUT: GivenInput<'static> = GivenInput {
    bytes: b"",
    fail_at: None,
};

/// An input that fails behind its first five bytes.
const FAILING: GivenInput<'static> = GivenInput {
    bytes: &SYSTEM,
    fail_at: Some(5),
};

/// The summary of standard input.
const SUMMARY: &str = "-: no crash
  system Windows 6.1.7601, x64, processors 4
  written not set
  streams 1 threads 0 modules 0 exceptions 0 ranges 0 memory 0
  file good\n";

static ROWS: [InputRow<'static>; 14] = [
    (
        &["list", "-"],
        SYSTEM_INPUT,
        (0, SYSTEM_TEXT, ""),
        (0, 1, 0),
    ),
    (
        &["check", "--", "-"],
        SYSTEM_INPUT,
        (0, "entry 0: ok\n", ""),
        (0, 1, 0),
    ),
    (
        &["hex", "-", "0x1000", "4"],
        MEMORY_INPUT,
        (0, WIDE_TEXT, ""),
        (0, 1, 0),
    ),
    (&["summary", "-"], SYSTEM_INPUT, (0, SUMMARY, ""), (0, 1, 0)),
    // It is read once: then it is at its end.
    (
        &["summary", "-", "-"],
        SYSTEM_INPUT,
        (1, SUMMARY, "mdmp: -: file of 0 bytes is too short\n"),
        (0, 2, 0),
    ),
    (
        &["list", "-"],
        NO_INPUT,
        (1, "", "mdmp: file of 0 bytes is too short\n"),
        (0, 1, 0),
    ),
    // As many bytes are read as the limit of memory says.
    (
        &["list", "-", "--memory", "135"],
        SYSTEM_INPUT,
        (3, "", "mdmp: memory limit reached: 136\n"),
        (0, 0, 1),
    ),
    (
        &["summary", "-", "--memory", "0"],
        SYSTEM_INPUT,
        (3, "", "mdmp: -: memory limit reached: 1\n"),
        (0, 0, 1),
    ),
    // Then the limit is that of what a command holds beside them: window, directory and name.
    (
        &["list", "-", "--memory", "136"],
        SYSTEM_INPUT,
        (3, "", "mdmp: memory limit reached: 69644\n"),
        (0, 1, 0),
    ),
    (
        &["check", "-"],
        FAILING,
        (3, "", "mdmp: store failed at 5\n"),
        (0, 0, 1),
    ),
    (
        &["summary", "--json", "-"],
        FAILING,
        (3, "", "mdmp: -: store failed at 5\n"),
        (0, 0, 1),
    ),
    // Another name of the same letter is that of a file, and so is what is copied.
    (
        &["list", "./-"],
        MEMORY_INPUT,
        (0, SYSTEM_TEXT, ""),
        (1, 0, 0),
    ),
    (
        &["copy", "-", "copy.dmp", "7"],
        MEMORY_INPUT,
        (0, "", ""),
        (1, 0, 0),
    ),
    // A bad word is told before standard input is read.
    (
        &["list", "-", "--name", "x"],
        FAILING,
        (
            2,
            "",
            "mdmp: bad command line: --name 'x': expected a decimal number, 0 to 1073741824\n",
        ),
        (0, 0, 0),
    ),
];

/// Asserts how a command line ends, and what it asks for.
fn assert_over<R: Files + Input + AllocGlobal + Abort>(rt: &R, alloc: Global, row: &InputRow<'_>) {
    let (words, input, wanted, requests) = *row;
    let ran = run(
        rt,
        alloc,
        CommandCall::Line(words),
        &Trial { input, ..GOOD },
    );
    assert_end(rt, &words, &ran.end, wanted);
    let (opened, _, refused) = ran.requests;
    assert_same_at(rt, &words, (opened, ran.inputs, refused), requests);
}

#[test]
fn commands_succeed_or_tell_why(rt: HostRuntime) {
    for row in &ROWS {
        assert_over(&rt, rt.alloc(), row);
    }
}

/// The words of a command line over a system, and what it prints.
type PrintingWords<'a> = (&'a [&'a str], &'a str);

static GROWING: [PrintingWords<'static>; 2] = [
    (&["list", "-"], SYSTEM_TEXT),
    (&["summary", "-"], SUMMARY),
];

/// Tells whether a command line has a growth of this number. Asserts that it tells a refusal of that, and else succeeds.
fn has_growth<R: Files + Input + AllocGlobal + Abort>(
    rt: &R,
    alloc: Global,
    (words, text): PrintingWords<'_>,
    number: u64,
) -> bool {
    let growth = Some(number);
    let input = SYSTEM_INPUT;
    let trial = Trial {
        growth,
        input,
        ..GOOD
    };
    let ran = run(rt, alloc, CommandCall::Line(words), &trial);
    if ran.end.status == 0 {
        assert_end(rt, &words, &ran.end, (0, text, ""));
        return false;
    }
    let is_told = ran.end.told.as_str().ends_with(": out of memory\n");
    assert_same_at(rt, &(words, number), (ran.end.status, is_told), (3, true));
    true
}

#[test]
fn each_growth_for_standard_input_may_be_refused(rt: HostRuntime) {
    for row in &GROWING {
        let mut refused = 0u64;
        for growth in 0..64 {
            if !has_growth(&rt, rt.alloc(), *row, growth) {
                break;
            }
            refused = refused.saturating_add(1);
        }
        // The bytes of the input, and what a command takes over a file.
        assert_same_at(&rt, &row.0, 4 <= refused && refused < 64, true);
    }
}
