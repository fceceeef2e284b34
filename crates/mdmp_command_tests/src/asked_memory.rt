//! How much memory commands ask for.
use crate::commands::{CommandCall, GOOD, Trial, run, written};
use crate::files::write_files;
use crate::line_limits::{LEAST, NAMELESS};
use crate::same::assert_same_at;
use std::alloc::{AllocGlobal, Global};
use std::process::Abort;
use std::rt::Files;

/// The words of a command line, which of its growths is refused, its status, how often it asks for a block, and how
/// many bytes these blocks have.
type AskingLine<'a> = (&'a [&'a str], Option<u64>, u8, u64, u64);

/// A long window, and a long name.
const LONG: &str = "--window=1073741824";

const LONG_NAME: &str = "--name=1073741824";

/// Command lines that ask for a block of 65536 bytes for their output, and then for a directory, a window, a name,
/// ranges, bytes, and which of them are known. Those that would ask for much are refused that.
static ASKING: [AskingLine<'static>; 14] = [
    (&["--help"], None, 0, 0, 0),
    (&["copy", "--help"], None, 0, 0, 0),
    (&["list"], None, 2, 0, 0),
    (&["list", "system.dmp", "--window", "167"], None, 2, 0, 0),
    (
        &["list", "faulty.dmp"],
        None,
        1,
        4,
        65536 + 36 + 65536 + 4096,
    ),
    (
        &["check", "system.dmp", LEAST],
        None,
        0,
        4,
        65536 + 12 + 168 + 4096,
    ),
    (
        &["list", "system.dmp", LEAST, "--name", "28"],
        None,
        0,
        4,
        65536 + 12 + 168 + 28,
    ),
    (
        &["list", "system.dmp", LEAST, NAMELESS],
        None,
        0,
        3,
        65536 + 12 + 168,
    ),
    (
        &["hex", "wide.dmp", "0x1000", "4", LEAST],
        None,
        0,
        7,
        65536 + 12 + 168 + 4096 + 48 + 8,
    ),
    (
        &["check", "system.dmp", LONG],
        Some(2),
        3,
        3,
        65536 + 12 + 1073741824,
    ),
    (
        &["list", "system.dmp", LONG],
        Some(2),
        3,
        3,
        65536 + 12 + 1073741824,
    ),
    (
        &["hex", "wide.dmp", "0x1000", "4", LONG],
        Some(2),
        3,
        3,
        65536 + 12 + 1073741824,
    ),
    (
        &["copy", "system.dmp", "copy.dmp", "7", LONG],
        Some(1),
        3,
        2,
        12 + 1073741824,
    ),
    (
        &["list", "system.dmp", LEAST, LONG_NAME],
        Some(3),
        3,
        4,
        65536 + 12 + 168 + 1073741824,
    ),
];

/// Asserts the status of a command line, and what it asks for.
fn assert_asked<R: Files + Input + AllocGlobal + Abort>(
    rt: &R,
    alloc: Global,
    call: CommandCall<'_>,
    line: &AskingLine<'_>,
) {
    let (words, growth, status, growths, bytes) = *line;
    let ran = run(rt, alloc, call, &Trial { growth, ..GOOD });
    let is_written = growth.is_some() && !written(&ran).is_empty();
    let heap = ran.heap;
    let found = (ran.end.status, heap.growths, heap.bytes, heap.out);
    assert_same_at(rt, &words, found, (status, growths, bytes, 0));
    assert_same_at(rt, &words, is_written, false);
}

#[test]
fn memory_that_is_asked_for_is_that_of_the_words(rt: HostRuntime) {
    write_files(&rt, rt.alloc());
    for line in &ASKING {
        assert_asked(&rt, rt.alloc(), CommandCall::Line(line.0), line);
        assert_asked(&rt, rt.alloc(), CommandCall::Program(line.0), line);
        assert_asked(&rt, rt.alloc(), CommandCall::System(line.0), line);
    }
}
