//! Commands without limits, each of whose growths is refused.
use crate::commands::{CommandCall, Ending, GOOD, Ran, Shown, Trial, assert_end, run};
use crate::files::{SmallFile, write_files};
use crate::same::assert_same_at;
use crate::texts::{SYMBOL_LINES, SYMBOL_OBJECTS};
use mdmp_test_support::{SYSTEM_TEXT, WIDE_TEXT};
use std::alloc::{AllocGlobal, Global};
use std::process::Abort;
use std::rt::Files;

/// How a command ends, how many bytes the file has that it makes, if it makes one, and by how many growths.
type GrownEnd<'a> = (Ending<'a>, Option<usize>, u64);

/// Asserts how a command ends whose growth with this number alone is refused. Its file has so many bytes, it asks so
/// often for a block, and it gives all blocks back.
fn assert_grown<R: Files + Input + AllocGlobal + Abort>(
    rt: &R,
    alloc: Global,
    call: CommandCall<'_>,
    number: u64,
    (end, made, growths): GrownEnd<'_>,
) {
    let growth = Some(number);
    let ran = run(rt, alloc, call, &Trial { growth, ..GOOD });
    assert_end(rt, &(end, growths), &ran.end, end);
    let size = match &ran.made {
        Some(bytes) => Some(bytes.len()),
        None => None,
    };
    let found = (size, ran.heap.growths, ran.heap.out);
    assert_same_at(rt, &(end, growths), found, (made, growths, 0));
}

/// Asserts how a command ends by so many growths, and that each of these may be refused: that is told, nothing is
/// written but an empty file, and no block is asked for behind it.
fn assert_grows<R: Files + Input + AllocGlobal + Abort>(
    rt: &R,
    alloc: Global,
    call: CommandCall<'_>,
    wanted: GrownEnd<'_>,
) {
    let (_, made, growths) = wanted;
    let empty = if made.is_some() { Some(0) } else { None };
    for number in 0..growths {
        let refused = (3, "", "mdmp: out of memory\n");
        let wanted = (refused, empty, number.saturating_add(1));
        assert_grown(rt, alloc, call, number, wanted);
    }
    assert_grown(rt, alloc, call, growths, wanted);
}

/// Commands over a store: a directory, a window and a name; and where memory is printed, its bytes and which of
/// them are known; where streams are copied, a directory, a window, two lists and a buffer.
static STORES: [(CommandCall<'static>, GrownEnd<'static>); 7] = [
    (
        CommandCall::Print(Shown::Verdicts, SmallFile::System),
        ((0, "entry 0: ok\n", ""), None, 3),
    ),
    (
        CommandCall::Print(Shown::Items, SmallFile::System),
        ((0, SYSTEM_TEXT, ""), None, 3),
    ),
    (
        CommandCall::Print(Shown::ItemsAndSymbols, SmallFile::Module),
        ((0, SYMBOL_LINES, ""), None, 3),
    ),
    (
        CommandCall::Print(Shown::VerdictObjects, SmallFile::System),
        ((0, GOOD_OBJECT, ""), None, 3),
    ),
    (
        CommandCall::Print(Shown::Objects, SmallFile::Module),
        ((0, SYMBOL_OBJECTS, ""), None, 3),
    ),
    (
        CommandCall::Print(Shown::Memory, SmallFile::Six),
        ((0, "0x0000000000000010: ?? ??\n", ""), None, 5),
    ),
    (
        CommandCall::Copy(&[3, 6], SmallFile::Six),
        ((0, "", ""), Some(292), 5),
    ),
];

/// What `check --json` prints of a good file of one entry.
const GOOD_OBJECT: &str = "{\"line\":\"entry\",\"entry\":0,\"fault\":null}\n";

/// The words of a command line, and how it ends.
pub type GrownLine<'a> = (&'a [&'a str], GrownEnd<'a>);

/// Asserts how each command line ends over a disk in memory, as a program, and over files of the system.
pub fn assert_lines<R: Files + Input + AllocGlobal + Abort>(
    rt: &R,
    alloc: Global,
    lines: &[GrownLine<'_>],
) {
    write_files(rt, alloc);
    for (words, wanted) in lines {
        assert_grows(rt, alloc, CommandCall::Line(*words), *wanted);
        assert_grows(rt, alloc, CommandCall::Program(*words), *wanted);
        assert_grows(rt, alloc, CommandCall::System(*words), *wanted);
    }
}

/// Command lines without limits: a block of output, and what the command takes; a copy needs no block. The words
/// are read with other memory.
static LINES: [GrownLine<'static>; 10] = [
    (
        &["check", "system.dmp"],
        ((0, "entry 0: ok\n", ""), None, 4),
    ),
    (&["list", "system.dmp"], ((0, SYSTEM_TEXT, ""), None, 4)),
    (
        &["list", "module.dmp", "--pdb"],
        ((0, SYMBOL_LINES, ""), None, 4),
    ),
    (
        &["check", "system.dmp", "--json"],
        ((0, GOOD_OBJECT, ""), None, 4),
    ),
    (
        &["list", "--json", "module.dmp", "--pdb"],
        ((0, SYMBOL_OBJECTS, ""), None, 4),
    ),
    // Without ranges, and with a map of two.
    (
        &["hex", "six.dmp", "0x5000", "2"],
        ((0, "0x0000000000005000: ?? ??\n", ""), None, 6),
    ),
    (
        &["hex", "wide.dmp", "0x1000", "4"],
        ((0, WIDE_TEXT, ""), None, 7),
    ),
    (
        &["copy", "six.dmp", "copy.dmp", "3", "6"],
        ((0, "", ""), Some(292), 5),
    ),
    (
        &["copy", "six.dmp", "copy.dmp", "12"],
        ((2, "", "mdmp: type 12 is not copied\n"), None, 0),
    ),
    (
        &["list", "none.dmp"],
        ((3, "", "mdmp: cannot open none.dmp\n"), None, 0),
    ),
];

#[test]
fn each_growth_may_be_refused(rt: HostRuntime) {
    for (call, wanted) in &STORES {
        assert_grows(&rt, rt.alloc(), *call, *wanted);
    }
    assert_lines(&rt, rt.alloc(), &LINES);
}
