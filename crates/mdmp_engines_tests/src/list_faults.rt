//! Lists that end at a fault of the file.
use crate::commands::{CallWay, Task};
use crate::faults::line_of;
use crate::files::File;
use crate::runs::{run_file, run_within, text_of};
use crate::same::assert_same_at;
use mdmp_test_support::{FAR_NAME, FAULTY, FAULTY_TEXT, FAULTY_TOLD, SYSTEM, UNLOADED};
use std::alloc::Global;
use std::process::Abort;

/// The lines before that of an unloaded module, and of the name of a thread.
const BEFORE: &str =
    "dump version 0x0000 streams 1 directory 32 checksum 0 time 0 flags 0x0000000000000000
stream 0 type 14 size 36 rva 44\n";

const BEFORE_NAME: &str =
    "dump version 0x0000 streams 1 directory 32 checksum 0 time 0 flags 0x0000000000000000
stream 0 type 24 size 16 rva 44\n";

const BEFORE_SYSTEM: &str =
    "dump version 0x0000 streams 1 directory 32 checksum 0 time 0 flags 0x0000000000000000
stream 0 type 7 size 56 rva 44\n";

/// A file, the longest name, what is listed of it, and the line of the fault that ends the list.
type FaultyRow<'a> = (File<'a>, u32, &'a str, &'a str);

static FAULTS: [FaultyRow<'static>; 9] = [
    (File::Numbers(3, &FAULTY), 0, FAULTY_TEXT, FAULTY_TOLD),
    (
        File::Numbers(1, &FAR_NAME),
        8,
        BEFORE_NAME,
        "mdmp: entry 0 item 0: name length outside the file: offset 18446744073709551612 size 4\n",
    ),
    (
        File::NumbersThenBytes(1, &UNLOADED, b"\x07\0\0\0a\0b\0c\0d"),
        8,
        BEFORE,
        "mdmp: entry 0 item 0: odd name length: offset 80 size 7\n",
    ),
    (
        File::NumbersThenBytes(1, &UNLOADED, b"\x0a\0\0\0a\0b\0c\0d\0"),
        8,
        BEFORE,
        "mdmp: entry 0 item 0: name outside the file: offset 84 size 10\n",
    ),
    (
        File::NumbersThenBytes(1, &UNLOADED, b"\x08\0\0"),
        8,
        BEFORE,
        "mdmp: entry 0 item 0: name length outside the file: offset 80 size 4\n",
    ),
    // A file that is cut.
    (
        File::First(&SYSTEM, 131),
        4096,
        BEFORE_SYSTEM,
        "mdmp: entry 0 item 0: name outside the file: offset 104 size 28\n",
    ),
    (
        File::First(&SYSTEM, 103),
        4096,
        BEFORE_SYSTEM,
        "mdmp: entry 0 item 0: name length outside the file: offset 100 size 4\n",
    ),
    (
        File::First(&SYSTEM, 99),
        4096,
        BEFORE_SYSTEM,
        "mdmp: entry 0: stream outside the file: offset 44 size 56\n",
    ),
    (
        File::First(&SYSTEM, 43),
        4096,
        "",
        "mdmp: directory outside the file: offset 32 size 12\n",
    ),
];

/// Asserts what is listed of files up to a fault, and the line of the fault.
fn assert_faults(rt: &impl Abort, alloc: Global, rows: &[FaultyRow<'_>]) {
    for (file, name, text, line) in rows {
        let run = run_within(Task::List, CallWay::Store, (168, *name, None, None, None));
        let outcome = run_file(rt, alloc, file, &run);
        let fault = outcome.end.answer.err().expect(rt, "a fault");
        let found = line_of(rt, alloc, &fault);
        assert_same_at(rt, line, text_of(rt, &found), *line);
        assert_same_at(rt, line, text_of(rt, &outcome.bytes), *text);
    }
}

#[test]
fn list_ends_at_the_first_fault(rt: HostRuntime) {
    assert_faults(&rt, rt.alloc(), &FAULTS);
}
