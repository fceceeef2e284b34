//! `summary` of one file and of several: what its words ask for, and how it ends.
use crate::commands::{CommandCall, GOOD, Outlet, TAKES_ALL, Trial, assert_written, run, written};
use crate::endings::EndingRow;

/// Words of `summary`. The files keep their order, and may be named twice.
pub const SUMMARIES: &str = "summary|a.dmp => summary [a.dmp] usual
summary|b|a|b| c  => summary [b] [a] [b] [ c ] usual
summary|--json|a|b => summary [a] [b] json usual
summary|a|--json|b => summary [a] [b] json usual
summary|a|--untrusted|b => summary [a] [b] strangers
summary|a|--|--json|b => summary [a] [--json] [b] usual
summary|--window|168|a|--memory=5|b => summary [a] [b] within 168 4096 Some(18446744073709551615) Some(5) None
summary => refused
summary|--json => refused
summary|a|--json|--json => refused";

/// The summary of the file with a system.
const SYSTEM_SUMMARY: &str = "system.dmp: no crash
  system Windows 6.1.7601, x64, processors 4
  written not set
  streams 1 threads 0 modules 0 exceptions 0 ranges 0 memory 0
  file good\n";

/// The summary of the file with faults.
const FAULTY_SUMMARY: &str = "faulty.dmp: no crash
  system Win32s 0.0.0, x86, processors 0
  written not set
  streams 3 threads 0 modules 0 exceptions 0 ranges 0 memory 0
  file damaged, 2 bad entries: entry 1 item 0: name length outside the file: offset 4294967295 size 4\n";

/// The summary of the file with a system, twice.
const TWICE: &str = "system.dmp: no crash
  system Windows 6.1.7601, x64, processors 4
  written not set
  streams 1 threads 0 modules 0 exceptions 0 ranges 0 memory 0
  file good
system.dmp: no crash
  system Windows 6.1.7601, x64, processors 4
  written not set
  streams 1 threads 0 modules 0 exceptions 0 ranges 0 memory 0
  file good\n";

/// What is told of a file that is too short, and of one that is not there.
const SHORT_AND_MISSING: &str =
    "mdmp: empty.dmp: file of 0 bytes is too short\nmdmp: cannot open other.dmp\n";

/// How summaries end.
pub static ROWS: [EndingRow<'static>; 9] = [
    (
        CommandCall::Line(&["summary", "system.dmp"]),
        (0, SYSTEM_SUMMARY, ""),
        None,
        (1, 0, 0),
    ),
    // Entries are bad: the summary says so, and the status.
    (
        CommandCall::Line(&["summary", "faulty.dmp"]),
        (1, FAULTY_SUMMARY, ""),
        None,
        (1, 0, 0),
    ),
    (
        CommandCall::Line(&["summary", "empty.dmp"]),
        (1, "", "mdmp: empty.dmp: file of 0 bytes is too short\n"),
        None,
        (1, 0, 0),
    ),
    (
        CommandCall::Line(&["summary", "other.dmp"]),
        (3, "", "mdmp: cannot open other.dmp\n"),
        None,
        (0, 0, 1),
    ),
    // A file that is named twice is read twice.
    (
        CommandCall::Line(&["summary", "system.dmp", "system.dmp"]),
        (0, TWICE, ""),
        None,
        (2, 0, 0),
    ),
    // After an error the next file follows. The status is the worst, wherever it stands.
    (
        CommandCall::Line(&["summary", "empty.dmp", "other.dmp", "system.dmp"]),
        (3, SYSTEM_SUMMARY, SHORT_AND_MISSING),
        None,
        (2, 0, 1),
    ),
    (
        CommandCall::Program(&["summary", "system.dmp", "empty.dmp", "other.dmp"]),
        (3, SYSTEM_SUMMARY, SHORT_AND_MISSING),
        None,
        (2, 0, 1),
    ),
    (
        CommandCall::Line(&["summary", "empty.dmp", "system.dmp"]),
        (
            1,
            SYSTEM_SUMMARY,
            "mdmp: empty.dmp: file of 0 bytes is too short\n",
        ),
        None,
        (2, 0, 0),
    ),
    // A bad word is told before a file is opened.
    (
        CommandCall::Line(&["summary", "system.dmp", "other.dmp", "--name", "x"]),
        (
            2,
            "",
            "mdmp: bad command line: --name 'x': expected a decimal number, 0 to 1073741824\n",
        ),
        None,
        (0, 0, 0),
    ),
];

/// The objects of two files.
const TWO_OBJECTS: CommandCall<'static> = CommandCall::Line(&[
    "summary",
    "--json",
    "system.dmp",
    "faulty.dmp",
]);

#[test]
fn each_object_is_one_write(rt: HostRuntime) {
    let whole = run(&rt, rt.alloc(), TWO_OBJECTS, &GOOD);
    // A third call, which would fail, is not made.
    let out = Outlet {
        fail_at: Some(2),
        ..TAKES_ALL
    };
    let wanted = (1, written(&whole), whole.end.told.as_str());
    assert_written(
        &rt,
        rt.alloc(),
        TWO_OBJECTS,
        &Trial { out, ..GOOD },
        2,
        wanted,
    );
}
