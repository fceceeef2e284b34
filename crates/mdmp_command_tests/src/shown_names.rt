//! Names of files with control characters, which are told as `\u` and four digits.
use crate::commands::CommandCall;
use crate::endings::EndingRow;

/// The summary of the file whose name has an escape and a line feed.
const ODD_SUMMARY: &str = "\\u001b[31m\\u000a.dmp: no crash
  system Windows 6.1.7601, x64, processors 4
  written not set
  streams 1 threads 0 modules 0 exceptions 0 ranges 0 memory 0
  file good\n";

/// The same as an object, which has the name as it is.
const ODD_OBJECT: &str =
    "{\"line\":\"summary\",\"file\":\"\\u001b[31m\\n.dmp\",\"status\":\"OK\",\"time\":0,\
\"system_info\":{\"os\":\"Windows\",\"os_ver\":\"6.1.7601\",\"cpu_arch\":\"amd64\",\"cpu_count\":4},\
\"system\":{\"platform_id\":2,\"processor_architecture\":9,\"processor_level\":6,\"processor_revision\":3,\
\"number_of_processors\":4,\"product_type\":1,\"major_version\":6,\"minor_version\":1,\"build_number\":7601,\
\"suite_mask\":256},\"crash\":null,\"program\":null,\"counts\":{\"streams\":\"1\",\"threads\":\"0\",\
\"modules\":\"0\",\"exceptions\":\"0\",\"ranges\":\"0\",\"memory\":\"0\"},\"bad_entries\":0,\"first_error\":null,\
\"parts_outside\":0,\"first_outside\":null,\"main_module\":null,\"modules\":[],\"threads\":[],\"crash_info\":null}\n";

/// Files whose names have control characters or others, and a word that has some.
pub static ROWS: [EndingRow<'static>; 9] = [
    (
        CommandCall::Line(&["summary", "\u{1b}[31m\n.dmp"]),
        (0, ODD_SUMMARY, ""),
        None,
        (1, 0, 0),
    ),
    (
        CommandCall::Line(&["summary", "--budget=1", "\u{1b}[31m\n.dmp"]),
        (
            3,
            "",
            "mdmp: \\u001b[31m\\u000a.dmp: fetch budget reached: offset 0 size 32\n",
        ),
        None,
        (1, 0, 0),
    ),
    // An object has the name as it is: a string of JSON escapes it. An error is told as ever.
    (
        CommandCall::Line(&["summary", "--json", "\u{1b}[31m\n.dmp"]),
        (0, ODD_OBJECT, ""),
        None,
        (1, 0, 0),
    ),
    (
        CommandCall::Line(&["summary", "--json", "--budget=1", "\u{1b}[31m\n.dmp"]),
        (
            3,
            "",
            "mdmp: \\u001b[31m\\u000a.dmp: fetch budget reached: offset 0 size 32\n",
        ),
        None,
        (1, 0, 0),
    ),
    (
        CommandCall::Line(&["list", "\0\u{1f}\u{7f} \\u001b\r"]),
        (
            3,
            "",
            "mdmp: cannot open \\u0000\\u001f\\u007f \\u001b\\u000d\n",
        ),
        None,
        (0, 0, 1),
    ),
    // Other characters stay.
    (
        CommandCall::Line(&["summary", "\\x1b \"é\u{9b}\u{1f600}"]),
        (3, "", "mdmp: cannot open \\x1b \"é\u{9b}\u{1f600}\n"),
        None,
        (0, 0, 1),
    ),
    (
        CommandCall::Line(&["copy", "system.dmp", "\u{1b}[31m\n.dmp", "7"]),
        (3, "", "mdmp: cannot create \\u001b[31m\\u000a.dmp\n"),
        None,
        (1, 0, 1),
    ),
    (
        CommandCall::Line(&["copy", "\t", "copy.dmp", "7"]),
        (3, "", "mdmp: cannot open \\u0009\n"),
        None,
        (0, 0, 1),
    ),
    // What a terminal would take for an order is escaped in a bad word too.
    (
        CommandCall::Line(&["list", "a", "--name", "\u{1b}[31m\\\u{7f}\n"]),
        (
            2,
            "",
            "mdmp: bad command line: --name '\\u001b[31m\\\\u007f\\u000a': expected a decimal number, 0 to 1073741824\n",
        ),
        None,
        (0, 0, 0),
    ),
];
