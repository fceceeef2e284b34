//! Command lines at the edge of each limit and past it, each of whose growths is refused.
use crate::commands::Ending;
use crate::growths::{GrownLine, assert_lines};
use crate::texts::{MODULE_OBJECTS, SYMBOL_LINES};
use mdmp_test_support::{MODULE_FILE_TEXT, WIDE_TEXT};

/// The least window.
pub const LEAST: &str = "--window=168";

/// No names.
pub const NAMELESS: &str = "--name=0";

/// The words of a `hex` without names, within this limit.
macro_rules! hex_within {
    ($limit:expr) => {
        &["hex", "wide.dmp", "0x1000", "4", LEAST, NAMELESS, $limit]
    };
}

/// The words of a copy within this limit.
macro_rules! copy_within {
    ($limit:expr) => {
        &["copy", "six.dmp", "copy.dmp", "3", "6", LEAST, $limit]
    };
}

/// Command lines by their limits on memory: a window of 168 bytes, and 12 for an entry.
static MEMORY: [GrownLine<'static>; 9] = [
    (
        &["list", "module.dmp", LEAST, NAMELESS, "--memory=180"],
        ((0, MODULE_FILE_TEXT, ""), None, 3),
    ),
    (
        &["list", "module.dmp", LEAST, NAMELESS, "--memory=179"],
        ((3, "", "mdmp: memory limit reached: 180\n"), None, 1),
    ),
    (
        &["check", "module.dmp", LEAST, NAMELESS, "--memory=180"],
        ((0, "entry 0: ok\n", ""), None, 3),
    ),
    (
        &["check", "module.dmp", LEAST, NAMELESS, "--memory=179"],
        ((3, "", "mdmp: memory limit reached: 180\n"), None, 1),
    ),
    // Two ranges, and two bytes for each of four addresses.
    (hex_within!("--memory=236"), ((0, WIDE_TEXT, ""), None, 6)),
    (
        hex_within!("--memory=235"),
        ((3, "", "mdmp: memory limit reached: 236\n"), None, 3),
    ),
    (
        hex_within!("--memory=187"),
        ((3, "", "mdmp: memory limit reached: 188\n"), None, 1),
    ),
    // Two windows, and 24 bytes for each of six entries. A copy needs no block of output.
    (copy_within!("--memory=480"), ((0, "", ""), Some(292), 5)),
    (
        copy_within!("--memory=479"),
        ((3, "", "mdmp: memory limit reached: 480\n"), Some(0), 0),
    ),
];

/// Command lines by their limits on what is read of CodeView records.
static ASIDE: [GrownLine<'static>; 4] = [
    (
        &["list", "--pdb", "module.dmp", "--aside", "30"],
        ((0, SYMBOL_LINES, ""), None, 4),
    ),
    (
        &["list", "--pdb", "module.dmp", "--aside", "29"],
        ((3, MODULE_FILE_TEXT, OVER_ASIDE), None, 4),
    ),
    (
        &["list", "--pdb", "--json", "module.dmp", "--aside", "29"],
        ((3, MODULE_OBJECTS, OVER_ASIDE), None, 4),
    ),
    (
        &["list", "module.dmp", "--aside", "0"],
        ((0, MODULE_FILE_TEXT, ""), None, 4),
    ),
];

const OVER_ASIDE: &str = "mdmp: aside limit reached: offset 156 size 30\n";

/// What is told of a copy whose budget is too small for it.
const OVER_BUDGET: Ending<'static> = (3, "", "mdmp: copy needs 778 bytes\n");

/// Copies by their budgets: opening the file takes 32 bytes, 72, 52 and 168.
static BUDGETS: [GrownLine<'static>; 6] = [
    (
        &["copy", "six.dmp", "copy.dmp", "3", "6", "--budget", "778"],
        ((0, "", ""), Some(292), 5),
    ),
    (
        &["copy", "six.dmp", "copy.dmp", "3", "6", "--budget", "777"],
        (OVER_BUDGET, Some(0), 5),
    ),
    (
        &["copy", "six.dmp", "copy.dmp", "3", "6", "--budget", "324"],
        (OVER_BUDGET, Some(0), 5),
    ),
    (
        &["copy", "six.dmp", "copy.dmp", "3", "6", "--budget", "323"],
        (
            (3, "", "mdmp: fetch budget reached: offset 264 size 168\n"),
            Some(0),
            4,
        ),
    ),
    (
        &["copy", "six.dmp", "copy.dmp", "3", "6", "--budget", "103"],
        (
            (3, "", "mdmp: fetch budget reached: offset 32 size 72\n"),
            Some(0),
            2,
        ),
    ),
    (
        &["copy", "six.dmp", "copy.dmp", "3", "6", "--budget", "31"],
        (
            (3, "", "mdmp: fetch budget reached: offset 0 size 32\n"),
            Some(0),
            0,
        ),
    ),
];

#[test]
fn command_line_keeps_its_limits_and_its_budget(rt: HostRuntime) {
    assert_lines(&rt, rt.alloc(), &MEMORY);
    assert_lines(&rt, rt.alloc(), &ASIDE);
    assert_lines(&rt, rt.alloc(), &BUDGETS);
}
