//! The growths of a file in memory that a command makes, each of which is refused.
use crate::commands::{CommandCall, GOOD, Trial, assert_end, run, written};
use crate::endings::{EndingRow, assert_ends};
use crate::same::assert_same_at;
use mdmp_test_support::SYSTEM;
use std::alloc::{AllocGlobal, Global};
use std::process::Abort;
use std::rt::Files;

/// A copy through the least window, over a disk whose growths are refused.
const COPY: CommandCall<'static> = CommandCall::Line(&[
    "copy",
    "system.dmp",
    "copy.dmp",
    "7",
    "--window",
    "168",
]);

/// Asserts how a copy ends whose file's growth with this number alone is refused. Tells whether there is one. The
/// first growth is the name of the file.
fn has_growth<R: Files + Input + AllocGlobal + Abort>(rt: &R, alloc: Global, number: u64) -> bool {
    let disk_growth = Some(number);
    let trial = Trial {
        disk_growth,
        ..GOOD
    };
    let ran = run(rt, alloc, COPY, &trial);
    let is_refused = ran.disk_heap.growths > number;
    let wanted = match (is_refused, number) {
        (false, _) => (0, "", ""),
        (true, 0) => (3, "", "mdmp: cannot create copy.dmp\n"),
        (true, _) => (3, "", "mdmp: output failed\n"),
    };
    assert_end(rt, &number, &ran.end, wanted);
    let bytes = written(&ran);
    let is_start = SYSTEM.starts_with(bytes) && (is_refused || bytes.len() == SYSTEM.len());
    let found = (ran.disk_heap.out, ran.made.is_some(), is_start);
    assert_same_at(rt, &number, found, (0, !is_refused || number > 0, true));
    is_refused
}

#[test]
fn each_growth_of_a_file_that_is_made_may_be_refused(rt: HostRuntime) {
    let mut growths = 0u64;
    for number in 0..20 {
        if !has_growth(&rt, rt.alloc(), number) {
            break;
        }
        growths = growths.saturating_add(1);
    }
    assert_same_at(&rt, &growths, growths > 1 && growths < 20, true);
}

/// A copy that is made at the second time.
static LATER: EndingRow<'static> = (
    COPY,
    (0, "", "mdmp: cannot create copy.dmp\n"),
    Some(&SYSTEM),
    (2, 1, 1),
);

#[test]
fn file_whose_name_was_refused_is_made_later(rt: HostRuntime) {
    let trial = Trial {
        disk_growth: Some(0),
        times: 2,
        ..GOOD
    };
    assert_ends(&rt, rt.alloc(), &LATER, &trial);
}
