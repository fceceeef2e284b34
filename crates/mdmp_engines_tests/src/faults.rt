//! What is said of faults: the status and the line of each, and that each has a row in `fault_rows`.
use crate::copy_fault_rows::{COPIES, LIMITS};
use crate::fault_rows::{FaultRow, KINDS, ROWS};
use crate::runs::{BAD_NAME, bytes_in, out_of, text_of};
use crate::same::assert_same_at;
use mdmp_engines::{OpenFault, ReadFault, ToolFault, fault_line, status};
use mdmp_test_support::{FAULTY_TOLD, Room};
use std::alloc::Global;
use std::process::Abort;

/// Whether all that is said of a fault went out to an output of this room, of which this call fails, and
/// the bytes that did.
pub fn told(
    rt: &impl Abort,
    alloc: Global,
    fault: &ToolFault,
    room: Room,
    fail_at: Option<u64>,
) -> (bool, Vec<u8>) {
    let mut out = out_of(rt, alloc, room, fail_at);
    let is_told = fault_line(fault, &mut out).is_ok();
    (is_told, bytes_in(rt, alloc, &out))
}

/// The line of a fault, by one byte a call.
pub fn line_of(rt: &impl Abort, alloc: Global, fault: &ToolFault) -> Vec<u8> {
    let (is_told, bytes) = told(rt, alloc, fault, Room { all: 1000, call: 1 }, None);
    assert_same_at(rt, fault, is_told, true);
    bytes
}

/// Asserts the status of each fault, what is said of it behind the program's name, that it is shown so, and that an
/// output of nine bytes has the first ones of its line.
fn assert_told(rt: &impl Abort, alloc: Global, rows: &[FaultRow<'_>]) {
    for (fault, code, text) in rows {
        let line = format!(in alloc; "mdmp: {text}\n").expect(rt, "memory for a line");
        let shown = format!(in alloc; "mdmp: {fault}\n").expect(rt, "memory for a line");
        let found = line_of(rt, alloc, fault);
        assert_same_at(rt, text, status(fault), *code);
        assert_same_at(rt, text, text_of(rt, &found), line.as_str());
        assert_same_at(rt, text, shown.as_str(), line.as_str());
        let (is_told, start) = told(rt, alloc, fault, Room { all: 9, call: 1000 }, None);
        let is_start = line.as_str().as_bytes().starts_with(&start) && start.len() == 9;
        assert_same_at(rt, text, (is_told, is_start), (false, true));
    }
}

#[test]
fn faults_have_a_status_and_a_line(rt: HostRuntime) {
    assert_told(&rt, rt.alloc(), &ROWS);
}

#[test]
fn each_kind_and_each_part_has_its_words(rt: HostRuntime) {
    assert_told(&rt, rt.alloc(), &KINDS);
}

#[test]
fn faults_of_a_copy_have_a_status_and_a_line(rt: HostRuntime) {
    assert_told(&rt, rt.alloc(), &COPIES);
}

#[test]
fn limits_have_a_status_and_a_line(rt: HostRuntime) {
    assert_told(&rt, rt.alloc(), &LIMITS);
}

#[test]
fn line_of_a_fault_is_one_write(rt: HostRuntime) {
    // To an output whose second write fails.
    let room = Room {
        all: 1000,
        call: 1000,
    };
    let (is_told, bytes) = told(&rt, rt.alloc(), &BAD_NAME, room, Some(1));
    assert_same_at(
        &rt,
        &"one write",
        (is_told, text_of(&rt, &bytes)),
        (true, FAULTY_TOLD),
    );
}

/// The number of a refusal. It has no wildcard, so that whoever adds one comes here.
fn number_of_opening(fault: &OpenFault) -> u32 {
    match fault {
        OpenFault::TooShort { .. } => 0,
        OpenFault::BadSignature => 1,
        OpenFault::BadVersion { .. } => 2,
        OpenFault::DirectoryOutside { .. } => 3,
        OpenFault::Source(_) => 4,
        OpenFault::Budget { .. } => 5,
        OpenFault::Memory => 6,
        OpenFault::MemoryLimit { .. } => 7,
        OpenFault::TooManyRanges { .. } => 8,
    }
}

/// The number of a fault. It has no wildcard either.
fn number_of(fault: &ToolFault) -> u32 {
    match fault {
        ToolFault::Opening(fault) => number_of_opening(fault),
        ToolFault::List(_) => 9,
        ToolFault::Reading(fault) => match fault {
            ReadFault::Opening(_) => 10,
            ReadFault::List(_) => 11,
            ReadFault::PartOutside { .. } => 12,
            ReadFault::NameTooLong { .. } => 13,
            ReadFault::PartsTooLarge { .. } => 14,
            ReadFault::Memory => 15,
            ReadFault::Source(_) => 16,
        },
        ToolFault::Layout(_) => 17,
        ToolFault::Source(_) => 18,
        ToolFault::Out => 19,
        ToolFault::Budget { .. } => 20,
        ToolFault::Memory => 21,
        ToolFault::MemoryLimit { .. } => 22,
        ToolFault::AsideLimit { .. } => 23,
        ToolFault::CopyBudget { .. } => 24,
        ToolFault::NotCopied(_) => 25,
    }
}

/// Whether one of these rows is of the fault with this number.
fn have(rows: &[FaultRow<'_>], number: u32) -> bool {
    for (fault, _, _) in rows {
        if number_of(fault) == number {
            return true;
        }
    }
    false
}

/// Whether there is such a row.
fn has_row(number: u32) -> bool {
    have(&ROWS, number) || have(&COPIES, number) || have(&LIMITS, number)
}

#[test]
fn each_fault_has_a_row(rt: HostRuntime) {
    for number in 0..26 {
        assert_same_at(&rt, &number, has_row(number), true);
    }
}
