//! Outputs that refuse, and what they have then.
use super::{assert_wrote, patchy_out};
use crate::dump::built::value_of;
use crate::files::{CRASH_FILE, CRASH_READING, SYSTEM_READING, file_of};
use mdmp_dump::Dump;
use mdmp_test_support::SYSTEM;
use mdmp_writer::WriteFault;
use std::alloc::Global;
use std::process::Abort;

/// How much an output takes, bytes in all and bytes in a call, the call that fails, and how many bytes it has then.
type Taking = (usize, usize, Option<u64>, usize);

/// Asserts that an output refuses a dump that is written as this file, and has so many of its first bytes then, through
/// the least buffer, and through one that holds all of it.
fn assert_refused(
    rt: &impl Abort,
    alloc: Global,
    dump: &Dump<Global>,
    file: &[u8],
    taking: &Taking,
) {
    let (room, cap, fail_at, taken) = *taking;
    let first = file.get(..taken).expect(rt, "a first part");
    let refused = Err(WriteFault::Out);
    let out = patchy_out(rt, alloc, room, cap, fail_at);
    assert_wrote(rt, &mut dump.view(), out, 1, refused, first);
    let out = patchy_out(rt, alloc, room, cap, fail_at);
    assert_wrote(rt, &mut dump.view(), out, 4096, refused, first);
}

/// Outputs that are full, and one that fails at once.
static TAKINGS: [Taking; 4] = [
    (0, 4096, None, 0),
    (40, 4096, None, 40),
    (291, 4096, None, 291),
    (4096, 4096, Some(0), 0),
];

#[test]
fn output_that_fails_has_what_it_took(rt: HostRuntime) {
    let crash = value_of(&rt, rt.alloc(), &CRASH_READING);
    let file = file_of(&rt, rt.alloc(), &CRASH_FILE);
    for taking in &TAKINGS {
        assert_refused(&rt, rt.alloc(), &crash, &file, taking);
    }
    // By a byte a call, each of which fails in turn.
    for call in 0..292 {
        let taking = (4096, 1, Some(call), call as usize);
        assert_refused(&rt, rt.alloc(), &crash, &file, &taking);
    }
}

#[test]
fn dump_that_fits_the_buffer_goes_out_in_one_call(rt: HostRuntime) {
    // The output fails at the second call.
    let system = value_of(&rt, rt.alloc(), &SYSTEM_READING);
    let out = patchy_out(&rt, rt.alloc(), 136, 4096, Some(1));
    assert_wrote(&rt, &mut system.view(), out, 4096, Ok(136), &SYSTEM);
}
