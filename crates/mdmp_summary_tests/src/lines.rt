//! The lines of summaries.
use crate::files::{LINUX, crash_file};
use crate::given::{CPAD, EXE, GivenName, STACK_OUTSIDE, names, summary_of, summary_of_write};
use crate::same::assert_same_at;
use crate::summing::summary_in;
use mdmp_source::{OutFailed, PatchyOut};
use mdmp_summary::{AccessKind, FileSummary, Reached, Registers};
use mdmp_summary_lines::{SummaryNames, print_summary};
use std::alloc::Global;
use std::process::Abort;

/// Asserts that a summary is printed so.
fn assert_printed(
    rt: &impl Abort,
    alloc: Global,
    summary: &FileSummary,
    names: &SummaryNames<'_>,
    expected: &str,
) {
    let mut out = PatchyOut::with_room(alloc, 4096, 7, None).expect(rt, "room");
    let answer = print_summary(b"a.dmp", summary, names, &mut out);
    assert_same_at(
        rt,
        &expected,
        (answer, out.bytes()),
        (Ok(()), expected.as_bytes()),
    );
}

/// The lines behind those of the crash and its registers, up to the file's health.
const COUNTS: &str =
    "\n  system Linux 0.0.0, x64, processors 0\n  written not set\n  streams 5 threads 0 modules 1 exceptions 2 ranges 0 memory 0\n  file ";

#[test]
fn crash_in_a_module_succeeds(rt: HostRuntime) {
    let summary = summary_of_write(&rt, rt.alloc());
    let cpad = GivenName::Units(CPAD);
    let thread = GivenName::Units(b"c\0\"\0");
    assert_printed(
        &rt,
        rt.alloc(),
        &summary,
        &names(cpad, cpad, thread),
        "a.dmp: SIGSEGV at cpad+0x10, thread 7 \"c\"\"\n  code 0x0000000b flags 0x00000001 SEGV_MAPERR\n  reached 0x0000000000000010 by a write\n  address 0x0000000000000010 instruction 0x0000000000005010 stack 0x0000000000000000 frame 0x0000000000000000\n  program cpad\n  system Linux 0.0.0, x64, processors 0\n  written 1735689600 seconds after 1970 in UTC\n  streams 5 threads 0 modules 1 exceptions 2 ranges 0 memory 0\n  file good\n",
    );
}

#[test]
fn crash_near_a_module_succeeds(rt: HostRuntime) {
    let mut made = LINUX;
    made.module_size = 16;
    let mut summary = summary_of(&rt, rt.alloc(), &made);
    if let Some(crash) = &mut summary.crash {
        crash.exception.fields.exception_code = 999;
        crash.exception.fields.exception_flags = 0x80;
        crash.reached = None;
        crash.registers = None;
    }
    let front =
        "a.dmp: 0x000003e7 at 0x0000000000005010 near \\u00e9.exe+0x10, thread 7\n  code 0x000003e7 flags 0x00000080\n  address 0x0000000000000010\n  program (name of 8000 bytes)";
    let expected = format!(in rt.alloc(); "{front}{COUNTS}good\n").expect(&rt, "a text");
    let exe = GivenName::Units(EXE);
    assert_printed(
        &rt,
        rt.alloc(),
        &summary,
        &names(GivenName::Long(8000), exe, GivenName::Units(b"")),
        &expected,
    );
}

#[test]
fn crash_without_a_module_succeeds(rt: HostRuntime) {
    let mut summary = summary_of(&rt, rt.alloc(), &LINUX);
    summary.program = None;
    summary.system = None;
    if let Some(crash) = &mut summary.crash {
        crash.holder = None;
        crash.registers = Some(Registers {
            instruction: 1,
            stack: 2,
            frame: u64::MAX,
        });
        crash.reached = Some(Reached {
            address: 16,
            access: AccessKind::Unknown,
        });
    }
    assert_printed(
        &rt,
        rt.alloc(),
        &summary,
        &names(GivenName::None, GivenName::None, GivenName::Long(9)),
        "a.dmp: 0x0000000b at 0x0000000000005010, thread 7\n  code 0x0000000b flags 0x00000000\n  reached 0x0000000000000010\n  address 0x0000000000000010 instruction 0x0000000000000001 stack 0x0000000000000002 frame 0xffffffffffffffff\n  written not set\n  streams 5 threads 0 modules 1 exceptions 2 ranges 0 memory 0\n  file good\n",
    );
}

#[test]
fn file_without_a_crash_succeeds(rt: HostRuntime) {
    let mut summary = summary_of(&rt, rt.alloc(), &LINUX);
    summary.crash = None;
    if let Some(system) = &mut summary.system {
        system.platform_id = 2;
        system.processor_architecture = 77;
        system.major_version = 10;
        system.build_number = 19041;
        system.number_of_processors = 255;
    }
    summary.outside.count = 2;
    summary.outside.first = Some(STACK_OUTSIDE);
    assert_printed(
        &rt,
        rt.alloc(),
        &summary,
        &names(GivenName::None, GivenName::None, GivenName::None),
        "a.dmp: no crash\n  program (no name)\n  system Windows 10.0.19041, architecture 77, processors 255\n  written not set\n  streams 5 threads 0 modules 1 exceptions 2 ranges 0 memory 0\n  file readable, 2 parts outside the file: entry 2 item 0: stack outside the file: offset 4720 size 7264\n",
    );
    summary.outside.count = 1;
    if let Some(system) = &mut summary.system {
        system.platform_id = 9;
    }
    assert_printed(
        &rt,
        rt.alloc(),
        &summary,
        &names(GivenName::None, GivenName::None, GivenName::None),
        "a.dmp: no crash\n  program (no name)\n  system platform 9 10.0.19041, architecture 77, processors 255\n  written not set\n  streams 5 threads 0 modules 1 exceptions 2 ranges 0 memory 0\n  file readable, 1 part outside the file: entry 2 item 0: stack outside the file: offset 4720 size 7264\n",
    );
}

#[test]
fn bad_entries_are_told(rt: HostRuntime) {
    let file = crash_file(&rt, rt.alloc(), &LINUX);
    let first = file.get(..500).expect(&rt, "a first part");
    let summary = summary_in(&rt, rt.alloc(), first);
    assert_printed(
        &rt,
        rt.alloc(),
        &summary,
        &names(GivenName::None, GivenName::None, GivenName::None),
        "a.dmp: 0x00000013 at 0x0000000000000005, thread 6\n  code 0x00000013 flags 0x00000000\n  address 0x0000000000000005\n  written not set\n  streams 5 threads 0 modules 0 exceptions 2 ranges 0 memory 0\n  file damaged, 3 bad entries: entry 0: stream outside the file: offset 4096 size 4\n",
    );
    let whole = summary_in(&rt, rt.alloc(), &file);
    let mut out = PatchyOut::with_room(rt.alloc(), 4096, 4096, None).expect(&rt, "room");
    let none = names(GivenName::None, GivenName::None, GivenName::None);
    let answer = print_summary(b"a.dmp", &whole, &none, &mut out);
    assert_same_at(&rt, &"one bad entry", answer, Ok(()));
    let told = out.bytes();
    let end =
        b"  file damaged, 1 bad entry: entry 0: stream outside the file: offset 4096 size 4\n";
    assert!(rt; told.len() >= end.len());
    assert_same_at(&rt, &"its end", &told[told.len() - end.len()..], &end[..]);
}

#[test]
fn output_that_fails_has_a_first_part(rt: HostRuntime) {
    let summary = summary_of(&rt, rt.alloc(), &LINUX);
    let cpad = GivenName::Units(CPAD);
    for call in 0..30u64 {
        let mut out = PatchyOut::with_room(rt.alloc(), 4096, 12, Some(call)).expect(&rt, "room");
        let answer = print_summary(b"a.dmp", &summary, &names(cpad, cpad, cpad), &mut out);
        let most = 12 * call as usize;
        assert_same_at(
            &rt,
            &call,
            (answer, out.bytes().len() <= most),
            (Err(OutFailed), true),
        );
    }
}
