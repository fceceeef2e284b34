//! Names and summaries that are given to the lines.
use crate::files::{LINUX, Made, crash_file};
use crate::summing::summary_in;
use mdmp_lister::Name;
use mdmp_summary::{AccessKind, FileSummary, PartOutside, Reached};
use mdmp_summary_lines::SummaryNames;
use mdmp_wire::{PartName, UnitsRef};
use std::alloc::Global;
use std::process::Abort;

/// The units of `/usr/bin/cpad`.
pub const CPAD: &[u8; 26] = b"/\0u\0s\0r\0/\0b\0i\0n\0/\0c\0p\0a\0d\0";

/// The units of `C:\é.exe`.
pub const EXE: &[u8; 16] = b"C\0:\0\\\0\xe9\0.\0e\0x\0e\0";

/// What a name is.
#[derive(Clone, Copy)]
pub enum GivenName {
    None,
    Units(&'static [u8]),
    Long(u32),
}

pub fn name(told: GivenName) -> Name<'static> {
    match told {
        GivenName::None => Name::None,
        GivenName::Units(bytes) => Name::Units(UnitsRef::over(&bytes[..bytes.len() / 2 * 2])),
        GivenName::Long(length) => Name::Long(length),
    }
}

/// The names of the program, of the crash's module and of its thread.
pub fn names(program: GivenName, owner: GivenName, thread: GivenName) -> SummaryNames<'static> {
    SummaryNames {
        program: name(program),
        owner: name(owner),
        thread: name(thread),
    }
}

/// The summary of a crash file that is whole.
pub fn summary_of(rt: &impl Abort, alloc: Global, made: &Made) -> FileSummary {
    let file = crash_file(rt, alloc, made);
    let mut summary = summary_in(rt, alloc, &file);
    summary.bad.count = 0;
    summary.bad.first = None;
    summary
}

/// The summary of a file of Linux that has a time, and whose crash was a write to the address 16.
pub fn summary_of_write(rt: &impl Abort, alloc: Global) -> FileSummary {
    let mut summary = summary_of(rt, alloc, &LINUX);
    summary.header.time_date_stamp = 1735689600;
    if let Some(crash) = &mut summary.crash {
        crash.exception.fields.exception_flags = 1;
        crash.reached = Some(Reached {
            address: 16,
            access: AccessKind::Write,
        });
    }
    summary
}

/// A stack that lies outside the file.
pub const STACK_OUTSIDE: PartOutside = PartOutside {
    entry: 2,
    index: 0,
    part: PartName::Stack,
    offset: 4720,
    size: 7264,
};
