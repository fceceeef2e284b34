//! The object of a summary, up to its modules.
ghost use Rattle.std.specs.Prelude.{◌++◌, refl};
ghost use Rattle.mdmp_source.specs.Output.{Puts};
ghost use Rattle.mdmp_summary_lines.specs.JsonHead.{counts_object_text, before_program_text, first_error_text, first_outside_text, health_members_text, main_module_text, from_program_text, program_object_text, summary_head_text, time_and_system_text};

use crate::json_crash::{CrashObject, ModuleMembers};
use crate::json_system::{SystemInfo, SystemObject};
use crate::json_text::BytesString;
use crate::names::SummaryNames;
use mdmp_lister::{ListFault, Name};
use mdmp_print::{InQuotes, ListWords, LongText, OutsideWords, Piece, Printer, print_around, row};
use mdmp_source::OutFailed;
use mdmp_summary::{FileSummary, ItemCounts, PartOutside};
use mdmp_wire::{ModuleRecord, SystemRecord};

/// The time of a dump and its system.
#[derive(Clone, Copy)]
struct TimeAndSystem {
    time: u32,
    system: Option<SystemRecord>,
}

impl Piece for TimeAndSystem {
    ghost text = { λ p. time_and_system_text p.time p.system };

    ghost before = { λ p more. time_and_system_text p.time p.system ++ more };

    ghost most = { 620 };

    ghost joined = { λ p more. refl };

    fn write_at(&self, buffer: &mut [u8], at: usize) -> usize {
        row![
            b",\"time\":",
            self.time,
            b",\"system_info\":",
            SystemInfo(self.system),
            b",\"system\":",
            SystemObject(self.system),
        ]
        .write_at(buffer, at)
    }
}

/// The program, if there is one.
#[derive(Drop)]
struct ProgramObject<'n, 'a> {
    program: Option<ModuleRecord>,
    name: &'n Name<'a>,
}

impl<'n, 'a> LongText for ProgramObject<'n, 'a> {
    ghost text = { λ t. program_object_text t.program t.name.now };

    fn print<O: Printer>(&self, out: &mut O) -> Result<(), OutFailed> {
        match self.program {
            Some(fields) => print_around(
                out,
                &row![b"{"],
                &ModuleMembers {
                    fields,
                    name: self.name,
                },
                &row![b"}"],
            ),
            None => out.print(&b"null"),
        }
    }
}

/// How many items of each kind there are.
#[derive(Clone, Copy)]
struct CountsObject(ItemCounts);

impl Piece for CountsObject {
    ghost text = { λ p. counts_object_text p.0 };

    ghost before = { λ p more. counts_object_text p.0 ++ more };

    ghost most = { 340 };

    ghost joined = { λ p more. refl };

    fn write_at(&self, buffer: &mut [u8], at: usize) -> usize {
        let counts = self.0;
        row![
            b"{\"streams\":",
            InQuotes(counts.streams),
            b",\"threads\":",
            InQuotes(counts.threads),
            b",\"modules\":",
            InQuotes(counts.modules),
            b",\"exceptions\":",
            InQuotes(counts.exceptions),
            b",\"ranges\":",
            InQuotes(counts.ranges),
            b",\"memory\":",
            InQuotes(counts.memory),
            b"}",
        ]
        .write_at(buffer, at)
    }
}

/// The first error of an entry as a string, if there is one.
#[derive(Clone, Copy)]
struct ErrorString(Option<ListFault>);

impl Piece for ErrorString {
    ghost text = { λ p. first_error_text p.0 };

    ghost before = { λ p more. first_error_text p.0 ++ more };

    ghost most = { 162 };

    ghost joined = { λ p more. refl };

    fn write_at(&self, buffer: &mut [u8], at: usize) -> usize {
        match self.0 {
            Some(fault) => InQuotes(ListWords(fault)).write_at(buffer, at),
            None => b"null".write_at(buffer, at),
        }
    }
}

/// The first part that lies outside the file as a string, if there is one.
#[derive(Clone, Copy)]
struct OutsideString(Option<PartOutside>);

impl Piece for OutsideString {
    ghost text = { λ p. first_outside_text p.0 };

    ghost before = { λ p more. first_outside_text p.0 ++ more };

    ghost most = { 182 };

    ghost joined = { λ p more. refl };

    fn write_at(&self, buffer: &mut [u8], at: usize) -> usize {
        match self.0 {
            Some(part) => InQuotes(OutsideWords(part)).write_at(buffer, at),
            None => b"null".write_at(buffer, at),
        }
    }
}

/// The index of the program among the modules, if there is one.
#[derive(Clone, Copy)]
struct MainModule(Option<ModuleRecord>);

impl Piece for MainModule {
    ghost text = { λ p. main_module_text p.0 };

    ghost before = { λ p more. main_module_text p.0 ++ more };

    ghost most = { 4 };

    ghost joined = { λ p more. refl };

    fn write_at(&self, buffer: &mut [u8], at: usize) -> usize {
        match self.0 {
            Some(_) => b"0".write_at(buffer, at),
            None => b"null".write_at(buffer, at),
        }
    }
}

/// The members that say how much a dump has, and whether its file is good.
#[derive(Clone, Copy)]
struct HealthMembers(FileSummary);

impl Piece for HealthMembers {
    ghost text = { λ p. health_members_text p.0 };

    ghost before = { λ p more. health_members_text p.0 ++ more };

    ghost most = { 900 };

    ghost joined = { λ p more. refl };

    fn write_at(&self, buffer: &mut [u8], at: usize) -> usize {
        row![
            b",\"counts\":",
            CountsObject(self.0.counts),
            b",\"bad_entries\":",
            self.0.bad.count,
            b",\"first_error\":",
            ErrorString(self.0.bad.first),
            b",\"parts_outside\":",
            self.0.outside.count,
            b",\"first_outside\":",
            OutsideString(self.0.outside.first),
            b",\"main_module\":",
            MainModule(self.0.program),
            b",\"modules\":[",
        ]
        .write_at(buffer, at)
    }
}

/// Prints the first part of the object of a summary, up to the first of its modules. `file` is the name of the file.
/// If the output refuses, a first part of the text went out.
pub fn print_summary_head<O: Printer>(
    file: &[u8],
    summary: &FileSummary,
    names: &SummaryNames<'_>,
    out: &mut O,
) -> Result<(), OutFailed>
    ensures { Puts result (O.state out.old) (summary_head_text file.now summary.now names.now) (O.state out.new) }
{
    print_around(
        out,
        &row![b"{\"line\":\"summary\",\"file\":"],
        &BytesString(file),
        &row![b",\"status\":\"OK\""],
    )?;
    print_before_program(summary, names, out)?;
    print_from_program(summary, &names.program, out)
}

/// Prints the time, the system and the crash, up to the program.
fn print_before_program<O: Printer>(
    summary: &FileSummary,
    names: &SummaryNames<'_>,
    out: &mut O,
) -> Result<(), OutFailed>
    ensures { Puts result (O.state out.old) (before_program_text summary.now names.now) (O.state out.new) }
{
    let front = TimeAndSystem {
        time: summary.header.time_date_stamp,
        system: summary.system,
    };
    let crash = CrashObject {
        system: summary.system,
        crash: &summary.crash,
        owner: &names.owner,
        thread: &names.thread,
    };
    print_around(
        out,
        &row![front, b",\"crash\":"],
        &crash,
        &row![b",\"program\":"],
    )
}

/// Prints the program, and the members after it.
fn print_from_program<O: Printer>(
    summary: &FileSummary,
    name: &Name<'_>,
    out: &mut O,
) -> Result<(), OutFailed>
    ensures { Puts result (O.state out.old) (from_program_text summary.now name.now) (O.state out.new) }
{
    let program = ProgramObject {
        program: summary.program,
        name,
    };
    print_around(out, &row![], &program, &HealthMembers(*summary))
}
