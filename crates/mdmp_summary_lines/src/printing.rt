//! The lines of a summary.
ghost use Rattle.mdmp_source.specs.Output.{Puts};
ghost use Rattle.mdmp_summary_lines.specs.SummaryText.{first_text, named_file, program_text, summary_text, tail_text};

use crate::counts::CountsLine;
use crate::crash_lines::print_crash;
use crate::file_name::FileName;
use crate::health::HealthLine;
use crate::names::SummaryNames;
use crate::system_line::{SystemLine, WrittenLine};
use mdmp_lister::Name;
use mdmp_print::{LongBytes, Printer, print_around, row};
use mdmp_source::OutFailed;
use mdmp_summary::FileSummary;
use mdmp_wire::ModuleRecord;

/// Prints the summary of a file in at most ten lines. The first begins with the name of the file, as it is. If the
/// output refuses, a first part of the text went out.
pub fn print_summary<O: Printer>(
    file: &[u8],
    summary: &FileSummary,
    names: &SummaryNames<'_>,
    out: &mut O,
) -> Result<(), OutFailed>
    ensures { Puts result (O.state out.old) (summary_text file.now summary.now names.now) (O.state out.new) }
{
    print_around(out, &row![], &LongBytes(file), &row![b": "])?;
    print_first(summary, names, out)?;
    print_program(&summary.program, &names.program, out)?;
    print_tail(summary, out)
}

/// Prints the lines of the crash, or that there is none.
fn print_first<O: Printer>(
    summary: &FileSummary,
    names: &SummaryNames<'_>,
    out: &mut O,
) -> Result<(), OutFailed>
    ensures { Puts result (O.state out.old) (first_text summary.now names.now) (O.state out.new) }
{
    match &summary.crash {
        Some(crash) => print_crash(summary.system, crash, &names.owner, &names.thread, out),
        None => out.print(&b"no crash"),
    }
}

/// Prints the line of the program, if there is one.
fn print_program<O: Printer>(
    program: &Option<ModuleRecord>,
    name: &Name<'_>,
    out: &mut O,
) -> Result<(), OutFailed>
    ensures { Puts result (O.state out.old) (program_text program.now name.now) (O.state out.new) }
{
    match program {
        Some(_) => print_around(out, &row![b"\n  program "], &FileName(name), &row![]),
        None => out.print(&row![]),
    }
}

/// Prints the lines behind those of crash and program.
fn print_tail<O: Printer>(summary: &FileSummary, out: &mut O) -> Result<(), OutFailed>
    ensures { Puts result (O.state out.old) (tail_text summary.now) (O.state out.new) }
{
    out.print(&row![
        SystemLine(summary.system),
        WrittenLine(summary.header.time_date_stamp),
        CountsLine(summary.counts),
        HealthLine {
            bad: summary.bad,
            outside: summary.outside,
        },
        b"\n",
    ])
}
