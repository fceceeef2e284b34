//! The summaries of files, one after the other.
ghost use Rattle.std.specs.Prelude.{◌≡◌, map};
ghost use Rattle.mdmp_engines.specs.Reports.{file_fault_text};
ghost use Rattle.mdmp_tool.specs.Commands.{HasSummarizedAs};
ghost use Rattle.mdmp_tool.specs.Shown.{shown};
ghost use Rattle.mdmp_tool.specs.Words.{EndsFile, EndsFileSummary, EndsInput, EndsSource, EndsSummaries, input_name, printed_name};

use crate::running::summarize_named;
use crate::shown::shown_name;
use crate::standard_input::{input_fault, input_most, is_input};
use crate::words::refuse_name;
use mdmp_disk::Disk;
use mdmp_engines::{ToolFault, report, report_summary};
use mdmp_lister::Limits;
use mdmp_print::LineForm;
use mdmp_source::{MemoryStore, Out, Source, Store};
use std::alloc::Allocator;

/// Prints the summary of each of these files, in their order, and returns the worst of their exit statuses. A file is
/// opened when its turn comes. After an error in a file the next file follows.
pub(crate) fn summarize_files<D: Disk, A: Allocator + Copy, O: Out, W: Out>(
    disk: &mut D,
    alloc: A,
    form: LineForm,
    limits: Limits,
    files: &[&str],
    out: &mut O,
    err: &mut W,
) -> u8
    ensures { EndsSummaries form limits (map (λ file. file.now) files.now) (record { old = D.state disk.old; new = D.state disk.new })
        (record { out = O.state out.old; err = W.state err.old }) result (record { out = O.state out.new; err = W.state err.new }) }
{
    let mut worst = 0u8;
    for file in files {
        let status = summarize_file(disk, alloc, form, limits, *file, out, err);
        worst = worst.max(status);
    }
    worst
}

/// Prints the summary of the file of this name, or of standard input. The name is told without control characters, and
/// in an object printed as it is.
fn summarize_file<D: Disk, A: Allocator + Copy, O: Out, W: Out>(
    disk: &mut D,
    alloc: A,
    form: LineForm,
    limits: Limits,
    file: &str,
    out: &mut O,
    err: &mut W,
) -> u8
    ensures { EndsFileSummary form limits file.now (record { old = D.state disk.old; new = D.state disk.new })
        (record { out = O.state out.old; err = W.state err.old }) result (record { out = O.state out.new; err = W.state err.new }) }
{
    if is_input(file) {
        return summarize_input(disk, alloc, form, limits, file, out, err);
    }
    summarize_on_disk(disk, alloc, form, limits, file, out, err)
}

/// Prints the summary of the file of this name.
fn summarize_on_disk<D: Disk, A: Allocator + Copy, O: Out, W: Out>(
    disk: &mut D,
    alloc: A,
    form: LineForm,
    limits: Limits,
    file: &str,
    out: &mut O,
    err: &mut W,
) -> u8
    ensures { EndsFile (HasSummarizedAs form (printed_name form file.now) (shown file.now) limits) file.now (record { old = D.state disk.old; new = D.state disk.new })
        (record { out = O.state out.old; err = W.state err.old }) result (record { out = O.state out.new; err = W.state err.new }) }
{
    let Ok(store) = disk.open(file) else {
        return refuse_name(b"cannot open ", file, err);
    };
    summarize_source(alloc, form, file, Source::new(store), limits, out, err)
}

/// Prints the summary of standard input, as that of a file of this name.
fn summarize_input<D: Disk, A: Allocator + Copy, O: Out, W: Out>(
    disk: &mut D,
    alloc: A,
    form: LineForm,
    limits: Limits,
    file: &str,
    out: &mut O,
    err: &mut W,
) -> u8
    ensures { EndsInput (HasSummarizedAs form (printed_name form file.now) (shown file.now) limits) (file_fault_text input_name) limits (record { old = D.state disk.old; new = D.state disk.new })
        (record { out = O.state out.old; err = W.state err.old }) result (record { out = O.state out.new; err = W.state err.new }) }
{
    let most = input_most(limits);
    match disk.read_input(alloc, most) {
        Ok(bytes) => {
            let source = Source::new(MemoryStore::new(&bytes));
            summarize_source(alloc, form, file, source, limits, out, err)
        }
        Err(why) => report_summary(Err(input_fault(most, why)), b"-", err),
    }
}

/// Prints the summary of a source, as that of the file of this name.
fn summarize_source<S: Store + Drop, A: Allocator + Copy, O: Out, W: Out>(
    alloc: A,
    form: LineForm,
    file: &str,
    source: Source<S>,
    limits: Limits,
    out: &mut O,
    err: &mut W,
) -> u8
    ensures { EndsSource (HasSummarizedAs form (printed_name form file.now) (shown file.now) limits) source
        (record { out = O.state out.old; err = W.state err.old }) result (record { out = O.state out.new; err = W.state err.new }) }
{
    let Ok(told) = shown_name(alloc, file) else {
        return report::<(), W>(Err(ToolFault::Memory), err);
    };
    let printed = printed_name(form, &told, file);
    summarize_named(form, alloc, printed, &told, source, limits, out, err).answer
}

/// The name under which the summary of a file is printed, of which it is known how it is told.
fn printed_name<'a>(form: LineForm, told: &'a [u8], file: &'a str) -> &'a [u8]
    requires { told.now ≡ shown file.now }
    ensures { result.now ≡ printed_name form file.now }
{
    match form {
        LineForm::Text => told,
        LineForm::Json => file.as_bytes(),
    }
}
