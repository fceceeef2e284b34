//! Commands over a source: what they print or copy, what they report, and their exit status.
ghost use Rattle.std.specs.Prelude.{◌≡◌, []};
ghost use Rattle.mdmp_tool.specs.Commands.{HasCopied, HasRunThrough, HasSummarized, HasSummarizedAs, IsSummarized, IsSummarizedObject, IsSummarizedText};

use mdmp_engines::{
    Engine, Outcome, ToolFault, copy_source, report, report_summary, run_in_blocks,
    summary_json_source, summary_source,
};
use mdmp_lister::{Limits, TypeSet};
use mdmp_print::{LineForm, LineOut};
use mdmp_source::{Out, Source, Store};
use std::alloc::Allocator;

/// How many bytes of output are gathered before they are written.
pub(crate) const BLOCK: usize = 65536;

/// Prints what an engine prints of a file, in blocks, and reports an error to `err`, or how many entries are bad. The
/// answer is the exit status: 0 on success; 1 for an error in the file, for a check in any entry; 3 for an I/O error,
/// if memory runs out, or if a limit is reached. If `err` refuses, the status is the same.
pub fn print_and_report<E: Engine, S: Store + Drop, A: Allocator + Copy, O: Out, W: Out>(
    engine: E,
    alloc: A,
    source: Source<S>,
    limits: Limits,
    blocks: &mut LineOut<'_, O>,
    err: &mut W,
) -> Outcome<u8, S>
    requires can { E.can_print engine }
    requires none { blocks.old.pending ≡ [] }
    ensures { HasRunThrough (record { limits = limits; choice = E.choice; pace = E.pace; held = E.held engine; aside = E.aside engine; beside = E.reads engine }) E.IsReported (E.Ends engine) (E.text engine)
        source blocks.old.inner (W.state err.old) result.answer result.source blocks.new.inner (W.state err.new) }
{
    let Outcome { answer, source } = run_in_blocks(engine, alloc, source, limits, blocks);
    Outcome {
        answer: E::report(answer, err),
        source,
    }
}

/// Prints the summary of a source to `out` in this form, and reports an error to `err`. `file` is the file's name. The
/// answer is the exit status, as [`print_and_report`] says; it is 1 if entries are bad.
pub fn summarize_and_report<S: Store + Drop, A: Allocator + Copy, O: Out, W: Out>(
    form: LineForm,
    alloc: A,
    file: &[u8],
    source: Source<S>,
    limits: Limits,
    out: &mut O,
    err: &mut W,
) -> Outcome<u8, S>
    ensures { HasSummarized form file.now limits source (O.state out.old) (W.state err.old) result.answer result.source (O.state out.new) (W.state err.new) }
{
    summarize_named(form, alloc, file, file, source, limits, out, err)
}

/// The same of a file whose name is printed so, and told so before an error.
pub(crate) fn summarize_named<S: Store + Drop, A: Allocator + Copy, O: Out, W: Out>(
    form: LineForm,
    alloc: A,
    printed: &[u8],
    told: &[u8],
    source: Source<S>,
    limits: Limits,
    out: &mut O,
    err: &mut W,
) -> Outcome<u8, S>
    ensures { HasSummarizedAs form printed.now told.now limits source (O.state out.old) (W.state err.old) result.answer result.source (O.state out.new) (W.state err.new) }
{
    let Outcome { answer, source } = summarize_in(form, alloc, printed, source, limits, out);
    Outcome {
        answer: report_summary(answer, told, err),
        source,
    }
}

/// Prints the summary of a source in this form.
fn summarize_in<S: Store + Drop, A: Allocator + Copy, O: Out>(
    form: LineForm,
    alloc: A,
    file: &[u8],
    source: Source<S>,
    limits: Limits,
    out: &mut O,
) -> Outcome<Result<u64, ToolFault>, S>
    ensures { IsSummarized form file.now limits source (O.state out.old) result.answer result.source (O.state out.new) }
{
    match form {
        LineForm::Text => summarize_text(alloc, file, source, limits, out),
        LineForm::Json => summarize_object(alloc, file, source, limits, out),
    }
}

/// Prints the lines of the summary of a source.
fn summarize_text<S: Store + Drop, A: Allocator + Copy, O: Out>(
    alloc: A,
    file: &[u8],
    source: Source<S>,
    limits: Limits,
    out: &mut O,
) -> Outcome<Result<u64, ToolFault>, S>
    ensures { IsSummarizedText file.now limits source (O.state out.old) result.answer result.source (O.state out.new) }
{
    summary_source(alloc, source, limits, file, out)
}

/// Prints the object of the summary of a source, in blocks.
fn summarize_object<S: Store + Drop, A: Allocator + Copy, O: Out>(
    alloc: A,
    file: &[u8],
    source: Source<S>,
    limits: Limits,
    out: &mut O,
) -> Outcome<Result<u64, ToolFault>, S>
    ensures { IsSummarizedObject file.now limits source (O.state out.old) result.answer result.source (O.state out.new) }
{
    let Ok(mut buffer) = vec![in alloc; 0; BLOCK] else {
        return Outcome {
            answer: Err(ToolFault::Memory),
            source,
        };
    };
    let mut blocks = LineOut::over(&mut buffer, out);
    let summarized = summary_json_source(alloc, source, limits, file, &mut blocks);
    // The loan comes back for the prover alone: what was printed is what `out` took.
    let _out = blocks.into_inner();
    summarized
}

/// Copies the streams of these types to `out`, and reports an error to `err`. The answer is the exit status, as
/// [`print_and_report`] says; it is 2 if a type is not copied.
pub fn copy_and_report<S: Store + Drop, A: Allocator + Copy, O: Out, W: Out>(
    alloc: A,
    types: TypeSet,
    source: Source<S>,
    limits: Limits,
    out: &mut O,
    err: &mut W,
) -> Outcome<u8, S>
    ensures { HasCopied A types limits source (O.state out.old) (W.state err.old) result.answer result.source (O.state out.new) (W.state err.new) }
{
    let Outcome { answer, source } = copy_source(alloc, source, limits, types, out);
    Outcome {
        answer: report(answer, err),
        source,
    }
}
