//! The command `summary`.
ghost use Rattle.std.specs.Prelude.{◌≡◌, ◌+◌, ◌*◌, ℕ, List, Some, IfErr, IfOk, MatchResult};
ghost use Rattle.mdmp_source.specs.Output.{Puts};
ghost use Rattle.mdmp_source.specs.Store.{IsGood};
ghost use Rattle.mdmp_summary_lines.specs.SummaryText.{summary_text};
ghost use Rattle.mdmp_engines.specs.Causes.{HasOutCause, IsNoSourceFault};
ghost use Rattle.mdmp_engines.specs.Engines.{ReadsSource};
ghost use Rattle.mdmp_engines.specs.KeptNames.{kept_names, told_names};
ghost use Rattle.mdmp_engines.specs.SummaryRuns.{FetchesTold, IsNameEnd, IsPrintedOrUnread, IsQuietSummary, IsSummed, IsSummedThrough, IsUnsummed, Summarizes, summary_told};

use crate::engine::refused_beside;
use crate::fault::{ToolFault, told_list, told_opening};
use crate::kept_name::{KeptNames, read_names};
use crate::outcome::Outcome;
use mdmp_lister::{Choice, Limits, Walker};
use mdmp_print::Printer;
use mdmp_source::{OutFailed, Source, Store};
use mdmp_summary::{FileSummary, SummaryFault, summarize_listing};
use mdmp_summary_lines::print_summary;
use std::alloc::Allocator;

/// The error of a summary, as a command tells it.
pub(crate) fn told_summary(fault: SummaryFault) -> ToolFault
    ensures { result ≡ summary_told fault }
{
    match fault {
        SummaryFault::Opening(fault) => told_opening(fault),
        SummaryFault::List(fault) => told_list(fault),
        SummaryFault::Source(fault) => ToolFault::Source(fault),
    }
}

/// A file that was opened for its summary, and the summary.
pub(crate) struct Summed<S: Store + Drop, A: Allocator + Copy> {
    /// What walks over the file, after both passes.
    pub(crate) walker: Walker<S, A>,
    pub(crate) summary: FileSummary,
}

/// Opens a file for a command that holds so many bytes beside the walk, and makes its summary; or says why there is
/// none, and hands the source back.
pub(crate) fn sum_source<S: Store + Drop, A: Allocator + Copy>(
    alloc: A,
    source: Source<S>,
    limits: Limits,
    beside: u64,
) -> Result<Summed<S, A>, Outcome<Result<u64, ToolFault>, S>>
    ensures summed { IfOk result (λ summed. IsSummed beside limits source summed.walker summed.summary) }
    ensures unsummed { IfErr result (λ ended. IsUnsummed beside limits source ended.answer ended.source) }
    ensures good { (bytes : List ℕ) → IsGood source.store bytes → IfErr result (λ ended. IsNoSourceFault ended.answer) }
    ensures reads { IfErr result (λ ended. ReadsSource source ended.answer ended.source) }
{
    let mut walker = match Walker::open(alloc, source, limits.leave_memory(beside), Choice::All) {
        Ok(walker) => walker,
        Err(refused) => {
            return Err(Outcome {
                answer: Err(refused_beside(refused.fault, beside)),
                source: refused.source,
            });
        }
    };
    match summarize_listing(&mut walker) {
        Ok(summary) => Ok(Summed { walker, summary }),
        Err(fault) => Err(Outcome {
            answer: Err(told_summary(fault)),
            source: walker.into_source(),
        }),
    }
}

/// Prints the summary of a file, whose first line begins with the file's name `file`, and hands the source back.
/// The answer is how many entries are bad.
///
/// All is read before the first byte is printed. Beside the window, the directory and a name it holds three names.
/// Both passes count against the read limit; at most 272 bytes of a context and three names are read outside the
/// listing.
pub fn summary_source<S: Store + Drop, A: Allocator + Copy, O: Printer>(
    alloc: A,
    source: Source<S>,
    limits: Limits,
    file: &[u8],
    out: &mut O,
) -> Outcome<Result<u64, ToolFault>, S>
    ensures summarizes { (bytes : List ℕ) → source.store.content ≡ Some bytes → Summarizes file.now bytes limits (O.state out.old) result.answer (O.state out.new) }
    ensures good { (bytes : List ℕ) → IsGood source.store bytes → IsNoSourceFault result.answer }
    ensures through { IsSummedThrough limits source result.answer result.source }
    ensures reads { ReadsSource source result.answer result.source }
    ensures quiet { IsQuietSummary result.answer (O.state out.new ≡ O.state out.old) }
    ensures out_cause { HasOutCause (O.state out.old) result.answer (O.state out.new) }
{
    let beside = 3 * u64::from(limits.name);
    let Summed {
        mut walker,
        summary,
    } = match sum_source(alloc, source, limits, beside) {
        Ok(summed) => summed,
        Err(ended) => return ended,
    };
    let answer = print_told(alloc, &mut walker, limits.name, file, &summary, out);
    Outcome {
        answer,
        source: walker.into_source(),
    }
}

/// Reads the names that a summary tells, and prints its lines.
fn print_told<S: Store + Drop, A: Allocator + Copy, O: Printer>(
    alloc: A,
    walker: &mut Walker<S, A>,
    limit: u32,
    file: &[u8],
    summary: &FileSummary,
    out: &mut O,
) -> Result<u64, ToolFault>
    ensures told { (bytes : List ℕ) → walker.old.list.source.store.content ≡ Some bytes → IsPrintedOrUnread file.now bytes limit summary.now (O.state out.old) result (O.state out.new) }
    ensures good { (bytes : List ℕ) → IsGood walker.old.list.source.store bytes → IsNoSourceFault result }
    ensures fetches { FetchesTold limit (λ bytes. told_names bytes limit summary.now) result walker.old.list.source walker.new.list.source }
    ensures end { IfErr result (IsNameEnd walker.old.list.source walker.new.list.source) }
    ensures quiet { IsQuietSummary result (O.state out.new ≡ O.state out.old) }
    ensures out_cause { HasOutCause (O.state out.old) result (O.state out.new) }
{
    let names = read_names(alloc, walker, summary, limit)?;
    print_named(file, summary, &names, out)
}

/// Prints the lines of a summary with these names, and answers how many entries are bad.
fn print_named<A: Allocator, O: Printer>(
    file: &[u8],
    summary: &FileSummary,
    names: &KeptNames<A>,
    out: &mut O,
) -> Result<u64, ToolFault>
    ensures text { Puts result (O.state out.old) (summary_text file.now summary.now (kept_names names.now)) (O.state out.new) }
    ensures answer { MatchResult result (λ bad. bad ≡ summary.now.bad.count) (λ fault. fault ≡ ToolFault.Out) }
{
    match print_summary(file, summary, &names.lend(), out) {
        Ok(()) => Ok(summary.bad.count),
        Err(OutFailed) => Err(ToolFault::Out),
    }
}
