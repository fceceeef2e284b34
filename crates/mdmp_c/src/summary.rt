//! The call that gives a summary.
ghost use Rattle.std.specs.Prelude.{◌≡◌, MatchResult, None};
ghost use Rattle.mdmp_c.specs.Fault.{status_of};
ghost use Rattle.mdmp_c.specs.Limits.{AreGiven};
ghost use Rattle.mdmp_c.specs.Summary.{EndsSummary, IsUnsummarized, summary_fault};
ghost use Rattle.mdmp_lister.specs.Memory.{walk_fault};
ghost use Rattle.mdmp_summary.specs.SpendingLaws.{KeepsSummary};
ghost use Rattle.mdmp_summary.specs.Summary.{file_summary};

use crate::fault::{NO_FAULT, PlainFault, of_kind, open_fault, plain_list_fault, status_of};
use crate::kinds;
use crate::limits::{PlainLimits, limits_of};
use crate::summary_rows::{SummaryRow, summary_row};
use mdmp_lister::{Choice, Limits, Walker};
use mdmp_source::{MemoryStore, Source};
use mdmp_summary::{FileSummary, SummaryFault, summarize_listing};
use std::alloc::Global;

/// Gives what a file tells of a crash and of itself. It covers all entries, each up to its own error. If the file can't
/// be opened or a limit is reached, `out` stays as it is.
#[unsafe(no_mangle)]
pub extern "C" fn mdmp_summary_(
    alloc: Global,
    file: &[u8],
    limits: &PlainLimits,
    out: &mut SummaryRow,
    fault: &mut PlainFault,
) -> u32
    ensures { EndsSummary file.now limits.now result fault.new out.old out.new }
{
    let Some(given) = limits_of(limits) else {
        *fault = of_kind(kinds::BAD_LIMITS);
        return status_of(fault);
    };
    match sum_up(alloc, file, limits, given) {
        Ok(summary) => {
            *out = summary_row(file, limits.name, &summary);
            *fault = NO_FAULT;
            0
        }
        Err(told) => {
            *fault = told;
            status_of(fault)
        }
    }
}

/// The summary of a file in memory within good limits, or why there is none.
fn sum_up(
    alloc: Global,
    file: &[u8],
    plain: &PlainLimits,
    limits: Limits,
) -> Result<FileSummary, PlainFault>
    requires { AreGiven plain.now limits }
    ensures { MatchResult result
        (λ summary. ((walk_fault limits file.now ≡ None) × KeepsSummary limits.budget file.now limits.name) × (summary ≡ file_summary file.now limits.name))
        (IsUnsummarized file.now plain.now) }
{
    let source = Source::new(MemoryStore::new(file));
    let mut walker = match Walker::open(alloc, source, limits, Choice::All) {
        Ok(walker) => walker,
        Err(refused) => return Err(open_fault(refused.fault)),
    };
    match summarize_listing(&mut walker) {
        Ok(summary) => Ok(summary),
        Err(fault) => Err(summary_fault(fault)),
    }
}

/// Why there is no summary, as a plain fault. The store is memory, which does not fail.
fn summary_fault(fault: SummaryFault) -> PlainFault
    ensures { result ≡ summary_fault fault }
{
    match fault {
        SummaryFault::Opening(fault) => open_fault(fault),
        SummaryFault::List(fault) => plain_list_fault(fault),
        SummaryFault::Source(_) => of_kind(kinds::STORE),
    }
}
