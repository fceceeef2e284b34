//! The command `check`.
ghost use Rattle.std.specs.Prelude.{◌≡◌, ℕ, List, None, Some};
ghost use Rattle.mdmp_engines.specs.CheckRuns.{Checks};
ghost use Rattle.mdmp_engines.specs.Causes.{MayReachLimits};
ghost use Rattle.mdmp_engines.specs.Dropping.{DropsStore};
ghost use Rattle.mdmp_engines.specs.Engines.{ReadsSource, Tells, directly, past_faults};
ghost use Rattle.mdmp_engines.specs.ReadThrough.{IsReadThrough, check_access};

use crate::check_engine::{CheckEngine, CheckedRows, RowLines};
use crate::engine::{run, run_source};
use crate::fault::ToolFault;
use crate::outcome::Outcome;
use mdmp_lister::{Limits, Lister, RunFault, Stopped, Verdict, VerdictSink};
use mdmp_print::{LineForm, Printer, print_verdict};
use mdmp_source::{LetGo, Out, OutFailed, Source, Store};
use std::alloc::Allocator;

/// Reads all entries of a file, and prints a line in this form for each: that it is good, or its first
/// fault. The answer is how many have a fault.
///
/// Where the file is refused nothing is written. After a fault of the store or the output, or where the
/// budget of the limits is reached, the first part of the text went out. Memory is taken before the first
/// byte of output.
pub fn run_check<S: Store + Drop, A: Allocator + Copy, O: Out>(
    alloc: A,
    store: S,
    limits: Limits,
    form: LineForm,
    out: &mut O,
) -> Result<u64, ToolFault>
where
    Source<S>: LetGo,
    ensures checks { (file : List ℕ) → (S.state store).content ≡ Some file → Checks form file limits.name (O.state out.old) result (O.state out.new) }
    ensures tells { Tells directly past_faults (S.state store) (S.state store).size (O.state out.old) result (O.state out.new) }
    ensures limits { MayReachLimits None limits (S.state store).size result }
    ensures read { DropsStore ⟦<Source<S> as LetGo>⟧.may_go (check_access limits) (S.state store) result }
{
    let rows = EntryRows;
    run(CheckEngine { form, rows }, alloc, store, limits, out)
}

/// Does what `run_check` does, and hands the source back, whose counts tell the cause of its faults.
pub fn check_source<S: Store + Drop, A: Allocator + Copy, O: Printer>(
    alloc: A,
    source: Source<S>,
    limits: Limits,
    form: LineForm,
    out: &mut O,
) -> Outcome<Result<u64, ToolFault>, S>
    ensures checks { (file : List ℕ) → source.store.content ≡ Some file → Checks form file limits.name (O.state out.old) result.answer (O.state out.new) }
    ensures tells { Tells directly past_faults source.store source.size (O.state out.old) result.answer (O.state out.new) }
    ensures reads { ReadsSource source result.answer result.source }
    ensures through { IsReadThrough (check_access limits) source result.answer result.source }
{
    let rows = EntryRows;
    run_source(CheckEngine { form, rows }, alloc, source, limits, out)
}

/// The rows of `check`: the result of checking each entry.
#[derive(Clone, Copy)]
pub struct EntryRows;

impl CheckedRows for EntryRows {
    ghost use Rattle.mdmp_lister.specs.declared.choice.Choice.TheVariants.{All};
    ghost use Rattle.mdmp_lister.specs.Format.Listing.{verdicts};
    ghost use Rattle.mdmp_print.specs.Forms.{verdict_line_in};
    ghost use Rattle.mdmp_engines.specs.CheckText.{verdict_count};

    type Row = Verdict;

    ghost rows_of = { λ file limit. verdicts file All limit };

    ghost line = { verdict_line_in };

    ghost count = { verdict_count };

    fn check_into<S: Store + Drop, A: Allocator + Copy, O: Printer>(
        self,
        lister: &mut Lister<S, A>,
        lines: &mut RowLines<'_, O>,
    ) -> Result<(), RunFault> {
        lister.check_into(lines)
    }
}

impl<'a, O: Printer> VerdictSink for RowLines<'a, O> {
    ghost use Rattle.std.specs.Prelude.{◌≡◌};
    ghost use Rattle.mdmp_print.specs.Forms.{verdict_line_in};
    ghost use Rattle.mdmp_engines.specs.CheckRuns.{TakesLine};
    ghost use Rattle.mdmp_engines.specs.CheckText.{verdict_count};

    ghost step = { λ old verdict result new. (new.out.ghost_name ≡ old.out.ghost_name) × ((new.form ≡ old.form)
        × TakesLine (verdict_line_in old.form) verdict_count (O.state old.out.now) old.bad verdict result (O.state new.out.now) new.bad) };

    fn take(&mut self, verdict: &Verdict) -> Result<(), Stopped> {
        match print_verdict(self.form, verdict, self.out) {
            Ok(()) => {}
            Err(OutFailed) => return Err(Stopped),
        }
        if verdict.fault.is_some() {
            self.bad = self.bad.saturating_add(1);
        }
        Ok(())
    }
}
