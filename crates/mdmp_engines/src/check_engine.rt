//! What `check` and `check --parts` share: an engine that prints a line for each row, and counts the bad entries.
ghost use Rattle.std.specs.Prelude.{◌≡◌, ℕ, List, None, Some, flat_map, sum_by};
ghost use Rattle.mdmp_lister.specs.declared.choice.Choice.TheVariants.{All};
ghost use Rattle.mdmp_engines.specs.Causes.{EndsByBudget, KeepsAside};
ghost use Rattle.mdmp_engines.specs.CheckRuns.{EndsCounted};
ghost use Rattle.mdmp_engines.specs.Engines.{IsOpened, Leaves, WritesText, past_faults};
ghost use Rattle.mdmp_engines.specs.ReadThrough.{IsSameRun, ReadsByRequests, at_most};

use crate::engine::Engine;
use crate::fault::{ToolFault, told_list};
use crate::reporting::report_check;
use mdmp_lister::{Choice, Lister, RunFault};
use mdmp_print::{LineForm, Printer};
use mdmp_source::{Out, Store};
use std::alloc::Allocator;

/// The rows of a check, each of which is printed as a line.
pub trait CheckedRows: Copy {
    ghost use Rattle.std.specs.Prelude.{◌≡◌, ℕ, List};
    ghost use Rattle.mdmp_lister.specs.Lister.{IsSameLister};
    ghost use Rattle.mdmp_lister.specs.declared.choice.Choice.TheVariants.{All};
    ghost use Rattle.mdmp_print.specs.declared.form.LineForm.{LineForm};
    ghost use Rattle.mdmp_summary.specs.InEntry.{EndsInEntry};
    ghost use Rattle.mdmp_summary.specs.Checking.{TellsRun};
    ghost use Rattle.mdmp_engines.specs.CheckRuns.{HandsChecked, TakesLine};
    ghost use Rattle.mdmp_engines.specs.Engines.{IsOpened, past_faults};
    ghost use Rattle.mdmp_engines.specs.ReadThrough.{KeepsReads, at_most};

    /// What is printed as a line.
    type Row: Copy;

    // The rows of a file, with names up to a limit.
    ghost rows_of: { List ℕ → ℕ → List Self.Row };

    // The line of a row.
    ghost line: { LineForm → Self.Row → List ℕ };

    // 1 for the row of a bad entry.
    ghost count: { Self.Row → ℕ };

    /// Reads all entries, and hands their rows to a sink that prints them.
    fn check_into<S: Store + Drop, A: Allocator + Copy, O: Printer>(
        self,
        lister: &mut Lister<S, A>,
        lines: &mut RowLines<'_, O>,
    ) -> Result<(), RunFault>
        requires { IsOpened All lister.old }
        ensures hands { HandsChecked lines.old (λ old row result new. (new.out.ghost_name ≡ old.out.ghost_name) × ((new.form ≡ old.form)
            × TakesLine (line old.form) count (O.state old.out.now) old.bad row result (O.state new.out.now) new.bad)) count rows_of lister.old result lister.new lines.new }
        ensures told { TellsRun lister.old result lister.new }
        ensures ends { EndsInEntry lister.old result lister.new }
        ensures read { KeepsReads (at_most 0) past_faults lister.new }
        ensures same { IsSameLister lister.old lister.new };
}

/// The engine of a check, which prints the line of each row as it was read.
#[derive(Clone, Copy)]
pub struct CheckEngine<R: CheckedRows> {
    /// How the lines are printed.
    pub form: LineForm,
    /// Which rows are printed.
    pub rows: R,
}

impl<R: CheckedRows> Engine for CheckEngine<R> {
    ghost use Rattle.std.specs.Prelude.{flat_map, sum_by};
    ghost use Rattle.mdmp_lister.specs.declared.choice.Choice.TheVariants.{All};
    ghost use Rattle.mdmp_engines.specs.CheckRuns.{EndsCounted};
    ghost use Rattle.mdmp_engines.specs.Engines.{past_faults};
    ghost use Rattle.mdmp_engines.specs.ReadThrough.{at_most};
    ghost use Rattle.mdmp_engines.specs.Reports.{IsCheckEnd};

    type Answer = u64;

    ghost choice = { All };

    ghost pace = { past_faults };

    ghost can_print = { λ _. Unit {0} };

    ghost aside = { λ _. None };

    ghost held = { λ _. 0 };

    ghost reads = { λ _. at_most 0 };

    ghost Ends = { λ _ file limit. EndsCounted (sum_by R.count (R.rows_of file limit)) };

    ghost text = { λ e file limit. flat_map (R.line e.form) (R.rows_of file limit) };

    ghost IsReported = { IsCheckEnd };

    fn chosen(&self) -> Choice {
        Choice::All
    }

    fn beside(&self) -> u64 {
        0
    }

    fn print<S: Store + Drop, A: Allocator + Copy, O: Printer>(
        &self,
        lister: &mut Lister<S, A>,
        out: &mut O,
    ) -> Result<u64, ToolFault> {
        let mut lines = RowLines {
            out,
            form: self.form,
            bad: 0,
        };
        check_listed(self.rows, lister, &mut lines)
    }

    fn report<W: Out>(answer: Result<u64, ToolFault>, err: &mut W) -> u8
        ensures { IsCheckEnd answer result (W.state err.old) (W.state err.new) }
    {
        report_check(answer, err)
    }
}

/// Prints the lines of all rows, and answers how many entries are bad.
// Apart from what calls it, it keeps more numbers in registers: `check` takes fewer instructions for a record.
#[inline(never)]
fn check_listed<R: CheckedRows, S: Store + Drop, A: Allocator + Copy, O: Printer>(
    rows: R,
    lister: &mut Lister<S, A>,
    lines: &mut RowLines<'_, O>,
) -> Result<u64, ToolFault>
    requires opened { IsOpened All lister.old }
    requires none { lines.old.bad ≡ 0 }
    ensures same_output { lines.new.out.ghost_name ≡ lines.old.out.ghost_name }
    ensures ends { (file : List ℕ) → lister.old.source.store.content ≡ Some file → EndsCounted (sum_by R.count (R.rows_of file lister.old.limit)) result }
    ensures writes { (file : List ℕ) → lister.old.source.store.content ≡ Some file
        → WritesText past_faults (flat_map (R.line lines.old.form) (R.rows_of file lister.old.limit)) (O.state lines.old.out.now) result (O.state lines.new.out.now) }
    ensures leaves { Leaves past_faults (O.state lines.new.out.now ≡ O.state lines.old.out.now) lister.old.source (O.state lines.old.out.now) result lister.new.source (O.state lines.new.out.now) }
    ensures same { IsSameRun lister.old lister.new }
    ensures over { EndsByBudget lister.old result lister.new }
    ensures aside { KeepsAside None result lister.new }
    ensures read { ReadsByRequests (at_most 0) past_faults lister.old result lister.new }
{
    // The prover needs that a directory has fewer than 2^32 entries: so the count is never at its greatest.
    let _entries = lister.header().number_of_streams;
    match rows.check_into(lister, lines) {
        Ok(()) => Ok(lines.bad),
        Err(RunFault::At(fault)) => Err(told_list(fault)),
        Err(RunFault::Stopped) => Err(ToolFault::Out),
    }
}

/// A sink that prints a line for each row, and counts the bad entries.
#[derive(Drop)]
pub struct RowLines<'a, O: Printer> {
    pub(crate) out: &'a mut O,
    pub(crate) form: LineForm,
    pub(crate) bad: u64,
}
