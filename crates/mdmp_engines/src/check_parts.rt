//! The command `check --parts`.
ghost use Rattle.std.specs.Prelude.{◌≡◌, ℕ, List, None, Some};
ghost use Rattle.mdmp_engines.specs.Causes.{MayReachLimits};
ghost use Rattle.mdmp_engines.specs.CheckParts.{ChecksParts, row_count};
ghost use Rattle.mdmp_engines.specs.Dropping.{DropsStore};
ghost use Rattle.mdmp_engines.specs.Engines.{ReadsSource, Tells, directly, past_faults};
ghost use Rattle.mdmp_engines.specs.ReadThrough.{IsReadThrough, check_access};

use crate::check_engine::{CheckEngine, CheckedRows, RowLines};
use crate::engine::{run, run_source};
use crate::fault::ToolFault;
use crate::outcome::Outcome;
use mdmp_lister::{Limits, Lister, RunFault, Stopped};
use mdmp_print::{LineForm, Printer, print_check_row};
use mdmp_source::{LetGo, Out, OutFailed, Source, Store};
use mdmp_summary::{CheckRow, CheckRowSink, check_parts_into};
use std::alloc::Allocator;

/// Reads all entries of a file, and prints in this form a line for each part of a record that lies outside the file
/// and, after those of an entry, the line that [`run_check`](crate::run_check) prints of it. The answer is how many
/// entries have an error or such a part.
///
/// Nothing is written if the file is refused. If an I/O error occurs, or a limit is reached, the first part of
/// the text was written. Memory is taken before the first byte of output.
pub fn run_check_parts<S: Store + Drop, A: Allocator + Copy, O: Out>(
    alloc: A,
    store: S,
    limits: Limits,
    form: LineForm,
    out: &mut O,
) -> Result<u64, ToolFault>
where
    Source<S>: LetGo,
    ensures checks { (file : List ℕ) → (S.state store).content ≡ Some file → ChecksParts form file limits.name (O.state out.old) result (O.state out.new) }
    ensures tells { Tells directly past_faults (S.state store) (S.state store).size (O.state out.old) result (O.state out.new) }
    ensures limits { MayReachLimits None limits (S.state store).size result }
    ensures read { DropsStore ⟦<Source<S> as LetGo>⟧.may_go (check_access limits) (S.state store) result }
{
    let rows = PartRows;
    run(CheckEngine { form, rows }, alloc, store, limits, out)
}

/// Does what [`run_check_parts`] does, and hands the source back, whose counts tell the cause of its errors.
pub fn check_parts_source<S: Store + Drop, A: Allocator + Copy, O: Printer>(
    alloc: A,
    source: Source<S>,
    limits: Limits,
    form: LineForm,
    out: &mut O,
) -> Outcome<Result<u64, ToolFault>, S>
    ensures checks { (file : List ℕ) → source.store.content ≡ Some file → ChecksParts form file limits.name (O.state out.old) result.answer (O.state out.new) }
    ensures tells { Tells directly past_faults source.store source.size (O.state out.old) result.answer (O.state out.new) }
    ensures reads { ReadsSource source result.answer result.source }
    ensures through { IsReadThrough (check_access limits) source result.answer result.source }
{
    let rows = PartRows;
    run_source(CheckEngine { form, rows }, alloc, source, limits, out)
}

/// The rows of `check --parts`: each part outside the file as its record was read, and the result of an entry after
/// its parts.
#[derive(Clone, Copy)]
pub struct PartRows;

impl CheckedRows for PartRows {
    ghost use Rattle.mdmp_print.specs.PartLines.{row_line_in};
    ghost use Rattle.mdmp_summary.specs.CheckRows.{check_rows};
    ghost use Rattle.mdmp_engines.specs.CheckParts.{row_count};

    type Row = CheckRow;

    ghost rows_of = { check_rows };

    ghost line = { row_line_in };

    ghost count = { row_count };

    fn check_into<S: Store + Drop, A: Allocator + Copy, O: Printer>(
        self,
        lister: &mut Lister<S, A>,
        lines: &mut RowLines<'_, O>,
    ) -> Result<(), RunFault> {
        check_parts_into(lister, lines)
    }
}

impl<'a, O: Printer> CheckRowSink for RowLines<'a, O> {
    ghost use Rattle.std.specs.Prelude.{◌≡◌};
    ghost use Rattle.mdmp_print.specs.PartLines.{row_line_in};
    ghost use Rattle.mdmp_engines.specs.CheckParts.{row_count};
    ghost use Rattle.mdmp_engines.specs.CheckRuns.{TakesLine};

    ghost step = { λ old row result new. (new.out.ghost_name ≡ old.out.ghost_name) × ((new.form ≡ old.form)
        × TakesLine (row_line_in old.form) row_count (O.state old.out.now) old.bad row result (O.state new.out.now) new.bad) };

    fn take(&mut self, row: &CheckRow) -> Result<(), Stopped> {
        match print_check_row(self.form, row, self.out) {
            Ok(()) => {}
            Err(OutFailed) => return Err(Stopped),
        }
        self.bad = self.bad.saturating_add(bad_in(row));
        Ok(())
    }
}

/// 1 for the row of a bad entry: one with an error, or with a part that lies outside the file.
pub fn bad_in(row: &CheckRow) -> u64
    ensures { result ≡ row_count row.now }
{
    match row {
        CheckRow::Part(_) => 0,
        CheckRow::Entry(row) => {
            if row.verdict.fault.is_some() {
                return 1;
            }
            if row.loses_parts { 1 } else { 0 }
        }
    }
}
