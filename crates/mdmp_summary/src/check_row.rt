//! What a check of entries and of their parts tells, a row at a time.

use crate::part::PartOutside;
use mdmp_lister::{Stopped, Verdict};

/// The result of checking an entry and the parts of its records.
#[derive(Clone, Copy, Debug, PartialEq, Eq)]
pub struct EntryRow {
    /// The entry, and its first error or none.
    pub verdict: Verdict,
    /// Whether a part of one of its records lies outside the file. An entry with an error is read up to that error.
    pub loses_parts: bool,
}

/// A row of a check: for each entry the parts of its records that lie outside the file, and then its result.
#[derive(Clone, Copy, Debug, PartialEq, Eq)]
pub enum CheckRow {
    /// A part that lies outside the file.
    Part(PartOutside),
    /// The result of checking an entry.
    Entry(EntryRow),
}

/// Takes the rows of a check, one a call.
pub trait CheckRowSink {
    ghost use Rattle.std.specs.Prelude.{Result};
    ghost use Rattle.mdmp_lister.specs.declared.sink.Stopped.{Stopped};
    ghost use Rattle.mdmp_summary.specs.declared.check_row.CheckRow.{CheckRow};

    /// What one call does: the sink before it, the row, the answer, the sink after it.
    ghost step: { Self → CheckRow → Result (Unit {0}) Stopped → Self → Type 0 };

    /// Takes the next row. It has the row also where it answers that it wants no more.
    fn take(&mut self, row: &CheckRow) -> Result<(), Stopped>
        ensures { step self.old row.now result self.new };
}
