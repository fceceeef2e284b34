//! The rows of a check, made of the items of a listing.
ghost use Rattle.std.specs.Prelude.{◌≡◌, [], ◌∷◌, None, Some, false};
ghost use Rattle.mdmp_summary.specs.CheckRows.{good_row, result_row, loses_more};
ghost use Rattle.mdmp_summary.specs.Part.{part_told, parts_told};
ghost use Rattle.mdmp_summary.specs.RowMaking.{HasTold, HandsRows, rows_of_parts};

use crate::check_row::{CheckRow, CheckRowSink, EntryRow};
use crate::lost_parts::LostParts;
use crate::part::PartOutside;
use mdmp_lister::{Item, ListFault, Sink, Stopped, Verdict};

/// A sink of items, which hands the rows that they tell to a sink of rows.
#[derive(Drop)]
pub(crate) struct RowMaker<'a, K: CheckRowSink> {
    pub(crate) sink: &'a mut K,
    /// The entry that was begun, whose result is still to be told.
    pub(crate) entry: Option<u32>,
    /// Whether a part of it lies outside the file.
    pub(crate) loses_parts: bool,
}

impl<'a, K: CheckRowSink> RowMaker<'a, K> {
    /// Tells the result of the entry that was begun, if there is one.
    pub(crate) fn close(&mut self) -> Result<(), Stopped>
        ensures same { self.new.sink.ghost_name ≡ self.old.sink.ghost_name }
        ensures puts { HandsRows K.step self.old.sink.now (good_row self.old.entry self.old.loses_parts) result self.new.sink.now }
        ensures entry { self.new.entry ≡ None }
        ensures loses { self.new.loses_parts ≡ false }
    {
        let entry = self.entry;
        let loses_parts = self.loses_parts;
        self.entry = None;
        self.loses_parts = false;
        match entry {
            None => Ok(()),
            Some(entry) => {
                let verdict = Verdict { entry, fault: None };
                self.sink.take(&CheckRow::Entry(EntryRow {
                    verdict,
                    loses_parts,
                }))
            }
        }
    }

    /// Tells the result of the entry with this error.
    pub(crate) fn close_bad(&mut self, fault: ListFault) -> Result<(), Stopped>
        ensures same { self.new.sink.ghost_name ≡ self.old.sink.ghost_name }
        ensures puts { HandsRows K.step self.old.sink.now (result_row fault.entry (Some fault) self.old.loses_parts ∷ []) result self.new.sink.now }
        ensures entry { self.new.entry ≡ None }
        ensures loses { self.new.loses_parts ≡ false }
    {
        let loses_parts = self.loses_parts;
        self.entry = None;
        self.loses_parts = false;
        let verdict = Verdict {
            entry: fault.entry,
            fault: Some(fault),
        };
        self.sink.take(&CheckRow::Entry(EntryRow {
            verdict,
            loses_parts,
        }))
    }

    /// Begins an entry, once the result of the one before it was told.
    fn begin(&mut self, entry: u32) -> Result<(), Stopped>
        ensures same { self.new.sink.ghost_name ≡ self.old.sink.ghost_name }
        ensures puts { HandsRows K.step self.old.sink.now (good_row self.old.entry self.old.loses_parts) result self.new.sink.now }
        ensures entry { self.new.entry ≡ Some entry }
        ensures loses { self.new.loses_parts ≡ false }
    {
        let closed = self.close();
        self.entry = Some(entry);
        closed
    }

    /// Tells a part, if there is one.
    fn tell_part(&mut self, part: Option<PartOutside>) -> Result<(), Stopped>
        ensures same { self.new.sink.ghost_name ≡ self.old.sink.ghost_name }
        ensures puts { HandsRows K.step self.old.sink.now (rows_of_parts (part_told part)) result self.new.sink.now }
        ensures entry { self.new.entry ≡ self.old.entry }
        ensures loses { self.new.loses_parts ≡ loses_more self.old.loses_parts (part_told part) }
    {
        match part {
            None => Ok(()),
            Some(part) => {
                self.loses_parts = true;
                self.sink.take(&CheckRow::Part(part))
            }
        }
    }

    /// Tells the parts of a record.
    fn tell(&mut self, parts: LostParts) -> Result<(), Stopped>
        ensures same { self.new.sink.ghost_name ≡ self.old.sink.ghost_name }
        ensures puts { HandsRows K.step self.old.sink.now (rows_of_parts (parts_told parts)) result self.new.sink.now }
        ensures entry { self.new.entry ≡ self.old.entry }
        ensures loses { HasTold result self.old.loses_parts (parts_told parts) self.new.loses_parts }
    {
        self.tell_part(parts.first)?;
        self.tell_part(parts.second)
    }
}

impl<'a, K: CheckRowSink> Sink for RowMaker<'a, K> {
    ghost use Rattle.std.specs.Prelude.{◌≡◌};
    ghost use Rattle.mdmp_summary.specs.RowMaking.{TakesItem};

    ghost step = { λ old item result new. (new.sink.ghost_name ≡ old.sink.ghost_name)
        × TakesItem K.step old.sink.now old.entry old.loses_parts item result new.sink.now new.entry new.loses_parts };

    fn take(&mut self, item: &Item<'_>) -> Result<(), Stopped> {
        match item {
            Item::Stream(stream) => self.begin(stream.entry),
            _ => self.tell(LostParts::of_item(item)),
        }
    }
}
