//! A lister that is read into values.
ghost use Rattle.std.specs.Prelude.{◌≡◌, ◌≤◌, ◌<◌, ◌+◌, ◌∷◌, [], ℕ, List, length, Option, Some, None, Ok, IfOk, MatchResult};
ghost use Rattle.mdmp_source.specs.Range.{IsInside};
ghost use Rattle.mdmp_source.specs.declared.location.Extent.TheVariants as classes;
ghost use Rattle.mdmp_source.specs.Store.{IsSizeOf};
ghost use Rattle.mdmp_lister.specs.declared.kind.StreamKind.{StreamKind};
ghost use Rattle.mdmp_lister.specs.declared.name.Name.TheVariants as names;
ghost use Rattle.mdmp_lister.specs.Format.Name.{plain_name};
ghost use Rattle.mdmp_lister.specs.Format.Kind.{kind_of};
ghost use Rattle.mdmp_lister.specs.Format.Listing.{Numbered, Run};
ghost use Rattle.mdmp_dump.specs.ItemsRead.{ReadsInTurn, steps_left};
ghost use Rattle.mdmp_dump.specs.Keeping.{KeepsStep};
ghost use Rattle.mdmp_dump.specs.LaysOut.{HasRecords};
ghost use Rattle.mdmp_dump.specs.Left.{left_from};
ghost use Rattle.mdmp_dump.specs.Part.{part_in};
ghost use Rattle.mdmp_dump.specs.Reading.{
  AreBytesOf,
  Fetches,
  FindsRead,
  HasBytesAt,
  HasOneRecord,
  IsEntryRead,
  IsFirstLeft,
  IsFoundOrBehind,
  IsGoing,
  IsGoingOn,
  IsNameTaken,
  IsNext,
  IsNextStream,
  IsOfType,
  IsToldGoing,
  NoRowFirst,
  ReadsRecords,
  Settles,
  TakesSteps,
  next_behind,
  owed,
  refusal_found,
  steps_of,
  steps_told,
};
ghost use Rattle.mdmp_dump.specs.RecordParts.{ArePartsOf, IsSlotPart};
ghost use Rattle.mdmp_dump.specs.Refusal.{Take, location_steps, name_steps, part_steps, parts_asked, slot_steps};
ghost use Rattle.mdmp_dump.specs.declared.part.Part.TheVariants as parts;

use crate::bytes::Bytes;
use crate::fault::{PartName, ReadFault};
use crate::part::{Part, PositiveSize};
use crate::record_parts::{RecordParts, empty_part};
use crate::records::Records;
use crate::row::{RecordPlace, Row};
use mdmp_lister::{Item, ItemRead, Lister, Name, RecordRead, StreamItem, range_extent};
use mdmp_source::{Extent, Location, Store};
use mdmp_wire::{Slot, Units};
use std::alloc::{AllocError, Allocator};

/// A lister, what its values take their memory of, and how many bytes of parts they may still take.
#[derive(Drop)]
pub(crate) struct Reader<S: Store + Drop, A: Allocator + Copy> {
    pub(crate) lister: Lister<S, A>,
    pub(crate) alloc: A,
    pub(crate) left: u64,
}

/// What is found of an item: a record and its name, or what stands behind the records.
#[derive(Drop)]
pub(crate) enum Told<A: Allocator> {
    Record(RecordRead, Option<Units<A>>),
    Behind(Option<StreamItem>),
}

/// What stands behind a record.
#[derive(Drop)]
pub(crate) enum Next<T: Drop> {
    /// Another record of the same stream.
    Row(T),
    /// The Stream item of the next entry, or the end of the listing.
    Behind(Option<StreamItem>),
}

impl<S: Store + Drop, A: Allocator + Copy> Reader<S, A> {
    /// The bytes at an offset, of a part or of a stream.
    pub(crate) fn bytes(
        &mut self,
        place: RecordPlace,
        at: u64,
        size: u64,
    ) -> Result<Bytes<A>, ReadFault>
        requires inside { IsInside at size self.old.lister.source.size }
        requires sized { IsSizeOf self.old.lister.source.store.content self.old.lister.source.size }
        ensures takes { TakesSteps (Take place.entry place.index at size ∷ []) self.old result self.new }
        ensures of_file { (file : List ℕ) → self.old.lister.source.store.content ≡ Some file → IfOk result (HasBytesAt file at size) }
    {
        if size > self.left {
            return Err(ReadFault::PartsTooLarge {
                entry: place.entry,
                index: place.index,
            });
        }
        if size == 0 {
            return Ok(Bytes::new(Vec::new(self.alloc)));
        }
        let mut bytes = match vec![in self.alloc; 0; size as usize] {
            Ok(bytes) => bytes,
            Err(AllocError) => return Err(ReadFault::Memory),
        };
        match self.lister.read_part(at, &mut bytes) {
            Ok(()) => {}
            Err(fault) => return Err(ReadFault::Source(fault)),
        }
        self.left -= size;
        Ok(Bytes::new(bytes))
    }

    /// The bytes of a part at an offset, of this class: none where it is empty.
    pub(crate) fn bytes_at(
        &mut self,
        place: RecordPlace,
        name: PartName,
        offset: u128,
        size: u64,
        class: Extent,
    ) -> Result<Bytes<A>, ReadFault>
        requires inside { class ≡ classes.Inside → offset + size ≤ self.old.lister.source.size }
        ensures takes { TakesSteps (part_steps place.entry place.index name offset size class) self.old result self.new }
        ensures of_file { (file : List ℕ) → self.old.lister.source.store.content ≡ Some file → IfOk result (AreBytesOf file offset size class) }
    {
        // Its answer has 64 bits, and is the length of the file.
        let _size = self.lister.size();
        match class {
            Extent::Inside => self.bytes(place, offset as u64, size),
            Extent::Outside => Err(ReadFault::PartOutside {
                entry: place.entry,
                index: place.index,
                part: name,
                offset,
                size,
            }),
            Extent::Empty | Extent::Absent => Ok(Bytes::new(Vec::new(self.alloc))),
        }
    }

    /// The part that a location of this class names.
    pub(crate) fn part(
        &mut self,
        place: RecordPlace,
        name: PartName,
        location: Location,
        class: Extent,
    ) -> Result<Part<A>, ReadFault>
        requires inside { class ≡ classes.Inside → location.rva + location.size ≤ self.old.lister.source.size }
        ensures takes { TakesSteps (location_steps place.entry place.index name location class) self.old result self.new }
        ensures of_file { (file : List ℕ) → self.old.lister.source.store.content ≡ Some file → IfOk result (λ part. part_in file location class ≡ Some part) }
    {
        let size = u64::from(location.size);
        match class {
            Extent::Absent => absent(size),
            _ => {
                let bytes = self.bytes_at(place, name, u128::from(location.rva), size, class)?;
                Ok(Part::Bytes(bytes))
            }
        }
    }

    /// The part behind a slot of a record: the bytes of a 64-bit range stand at `far`.
    fn slot(&mut self, place: RecordPlace, far: u128, slot: Slot) -> Result<Part<A>, ReadFault>
        ensures takes { TakesSteps (slot_steps self.old.lister.source.size place.entry place.index far names.None slot) self.old result self.new }
        ensures of_file { (file : List ℕ) → self.old.lister.source.store.content ≡ Some file → IfOk result (IsSlotPart file far slot) }
    {
        let size = self.lister.size();
        match slot {
            Slot::Empty => Ok(empty_part(self.alloc)),
            Slot::Name(_) => Ok(empty_part(self.alloc)),
            Slot::Part(name, location) => self.part(place, name, location, location.classify(size)),
            Slot::Behind(count) => {
                let class = range_extent(far, count, size);
                let bytes = self.bytes_at(place, PartName::Memory, far, count, class)?;
                Ok(Part::Bytes(bytes))
            }
        }
    }

    /// The parts of a record that was read, beside its name.
    fn parts(
        &mut self,
        read: RecordRead,
        name: Option<Units<A>>,
    ) -> Result<RecordParts<A>, ReadFault>
        ensures takes { TakesSteps (parts_asked self.old.lister.source.size read) self.old result self.new }
        ensures of_file { (file : List ℕ) → self.old.lister.source.store.content ≡ Some file → IfOk result (ArePartsOf file read.offset read.fields) }
        ensures name { IfOk result (λ parts. parts.name ≡ name) }
    {
        let place = RecordPlace {
            entry: read.entry,
            index: read.index,
        };
        let [one, two, three] = read.fields.slots();
        let first = self.slot(place, read.offset, one)?;
        let second = self.slot(place, read.offset, two)?;
        let third = self.slot(place, read.offset, three)?;
        Ok(RecordParts {
            alloc: self.alloc,
            name,
            first,
            second,
            third,
        })
    }

    /// The next Stream item, or none at the end of the listing.
    pub(crate) fn behind(&mut self) -> Result<Option<StreamItem>, ReadFault>
        requires { self.old.lister.stop ≡ None }
        ensures fetches { Fetches result self.old.lister.source self.new.lister.source }
        ensures keeps { KeepsStep [] result self.old self.new }
        ensures reads { ReadsInTurn [] result (steps_left (steps_of self.old.lister.source.size) result) self.old.lister self.new.lister }
        ensures going { IfOk result (λ next. IsGoing self.old.lister next self.new.lister) }
        ensures gives { (file : List ℕ) (run : Run) → self.old.lister.source.store.content ≡ Some file → self.old.lister.left ≡ Some run → NoRowFirst run
            → IfOk result (λ next. IsNextStream run next self.new.lister.left) × Settles (owed file self.old.left None self.old.lister.left) result (λ next. owed file self.new.left next self.new.lister.left) }
    {
        match self.lister.next() {
            Ok(Some(Item::Stream(item))) => Ok(Some(item)),
            // No record stands behind the last one.
            Ok(_) => Ok(None),
            Err(fault) => Err(ReadFault::List(fault)),
        }
    }

    /// The next record, and its name, or what stands behind the records.
    fn find(&mut self) -> Result<Told<A>, ReadFault>
        requires { self.old.lister.stop ≡ None }
        ensures fetches { Fetches result self.old.lister.source self.new.lister.source }
        ensures keeps { KeepsStep [] result self.old self.new }
        ensures reads { ReadsInTurn [] result (steps_left (steps_told self.old.lister.source.size) result) self.old.lister self.new.lister }
        ensures left { self.new.left ≡ self.old.left }
        ensures first { IfOk result (IsFirstLeft self.old.lister) }
        ensures of_file { (file : List ℕ) (limit : ℕ) (x : Numbered) (k : ℕ) (xs : List Numbered) (kind : StreamKind) → self.old.lister.source.store.content ≡ Some file
            → self.old.lister.left ≡ Some (left_from file limit x k xs) → kind_of x.entry.stream_type ≡ Some kind → IsOfType self.old.lister x.entry.stream_type
            → IfOk result (λ told. IsFoundOrBehind file limit x k xs kind told self.new.lister.left)
            × Settles (owed file self.old.left None self.old.lister.left) result (λ told. refusal_found file self.new.left told self.new.lister.left) }
        ensures going { IfOk result (λ told. IsToldGoing self.old.lister told self.new.lister) }
    {
        let alloc = self.alloc;
        match self.lister.next_read() {
            Ok(Some(item)) => found(alloc, &item),
            Ok(None) => Ok(Told::Behind(None)),
            Err(fault) => Err(ReadFault::List(fault)),
        }
    }

    /// The next record of the current entry, or what stands behind its records.
    fn next<T: Row<A>>(&mut self) -> Result<Next<T>, ReadFault>
        requires { self.old.lister.stop ≡ None }
        ensures fetches { Fetches result self.old.lister.source self.new.lister.source }
        ensures keeps { KeepsStep [] result self.old self.new }
        ensures reads { ReadsInTurn [] result (steps_left (λ next. steps_of self.old.lister.source.size (next_behind next)) result) self.old.lister self.new.lister }
        ensures going { IfOk result (λ next. IsGoingOn self.old.lister next self.new.lister) }
        ensures of_file { (file : List ℕ) (limit : ℕ) (x : Numbered) (k : ℕ) (xs : List Numbered) → self.old.lister.source.store.content ≡ Some file
            → self.old.lister.left ≡ Some (left_from file limit x k xs) → kind_of x.entry.stream_type ≡ Some T.kind → IsOfType self.old.lister x.entry.stream_type
            → IfOk result (λ next. IsNext file limit x k xs T.kind (T.IsAt file x.entry.location.rva) next self.new.lister.left)
            × Settles (owed file self.old.left None self.old.lister.left) result (λ next. owed file self.new.left (next_behind next) self.new.lister.left) }
    {
        // Its answer is the length of the file.
        let _size = self.lister.size();
        match self.find()? {
            Told::Record(read, name) => {
                let mut parts = self.parts(read, name)?;
                match T::of(read.fields, &mut parts) {
                    Some(row) => Ok(Next::Row(row)),
                    // No record of another kind stands where those of this one are read.
                    None => Ok(Next::Behind(None)),
                }
            }
            Told::Behind(next) => Ok(Next::Behind(next)),
        }
    }

    /// The records of the current entry, and what stands behind them.
    pub(crate) fn rows<T: Row<A>>(
        &mut self,
    ) -> Result<(Records<T, A>, Option<StreamItem>), ReadFault>
        requires { self.old.lister.stop ≡ None }
        ensures step { ReadsRecords (λ r. r.1) result self.old self.new }
        ensures of_file { (file : List ℕ) (limit : ℕ) (x : Numbered) (xs : List Numbered) → self.old.lister.source.store.content ≡ Some file
            → self.old.lister.left ≡ Some (left_from file limit x 0 xs) → kind_of x.entry.stream_type ≡ Some T.kind → IsOfType self.old.lister x.entry.stream_type
            → IsEntryRead file limit xs (HasRecords file x.entry.location T.kind (T.IsAt file x.entry.location.rva)) (owed file self.old.left None self.old.lister.left) result self.new }
    {
        let mut rows = Vec::new(self.alloc);
        loop {
            match self.next::<T>()? {
                Next::Row(row) => {
                    // Taken once: behind the first record there is room for all of them.
                    let room = self.lister.records_left().saturating_add(1);
                    match rows.reserve_exact(room as usize) {
                        Ok(()) => {}
                        Err(AllocError) => return Err(ReadFault::Memory),
                    }
                    rows.push_reserved(row);
                }
                Next::Behind(next) => return Ok((Records::new(rows), next)),
            }
        }
    }

    /// The one record of the current entry, and what stands behind it.
    pub(crate) fn single<T: Row<A>>(&mut self) -> Result<(Option<T>, Option<StreamItem>), ReadFault>
        requires { self.old.lister.stop ≡ None }
        ensures step { ReadsRecords (λ r. r.1) result self.old self.new }
        ensures of_file { (file : List ℕ) (limit : ℕ) (x : Numbered) (xs : List Numbered) → self.old.lister.source.store.content ≡ Some file
            → self.old.lister.left ≡ Some (left_from file limit x 0 xs) → kind_of x.entry.stream_type ≡ Some T.kind → IsOfType self.old.lister x.entry.stream_type → HasOneRecord file x T.kind
            → IsEntryRead file limit xs (λ row. (one : T) × ((row ≡ Some one) × HasRecords file x.entry.location T.kind (T.IsAt file x.entry.location.rva) (one ∷ []))) (owed file self.old.left None self.old.lister.left) result self.new }
    {
        match self.next::<T>()? {
            Next::Row(row) => Ok((Some(row), self.behind()?)),
            Next::Behind(next) => Ok((None, next)),
        }
    }
}

/// A part of which the producer kept nothing but its size. A size of 0 or of more than 32 bits,
/// which no such part has, can't be told, and is refused as want of memory is.
pub(crate) fn absent<A: Allocator>(size: u64) -> Result<Part<A>, ReadFault>
    ensures { MatchResult result (λ part. part ≡ parts.Absent size) (λ fault. fault ≡ ReadFault.Memory) }
{
    match u32::try_from(size)
        .ok()
        .and_then(|size| PositiveSize::new(size))
    {
        Some(size) => Ok(Part::Absent(size)),
        None => Err(ReadFault::Memory),
    }
}

/// What is found of an item: a record, whose name it takes, or a Stream item.
fn found<A: Allocator>(alloc: A, item: &ItemRead<'_>) -> Result<Told<A>, ReadFault>
    ensures { FindsRead item.now result }
{
    match item {
        ItemRead::Stream(stream) => Ok(Told::Behind(Some(*stream))),
        ItemRead::Record(read, name) => {
            let place = RecordPlace {
                entry: read.entry,
                index: read.index,
            };
            let name = owned_name(alloc, place, name)?;
            Ok(Told::Record(*read, name))
        }
    }
}

/// A name in memory of its own.
fn owned_name<A: Allocator>(
    alloc: A,
    place: RecordPlace,
    name: &Name<'_>,
) -> Result<Option<Units<A>>, ReadFault>
    ensures { IsNameTaken (name_steps place.entry place.index (plain_name name.now)) (plain_name name.now) result }
{
    match name {
        Name::None => Ok(None),
        Name::Units(units) => match units.to_owned(alloc) {
            Ok(units) => Ok(Some(units)),
            Err(AllocError) => Err(ReadFault::Memory),
        },
        Name::Long(length) => Err(ReadFault::NameTooLong {
            entry: place.entry,
            index: place.index,
            length: *length,
        }),
    }
}
