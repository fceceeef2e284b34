//! A record of a file, with the places of its name and parts.

ghost use Rattle.std.specs.Prelude.{◌≡◌, ◌≤◌, ◌↔◌, ◌<◌, ◌+◌, ◌^◌, ℕ, List, Ok, IfErr, IfOk, IsTrue, MatchResult, length};
ghost use Rattle.mdmp_source.specs.Extent.{extent_of};
ghost use Rattle.mdmp_source.specs.Store.{AreBytes};
ghost use Rattle.mdmp_wire.specs.Number.{array_at};
ghost use Rattle.mdmp_lister.specs.declared.name.Name.{Name};
ghost use Rattle.mdmp_lister.specs.Format.Item.{range_extent_of};
ghost use Rattle.mdmp_lister.specs.Format.Name.{name_at};
ghost use Rattle.mdmp_lister.specs.Step.{IsNameTold};
ghost use Rattle.mdmp_dump.specs.Finding.{FindsName, FindsPart, FindsSlot, FindsStep, IsCountedName, IsFittingOf, IsFoundInFile, IsFoundInside, IsOfPlaces, IsOfRecord};
ghost use Rattle.mdmp_dump.specs.FoundRecord.{AreIn, IsPartIn, fields_of};
ghost use Rattle.mdmp_dump.specs.Placed.{size_in, slot_far, slot_room};
ghost use Rattle.mdmp_dump.specs.Refusal.{part_steps};
ghost use Rattle.mdmp_dump.specs.declared.view.PartSize.TheVariants.{Size};

use crate::fault::{PartName, ReadFault};
use crate::placed::is_region;
use crate::view::{Fields, PartSize};
use mdmp_lister::{NameRead, RecordRead, range_extent};
use mdmp_source::{Extent, Location, SourceFault, inside};
use mdmp_wire::{AnyRecord, Slot};

/// A name or a part of a record, and where its bytes stand in the file; a name's are its units.
#[derive(Clone, Copy)]
pub struct PartAt {
    pub size: PartSize,
    /// The offset from the file's start; of no bytes it says nothing.
    pub at: u64,
}

impl PartAt {
    /// Whether its bytes lie inside a file of `size` bytes.
    pub(crate) fn lies_inside(&self, size: u64) -> bool
        ensures { IsTrue result ↔ IsPartIn size self.now.size self.now.at }
    {
        match self.size {
            PartSize::Size(bytes) => inside(self.at, bytes, size),
            PartSize::NoPart | PartSize::Absent(_) => true,
        }
    }
}

/// No name, or no part.
pub(crate) const NO_PART: PartAt = PartAt {
    size: PartSize::NoPart,
    at: 0,
};

/// A record of a file as a view gives it, and where its name and parts stand.
#[derive(Clone, Copy)]
pub struct FoundRecord {
    pub wire: AnyRecord,
    pub parts: [PartAt; 3],
}

impl FoundRecord {
    /// Whether all bytes of its name and parts lie inside a file of `size` bytes.
    pub(crate) fn lies_inside(&self, size: u64) -> bool
        ensures { IsTrue result ↔ AreIn size self.now.parts }
    {
        let [first, second, third] = self.parts;
        first.lies_inside(size) && second.lies_inside(size) && third.lies_inside(size)
    }

    /// What a view gives of it.
    pub(crate) fn fields(&self) -> Fields
        ensures { result ≡ fields_of self.now }
    {
        let [first, second, third] = self.parts;
        Fields {
            wire: self.wire,
            parts: [first.size, second.size, third.size],
        }
    }
}

/// The name of a record, that stands at `rva` and was read with the limit 0; or that it has more than
/// `limit` bytes.
fn name_part(
    entry: u32,
    index: u64,
    rva: u64,
    name: NameRead,
    limit: u32,
) -> Result<PartAt, ReadFault>
    ensures finds { (file : List ℕ) (told : Name) → length file < 2 ^ 64 → IsNameTold name told → name_at file rva 0 ≡ Ok told → FindsName file limit entry index rva result }
    ensures refuses { IfErr result IsOfRecord }
{
    match name {
        NameRead::None => Ok(NO_PART),
        NameRead::Units(length) => counted_name(entry, index, rva, length, limit),
        NameRead::Long(length) => counted_name(entry, index, rva, length, limit),
    }
}

/// A name of so many bytes, which stand behind their length.
fn counted_name(
    entry: u32,
    index: u64,
    rva: u64,
    length: u32,
    limit: u32,
) -> Result<PartAt, ReadFault>
    ensures { IsCountedName limit entry index rva length result }
{
    if limit < length {
        return Err(ReadFault::NameTooLong {
            entry,
            index,
            length,
        });
    }
    Ok(PartAt {
        size: PartSize::Size(u64::from(length)),
        at: rva.saturating_add(4),
    })
}

/// The part that a location of this class names.
fn location_part(
    entry: u32,
    index: u64,
    part: PartName,
    location: Location,
    extent: Extent,
) -> Result<PartAt, ReadFault>
    ensures finds { (file : List ℕ) → extent_of location (length file) ≡ extent → FindsPart file entry index part location result }
    ensures refuses { IfErr result IsOfRecord }
{
    match extent {
        Extent::Empty => Ok(PartAt {
            size: PartSize::Size(0),
            at: 0,
        }),
        Extent::Absent => Ok(PartAt {
            size: PartSize::Absent(location.size),
            at: 0,
        }),
        Extent::Inside => Ok(PartAt {
            size: PartSize::Size(u64::from(location.size)),
            at: u64::from(location.rva),
        }),
        Extent::Outside => Err(ReadFault::PartOutside {
            entry,
            index,
            part,
            offset: u128::from(location.rva),
            size: u64::from(location.size),
        }),
    }
}

/// So many bytes of a 64-bit memory list, which stand behind those of the ranges before them.
fn range_part(read: &RecordRead, bytes: u64, size: u64) -> Result<PartAt, ReadFault>
    ensures finds { (file : List ℕ) → length file ≡ size
        → IsFoundInFile file (part_steps read.now.entry read.now.index PartName.Memory read.now.offset bytes (range_extent_of read.now.offset bytes size))
        (Size (length (array_at file read.now.offset bytes))) (array_at file read.now.offset bytes) result }
    ensures refuses { IfErr result IsOfRecord }
{
    match range_extent(read.offset, bytes, size) {
        Extent::Empty => Ok(PartAt {
            size: PartSize::Size(0),
            at: 0,
        }),
        Extent::Inside => Ok(PartAt {
            size: PartSize::Size(bytes),
            at: read.offset as u64,
        }),
        Extent::Outside => Err(ReadFault::PartOutside {
            entry: read.entry,
            index: read.index,
            part: PartName::Memory,
            offset: read.offset,
            size: bytes,
        }),
        Extent::Absent => unreachable!(),
    }
}

/// What stands behind a slot of a record.
fn found_slot(read: &RecordRead, slot: Slot, limit: u32, size: u64) -> Result<PartAt, ReadFault>
    ensures finds { (file : List ℕ) → length file ≡ size → FindsSlot file limit read.now slot result }
    ensures fits { MatchResult result (λ p. size_in p.size ≤ slot_room slot p.size + slot_far slot p.size) IsOfRecord }
{
    match slot {
        Slot::Empty => Ok(NO_PART),
        Slot::Name(rva) => name_part(read.entry, read.index, rva, read.name, limit),
        Slot::Part(part, location) => location_part(
            read.entry,
            read.index,
            part,
            location,
            location.classify(size),
        ),
        Slot::Behind(bytes) => range_part(read, bytes, size),
    }
}

/// The record that was read, with the places of its name and parts, wherever they lie.
fn found_parts(read: &RecordRead, limit: u32, size: u64) -> Result<FoundRecord, ReadFault>
    ensures finds { (file : List ℕ) → length file ≡ size → FindsStep file limit read.now result }
    ensures fits { MatchResult result (IsFittingOf read.now.fields) IsOfRecord }
{
    let [one, two, three] = read.fields.slots();
    let first = found_slot(read, one, limit, size)?;
    let second = found_slot(read, two, limit, size)?;
    let third = found_slot(read, three, limit, size)?;
    Ok(FoundRecord {
        wire: read.fields.bare(),
        parts: [first, second, third],
    })
}

/// The record that was read, with the places of its name and parts, which lie inside a file of `size`
/// bytes; or why it is refused. Its stream stands at `rva`.
pub(crate) fn found_record(
    read: &RecordRead,
    rva: u32,
    limit: u32,
    size: u64,
) -> Result<FoundRecord, ReadFault>
    ensures finds { (file : List ℕ) → length file ≡ size → AreBytes file → IsFoundInside file limit read.now result }
    ensures fits { MatchResult result (IsFittingOf read.now.fields) IsOfPlaces }
    ensures inside { IfOk result (λ f. AreIn size f.parts) }
{
    if is_region(&read.fields) {
        return Ok(FoundRecord {
            wire: read.fields,
            parts: [NO_PART, NO_PART, NO_PART],
        });
    }
    let found = found_parts(read, limit, size)?;
    if !found.lies_inside(size) {
        return Err(ReadFault::Source(SourceFault::Changed { at: u64::from(rva) }));
    }
    Ok(found)
}
