//! A record of a value, as a view gives it.
ghost use Rattle.std.specs.Prelude.{◌≡◌, ◌<◌, ◌≤◌, ◌+◌, ◌^◌, [], ◌∷◌, length, get_or, map};
ghost use Rattle.mdmp_dump.specs.Seen.{Seen, bytes_of, name_size, nothing_seen, nowhere, size_of, unit_bytes};
ghost use Rattle.mdmp_dump.specs.Shape.{all_taken, taken, told};

use crate::part::Part;
use crate::placed::far_room;
use crate::view::{Fields, PartSize};
use mdmp_source::Location;
use mdmp_wire::Units;
use std::alloc::Allocator;

/// A record of a value, of one kind of stream.
pub(crate) trait Given {
    // As a view gives it.
    ghost see: { Self → Seen };

    /// Its fields.
    fn fields(&self) -> Fields
        ensures { result ≡ (see self.now).fields };

    /// The bytes of one of its parts, a name's being its units; none behind the last.
    fn part(&self, which: usize) -> &[u8]
        ensures { result.now ≡ get_or (see self.now).parts which [] };
}

/// The fields of one of some records.
pub(crate) fn fields_at<T: Given>(records: &[T], index: usize) -> Fields
    requires { index < length records.now }
    ensures { result ≡ (get_or (map T.see records.now) index nothing_seen).fields }
{
    records[index].fields()
}

/// A part of one of some records.
pub(crate) fn part_at<T: Given>(records: &[T], index: usize, which: usize) -> &[u8]
    requires { index < length records.now }
    ensures { result.now ≡ get_or (get_or (map T.see records.now) index nothing_seen).parts which [] }
{
    records[index].part(which)
}

/// A sum that stops at the greatest.
pub(crate) fn add_told(total: u64, more: u128) -> u64
    requires { more ≤ 2 ^ 70 }
    ensures { result ≡ told (total + more) }
{
    (u128::from(total) + more).min(u128::from(u64::MAX)) as u64
}

/// What one record takes: of 64-bit memory its bytes, of others the room of its name and parts.
fn taken(fields: &Fields, is_far: bool) -> u128
    ensures value { result ≡ taken is_far fields.now }
    ensures bound { result ≤ 2 ^ 70 }
{
    if is_far {
        far_room(fields)
    } else {
        fields.room()
    }
}

/// What a single record takes.
#[tactic(auto, unfolding(crate::specs::Shape::rooms, crate::specs::Shape::fars))]
pub(crate) fn one_taken<T: Given>(one: &T, is_far: bool) -> u64
    ensures { result ≡ told (all_taken is_far (T.see one.now ∷ [])) }
{
    add_told(0, taken(&one.fields(), is_far))
}

/// What some records take.
pub(crate) fn all_taken<T: Given>(records: &[T], is_far: bool) -> u64
    ensures { result ≡ told (all_taken is_far (map T.see records.now)) }
{
    let mut total = 0u64;
    for record in records {
        total = add_told(total, taken(&record.fields(), is_far));
    }
    total
}

/// The location that a record's fields have in place of each of its own.
pub(crate) fn nowhere() -> Location
    ensures { result ≡ nowhere }
{
    Location { size: 0, rva: 0 }
}

/// The size of a part.
pub(crate) fn size_of<A: Allocator>(part: &Part<A>) -> PartSize
    ensures { result ≡ size_of part.now }
{
    match part {
        Part::Bytes(bytes) => PartSize::Size(bytes.as_slice().len() as u64),
        Part::Absent(size) => PartSize::Absent(size.get()),
    }
}

/// The bytes of a part.
pub(crate) fn bytes_of<A: Allocator>(part: &Part<A>) -> &[u8]
    ensures { result.now ≡ bytes_of part.now }
{
    match part {
        Part::Bytes(bytes) => bytes.as_slice(),
        Part::Absent(_) => &[],
    }
}

/// The size of a name.
pub(crate) fn name_size<A: Allocator>(name: &Option<Units<A>>) -> PartSize
    ensures { result ≡ name_size name.now }
{
    match name {
        Some(units) => PartSize::Size(units.view().bytes().len() as u64),
        None => PartSize::NoPart,
    }
}

/// The bytes of a name's units.
pub(crate) fn unit_bytes<A: Allocator>(name: &Option<Units<A>>) -> &[u8]
    ensures { result.now ≡ unit_bytes name.now }
{
    match name {
        Some(units) => units.view().bytes(),
        None => &[],
    }
}
