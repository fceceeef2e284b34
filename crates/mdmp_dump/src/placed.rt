//! A record as it is written, with the places of its name and parts.
ghost use Rattle.std.specs.Prelude.{◌≡◌, ◌+◌, ◌<◌, ◌≤◌, ◌^◌, ◌∷◌, [], IsTrue};
ghost use Rattle.mdmp_wire.specs.AnyRecord.{slots_of};
ghost use Rattle.mdmp_wire.specs.declared.slot.Slot.TheVariants.{Empty};
ghost use Rattle.mdmp_dump.specs.Placed.{address_of, far_room, fields_bytes, fields_room, location_of, name_room, part_room, placed, size_in, slot_placed, slot_room};

use crate::view::{Fields, PartSize};
use mdmp_source::Location;
use mdmp_wire::{AnyRecord, Slot};

impl PartSize {
    /// How many bytes it has: none where there is no part, or where that is absent.
    pub fn size(self) -> u64
        ensures { result ≡ size_in self }
    {
        match self {
            PartSize::NoPart => 0,
            PartSize::Size(size) => size,
            PartSize::Absent(_) => 0,
        }
    }
}

impl Fields {
    /// How many bytes its name and parts take as they are written, each padded to a multiple of 4. The
    /// bytes of 64-bit memory stand elsewhere, and are none of them.
    pub fn room(&self) -> u128
        ensures value { result ≡ fields_room self.now }
        ensures bound { result ≤ 2 ^ 70 }
    {
        if is_region(&self.wire) {
            return 0;
        }
        let [first, second, third] = self.parts;
        let [one, two, three] = self.wire.slots();
        slot_room(one, first) + slot_room(two, second) + slot_room(three, third)
    }

    /// The record as it is written, where its name and its parts stand one behind the other from an
    /// offset in the file on, all of them below 2^32. Where there is no name its RVA is 0; an empty part
    /// has the location of no bytes at 0, and an absent one its size and the RVA 0.
    pub fn placed(&self, at: u64) -> AnyRecord
        requires { at + fields_room self.now < 2 ^ 32 }
        ensures { result ≡ placed self.now at }
    {
        if is_region(&self.wire) {
            return self.wire;
        }
        let [first, second, third] = self.parts;
        let [one, two, three] = self.wire.slots();
        let behind_first = at + slot_room(one, first) as u64;
        let behind_second = behind_first + slot_room(two, second) as u64;
        self.wire.with_slots([
            slot_placed(one, first, at),
            slot_placed(two, second, behind_first),
            slot_placed(three, third, behind_second),
        ])
    }
}

/// Whether a record is a memory region, which points at nothing. Lists of regions are the longest ones.
pub(crate) fn is_region(wire: &AnyRecord) -> bool
    ensures { IsTrue result → slots_of wire.now ≡ Empty ∷ Empty ∷ Empty ∷ [] }
{
    matches!(wire, AnyRecord::MemoryInfo(_))
}

/// A slot of a record whose name or part is written at a place.
fn slot_placed(slot: Slot, part: PartSize, at: u64) -> Slot
    requires { at + slot_room slot part < 2 ^ 32 }
    ensures { result ≡ slot_placed slot part at }
{
    match slot {
        Slot::Name(_) => Slot::Name(u64::from(address(part, at))),
        Slot::Part(name, _) => Slot::Part(name, location(part, at)),
        Slot::Empty | Slot::Behind(_) => slot,
    }
}

/// Where a part stands that is written at a place.
fn location(part: PartSize, at: u64) -> Location
    requires { at + part_room part < 2 ^ 32 }
    ensures { result ≡ location_of part at }
{
    match part {
        PartSize::NoPart => Location { size: 0, rva: 0 },
        PartSize::Size(size) => {
            let rva = if size == 0 { 0 } else { at };
            Location {
                size: size as u32,
                rva: rva as u32,
            }
        },
        PartSize::Absent(size) => Location { size, rva: 0 },
    }
}

/// The RVA of a name that is written at a place.
fn address(name: PartSize, at: u64) -> u32
    requires { at < 2 ^ 32 }
    ensures { result ≡ address_of name at }
{
    match name {
        PartSize::NoPart => 0,
        PartSize::Size(_) => at as u32,
        PartSize::Absent(_) => 0,
    }
}

/// How many bytes the name and parts of a record have, without what pads them.
pub(crate) fn part_bytes(fields: &Fields) -> u128
    ensures value { result ≡ fields_bytes fields.now }
    ensures bound { result ≤ 2 ^ 66 }
{
    let [first, second, third] = fields.parts;
    u128::from(first.size()) + u128::from(second.size()) + u128::from(third.size())
}

/// The bytes of a part, and what pads them.
fn part_room(part: PartSize) -> u128
    ensures same { result ≡ part_room part }
    ensures bound { result ≤ 2 ^ 64 + 8 }
{
    match part {
        PartSize::NoPart => 0,
        PartSize::Size(size) => u128::from(size).next_multiple_of(4),
        PartSize::Absent(_) => 0,
    }
}

/// The length of a name, its units with a last one of 0, and what pads them.
fn name_room(name: PartSize) -> u128
    ensures same { result ≡ name_room name }
    ensures bound { result ≤ 2 ^ 64 + 8 }
{
    match name {
        PartSize::NoPart => 0,
        PartSize::Size(size) => (4 + u128::from(size) + 2).next_multiple_of(4),
        PartSize::Absent(_) => 0,
    }
}

/// What a slot takes.
fn slot_room(slot: Slot, part: PartSize) -> u128
    ensures same { result ≡ slot_room slot part }
    ensures bound { result ≤ 2 ^ 64 + 8 }
{
    match slot {
        Slot::Empty | Slot::Behind(_) => 0,
        Slot::Name(_) => name_room(part),
        Slot::Part(_, _) => part_room(part),
    }
}

/// How many bytes of 64-bit memory a record has, which stand behind all streams.
pub(crate) fn far_room(fields: &Fields) -> u128
    ensures same { result ≡ far_room fields.now }
    ensures bound { result ≤ 2 ^ 70 }
{
    if is_region(&fields.wire) {
        return 0;
    }
    let [first, _, _] = fields.parts;
    let [slot, _, _] = fields.wire.slots();
    match slot {
        Slot::Behind(_) => u128::from(first.size()),
        Slot::Empty | Slot::Name(_) | Slot::Part(_, _) => 0,
    }
}
