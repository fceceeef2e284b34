//! What a record points at, in the order of its fields.
ghost use Rattle.std.specs.Prelude.{◌≡◌};
ghost use Rattle.mdmp_wire.specs.AnyRecord.{bare_slot, slot_behind, slot_location, slot_name, slot_rva};

use mdmp_source::Location;

/// A part that records have.
#[derive(Clone, Copy, Debug, PartialEq, Eq)]
pub enum PartName {
    /// The stack of a thread.
    Stack,
    /// The registers of a thread, or of an exception's thread.
    Context,
    /// The CodeView record of a module.
    CodeView,
    /// The miscellaneous debug record of a module.
    Misc,
    /// The bytes of a range of memory.
    Memory,
}

/// One of the three slots of a record: the places behind the records of its stream that it points
/// at, in the order of its fields. Which they are is told by its kind alone:
/// [`AnyRecord::slots`](crate::AnyRecord::slots).
#[derive(Clone, Copy, Debug, PartialEq, Eq)]
pub enum Slot {
    /// Records of its kind point at no more.
    Empty,
    /// A name, a `MINIDUMP_STRING`, at this offset from the start of the file. 0 says that the
    /// record has none.
    Name(u64),
    /// A part of this name: bytes whose location stands in the record.
    Part(PartName, Location),
    /// So many bytes of a 64-bit memory list: they stand behind those of the records before this one,
    /// and no record says where.
    Behind(u64),
}

impl Slot {
    /// Where the name stands, if it is one.
    pub(crate) fn name_rva(self) -> Option<u64>
        ensures { result ≡ slot_name self }
    {
        match self {
            Slot::Name(rva) => Some(rva),
            Slot::Empty | Slot::Part(_, _) | Slot::Behind(_) => None,
        }
    }
    /// The RVA of a name; 0 of another slot.
    pub(crate) fn rva(self) -> u64
        ensures { result ≡ slot_rva self }
    {
        match self {
            Slot::Name(rva) => rva,
            Slot::Empty | Slot::Part(_, _) | Slot::Behind(_) => 0,
        }
    }

    /// The location of a part; that of no bytes at 0 of another slot.
    pub(crate) fn location(self) -> Location
        ensures { result ≡ slot_location self }
    {
        match self {
            Slot::Part(_, location) => location,
            Slot::Empty | Slot::Name(_) | Slot::Behind(_) => Location { size: 0, rva: 0 },
        }
    }
    /// How many bytes stand behind those of the records before it; 0 of another slot.
    pub(crate) fn behind(self) -> u64
        ensures { result ≡ slot_behind self }
    {
        match self {
            Slot::Behind(bytes) => bytes,
            Slot::Empty | Slot::Name(_) | Slot::Part(_, _) => 0,
        }
    }

    /// The slot with no place in it.
    pub(crate) fn bare(self) -> Slot
        ensures { result ≡ bare_slot self }
    {
        match self {
            Slot::Name(_) => Slot::Name(0),
            Slot::Part(name, _) => Slot::Part(name, Location { size: 0, rva: 0 }),
            Slot::Empty | Slot::Behind(_) => self,
        }
    }
}
