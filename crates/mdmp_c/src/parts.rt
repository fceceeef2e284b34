//! Places in the file, as plain numbers.
ghost use Rattle.std.specs.Prelude.{◌≡◌};
ghost use Rattle.mdmp_c.specs.Places.{extent_number, name_place, part_place};
ghost use Rattle.mdmp_lister.specs.Format.Item.{plain};
ghost use Rattle.mdmp_lister.specs.Format.Name.{plain_name};

use mdmp_lister::Name;
use mdmp_source::{Extent, Location};
use std::mem::size_of;

/// The place of a part of a record, `MINIDUMP_LOCATION_DESCRIPTOR`, and what is there.
#[repr(C)]
#[derive(Clone, Copy)]
pub struct PartPlace {
    /// `DataSize`, in bytes.
    pub size: u32,
    /// `Rva`, an offset from the start of the file.
    pub rva: u32,
    /// What the place names: 0 no bytes, 1 bytes that are not in the file, 2 bytes inside the file, 3 bytes
    /// of which one is past its end.
    pub extent: u32,
    /// 0.
    pub reserved: u32,
}

const _: () = prove!(size_of::<PartPlace>() == 16);

/// The place of a name, a `MINIDUMP_STRING`.
#[repr(C)]
#[derive(Clone, Copy)]
pub struct NamePlace {
    /// The offset of its length from the start of the file, or 0 if there is no name.
    pub rva: u64,
    /// How many bytes its units have. They begin 4 bytes after its length.
    pub size: u32,
    /// 0 if there is no name, 1 if the name is within the limit, 2 if it is longer.
    pub state: u32,
}

const _: () = prove!(size_of::<NamePlace>() == 16);

/// The number of an extent.
pub(crate) fn extent_number(extent: Extent) -> u32
    ensures { result ≡ extent_number extent }
{
    match extent {
        Extent::Empty => 0,
        Extent::Absent => 1,
        Extent::Inside => 2,
        Extent::Outside => 3,
    }
}

/// A part's place.
pub(crate) fn part_place(location: Location, extent: Extent) -> PartPlace
    ensures { result ≡ part_place location extent }
{
    PartPlace {
        size: location.size,
        rva: location.rva,
        extent: extent_number(extent),
        reserved: 0,
    }
}

/// A name's place.
pub(crate) fn name_place(rva: u64, name: &Name<'_>) -> NamePlace
    ensures { result ≡ name_place rva (plain_name name.now) }
{
    match name {
        Name::None => NamePlace {
            rva,
            size: 0,
            state: 0,
        },
        Name::Units(units) => NamePlace {
            rva,
            size: (units.bytes().len() % (1 << 32)) as u32,
            state: 1,
        },
        Name::Long(length) => NamePlace {
            rva,
            size: *length,
            state: 2,
        },
    }
}
