//! What bytes are in their file, as pieces of a line and as members of an object.
ghost use Rattle.std.specs.Prelude.{[], ◌++◌, List, codes, true, refl};
ghost use Rattle.mdmp_print.specs.ItemLines.{extent_text};
ghost use Rattle.mdmp_print.specs.Json.{of_number, of_wide, part_members};
ghost use Rattle.mdmp_print.specs.JsonPieces.{placed_text};
ghost use Rattle.mdmp_print.specs.PlacedLaws.{ArePrinted-range, IsPrinted-placed};

use crate::fields::{RecordFields, Value};
use crate::piece::Piece;
use crate::row;
use crate::values::{Json, Members, Object};
use mdmp_source::{Extent, Location};

/// What a part is in its file: its class, its size and its offset.
#[derive(Clone, Copy)]
pub struct PartText(pub Extent, pub Location);

impl Piece for PartText {
    ghost text = { λ p. extent_text p.0 p.1.size p.1.rva };

    ghost before = { λ p more. (extent_text p.0 p.1.size p.1.rva) ++ more };

    ghost most = { 40 };

    ghost joined = { λ p more. refl };

    #[inline(always)]
    fn write_at(&self, buffer: &mut [u8], at: usize) -> usize {
        let Location { size, rva } = self.1;
        match self.0 {
            Extent::Empty => b"empty".write_at(buffer, at),
            Extent::Absent => row![b"absent ", size].write_at(buffer, at),
            Extent::Inside => row![b"inside ", size, b"@", rva].write_at(buffer, at),
            Extent::Outside => row![b"outside ", size, b"@", rva].write_at(buffer, at),
        }
    }
}

impl Value for PartText {
    type Json = Object<PartMembers, ()>;

    ghost json_of = { λ p. record { 0 = record { 0 = p.0; 1 = p.1 }; 1 = tt } };

    #[inline(always)]
    fn json(&self) -> Object<PartMembers, ()> {
        Object(PartMembers(self.0, self.1), ())
    }
}

/// A class up to the size, the size, and the offset: numbers.
macro_rules! placed_numbers {
    ($class:expr, $size:expr, $offset:expr) => {
        row![$class, $size, b",\"offset\":", $offset]
    };
}

/// A part as members of an object.
#[derive(Clone, Copy)]
pub struct PartMembers(pub Extent, pub Location);

impl Piece for PartMembers {
    ghost text = { λ p. placed_text [] p.0 p.1.size p.1.rva };

    ghost before = { λ p more. (placed_text [] p.0 p.1.size p.1.rva) ++ more };

    ghost most = { 80 };

    ghost joined = { λ p more. refl };

    fn write_at(&self, buffer: &mut [u8], at: usize) -> usize {
        let Location { size, rva } = self.1;
        match self.0 {
            Extent::Empty => b"\"class\":\"empty\"".write_at(buffer, at),
            Extent::Absent => row![b"\"class\":\"absent\",\"size\":", size].write_at(buffer, at),
            Extent::Inside => {
                placed_numbers!(b"\"class\":\"inside\",\"size\":", size, rva).write_at(buffer, at)
            }
            Extent::Outside => {
                placed_numbers!(b"\"class\":\"outside\",\"size\":", size, rva).write_at(buffer, at)
            }
        }
    }
}

impl Json for PartMembers {
    ghost tokens = { λ p. part_members of_number p.0 p.1.size p.1.rva };

    ghost is_plain = { λ p. true };

    ghost shown = { λ p plain. IsPrinted-placed p.0 p.1.size p.1.rva };
}

/// What a range is in its file, behind a space: its class, its size and its offset.
#[derive(Clone, Copy)]
pub struct RangeText {
    pub extent: Extent,
    pub size: u64,
    pub offset: u128,
}

impl Piece for RangeText {
    ghost text = { λ p. codes " " ++ extent_text p.extent p.size p.offset };

    ghost before = { λ p more. (codes " " ++ extent_text p.extent p.size p.offset) ++ more };

    ghost most = { 70 };

    ghost joined = { λ p more. refl };

    fn write_at(&self, buffer: &mut [u8], at: usize) -> usize {
        match self.extent {
            Extent::Empty => b" empty".write_at(buffer, at),
            Extent::Absent => row![b" absent ", self.size].write_at(buffer, at),
            Extent::Inside => row![b" inside ", self.size, b"@", self.offset].write_at(buffer, at),
            Extent::Outside => row![b" outside ", self.size, b"@", self.offset].write_at(
                buffer, at,
            ),
        }
    }
}

impl RecordFields for RangeText {
    type Members = RangeMembers;

    ghost members_of = { λ p. record { extent = p.extent; size = p.size; offset = p.offset } };

    #[inline(always)]
    fn members(&self) -> RangeMembers {
        RangeMembers {
            extent: self.extent,
            size: self.size,
            offset: self.offset,
        }
    }
}

/// A class up to the size, the size, and the offset: strings.
macro_rules! placed_strings {
    ($class:expr, $range:expr) => {
        row![$class, $range.size, b"\",\"offset\":\"", $range.offset, b"\""]
    };
}

/// A range as members of an object, each behind a comma; the numbers are strings.
#[derive(Clone, Copy)]
pub struct RangeMembers {
    pub extent: Extent,
    pub size: u64,
    pub offset: u128,
}

impl Piece for RangeMembers {
    ghost text = { λ p. codes "," ++ placed_text (codes "\"") p.extent p.size p.offset };

    ghost before = { λ p more. (codes "," ++ placed_text (codes "\"") p.extent p.size p.offset) ++ more };

    ghost most = { 110 };

    ghost joined = { λ p more. refl };

    fn write_at(&self, buffer: &mut [u8], at: usize) -> usize {
        match self.extent {
            Extent::Empty => b",\"class\":\"empty\"".write_at(buffer, at),
            Extent::Absent => {
                row![b",\"class\":\"absent\",\"size\":\"", self.size, b"\""].write_at(buffer, at)
            }
            Extent::Inside => placed_strings!(b",\"class\":\"inside\",\"size\":\"", self).write_at(
                buffer, at,
            ),
            Extent::Outside => placed_strings!(
                b",\"class\":\"outside\",\"size\":\"",
                self
            ).write_at(buffer, at),
        }
    }
}

impl Members for RangeMembers {
    ghost onto = { λ p more. part_members of_wide p.extent p.size p.offset ++ more };

    ghost is_plain = { λ p. true };

    ghost shown = { λ p plain. ArePrinted-range p.extent p.size p.offset };
}
