//! Names in lines of text.
ghost use Rattle.std.specs.Prelude.{◌≤◌, ◌+◌, ◌++◌, drop, length, refl};
ghost use Rattle.mdmp_wire.specs.Escape.{escaped};
ghost use Rattle.mdmp_wire.specs.Units.{units_in};
ghost use Rattle.mdmp_print.specs.ItemLines.{name_text, units_text};

use crate::parts::{PartEnd, Parts};
use crate::piece::Piece;
use crate::printer::Printer;
use crate::row;
use crate::text::{LongText, print_around, print_parts};
use mdmp_lister::Name;
use mdmp_source::OutFailed;
use mdmp_wire::UnitsRef;

/// How many units are a part, at most: each of them takes six bytes at most.
const PART: usize = 160;

/// Units as they are printed between double quotes.
#[derive(Clone, Copy)]
struct Escaped<'a> {
    units: UnitsRef<'a>,
}

impl<'a> Parts for Escaped<'a> {
    ghost text_from = { λ t i. escaped (drop i (units_in t.units)) };

    ghost places = { λ t. length (units_in t.units) };

    fn places(&self) -> usize {
        self.units.len()
    }

    fn write_part(&self, place: usize, buffer: &mut [u8], len: usize) -> PartEnd {
        let next = place + (self.units.len() - place).min(PART);
        PartEnd {
            next,
            len: self.units.escape_at(buffer, len, place, next),
        }
    }
}

impl<'a> LongText for Escaped<'a> {
    ghost text = { λ t. escaped (units_in t.units) };

    fn print<O: Printer>(&self, out: &mut O) -> Result<(), OutFailed> {
        print_parts(out, self)
    }
}

/// At most [`PART`] units between double quotes.
#[derive(Clone, Copy)]
struct ShortName<'a> {
    units: UnitsRef<'a>,
    ghost few: { length (units_in units) ≤ 160 },
}

impl<'a> Piece for ShortName<'a> {
    ghost text = { λ p. units_text p.units };

    ghost before = { λ p more. (units_text p.units) ++ more };

    ghost most = { 962 };

    ghost joined = { λ p more. refl };

    #[inline(always)]
    fn write_at(&self, buffer: &mut [u8], at: usize) -> usize {
        let at = b"\"".write_at(buffer, at);
        let at = self.units.escape_at(buffer, at, 0, self.units.len());
        b"\"".write_at(buffer, at)
    }
}

/// A name as it stands in a line of text.
#[derive(Drop)]
pub struct NameText<'n, 'a>(pub &'n Name<'a>);

impl<'n, 'a> LongText for NameText<'n, 'a> {
    ghost text = { λ t. name_text t.0.now };

    fn print<O: Printer>(&self, out: &mut O) -> Result<(), OutFailed> {
        match self.0 {
            Name::None => out.print(&b"none"),
            Name::Units(units) if units.len() <= PART => out.print(&ShortName { units: *units }),
            Name::Units(units) => {
                print_around(out, &row![b"\""], &Escaped { units: *units }, &row![b"\""])
            }
            Name::Long(length) => out.print(&row![b"long ", *length]),
        }
    }
}
