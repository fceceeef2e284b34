//! Texts and names in the object of a summary.
ghost use Rattle.std.specs.Prelude.{◌≤◌, ◌+◌, ◌++◌, drop, length, refl};
ghost use Rattle.json.specs.Print.{escape};
ghost use Rattle.mdmp_wire.specs.Units.{units_in, utf8_of};
ghost use Rattle.mdmp_summary_lines.specs.JsonText.{bytes_string, file_string, index_or_null, name_string, units_string};
ghost use Rattle.mdmp_summary_lines.specs.FileNames.{file_part};

use crate::file_name::file_start;
use mdmp_lister::Name;
use mdmp_print::{
    LongText, LossyText, PartEnd, Parts, Piece, Printer, Quoted, print_around, print_parts, row,
};
use mdmp_source::OutFailed;
use mdmp_wire::UnitsRef;

/// Bytes as a string, with U+FFFD for each part that is no UTF-8.
#[derive(Drop)]
pub(crate) struct BytesString<'a>(pub(crate) &'a [u8]);

impl<'a> LongText for BytesString<'a> {
    ghost text = { λ t. bytes_string t.0.now };

    fn print<O: Printer>(&self, out: &mut O) -> Result<(), OutFailed> {
        print_around(out, &row![b"\""], &LossyText(self.0), &row![b"\""])
    }
}

/// A name as a string, if it was read.
#[derive(Drop)]
pub(crate) struct NameString<'n, 'a>(pub(crate) &'n Name<'a>);

impl<'n, 'a> LongText for NameString<'n, 'a> {
    ghost text = { λ t. name_string t.0.now };

    fn print<O: Printer>(&self, out: &mut O) -> Result<(), OutFailed> {
        match self.0 {
            Name::Units(units) => {
                print_around(out, &row![b"\""], &Quoted { units: *units }, &row![b"\""])
            }
            Name::None | Name::Long(_) => out.print(&b"null"),
        }
    }
}

/// Units from one of them on, as they stand in a string.
#[derive(Clone, Copy)]
struct QuotedFrom<'a> {
    units: UnitsRef<'a>,
    start: usize,
    ghost within: { start ≤ length (units_in units) },
}

impl<'a> Parts for QuotedFrom<'a> {
    ghost text_from = { λ t i. escape (utf8_of (drop (t.start + i) (units_in t.units))) };

    ghost places = { λ t. length (drop t.start (units_in t.units)) };

    fn places(&self) -> usize {
        self.units.len() - self.start
    }

    fn write_part(&self, place: usize, buffer: &mut [u8], len: usize) -> PartEnd {
        // The proof learns here that places fit.
        let _count = self.units.len();
        let whole = Quoted { units: self.units };
        let end = whole.write_part(self.start + place, buffer, len);
        PartEnd {
            next: end.next - self.start,
            len: end.len,
        }
    }
}

impl<'a> LongText for QuotedFrom<'a> {
    ghost text = { λ t. escape (utf8_of (drop t.start (units_in t.units))) };

    fn print<O: Printer>(&self, out: &mut O) -> Result<(), OutFailed> {
        print_parts(out, self)
    }
}

/// The part of a name that follows its folders, as a string, if the name was read.
#[derive(Drop)]
pub(crate) struct FileString<'n, 'a>(pub(crate) &'n Name<'a>);

impl<'n, 'a> LongText for FileString<'n, 'a> {
    ghost text = { λ t. file_string t.0.now };

    fn print<O: Printer>(&self, out: &mut O) -> Result<(), OutFailed> {
        match self.0 {
            Name::Units(path) => {
                let part = QuotedFrom {
                    units: *path,
                    start: file_start(*path),
                };
                print_around(out, &row![b"\""], &part, &row![b"\""])
            }
            Name::None | Name::Long(_) => out.print(&b"null"),
        }
    }
}

/// An index, if there is one.
#[derive(Clone, Copy)]
pub(crate) struct IndexOrNull(pub(crate) Option<u64>);

impl Piece for IndexOrNull {
    ghost text = { λ p. index_or_null p.0 };

    ghost before = { λ p more. index_or_null p.0 ++ more };

    ghost most = { 20 };

    ghost joined = { λ p more. refl };

    fn write_at(&self, buffer: &mut [u8], at: usize) -> usize {
        match self.0 {
            Some(index) => index.write_at(buffer, at),
            None => b"null".write_at(buffer, at),
        }
    }
}
