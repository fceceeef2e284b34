//! The line of a part that lies outside the file, and of any row of a check that looks at parts.
ghost use Rattle.std.specs.Prelude.{◌++◌, refl, true};
ghost use Rattle.mdmp_source.specs.Output.{Puts};
ghost use Rattle.mdmp_print.specs.Json.{object_line};
ghost use Rattle.mdmp_print.specs.PartLaws.{escape-part};
ghost use Rattle.mdmp_print.specs.PartLines.{part_line, part_line_in, part_object, part_text, part_words, row_line_in};

use crate::form::LineForm;
use crate::object_line::print_object;
use crate::piece::Piece;
use crate::printer::Printer;
use crate::values::{InQuotes, JsonMember, PlainPiece};
use crate::verdict::print_verdict;
use crate::{members, row};
use mdmp_source::OutFailed;
use mdmp_summary::{CheckRow, PartOutside};
use mdmp_wire::PartName;

/// What a part is called.
#[derive(Clone, Copy)]
pub struct PartWords(pub PartName);

impl Piece for PartWords {
    ghost text = { λ p. part_words p.0 };

    ghost before = { λ p more. part_words p.0 ++ more };

    ghost most = { 8 };

    ghost joined = { λ p more. refl };

    fn write_at(&self, buffer: &mut [u8], at: usize) -> usize {
        match self.0 {
            PartName::Stack => b"stack".write_at(buffer, at),
            PartName::Context => b"context".write_at(buffer, at),
            PartName::CodeView => b"codeview".write_at(buffer, at),
            PartName::Misc => b"misc".write_at(buffer, at),
            PartName::Memory => b"memory".write_at(buffer, at),
        }
    }
}

impl PlainPiece for PartWords {
    ghost is_plain = { λ p. true };

    ghost same = { λ p plain. escape-part p.0 };
}

/// What is said of a part that lies outside the file.
#[derive(Clone, Copy)]
pub struct OutsideWords(pub PartOutside);

impl Piece for OutsideWords {
    ghost text = { λ p. part_text p.0 };

    ghost before = { λ p more. part_text p.0 ++ more };

    ghost most = { 180 };

    ghost joined = { λ p more. refl };

    fn write_at(&self, buffer: &mut [u8], at: usize) -> usize {
        row![
            b"entry ",
            self.0.entry,
            b" item ",
            self.0.index,
            b": ",
            PartWords(self.0.part),
            b" outside the file: offset ",
            self.0.offset,
            b" size ",
            self.0.size,
        ]
        .write_at(buffer, at)
    }
}

/// Prints the line of a row of a check: of a part that lies outside the file, or of the result of an entry.
pub fn print_check_row<O: Printer>(
    form: LineForm,
    row: &CheckRow,
    out: &mut O,
) -> Result<(), OutFailed>
    ensures { Puts result (O.state out.old) (row_line_in form row.now) (O.state out.new) }
{
    match row {
        CheckRow::Part(part) => print_part(form, part, out),
        CheckRow::Entry(row) => print_verdict(form, &row.verdict, out),
    }
}

/// Prints the line of a part that lies outside the file.
fn print_part<O: Printer>(form: LineForm, part: &PartOutside, out: &mut O) -> Result<(), OutFailed>
    ensures { Puts result (O.state out.old) (part_line_in form part.now) (O.state out.new) }
{
    match form {
        LineForm::Text => print_text(part, out),
        LineForm::Json => print_json(part, out),
    }
}

fn print_text<O: Printer>(part: &PartOutside, out: &mut O) -> Result<(), OutFailed>
    ensures { Puts result (O.state out.old) (part_line part.now) (O.state out.new) }
{
    out.print(&(OutsideWords(*part), b"\n"))
}

fn print_json<O: Printer>(part: &PartOutside, out: &mut O) -> Result<(), OutFailed>
    ensures { Puts result (O.state out.old) (object_line (part_object part.now)) (O.state out.new) }
{
    print_object(
        out,
        b"part",
        members![
            JsonMember(b"entry", part.entry),
            JsonMember(b"item", InQuotes(part.index)),
            JsonMember(b"part", InQuotes(PartWords(part.part))),
            JsonMember(b"offset", InQuotes(part.offset)),
            JsonMember(b"size", InQuotes(part.size)),
        ],
    )
}
