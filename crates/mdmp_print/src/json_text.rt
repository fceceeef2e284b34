//! Names and bytes as values of JSON, and that a text is not what was read.
ghost use Rattle.std.specs.Prelude.{◌≡◌, ◌++◌, not, refl};
ghost use Rattle.std.specs.Str.{is_utf8};
ghost use Rattle.mdmp_print.specs.JsonPieces.{bytes_value_text, lossy_text, name_value_text};

use crate::json_strings::LossyText;
use crate::json_units::{Quoted, is_lossy};
use crate::piece::Piece;
use crate::printer::Printer;
use crate::row;
use crate::text::{LongText, print_around};
use crate::values::LongValue;
use mdmp_lister::Name;
use mdmp_source::OutFailed;

/// What stands behind a string: that it is not what was read.
#[derive(Clone, Copy)]
struct Lossy(bool);

impl Piece for Lossy {
    ghost text = { λ p. lossy_text p.0 };

    ghost before = { λ p more. (lossy_text p.0) ++ more };

    ghost most = { 13 };

    ghost joined = { λ p more. refl };

    fn write_at(&self, buffer: &mut [u8], at: usize) -> usize {
        if self.0 {
            return b",\"lossy\":true".write_at(buffer, at);
        }
        at
    }
}

/// A name as a value, and the member behind it where its text is not what was read.
#[derive(Drop)]
pub struct NameValue<'n, 'a>(pub &'n Name<'a>);

impl<'n, 'a> LongText for NameValue<'n, 'a> {
    ghost text = { λ t. name_value_text t.0.now };

    fn print<O: Printer>(&self, out: &mut O) -> Result<(), OutFailed> {
        match self.0 {
            Name::None => out.print(&b"null"),
            Name::Units(units) => print_around(
                out,
                &row![b"\""],
                &Quoted { units: *units },
                &row![b"\"", Lossy(is_lossy(units))],
            ),
            Name::Long(length) => out.print(&row![b"{\"long\":", *length, b"}"]),
        }
    }
}

impl<'n, 'a> LongValue for NameValue<'n, 'a> {
    ghost use Rattle.mdmp_print.specs.Json.{name_value};
    ghost use Rattle.mdmp_print.specs.NameLaws.{IsPrinted-name};

    ghost tokens = { λ t. name_value t.0.now };

    ghost shown = { λ t. IsPrinted-name t.0.now };
}

/// Bytes of a file name as a value, and the member behind the value if its text is not what was read.
#[derive(Drop)]
pub struct BytesValue<'a>(pub &'a [u8]);

impl<'a> LongText for BytesValue<'a> {
    ghost text = { λ t. bytes_value_text t.0.now };

    fn print<O: Printer>(&self, out: &mut O) -> Result<(), OutFailed> {
        print_around(
            out,
            &row![b"\""],
            &LossyText(self.0),
            &row![b"\"", Lossy(is_no_text(self.0))],
        )
    }
}

impl<'a> LongValue for BytesValue<'a> {
    ghost use Rattle.mdmp_print.specs.Json.{bytes_value};
    ghost use Rattle.mdmp_print.specs.NameLaws.{IsPrinted-bytes};

    ghost tokens = { λ t. bytes_value t.0.now };

    ghost shown = { λ t. IsPrinted-bytes t.0.now };
}

/// Whether some bytes are no UTF-8.
fn is_no_text(bytes: &[u8]) -> bool
    ensures { result ≡ not (is_utf8 bytes.now) }
{
    std::str::from_utf8(bytes).is_err()
}
