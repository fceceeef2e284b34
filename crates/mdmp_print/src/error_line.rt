//! Lines of standard error.
ghost use Rattle.std.specs.Prelude.{◌+◌, ◌≤◌, ◌∷◌, []};
ghost use Rattle.std.specs.List.{concat};
ghost use Rattle.mdmp_source.specs.Output.{Puts};
ghost use Rattle.mdmp_print.specs.Lines.{error_line};

use crate::bytes::{LongBytes, SHORT, ShortBytes};
use crate::piece::Piece;
use crate::printer::Printer;
use crate::row;
use crate::text::print_around;
use mdmp_source::OutFailed;

/// Prints the line of an error: the program's name, and what a piece says.
pub fn print_error<O: Printer, P: Piece + Drop>(out: &mut O, words: P) -> Result<(), OutFailed>
    requires { P.most ≤ 1000 }
    ensures { Puts result (O.state out.old) (error_line (P.text words)) (O.state out.new) }
{
    out.print(&row![b"mdmp: ", words, b"\n"])
}

/// Prints the line of an error: the program's name, what is wrong, and a name of any length.
pub fn print_error_named<O: Printer, const N: usize>(
    out: &mut O,
    words: &[u8; N],
    name: &[u8],
) -> Result<(), OutFailed>
    requires { N ≤ 100 }
    ensures { Puts result (O.state out.old) (error_line (concat (words.now ∷ name.now ∷ []))) (O.state out.new) }
{
    if name.len() <= SHORT {
        return print_error(out, row![words, ShortBytes { bytes: name }]);
    }
    print_around(out, &row![b"mdmp: ", words], &LongBytes(name), &row![b"\n"])
}
