//! Texts of any length.
ghost use Rattle.std.specs.Prelude.{◌≤◌, ◌++◌};
ghost use Rattle.mdmp_source.specs.Output.{Puts};

use crate::parts::Parts;
use crate::piece::{LINE_ROOM, Piece};
use crate::printer::Printer;
use mdmp_source::OutFailed;

/// A text of any length, which is printed by as many pieces as it takes.
pub trait LongText {
    ghost use Rattle.std.specs.Prelude.{List, ℕ};

    // Its bytes.
    ghost text: { Self → List ℕ };

    /// Prints the text. If the output refuses, a first part of the text went out.
    fn print<O: Printer>(&self, out: &mut O) -> Result<(), OutFailed>
        ensures { Puts result (O.state out.old) (text self.now) (O.state out.new) };
}

/// Prints a text part by part. If the output refuses, a first part of the text went out.
pub fn print_parts<O: Printer, T: Parts>(out: &mut O, text: &T) -> Result<(), OutFailed>
    ensures { Puts result (O.state out.old) (T.text_from text.now 0) (O.state out.new) }
{
    let places = text.places();
    let mut place = 0;
    while place < places {
        place = out.print_part(text, place)?;
    }
    Ok(())
}

/// Prints a text of any length between two pieces.
pub fn print_around<O: Printer, P: Piece, T: LongText, Q: Piece>(
    out: &mut O,
    front: &P,
    middle: &T,
    end: &Q,
) -> Result<(), OutFailed>
    requires front { P.most ≤ LINE_ROOM }
    requires end { Q.most ≤ LINE_ROOM }
    ensures { Puts result (O.state out.old) (P.before front.now (T.text middle.now ++ Q.text end.now)) (O.state out.new) }
{
    out.print(front)?;
    middle.print(out)?;
    out.print(end)
}
