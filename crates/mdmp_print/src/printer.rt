//! What prints pieces of lines.
ghost use Rattle.std.specs.Prelude.{◌≡◌, ◌≤◌, ◌<◌, IfOk, MatchResult};
ghost use Rattle.mdmp_source.specs.Output.{Puts, PutsPrefix};
ghost use Rattle.mdmp_print.specs.Parts.{IsUnprinted};

use crate::parts::Parts;
use crate::piece::{LINE_ROOM, Piece};
use mdmp_source::{Out, OutFailed, write_all};

/// Something that prints lines: a [`LineOut`](crate::LineOut), which gathers them, or any output.
pub trait Printer {
    ghost use Rattle.mdmp_source.specs.Output.{OutState};

    // The output as its callers see it.
    ghost state: { Self → OutState };

    /// Prints a piece. If the output refuses, a first part of the piece went out.
    fn print<P: Piece>(&mut self, piece: &P) -> Result<(), OutFailed>
        requires { P.most ≤ LINE_ROOM }
        ensures { Puts result (state self.old) (P.text piece.now) (state self.new) };

    /// Prints the part of a text from a place on, and returns where the next part begins.
    fn print_part<T: Parts>(&mut self, text: &T, place: usize) -> Result<usize, OutFailed>
        requires { place < T.places text.now }
        ensures next { IfOk result (λ next. place < next × next ≤ T.places text.now) }
        ensures puts { MatchResult result
            (λ next. IsUnprinted (state self.old) (T.text_from text.now place) (T.text_from text.now next) (state self.new))
            (λ _. PutsPrefix (state self.old) (T.text_from text.now place) (state self.new)) };
}

/// An output that gathers nothing prints each piece by way of a buffer on the stack.
impl<O: Out> Printer for O {
    ghost state = { O.state };

    #[inline(never)]
    fn print<P: Piece>(&mut self, piece: &P) -> Result<(), OutFailed> {
        let mut buffer = [0; LINE_ROOM];
        let end = piece.write_at(&mut buffer, 0);
        write_all(self, &buffer[..end])
    }

    #[inline(never)]
    fn print_part<T: Parts>(&mut self, text: &T, place: usize) -> Result<usize, OutFailed> {
        let mut buffer = [0; LINE_ROOM];
        let end = text.write_part(place, &mut buffer, 0);
        write_all(self, &buffer[..end.len])?;
        Ok(end.next)
    }
}
