//! An output of lines.
ghost use Rattle.std.specs.Prelude.{◌≡◌, ◌≤◌, ◌<◌, ◌+◌, ◌-◌, ◌++◌, [], ◌↔◌, length, take, drop, nat_lt, IsOk, IfOk, MatchResult, is_err};
ghost use Rattle.mdmp_print.specs.Blocks.{BlockState, FillsBlock, MovesFront, output_state};
ghost use Rattle.mdmp_source.specs.Output.{Puts, PutsPrefix, refused_if};
ghost use Rattle.mdmp_print.specs.Parts.{FillsPart, IsUnprinted, IsPartAppended};

use crate::parts::Parts;
use crate::piece::{LINE_ROOM, Piece};
use crate::printer::Printer;
use mdmp_source::{Out, OutFailed, send};
use std::marker::Model;

/// An output of lines over a buffer, which holds lines back until it is full: they reach the inner
/// output by few writes.
///
/// What it took is what the inner output took and what is pending. It refuses if the inner output
/// refuses: what is pending then stays pending. Call `flush` before it goes out of scope: what is
/// still pending then goes nowhere.
#[derive(Drop)]
pub struct LineOut<'b, O: Out> {
    inner: O,
    /// The first bytes are pending, and those behind them mean nothing.
    buffer: &'b mut [u8],
    /// How many bytes are pending.
    len: usize,
}

impl<'b, O: Out> Model for LineOut<'b, O> {
    ghost Value = { BlockState };

    ghost view = { λ b. record { inner = O.state b.inner; pending = take b.len b.buffer.now; room = length b.buffer.now } };

    ghost invariant = { λ b. (1024 ≤ length b.buffer.now) × (b.len ≤ length b.buffer.now) };
}

impl<'b, O: Out> LineOut<'b, O> {
    /// An output with nothing pending, over a buffer.
    pub fn over(buffer: &'b mut [u8], inner: O) -> Self
        requires { LINE_ROOM ≤ length buffer.old }
        ensures { result ≡ record { inner = O.state inner; pending = []; room = length buffer.old } }
    {
        LineOut {
            inner,
            buffer,
            len: 0,
        }
    }

    /// The inner output, given back. What is pending goes nowhere: call `flush` before.
    pub fn into_inner(self) -> O
        ensures { O.state result ≡ self.entry.inner }
    {
        self.inner
    }

    /// The bytes that the inner output has yet to take.
    pub fn pending(&self) -> &[u8]
        ensures { result.now ≡ self.now.pending }
    {
        &self.buffer[..self.len]
    }

    /// Writes what is pending to the inner output. Where that refuses, what it did not take is
    /// still pending.
    #[inline(never)]
    pub fn flush(&mut self) -> Result<(), OutFailed>
        ensures moved { MovesFront self.old.inner self.old.pending self.new.inner self.new.pending }
        ensures ok { IsOk result ↔ (self.new.pending ≡ []) }
        ensures failures { self.new.inner.failures ≡ refused_if (is_err result) self.old.inner.failures }
        ensures room { self.new.room ≡ self.old.room }
    {
        self.len = send_front(&mut self.inner, self.buffer, self.len);
        if self.len == 0 {
            Ok(())
        } else {
            Err(OutFailed)
        }
    }

    /// Makes room for a line.
    #[inline(always)]
    fn reserve(&mut self) -> Result<(), OutFailed>
        ensures nothing { Puts result (output_state self.old) [] (output_state self.new) }
        ensures room { IsOk result → length self.new.pending + LINE_ROOM ≤ self.new.room }
        ensures fills { FillsBlock self.old [] result self.new }
    {
        if self.buffer.len() - self.len < LINE_ROOM {
            return self.flush();
        }
        Ok(())
    }

    /// Puts a piece behind what is pending.
    #[inline(always)]
    fn append<P: Piece>(&mut self, piece: &P)
        requires fits { P.most ≤ LINE_ROOM }
        requires room { length self.old.pending + LINE_ROOM ≤ self.old.room }
        ensures { self.new ≡ record self.old { pending = self.old.pending ++ P.text piece.now } }
    {
        self.len = piece.write_at(self.buffer, self.len);
    }

    /// Puts the part of a text from a place on behind what is pending, and answers where the next one begins.
    fn append_part<T: Parts>(&mut self, text: &T, place: usize) -> usize
        requires place { place < T.places text.now }
        requires room { length self.old.pending + LINE_ROOM ≤ self.old.room }
        ensures next { place < result × result ≤ T.places text.now }
        ensures puts { IsPartAppended self.old (T.text_from text.now place) (T.text_from text.now result) self.new }
    {
        let end = text.write_part(place, self.buffer, self.len);
        self.len = end.len;
        end.next
    }
}

impl<'b, O: Out> Printer for LineOut<'b, O> {
    ghost use Rattle.std.specs.Prelude.{◌≤◌, ◌<◌, IfOk, MatchResult};
    ghost use Rattle.mdmp_print.specs.Blocks.{FillsBlock, output_state};
    ghost use Rattle.mdmp_print.specs.Parts.{FillsPart, IsUnprinted};
    ghost use Rattle.mdmp_source.specs.Output.{Puts, PutsPrefix};

    ghost state = { output_state };

    #[inline(always)]
    fn print<P: Piece>(&mut self, piece: &P) -> Result<(), OutFailed>
        requires { P.most ≤ LINE_ROOM }
        ensures puts { Puts result (output_state self.old) (P.text piece.now) (output_state self.new) }
        // What this output says beside any other.
        ensures fills { FillsBlock self.old (P.text piece.now) result self.new }
    {
        self.reserve()?;
        self.append(piece);
        Ok(())
    }

    fn print_part<T: Parts>(&mut self, text: &T, place: usize) -> Result<usize, OutFailed>
        requires { place < T.places text.now }
        ensures next { IfOk result (λ next. place < next × next ≤ T.places text.now) }
        ensures puts { MatchResult result
            (λ next. IsUnprinted (output_state self.old) (T.text_from text.now place) (T.text_from text.now next) (output_state self.new))
            (λ _. PutsPrefix (output_state self.old) (T.text_from text.now place) (output_state self.new)) }
        // What this output says beside any other.
        ensures fills { FillsPart self.old (T.text_from text.now place) (T.text_from text.now) result self.new }
    {
        self.reserve()?;
        Ok(self.append_part(text, place))
    }
}

/// Moves bytes from the front of the first `len` to the output, up to its first refusal, and answers
/// how many are left. They stand at the front then.
fn send_front<O: Out>(out: &mut O, buffer: &mut [u8], len: usize) -> usize
    requires { len ≤ length buffer.old }
    ensures bound { result ≤ len }
    ensures moved { MovesFront (O.state out.old) (take len buffer.old) (O.state out.new) (take result buffer.new) }
    ensures failures { (O.state out.new).failures ≡ refused_if (nat_lt 0 result) (O.state out.old).failures }
{
    let sent = send(out, &buffer[..len]);
    drop_front(buffer, len, sent);
    len - sent
}

/// Drops the first `count` of the first `len` bytes.
fn drop_front(buffer: &mut [u8], len: usize, count: usize)
    requires count { count ≤ len }
    requires len { len ≤ length buffer.old }
    ensures { take (len - count) buffer.new ≡ drop count (take len buffer.old) }
{
    buffer.copy_within(count..len, 0);
}
