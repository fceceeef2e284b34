//! Bytes as they are printed: of file names, and of words of a command line.
ghost use Rattle.std.specs.Prelude.{◌≡◌, ◌≤◌, ◌++◌, drop, length, refl};
ghost use Rattle.std.specs.List.{flat_map};
ghost use Rattle.mdmp_wire.specs.Escape.{escaped_byte, escaped_bytes, is_plain};

use crate::element::{Element, each_at};
use crate::hex::Hex2;
use crate::in_buffer::{slice_at, text_at};
use crate::parts::{PartEnd, Parts};
use crate::piece::Piece;
use crate::printer::Printer;
use crate::text::{LongText, print_parts};
use mdmp_source::OutFailed;
use std::marker::PhantomData;

/// How many bytes of a text are a part, at most: each of them takes six bytes at most.
const PART: usize = 160;

/// Bytes, each of which is printed as a piece of its own.
#[derive(Drop)]
pub(crate) struct EachByte<'a, E: Element<u8>> {
    bytes: &'a [u8],
    piece: PhantomData<E>,
    ghost small: { E.most ≤ 6 },
}

impl<'a, E: Element<u8>> EachByte<'a, E> {
    /// The pieces of some bytes.
    pub(crate) fn over(bytes: &'a [u8]) -> Self
        requires { E.most ≤ 6 }
        ensures { result.bytes.now ≡ bytes.entry.now }
    {
        EachByte {
            bytes,
            piece: PhantomData,
        }
    }
}

impl<'a, E: Element<u8> + Copy> Parts for EachByte<'a, E> {
    ghost text_from = { λ t i. flat_map (λ x. E.text (E.of x)) (drop i t.bytes.now) };

    ghost places = { λ t. length t.bytes.now };

    fn places(&self) -> usize {
        self.bytes.len()
    }

    fn write_part(&self, place: usize, buffer: &mut [u8], len: usize) -> PartEnd {
        let next = place + (self.bytes.len() - place).min(PART);
        PartEnd {
            next,
            len: each_at::<u8, E>(buffer, len, &self.bytes[place..next]),
        }
    }
}

/// A byte of a file name.
#[derive(Clone, Copy)]
struct EscapedByte(u8);

impl Piece for EscapedByte {
    ghost text = { λ p. escaped_byte p.0 };

    ghost before = { λ p more. escaped_byte p.0 ++ more };

    ghost most = { 4 };

    ghost joined = { λ p more. refl };

    fn write_at(&self, buffer: &mut [u8], at: usize) -> usize {
        if is_plain(self.0) {
            return text_at(buffer, at, [self.0]);
        }
        (b"\\x", Hex2(self.0)).write_at(buffer, at)
    }
}

impl Element<u8> for EscapedByte {
    ghost of = { λ x. record { 0 = x } };

    fn of(element: u8) -> Self {
        EscapedByte(element)
    }
}

/// Whether a byte of a file name is printed as it is.
fn is_plain(byte: u8) -> bool
    ensures { result ≡ is_plain byte }
{
    0x20 <= byte && byte <= 0x7e && byte != 0x5c
}

/// Bytes of a file name: those that are no plain characters as `\x` and two digits.
#[derive(Drop)]
pub(crate) struct EscapedBytes<'a>(pub(crate) &'a [u8]);

impl<'a> LongText for EscapedBytes<'a> {
    ghost text = { λ t. escaped_bytes t.0.now };

    fn print<O: Printer>(&self, out: &mut O) -> Result<(), OutFailed> {
        print_parts(out, &EachByte::<EscapedByte>::over(self.0))
    }
}

/// How many bytes [`ShortBytes`] has, at most.
pub const SHORT: usize = 900;

/// A few bytes, as they are.
#[derive(Clone, Copy)]
pub struct ShortBytes<'a> {
    /// The bytes.
    pub bytes: &'a [u8],
    ghost few: { length bytes.now ≤ 900 },
}

impl<'a> Piece for ShortBytes<'a> {
    ghost text = { λ p. p.bytes.now };

    ghost before = { λ p more. p.bytes.now ++ more };

    ghost most = { 900 };

    ghost joined = { λ p more. refl };

    fn write_at(&self, buffer: &mut [u8], at: usize) -> usize {
        slice_at(buffer, at, self.bytes)
    }
}

/// Bytes of any length, as they are.
#[derive(Clone, Copy)]
pub struct LongBytes<'a>(pub &'a [u8]);

impl<'a> Parts for LongBytes<'a> {
    ghost text_from = { λ t i. drop i t.0.now };

    ghost places = { λ t. length t.0.now };

    fn places(&self) -> usize {
        self.0.len()
    }

    fn write_part(&self, place: usize, buffer: &mut [u8], len: usize) -> PartEnd {
        let next = place + (self.0.len() - place).min(SHORT);
        PartEnd {
            next,
            len: slice_at(buffer, len, &self.0[place..next]),
        }
    }
}

impl<'a> LongText for LongBytes<'a> {
    ghost text = { λ t. t.0.now };

    fn print<O: Printer>(&self, out: &mut O) -> Result<(), OutFailed> {
        print_parts(out, self)
    }
}
