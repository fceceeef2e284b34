//! Texts as they stand in strings of JSON, between their quotes.
ghost use Rattle.std.specs.Prelude.{◌≡◌, ◌≤◌, ◌+◌, ◌++◌, length, refl};
ghost use Rattle.std.specs.Char.{encode_utf8};
ghost use Rattle.json.specs.Print.{escape, escape_byte, escape_letter};
ghost use Rattle.std.specs.Str.Lossy.{utf8_lossy};
ghost use Rattle.mdmp_print.specs.Buffer.{IsPutBehind};

use crate::bytes::EachByte;
use crate::element::{Element, each_at};
use crate::hex::hex_digit;
use crate::in_buffer::text_at;
use crate::piece::Piece;
use crate::printer::Printer;
use crate::text::{LongText, print_parts};
use mdmp_source::OutFailed;

/// The letter behind the backslash for a byte that has one, or 0.
fn escape_letter(byte: u8) -> u8
    ensures { result ≡ escape_letter byte }
{
    match byte {
        b'"' | b'\\' => byte,
        8 => b'b',
        12 => b'f',
        b'\n' => b'n',
        b'\r' => b'r',
        b'\t' => b't',
        _ => 0,
    }
}

/// How many bytes a byte of a text is in a string, at most.
const BYTE: usize = 6;

/// Puts a byte of a text as it stands in a string behind the first `len` bytes.
#[inline(always)]
#[tactic(auto, unfolding(json::specs::Print::escape_byte))]
fn escape_byte_at(text: &mut [u8], len: usize, byte: u8) -> usize
    requires { len + BYTE ≤ length text.old }
    ensures { IsPutBehind text.old len (escape_byte byte) BYTE text.new result }
{
    let letter = escape_letter(byte);
    if letter > 0 {
        return text_at(text, len, [b'\\', letter]);
    }
    if byte < 0x20 {
        let high = hex_digit(false, byte / 16);
        let low = hex_digit(false, byte % 16);
        return text_at(text, len, [b'\\', b'u', b'0', b'0', high, low]);
    }
    text_at(text, len, [byte])
}

/// A byte of a text as it stands in a string.
#[derive(Clone, Copy)]
struct JsonByte(u8);

impl Piece for JsonByte {
    ghost text = { λ p. escape_byte p.0 };

    ghost before = { λ p more. escape_byte p.0 ++ more };

    ghost most = { 6 };

    ghost joined = { λ p more. refl };

    #[inline(always)]
    fn write_at(&self, buffer: &mut [u8], at: usize) -> usize {
        escape_byte_at(buffer, at, self.0)
    }
}

impl Element<u8> for JsonByte {
    ghost of = { λ x. record { 0 = x } };

    #[inline(always)]
    fn of(element: u8) -> Self {
        JsonByte(element)
    }
}

/// How many bytes a character is in a string, at most: four bytes, each of six.
pub(crate) const CHARACTER: usize = 24;

/// Puts a character as it stands in a string behind the first `len` bytes.
pub(crate) fn escape_char_at(text: &mut [u8], len: usize, character: char) -> usize
    requires { len + CHARACTER ≤ length text.old }
    ensures { IsPutBehind text.old len (escape (encode_utf8 character)) CHARACTER text.new result }
{
    let mut buffer = [0; 4];
    each_at::<u8, JsonByte>(text, len, character.encode_utf8(&mut buffer).as_bytes())
}

/// Bytes as a text, with U+FFFD for each part that is no UTF-8.
#[derive(Drop)]
pub struct LossyText<'a>(pub &'a [u8]);

impl<'a> LongText for LossyText<'a> {
    ghost text = { λ t. escape (utf8_lossy t.0.now) };

    fn print<O: Printer>(&self, out: &mut O) -> Result<(), OutFailed> {
        for chunk in self.0.utf8_chunks() {
            print_parts(out, &EachByte::<JsonByte>::over(chunk.valid().as_bytes()))?;
            if !chunk.invalid().is_empty() {
                out.print(&b"\xef\xbf\xbd")?;
            }
        }
        Ok(())
    }
}
