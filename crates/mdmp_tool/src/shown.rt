//! Words, and names of files, as they are told: without control characters, which a terminal would obey.
ghost use Rattle.std.specs.Prelude.{◌≡◌, ◌≤◌, ◌+◌, ◌-◌, ◌++◌, IfOk, drop, length, refl, take, true};
ghost use Rattle.mdmp_tool.specs.Shown.{is_control, shown, shown_byte};

use mdmp_print::{Hex2, LongText, PartEnd, Parts, Piece, Printer, SHORT, ShortBytes, print_parts};
use mdmp_source::{OutFailed, WriteOut};
use std::alloc::{AllocError, Allocator};

/// Whether a byte is a control character of ASCII.
fn is_control(byte: u8) -> bool
    ensures { result ≡ is_control byte }
{
    byte < 0x20 || byte == 0x7f
}

/// A byte as it is told: a control character as `\u00` and two digits.
#[derive(Clone, Copy)]
struct ShownByte(u8);

impl Piece for ShownByte {
    ghost text = { λ p. shown_byte p.0 };

    ghost before = { λ p more. shown_byte p.0 ++ more };

    ghost most = { 6 };

    ghost joined = { λ p more. refl };

    fn write_at(&self, buffer: &mut [u8], at: usize) -> usize {
        if is_control(self.0) {
            return (b"\\u00", Hex2(self.0)).write_at(buffer, at);
        }
        let byte = [self.0];
        (&byte).write_at(buffer, at)
    }
}

/// Bytes of a text as they are told.
#[derive(Clone, Copy)]
pub(crate) struct ShownText<'a>(pub(crate) &'a [u8]);

impl<'a> Parts for ShownText<'a> {
    ghost text_from = { λ t i. shown (drop i t.0.now) };

    ghost places = { λ t. length t.0.now };

    fn places(&self) -> usize {
        self.0.len()
    }

    fn write_part(&self, place: usize, buffer: &mut [u8], len: usize) -> PartEnd {
        let end = plain_end(self.0, place);
        if end == place {
            return PartEnd {
                next: place + 1,
                len: ShownByte(self.0[place]).write_at(buffer, len),
            };
        }
        let bytes = &self.0[place..end];
        PartEnd {
            next: end,
            len: ShortBytes { bytes }.write_at(buffer, len),
        }
    }
}

impl<'a> LongText for ShownText<'a> {
    ghost text = { λ t. shown t.0.now };

    fn print<O: Printer>(&self, out: &mut O) -> Result<(), OutFailed> {
        print_parts(out, self)
    }
}

/// Where the bytes from a place on end that are told as they are, of which it takes a few.
fn plain_end(bytes: &[u8], place: usize) -> usize
    requires { place ≤ length bytes.now }
    ensures first { place ≤ result }
    ensures within { result ≤ length bytes.now }
    ensures few { result ≤ place + 900 }
    ensures plain { shown (drop place bytes.now) ≡ take (result - place) (drop place bytes.now) ++ shown (drop result bytes.now) }
{
    let most = place + (bytes.len() - place).min(SHORT);
    let mut end = place;
    while end < most && !is_control(bytes[end]) {
        end += 1;
    }
    end
}

/// Whether some bytes are few, and told as they are.
pub(crate) fn is_plain(bytes: &[u8]) -> bool
    ensures { result ≡ true → shown bytes.now ≡ bytes.now }
{
    plain_end(bytes, 0) == bytes.len()
}

/// The name of a file as it is told.
pub(crate) fn shown_name<A: Allocator + Copy>(
    alloc: A,
    name: &str,
) -> Result<Vec<u8, A>, AllocError>
    ensures { IfOk result (λ text. text.items ≡ shown name.now) }
{
    let mut out = WriteOut::new(Vec::new(alloc));
    match ShownText(name.as_bytes()).print(&mut out) {
        Ok(()) => Ok(out.into_inner()),
        Err(OutFailed) => Err(AllocError),
    }
}
