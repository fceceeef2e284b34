//! What a CodeView record says, as pieces of lines.
ghost use Rattle.std.specs.Prelude.{◌++◌, ◌≤◌, codes, length, refl, true};
ghost use Rattle.uuid.specs.Text.{simple_text, upper};
ghost use Rattle.mdmp_print.specs.PdbLines.{cut_text, debug_id, digits_text, guid_text};
ghost use Rattle.mdmp_print.specs.Escapes.{escape-debug_id, escape-digits, escape-guid};

use crate::element::{Element, each_at};
use crate::hex::{Hex2, upper_hex_at};
use crate::in_buffer::slice_at;
use crate::piece::Piece;
use crate::values::PlainPiece;
use uuid::Uuid;

/// The identity of a symbol file, with hyphens.
#[derive(Clone, Copy)]
pub struct Guid(pub [u8; 16]);

impl Piece for Guid {
    ghost text = { λ p. guid_text p.0 };

    ghost before = { λ p more. guid_text p.0 ++ more };

    ghost most = { 36 };

    ghost joined = { λ p more. refl };

    #[inline(never)]
    fn write_at(&self, buffer: &mut [u8], at: usize) -> usize {
        let mut text = Uuid::encode_buffer();
        let guid = Uuid::from_bytes(self.0).hyphenated();
        slice_at(buffer, at, guid.encode_lower(&mut text).as_bytes())
    }
}

impl PlainPiece for Guid {
    ghost is_plain = { λ p. true };

    ghost same = { λ p plain. escape-guid p.0 };
}

/// What a symbol store is asked for: an identity and an age.
#[derive(Clone, Copy)]
pub struct DebugId(pub [u8; 16], pub u32);

impl Piece for DebugId {
    ghost text = { λ p. debug_id p.0 p.1 };

    ghost before = { λ p more. debug_id p.0 p.1 ++ more };

    ghost most = { 40 };

    ghost joined = { λ p more. refl };

    #[inline(never)]
    fn write_at(&self, buffer: &mut [u8], at: usize) -> usize {
        let at = GuidDigits(self.0).write_at(buffer, at);
        upper_hex_at(buffer, at, self.1)
    }
}

/// The 32 digits of an identity, in upper case.
#[derive(Clone, Copy)]
pub struct GuidDigits(pub [u8; 16]);

impl Piece for GuidDigits {
    ghost text = { λ p. simple_text upper p.0 };

    ghost before = { λ p more. simple_text upper p.0 ++ more };

    ghost most = { 32 };

    ghost joined = { λ p more. refl };

    #[inline(never)]
    fn write_at(&self, buffer: &mut [u8], at: usize) -> usize {
        let mut text = Uuid::encode_buffer();
        let guid = Uuid::from_bytes(self.0).simple();
        slice_at(buffer, at, guid.encode_upper(&mut text).as_bytes())
    }
}

impl PlainPiece for DebugId {
    ghost is_plain = { λ p. true };

    ghost same = { λ p plain. escape-debug_id p.0 p.1 };
}

/// The four bytes that a record begins with.
#[derive(Clone, Copy)]
pub struct Signature(pub [u8; 4]);

impl Piece for Signature {
    ghost text = { λ p. digits_text p.0 };

    ghost before = { λ p more. digits_text p.0 ++ more };

    ghost most = { 8 };

    ghost joined = { λ p more. refl };

    #[inline(never)]
    fn write_at(&self, buffer: &mut [u8], at: usize) -> usize {
        each_at::<u8, Hex2>(buffer, at, &self.0)
    }
}

impl PlainPiece for Signature {
    ghost is_plain = { λ p. true };

    ghost same = { λ p plain. escape-digits p.0 };
}

/// The bytes of a build id.
#[derive(Clone, Copy)]
pub struct BuildDigits<'a> {
    /// The bytes: at most 20.
    pub bytes: &'a [u8],
    ghost few: { length bytes.now ≤ 20 },
}

impl<'a> Piece for BuildDigits<'a> {
    ghost text = { λ p. digits_text p.bytes.now };

    ghost before = { λ p more. digits_text p.bytes.now ++ more };

    ghost most = { 40 };

    ghost joined = { λ p more. refl };

    #[inline(never)]
    fn write_at(&self, buffer: &mut [u8], at: usize) -> usize {
        each_at::<u8, Hex2>(buffer, at, self.bytes)
    }
}

impl<'a> PlainPiece for BuildDigits<'a> {
    ghost is_plain = { λ p. true };

    ghost same = { λ p plain. escape-digits p.bytes.now };
}

impl Element<u8> for Hex2 {
    ghost of = { λ x. record { 0 = x } };

    fn of(element: u8) -> Self {
        Hex2(element)
    }
}

/// That a name was cut, if no zero byte ended it.
#[derive(Clone, Copy)]
pub struct Cut {
    /// Whether a zero byte ended the name.
    pub ended: bool,
}

impl Piece for Cut {
    ghost text = { λ p. cut_text p.ended };

    ghost before = { λ p more. cut_text p.ended ++ more };

    ghost most = { 4 };

    ghost joined = { λ p more. refl };

    fn write_at(&self, buffer: &mut [u8], at: usize) -> usize {
        if self.ended {
            return at;
        }
        b" cut".write_at(buffer, at)
    }
}
