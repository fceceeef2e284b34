//! The values of an exception.
ghost use Rattle.std.specs.Prelude.{◌≡◌, ◌+◌, ◌*◌, ◌≤◌, ◌++◌, ◌∷◌, [], codes, length, refl, true};
ghost use Rattle.json.specs.Token.{begin_array, end_array, key};
ghost use Rattle.mdmp_print.specs.Buffer.{IsPutBehind};
ghost use Rattle.mdmp_print.specs.ExceptionLaws.{ArePrinted-information};
ghost use Rattle.mdmp_print.specs.ItemLines.{information_text, value_text};
ghost use Rattle.mdmp_print.specs.Json.{values_of};
ghost use Rattle.mdmp_print.specs.JsonPieces.{all_values_text, hex_strings_text, hex_value_text, next_value_text};

use crate::element::{Element, each_at};
use crate::fields::RecordFields;
use crate::hex::Hex16;
use crate::piece::Piece;
use crate::row;
use crate::values::Members;

/// As many of the values of an exception as it counts, at most fifteen.
#[derive(Clone, Copy)]
pub struct Information<'a> {
    /// How many values the exception counts.
    pub count: u32,
    /// The values.
    pub values: &'a [u64; 15],
}

impl<'a> Piece for Information<'a> {
    ghost text = { λ p. information_text p.count p.values.now };

    ghost before = { λ p more. information_text p.count p.values.now ++ more };

    ghost most = { 285 };

    ghost joined = { λ p more. refl };

    #[inline(never)]
    fn write_at(&self, buffer: &mut [u8], at: usize) -> usize {
        let values = self.values;
        let count = (self.count as usize).min(15);
        each_at::<u64, Spaced>(buffer, at, &values[..count])
    }
}

impl<'a> RecordFields for Information<'a> {
    type Members = InformationMember<'a>;

    ghost members_of = { λ p. record { count = p.count; values = p.values } };

    fn members(&self) -> InformationMember<'a> {
        InformationMember {
            count: self.count,
            values: self.values,
        }
    }
}

/// The values of an exception as a member of an object, behind a comma.
#[derive(Clone, Copy)]
pub struct InformationMember<'a> {
    /// How many values the exception counts.
    pub count: u32,
    /// The values.
    pub values: &'a [u64; 15],
}

impl<'a> Piece for InformationMember<'a> {
    ghost text = { λ p. codes ",\"information\":[" ++ (hex_strings_text p.count p.values.now ++ codes "]") };

    ghost before = { λ p more. (codes ",\"information\":[" ++ (hex_strings_text p.count p.values.now ++ codes "]")) ++ more };

    ghost most = { 350 };

    ghost joined = { λ p more. refl };

    #[inline(never)]
    fn write_at(&self, buffer: &mut [u8], at: usize) -> usize {
        let values = self.values;
        let count = (self.count as usize).min(15);
        let at = b",\"information\":[".write_at(buffer, at);
        let at = strings_at(buffer, at, &values[..count]);
        b"]".write_at(buffer, at)
    }
}

impl<'a> Members for InformationMember<'a> {
    ghost onto = { λ p more. (key (codes "information") ∷ begin_array ∷ (values_of p.count p.values.now ++ end_array ∷ [])) ++ more };

    ghost is_plain = { λ p. true };

    ghost shown = { λ p plain. ArePrinted-information p.count p.values.now };
}

/// Puts numbers as strings of hexadecimal digits, with commas between them, behind the first `len` bytes.
fn strings_at(buffer: &mut [u8], len: usize, values: &[u64]) -> usize
    requires { len + 21 * length values.now ≤ length buffer.old }
    ensures { IsPutBehind buffer.old len (all_values_text values.now) (21 * length values.now) buffer.new result }
{
    let Some((first, rest)) = values.split_first() else {
        return len;
    };
    let len = HexString(*first).write_at(buffer, len);
    each_at::<u64, NextString>(buffer, len, rest)
}

/// A value behind a space.
#[derive(Clone, Copy)]
struct Spaced(u64);

impl Piece for Spaced {
    ghost text = { λ p. value_text p.0 };

    ghost before = { λ p more. value_text p.0 ++ more };

    ghost most = { 19 };

    ghost joined = { λ p more. refl };

    #[inline(always)]
    fn write_at(&self, buffer: &mut [u8], at: usize) -> usize {
        (b" 0x", Hex16(self.0)).write_at(buffer, at)
    }
}

impl Element<u64> for Spaced {
    ghost of = { λ x. record { 0 = x } };

    fn of(element: u64) -> Self {
        Spaced(element)
    }
}

/// A value as a string.
#[derive(Clone, Copy)]
struct HexString(u64);

impl Piece for HexString {
    ghost text = { λ p. hex_value_text p.0 };

    ghost before = { λ p more. hex_value_text p.0 ++ more };

    ghost most = { 20 };

    ghost joined = { λ p more. refl };

    #[inline(always)]
    fn write_at(&self, buffer: &mut [u8], at: usize) -> usize {
        row![b"\"0x", Hex16(self.0), b"\""].write_at(buffer, at)
    }
}

/// A value as a string, behind a comma.
#[derive(Clone, Copy)]
struct NextString(u64);

impl Piece for NextString {
    ghost text = { λ p. next_value_text p.0 };

    ghost before = { λ p more. next_value_text p.0 ++ more };

    ghost most = { 21 };

    ghost joined = { λ p more. refl };

    #[inline(always)]
    fn write_at(&self, buffer: &mut [u8], at: usize) -> usize {
        (b",", HexString(self.0)).write_at(buffer, at)
    }
}

impl Element<u64> for NextString {
    ghost of = { λ x. record { 0 = x } };

    fn of(element: u64) -> Self {
        NextString(element)
    }
}
