//! Numbers in hexadecimal digits.
ghost use Rattle.std.specs.Prelude.{◌≡◌, ◌+◌, ◌%◌, ◌^◌, ◌≤◌, ◌<◌, ◌++◌, codes, false, length, refl, true};
ghost use Rattle.std.specs.Fmt.{digit_glyph, digits};
ghost use Rattle.mdmp_wire.specs.Digits.{hex};
ghost use Rattle.mdmp_print.specs.Buffer.{IsPutBehind};
ghost use Rattle.mdmp_print.specs.Escapes.{escape-hex, escape-sixteens};
ghost use Rattle.mdmp_print.specs.Shown.{both, escape-plain};
ghost use Rattle.mdmp_print.specs.UpperHex.{upper_hex};

use crate::fields::Value;
use crate::in_buffer::{slice_at, text_at};
use crate::piece::Piece;
use crate::values::{InQuotes, PlainPiece};
use mdmp_wire::hex_digits;
use std::simd::prelude::*;

/// The hexadecimal digits.
static HEX_DIGITS: [u8; 16] = *b"0123456789abcdef";

/// The two hexadecimal digits of each byte.
static HEX_PAIRS: [u8; 512] =
    *b"000102030405060708090a0b0c0d0e0f101112131415161718191a1b1c1d1e1f202122232425262728292a2b2c2d2e2f303132333435363738393a3b3c3d3e3f404142434445464748494a4b4c4d4e4f505152535455565758595a5b5c5d5e5f606162636465666768696a6b6c6d6e6f707172737475767778797a7b7c7d7e7f808182838485868788898a8b8c8d8e8f909192939495969798999a9b9c9d9e9fa0a1a2a3a4a5a6a7a8a9aaabacadaeafb0b1b2b3b4b5b6b7b8b9babbbcbdbebfc0c1c2c3c4c5c6c7c8c9cacbcccdcecfd0d1d2d3d4d5d6d7d8d9dadbdcdddedfe0e1e2e3e4e5e6e7e8e9eaebecedeeeff0f1f2f3f4f5f6f7f8f9fafbfcfdfeff";

/// The high half of each byte stands among the first eight lanes, and its low half among the last: where
/// they stand from the highest byte on.
static HALVES: [u8; 16] = [7, 15, 6, 14, 5, 13, 4, 12, 3, 11, 2, 10, 1, 9, 0, 8];

/// The hexadecimal digit of a number below 16, in upper case or in lower.
pub(crate) fn hex_digit(upper: bool, number: u8) -> u8
    requires { number < 16 }
    ensures { result ≡ digit_glyph upper number }
{
    if number < 10 {
        b'0' + number
    } else if upper {
        b'A' - 10 + number
    } else {
        b'a' - 10 + number
    }
}

/// The sixteen digits of a number.
#[inline(always)]
fn hex_lanes(number: u64) -> u8x16
    ensures { result ≡ hex 16 number }
{
    let bytes = u64x2::from_slice(&[number >> 4, number]).to_le_bytes();
    let halves = bytes.swizzle_dyn(u8x16::from_slice(&HALVES)) & u8x16::splat(15);
    u8x16::from_slice(&HEX_DIGITS).swizzle_dyn(halves)
}

/// Puts a number in sixteen hexadecimal digits behind the first `len` bytes.
#[inline(always)]
pub(crate) fn hex16_at(text: &mut [u8], len: usize, number: u64) -> usize
    requires { len + 16 ≤ length text.old }
    ensures { IsPutBehind text.old len (hex 16 number) 16 text.new result }
{
    hex_lanes(number).copy_to_slice(&mut text[len..]);
    len + 16
}

/// A byte in two hexadecimal digits.
#[derive(Clone, Copy)]
pub struct Hex2(pub u8);

impl Piece for Hex2 {
    ghost text = { λ p. hex 2 p.0 };

    ghost before = { λ p more. hex 2 p.0 ++ more };

    ghost most = { 2 };

    ghost joined = { λ p more. refl };

    #[inline(always)]
    fn write_at(&self, buffer: &mut [u8], at: usize) -> usize {
        let from = self.0 as usize * 2;
        text_at(buffer, at, [HEX_PAIRS[from], HEX_PAIRS[from + 1]])
    }
}

/// A number in four hexadecimal digits.
#[derive(Clone, Copy)]
pub struct Hex4(pub u16);

impl Piece for Hex4 {
    ghost text = { λ p. hex 4 p.0 };

    ghost before = { λ p more. hex 4 p.0 ++ more };

    ghost most = { 4 };

    ghost joined = { λ p more. refl };

    fn write_at(&self, buffer: &mut [u8], at: usize) -> usize {
        let mut digits = [0; 4];
        hex_digits(u64::from(self.0), &mut digits);
        text_at(buffer, at, digits)
    }
}

/// A number in eight hexadecimal digits.
#[derive(Clone, Copy)]
pub struct Hex8(pub u32);

impl Piece for Hex8 {
    ghost text = { λ p. hex 8 p.0 };

    ghost before = { λ p more. hex 8 p.0 ++ more };

    ghost most = { 8 };

    ghost joined = { λ p more. refl };

    fn write_at(&self, buffer: &mut [u8], at: usize) -> usize {
        let mut digits = [0; 8];
        hex_digits(u64::from(self.0), &mut digits);
        text_at(buffer, at, digits)
    }
}

/// The last hexadecimal digit of a number, in upper case.
fn upper_digit(number: u32) -> u8
    ensures { result ≡ digit_glyph true (number % 16) }
{
    hex_digit(true, (number % 16) as u8)
}

/// The eight hexadecimal digits of a number, in upper case.
#[tactic(auto, unfolding(crate::specs::UpperHex::upper_hex))]
fn upper_digits(number: u32) -> [u8; 8]
    ensures { result ≡ upper_hex 8 number }
{
    let seven = number / 16;
    let six = seven / 16;
    let five = six / 16;
    let four = five / 16;
    let three = four / 16;
    let two = three / 16;
    let one = two / 16;
    [
        upper_digit(one),
        upper_digit(two),
        upper_digit(three),
        upper_digit(four),
        upper_digit(five),
        upper_digit(six),
        upper_digit(seven),
        upper_digit(number),
    ]
}

/// A number in eight hexadecimal digits, in upper case.
#[derive(Clone, Copy)]
pub struct UpperHex8(pub u32);

impl Piece for UpperHex8 {
    ghost text = { λ p. upper_hex 8 p.0 };

    ghost before = { λ p more. upper_hex 8 p.0 ++ more };

    ghost most = { 8 };

    ghost joined = { λ p more. refl };

    fn write_at(&self, buffer: &mut [u8], at: usize) -> usize {
        text_at(buffer, at, upper_digits(self.0))
    }
}

/// A number in sixteen hexadecimal digits.
#[derive(Clone, Copy)]
pub struct Hex16(pub u64);

impl Piece for Hex16 {
    ghost text = { λ p. hex 16 p.0 };

    ghost before = { λ p more. hex 16 p.0 ++ more };

    ghost most = { 16 };

    ghost joined = { λ p more. refl };

    #[inline(always)]
    fn write_at(&self, buffer: &mut [u8], at: usize) -> usize {
        hex16_at(buffer, at, self.0)
    }
}

impl PlainPiece for Hex4 {
    ghost is_plain = { λ p. true };

    ghost same = { λ p plain. escape-hex 4 p.0 };
}

impl PlainPiece for Hex8 {
    ghost is_plain = { λ p. true };

    ghost same = { λ p plain. escape-hex 8 p.0 };
}

impl PlainPiece for Hex16 {
    ghost is_plain = { λ p. true };

    ghost same = { λ p plain. escape-hex 16 p.0 };
}

/// `0x` and hexadecimal digits.
#[derive(Clone, Copy)]
pub struct Prefixed<H>(pub H);

impl<H: PlainPiece> Piece for Prefixed<H> {
    ghost text = { λ p. codes "0x" ++ H.text p.0 };

    ghost before = { λ p more. (codes "0x" ++ H.text p.0) ++ more };

    ghost most = { 2 + H.most };

    ghost joined = { λ p more. refl };

    #[inline(always)]
    fn write_at(&self, buffer: &mut [u8], at: usize) -> usize {
        let at = b"0x".write_at(buffer, at);
        self.0.write_at(buffer, at)
    }
}

impl<H: PlainPiece> PlainPiece for Prefixed<H> {
    ghost is_plain = { λ p. H.is_plain p.0 };

    ghost same = { λ p plain. both true (H.is_plain p.0) (codes "0x") (H.text p.0) plain (λ e. escape-plain (codes "0x") refl) (H.same p.0) };
}

impl<H: PlainPiece + Copy> Value for Prefixed<H> {
    type Json = InQuotes<Prefixed<H>>;

    ghost json_of = { λ p. record { 0 = p } };

    #[inline(always)]
    fn json(&self) -> InQuotes<Prefixed<H>> {
        InQuotes(*self)
    }
}

/// A number in hexadecimal digits, in lower case and without zeros in front.
#[derive(Clone, Copy)]
pub struct ShortHex(pub u64);

impl Piece for ShortHex {
    ghost text = { λ p. digits 16 false p.0 };

    ghost before = { λ p more. digits 16 false p.0 ++ more };

    ghost most = { 16 };

    ghost joined = { λ p more. refl };

    fn write_at(&self, buffer: &mut [u8], at: usize) -> usize {
        short_hex_at::<16>(buffer, at, false, self.0)
    }
}

impl PlainPiece for ShortHex {
    ghost is_plain = { λ p. true };

    ghost same = { λ p plain. escape-sixteens false p.0 };
}

/// Puts a number in hexadecimal digits, in upper case and without zeros in front, behind the first `len` bytes.
pub(crate) fn upper_hex_at(text: &mut [u8], len: usize, number: u32) -> usize
    requires { len + 8 ≤ length text.old }
    ensures { IsPutBehind text.old len (digits 16 true number) 8 text.new result }
{
    short_hex_at::<8>(text, len, true, u64::from(number))
}

/// Puts a number of at most `N` hexadecimal digits, in upper case or in lower and without zeros in front, behind the
/// first `len` bytes.
pub(crate) fn short_hex_at<const N: usize>(
    text: &mut [u8],
    len: usize,
    upper: bool,
    number: u64,
) -> usize
    requires some { 0 < N }
    requires most { N ≤ 16 }
    requires few { number < 16 ^ N }
    requires room { len + N ≤ length text.old }
    ensures { IsPutBehind text.old len (digits 16 upper number) N text.new result }
{
    let mut places = [0; N];
    let mut first = N - 1;
    let mut left = number;
    while left >= 16 {
        places[first] = hex_digit(upper, (left % 16) as u8);
        left /= 16;
        first -= 1;
    }
    places[first] = hex_digit(upper, left as u8);
    let digits = &places[..];
    slice_at(text, len, &digits[first..])
}
