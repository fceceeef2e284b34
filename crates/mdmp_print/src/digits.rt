//! Numbers in decimal digits, put behind others.
//!
//! Two digits at a time are copied from a table. They are handed over as an array: see [`text_at`].
ghost use Rattle.std.specs.Prelude.{◌<◌, ◌+◌, ◌≤◌, length};
ghost use Rattle.std.specs.Fmt.{decimal};
ghost use Rattle.mdmp_print.specs.Digits.{last_digits};
ghost use Rattle.mdmp_print.specs.Buffer.{IsPutBehind};

use crate::in_buffer::{slice_at, text_at};
use itoa::Buffer;

/// The two decimal digits of each number below 100.
static DECIMAL_PAIRS: [u8; 200] =
    *b"00010203040506070809101112131415161718192021222324252627282930313233343536373839404142434445464748495051525354555657585960616263646566676869707172737475767778798081828384858687888990919293949596979899";

/// Puts the two decimal digits of a number below 100 behind the first `len` bytes.
#[inline(always)]
fn last_two_at(text: &mut [u8], len: usize, number: u32) -> usize
    requires small { number < 100 }
    requires room { len + 2 ≤ length text.old }
    ensures { IsPutBehind text.old len (last_digits 2 number) 2 text.new result }
{
    let from = number as usize * 2;
    text_at(text, len, [DECIMAL_PAIRS[from], DECIMAL_PAIRS[from + 1]])
}

/// Puts the four decimal digits of a number below 10,000, zeros in front among them.
#[inline(always)]
fn last_four_at(text: &mut [u8], len: usize, number: u32) -> usize
    requires small { number < 10000 }
    requires room { len + 4 ≤ length text.old }
    ensures { IsPutBehind text.old len (last_digits 4 number) 4 text.new result }
{
    let len = last_two_at(text, len, number / 100);
    last_two_at(text, len, number % 100)
}

/// Puts the eight decimal digits of a number below 100,000,000, zeros in front among them.
#[inline(always)]
fn last_eight_at(text: &mut [u8], len: usize, number: u32) -> usize
    requires small { number < 100000000 }
    requires room { len + 8 ≤ length text.old }
    ensures { IsPutBehind text.old len (last_digits 8 number) 8 text.new result }
{
    let len = last_four_at(text, len, number / 10_000);
    last_four_at(text, len, number % 10_000)
}

/// Puts a number of at most two digits behind the first `len` bytes.
#[inline(always)]
fn two_at(text: &mut [u8], len: usize, number: u32) -> usize
    requires small { number < 100 }
    requires room { len + 2 ≤ length text.old }
    ensures { IsPutBehind text.old len (decimal number) 2 text.new result }
{
    if number < 10 {
        text[len] = b'0' + number as u8;
        len + 1
    } else {
        last_two_at(text, len, number)
    }
}

/// Puts a number of at most four digits behind the first `len` bytes.
#[inline(always)]
fn four_at(text: &mut [u8], len: usize, number: u32) -> usize
    requires small { number < 10000 }
    requires room { len + 4 ≤ length text.old }
    ensures { IsPutBehind text.old len (decimal number) 4 text.new result }
{
    if number < 100 {
        return two_at(text, len, number);
    }
    let len = two_at(text, len, number / 100);
    last_two_at(text, len, number % 100)
}

/// Puts a number of at most six digits behind the first `len` bytes.
#[inline(always)]
fn six_at(text: &mut [u8], len: usize, number: u32) -> usize
    requires small { number < 1000000 }
    requires room { len + 6 ≤ length text.old }
    ensures { IsPutBehind text.old len (decimal number) 6 text.new result }
{
    if number < 10_000 {
        return four_at(text, len, number);
    }
    let len = two_at(text, len, number / 10_000);
    last_four_at(text, len, number % 10_000)
}

/// Puts a number of at most eight digits behind the first `len` bytes.
#[inline(always)]
fn eight_at(text: &mut [u8], len: usize, number: u32) -> usize
    requires small { number < 100000000 }
    requires room { len + 8 ≤ length text.old }
    ensures { IsPutBehind text.old len (decimal number) 8 text.new result }
{
    if number < 10_000 {
        return four_at(text, len, number);
    }
    let len = four_at(text, len, number / 10_000);
    last_four_at(text, len, number % 10_000)
}

/// Puts a number of at most twelve digits behind the first `len` bytes.
#[inline(always)]
fn twelve_at(text: &mut [u8], len: usize, number: u64) -> usize
    requires small { number < 1000000000000 }
    requires room { len + 12 ≤ length text.old }
    ensures { IsPutBehind text.old len (decimal number) 12 text.new result }
{
    if number < 100_000_000 {
        return eight_at(text, len, number as u32);
    }
    let len = four_at(text, len, (number / 100_000_000) as u32);
    last_eight_at(text, len, (number % 100_000_000) as u32)
}

/// Puts a number in decimal digits behind the first `len` bytes: what [`decimal_at`] calls where the
/// number has more than one.
// Sizes, states and numbers of records have mostly four to six digits, so that these are tested first.
#[inline(never)]
fn long_decimal_at(text: &mut [u8], len: usize, number: u64) -> usize
    requires { len + 20 ≤ length text.old }
    ensures { IsPutBehind text.old len (decimal number) 20 text.new result }
{
    if number < 10_000 {
        return four_at(text, len, number as u32);
    }
    if number < 1_000_000 {
        return six_at(text, len, number as u32);
    }
    if number < 100_000_000 {
        return eight_at(text, len, number as u32);
    }
    let len = twelve_at(text, len, number / 100_000_000);
    last_eight_at(text, len, (number % 100_000_000) as u32)
}

/// Puts a number in decimal digits behind the first `len` bytes.
// Many numbers of these lines have one digit, so that one is put without a call.
#[inline(always)]
pub(crate) fn decimal_at(text: &mut [u8], len: usize, number: u64) -> usize
    requires { len + 20 ≤ length text.old }
    ensures { IsPutBehind text.old len (decimal number) 20 text.new result }
{
    if number < 10 {
        return two_at(text, len, number as u32);
    }
    long_decimal_at(text, len, number)
}

/// Puts a number of 32 bits in decimal digits behind the first `len` bytes: what [`decimal32_at`] calls
/// where the number has more than one.
#[inline(never)]
fn long_decimal32_at(text: &mut [u8], len: usize, number: u32) -> usize
    requires { len + 10 ≤ length text.old }
    ensures { IsPutBehind text.old len (decimal number) 10 text.new result }
{
    if number < 10_000 {
        return four_at(text, len, number);
    }
    if number < 1_000_000 {
        return six_at(text, len, number);
    }
    if number < 100_000_000 {
        return eight_at(text, len, number);
    }
    let len = two_at(text, len, number / 100_000_000);
    last_eight_at(text, len, number % 100_000_000)
}

/// Puts a number of 32 bits in decimal digits behind the first `len` bytes.
#[inline(always)]
pub(crate) fn decimal32_at(text: &mut [u8], len: usize, number: u32) -> usize
    requires { len + 10 ≤ length text.old }
    ensures { IsPutBehind text.old len (decimal number) 10 text.new result }
{
    if number < 10 {
        return two_at(text, len, number);
    }
    long_decimal32_at(text, len, number)
}

/// Puts a wide number in decimal digits behind the first `len` bytes.
#[inline(never)]
pub(crate) fn wide_decimal_at(text: &mut [u8], len: usize, number: u128) -> usize
    requires { len + 39 ≤ length text.old }
    ensures { IsPutBehind text.old len (decimal number) 39 text.new result }
{
    let mut buffer = Buffer::new();
    slice_at(text, len, buffer.format(number).as_bytes())
}
