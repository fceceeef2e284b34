//! Units of a name as they stand in a string of JSON.
ghost use Rattle.std.specs.Prelude.{◌≡◌, ◌<◌, ◌≤◌, ◌+◌, ◌∷◌, IsTrue, drop, length, true};
ghost use Rattle.std.specs.Char.Utf16.{has_unpaired_surrogate, utf16_chars};
ghost use Rattle.json.specs.Print.{escape};
ghost use Rattle.mdmp_wire.specs.Units.{units_in, utf8_of};
ghost use Rattle.mdmp_print.specs.PlainUnits.{is_plain_unit};
ghost use Rattle.mdmp_print.specs.Parts.{IsPartPut};

use crate::json_strings::{CHARACTER, escape_char_at};
use crate::parts::{PartEnd, Parts};
use crate::printer::Printer;
use crate::text::{LongText, print_parts};
use mdmp_source::OutFailed;
use mdmp_wire::UnitsRef;

/// The character whose units begin at an index, unless a surrogate stands there without its other half, and
/// where the next one begins.
fn character_at(units: &UnitsRef<'_>, at: usize) -> (Option<char>, usize)
    requires { at < length (units_in units.now) }
    ensures bound { at < result.1 × result.1 ≤ length (units_in units.now) }
    ensures first { utf16_chars (drop at (units_in units.now)) ≡ result.0 ∷ utf16_chars (drop result.1 (units_in units.now)) }
{
    let len = units.len();
    let high = units.get(at) as u32;
    if high < 0xd800 || 0xe000 <= high {
        return (char::from_u32(high), at + 1);
    }
    if 0xdc00 <= high || len - at < 2 {
        return (None, at + 1);
    }
    let low = units.get(at + 1) as u32;
    if low < 0xdc00 || 0xe000 <= low {
        return (None, at + 1);
    }
    let code = 0x1_0000 + (high - 0xd800) * 0x400 + (low - 0xdc00);
    (char::from_u32(code), at + 2)
}

/// Whether a surrogate among the units has no other half.
pub(crate) fn is_lossy(units: &UnitsRef<'_>) -> bool
    ensures { result ≡ has_unpaired_surrogate (units_in units.now) }
{
    let mut at = 0;
    while at < units.len() {
        let (found, next) = character_at(units, at);
        if found.is_none() {
            return true;
        }
        at = next;
    }
    false
}

/// Whether a unit is a character that stands in a string as its one byte.
#[inline(always)]
fn is_plain(unit: u16) -> bool
    ensures { IsTrue result → is_plain_unit unit ≡ true }
{
    0x20 <= unit && unit < 0x80 && unit != 0x22 && unit != 0x5c
}

/// Puts the character whose units begin at a place as it stands in a string.
#[inline(always)]
fn write_character(units: &UnitsRef<'_>, place: usize, buffer: &mut [u8], len: usize) -> PartEnd
    requires place { place < length (units_in units.now) }
    requires room { len + CHARACTER ≤ length buffer.old }
    ensures next { place < result.next × result.next ≤ length (units_in units.now) }
    ensures put { IsPartPut buffer.old len (escape (utf8_of (drop place (units_in units.now)))) (escape (utf8_of (drop result.next (units_in units.now)))) CHARACTER buffer.new result.len }
{
    // The proof learns here that places fit.
    let _count = units.len();
    let unit = units.get(place);
    if is_plain(unit) {
        buffer[len] = unit as u8;
        return PartEnd {
            next: place + 1,
            len: len + 1,
        };
    }
    let (found, next) = character_at(units, place);
    PartEnd {
        next,
        len: escape_char_at(buffer, len, found.unwrap_or('\u{fffd}')),
    }
}

/// Units as they stand in a string, with U+FFFD for each surrogate without its other half.
#[derive(Clone, Copy)]
pub struct Quoted<'a> {
    /// The units.
    pub units: UnitsRef<'a>,
}

impl<'a> Parts for Quoted<'a> {
    ghost text_from = { λ t i. escape (utf8_of (drop i (units_in t.units))) };

    ghost places = { λ t. length (units_in t.units) };

    fn places(&self) -> usize {
        self.units.len()
    }

    fn write_part(&self, place: usize, buffer: &mut [u8], len: usize) -> PartEnd {
        let full = len + 1000;
        let mut end = PartEnd { next: place, len };
        while end.next < self.units.len() && end.len <= full {
            end = write_character(&self.units, end.next, buffer, end.len);
        }
        end
    }
}

impl<'a> LongText for Quoted<'a> {
    ghost text = { λ t. escape (utf8_of (units_in t.units)) };

    fn print<O: Printer>(&self, out: &mut O) -> Result<(), OutFailed> {
        print_parts(out, self)
    }
}
