//! Units as they are printed between double quotes.
ghost use Rattle.std.specs.Prelude.{◌≡◌, ◌<◌, ◌≤◌, ◌+◌, ◌-◌, ◌*◌, ◌++◌, length, take, drop, codes};
ghost use Rattle.mdmp_source.specs.Output.{Puts};
ghost use Rattle.mdmp_wire.specs.Digits.{hex};
ghost use Rattle.mdmp_wire.specs.Escape.{PutsUnits, escaped, escaped_unit, is_plain};
ghost use Rattle.mdmp_wire.specs.Units.{units_in, units_of};

use crate::digits::hex_digits;
use crate::plain_run::{LANES, put_run, units_at};
use crate::units_ref::{UnitsRef, unit_at};
use mdmp_source::{Out, OutFailed, write_all};

/// How many units are one write, at most.
pub(crate) const CHUNK: usize = 64;

/// How long the text of a unit is, at most.
const ESCAPE: usize = 6;

/// The first and the last of the characters that are printed as they are, the space and the tilde.
pub(crate) const FIRST_PLAIN: u16 = 0x20;

pub(crate) const LAST_PLAIN: u16 = 0x7e;

/// The one character of those between that is not printed as it is.
pub(crate) const BACKSLASH: u16 = 0x5c;

/// Whether a unit is printed as it is.
pub(crate) fn is_plain(unit: u16) -> bool
    ensures { result ≡ is_plain unit }
{
    FIRST_PLAIN <= unit && unit <= LAST_PLAIN && unit != BACKSLASH
}

/// Writes the units from an index on, [`CHUNK`] of them at most, as they are printed. They are put
/// together first, so that they are one write.
pub(crate) fn put_chunk<O: Out>(
    out: &mut O,
    units: UnitsRef<'_>,
    start: usize,
) -> Result<(), OutFailed>
    requires { start < length (units_in units) }
    ensures { Puts result (O.state out.old) (escaped (take 64 (drop start (units_in units.entry)))) (O.state out.new) }
{
    let end = start + (units.len() - start).min(CHUNK);
    let mut text = [0; ESCAPE * CHUNK];
    let len = units.escape_at(&mut text, 0, start, end);
    write_all(out, &text[..len])
}

/// Puts the units from one index up to another as they are printed behind the text of this length,
/// and answers how long both are.
pub(crate) fn escape_units(
    text: &mut [u8],
    len: usize,
    bytes: &[u8],
    start: usize,
    end: usize,
) -> usize
    requires within { start ≤ end × end ≤ length (units_of bytes.now) }
    requires room { len + 6 * (end - start) ≤ length text.old }
    ensures { PutsUnits (units_of bytes.now) start end len text.old result text.new }
{
    let mut len = len;
    let mut index = start;
    while end - index >= LANES {
        let run = put_run(text, len, units_at(bytes, index));
        len += run;
        index += run;
        if run < LANES {
            len = escape_other(text, len, unit_at(bytes, index));
            index += 1;
        }
    }
    escape_last(text, len, bytes, index, end)
}

/// Puts them one by one.
fn escape_last(text: &mut [u8], len: usize, bytes: &[u8], start: usize, end: usize) -> usize
    requires within { start ≤ end × end ≤ length (units_of bytes.now) }
    requires room { len + 6 * (end - start) ≤ length text.old }
    ensures { PutsUnits (units_of bytes.now) start end len text.old result text.new }
{
    let mut len = len;
    for index in start..end {
        len = escape_unit(text, len, unit_at(bytes, index));
    }
    len
}

/// Puts a unit as it is printed behind the text of this length, and answers how long both are.
#[inline(always)]
fn escape_unit(text: &mut [u8], len: usize, unit: u16) -> usize
    requires { len + 6 ≤ length text.old }
    ensures text { take result text.new ≡ take len text.old ++ escaped_unit unit }
    ensures within { result ≤ len + 6 }
    ensures same { length text.new ≡ length text.old }
{
    if is_plain(unit) {
        text[len] = unit as u8;
        len + 1
    } else {
        escape_other(text, len, unit)
    }
}

/// Puts a unit that is not printed as it is.
#[inline(always)]
fn escape_other(text: &mut [u8], len: usize, unit: u16) -> usize
    requires { len + 6 ≤ length text.old }
    ensures text { take result text.new ≡ take len text.old ++ (codes "\\u" ++ hex 4 unit) }
    ensures within { result ≡ len + 6 }
    ensures same { length text.new ≡ length text.old }
{
    if unit == BACKSLASH {
        text[len..len + ESCAPE].copy_from_slice(b"\\u005c");
        return len + ESCAPE;
    }
    fill_escape(&mut text[len..len + ESCAPE], unit);
    len + ESCAPE
}

/// Fills the places with the text of a unit that is not printed as it is.
// It stays out of the loops: paths are full of backslashes, and seldom have another such unit.
#[inline(never)]
fn fill_escape(escape: &mut [u8], unit: u16)
    requires { length escape.old ≡ 6 }
    ensures { escape.new ≡ codes "\\u" ++ hex 4 unit }
{
    escape[..2].copy_from_slice(b"\\u");
    hex_digits(u64::from(unit), &mut escape[2..]);
}
