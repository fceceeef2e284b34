//! The lines that `hex` prints.
ghost use Rattle.std.specs.Prelude.{◌≡◌, ◌+◌, ◌*◌, ◌<◌, ◌≤◌, length};
ghost use Rattle.std.specs.List.{flat_map};
ghost use Rattle.mdmp_source.specs.Output.{Puts};
ghost use Rattle.mdmp_map.specs.Ranges.{address_end};
ghost use Rattle.mdmp_lister.specs.Addressing.{cell, cells};
ghost use Rattle.mdmp_print.specs.HexText.{address_text, cell_text, hex_line, line_text, cells_text};
ghost use Rattle.mdmp_print.specs.Buffer.{IsPutBehind};

use crate::hex::{Hex2, Hex16};
use crate::piece::Piece;
use crate::printer::Printer;
use crate::row;
use mdmp_source::OutFailed;

/// How many bytes a line has, at most.
const LINE: usize = 16;

/// Prints the bytes of the addresses from this one on as lines of sixteen, the first of which begins at
/// the address. `known` says beside each byte whether it is known. No bytes print nothing.
pub fn print_hex_lines<O: Printer>(
    out: &mut O,
    address: u64,
    bytes: &[u8],
    known: &[bool],
) -> Result<(), OutFailed>
    requires same { length known.now ≡ length bytes.now }
    requires within { address + length bytes.now ≤ address_end }
    ensures { Puts result (O.state out.old) (cells_text address (cells bytes.now known.now)) (O.state out.new) }
{
    for line in 0..bytes.len().div_ceil(LINE) {
        print_numbered(out, address, bytes, known, line)?;
    }
    Ok(())
}

/// Prints the line of this number.
fn print_numbered<O: Printer>(
    out: &mut O,
    address: u64,
    bytes: &[u8],
    known: &[bool],
    line: usize,
) -> Result<(), OutFailed>
    requires same { length known.now ≡ length bytes.now }
    requires within { address + length bytes.now ≤ address_end }
    requires some { 16 * line < length bytes.now }
    ensures { Puts result (O.state out.old) (line_text address (cells bytes.now known.now) line) (O.state out.new) }
{
    let start = LINE * line;
    let end = bytes.len().min(start + LINE);
    out.print(&HexLine {
        address: address + start as u64,
        bytes: &bytes[start..end],
        known: &known[start..end],
    })
}

/// An address and the bytes from it on, on one line. `known` says beside each byte whether it is known.
#[derive(Clone, Copy)]
struct HexLine<'a> {
    address: u64,
    bytes: &'a [u8],
    known: &'a [bool],
    ghost same: { length known.now ≡ length bytes.now },
    ghost line: { length bytes.now ≤ 16 },
}

impl<'a> Piece for HexLine<'a> {
    ghost use Rattle.std.specs.Prelude.{◌++◌, refl};
    ghost use Rattle.mdmp_lister.specs.Addressing.{cells};
    ghost use Rattle.mdmp_print.specs.HexText.{hex_line};

    ghost text = { λ l. hex_line l.address (cells l.bytes.now l.known.now) };

    ghost before = { λ l more. hex_line l.address (cells l.bytes.now l.known.now) ++ more };

    ghost most = { 68 };

    ghost joined = { λ l more. refl };

    fn write_at(&self, buffer: &mut [u8], at: usize) -> usize {
        let at = address_at(buffer, at, self.address);
        let at = hex_cells_at(buffer, at, self.bytes, self.known);
        b"\n".write_at(buffer, at)
    }
}

/// Puts an address and a colon behind the first `len` bytes.
#[inline(always)]
fn address_at(text: &mut [u8], len: usize, address: u64) -> usize
    requires { len + 19 ≤ length text.old }
    ensures { IsPutBehind text.old len (address_text address) 19 text.new result }
{
    row![b"0x", Hex16(address), b":"].write_at(text, len)
}

/// Puts the texts of bytes one behind the other, behind the first `len` bytes.
#[inline(always)]
fn hex_cells_at(text: &mut [u8], len: usize, bytes: &[u8], known: &[bool]) -> usize
    requires same { length known.now ≡ length bytes.now }
    requires room { len + 3 * length bytes.now ≤ length text.old }
    ensures { IsPutBehind text.old len (flat_map cell_text (cells bytes.now known.now)) (3 * length bytes.now) text.new result }
{
    let mut len = len;
    for (index, byte) in bytes.iter().enumerate() {
        len = hex_cell_at(text, len, *byte, known[index]);
    }
    len
}

/// Puts a space, and two hexadecimal digits, or two question marks where the byte is not known.
#[inline(always)]
fn hex_cell_at(text: &mut [u8], len: usize, byte: u8, is_known: bool) -> usize
    requires { len + 3 ≤ length text.old }
    ensures { IsPutBehind text.old len (cell_text (cell byte is_known)) 3 text.new result }
{
    if !is_known {
        return b" ??".write_at(text, len);
    }
    row![b" ", Hex2(byte)].write_at(text, len)
}
