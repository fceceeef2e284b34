//! The file names of modules.
ghost use Rattle.std.specs.Prelude.{◌≡◌, ◌≤◌, ◌+◌, drop, length};
ghost use Rattle.mdmp_wire.specs.Escape.{escaped};
ghost use Rattle.mdmp_wire.specs.Units.{units_in};
ghost use Rattle.mdmp_summary_lines.specs.FileNames.{file_part, file_text, is_separator};

use mdmp_lister::Name;
use mdmp_print::{LongText, PartEnd, Parts, Printer, print_parts, row};
use mdmp_source::OutFailed;
use mdmp_wire::UnitsRef;

/// How many units are a part, at most: each of them takes six bytes at most.
const PART: usize = 160;

/// Whether a unit is a slash or a backslash.
fn is_separator(unit: u16) -> bool
    ensures { result ≡ is_separator unit }
{
    unit == 0x2f || unit == 0x5c
}

/// Where the part of a path begins that follows its last slash or backslash.
pub(crate) fn file_start(path: UnitsRef<'_>) -> usize
    ensures within { result ≤ length (units_in path.entry) }
    ensures part { drop result (units_in path.entry) ≡ file_part (units_in path.entry) }
{
    let mut start = 0;
    for index in 0..path.len() {
        if is_separator(path.get(index)) {
            start = index + 1;
        }
    }
    start
}

/// Units from one of them on, as they are printed.
#[derive(Clone, Copy)]
struct UnitsFrom<'a> {
    units: UnitsRef<'a>,
    start: usize,
    ghost within: { start ≤ length (units_in units) },
}

impl<'a> Parts for UnitsFrom<'a> {
    ghost text_from = { λ t i. escaped (drop (t.start + i) (units_in t.units)) };

    ghost places = { λ t. length (drop t.start (units_in t.units)) };

    fn places(&self) -> usize {
        self.units.len() - self.start
    }

    fn write_part(&self, place: usize, buffer: &mut [u8], len: usize) -> PartEnd {
        let left = self.units.len() - self.start - place;
        let next = place + left.min(PART);
        PartEnd {
            next,
            len: self
                .units
                .escape_at(buffer, len, self.start + place, self.start + next),
        }
    }
}

/// The name of a module's file, without its folder.
#[derive(Drop)]
pub(crate) struct FileName<'n, 'a>(pub(crate) &'n Name<'a>);

impl<'n, 'a> LongText for FileName<'n, 'a> {
    ghost text = { λ t. file_text t.0.now };

    fn print<O: Printer>(&self, out: &mut O) -> Result<(), OutFailed> {
        match self.0 {
            Name::None => out.print(&b"(no name)"),
            Name::Units(units) => print_parts(
                out,
                &UnitsFrom {
                    units: *units,
                    start: file_start(*units),
                },
            ),
            Name::Long(length) => out.print(&row![b"(name of ", *length, b" bytes)"]),
        }
    }
}
