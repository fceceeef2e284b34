//! What is said of a fault, as a piece of a line and as a text that is shown.
ghost use Rattle.std.specs.Prelude.{◌≡◌, ◌++◌, refl};
ghost use Rattle.mdmp_engines.specs.Faults.{layout_text, own_text, reading_text};

use crate::fault::{ToolFault, fault_as_told};
use mdmp_dump::ReadFault;
use mdmp_print::{
    BudgetWords, LINE_ROOM, ListWords, OpenWords, OutsideWords, Piece, SourceWords, row,
};
use mdmp_summary::PartOutside;
use mdmp_writer::LayoutFault;
use std::fmt::{self, Display, Formatter, Write};

/// What is said of a fault that is told as what it is.
#[derive(Clone, Copy)]
pub(crate) struct ToolWords(pub(crate) ToolFault);

impl Piece for ToolWords {
    ghost text = { λ p. own_text p.0 };

    ghost before = { λ p more. own_text p.0 ++ more };

    ghost most = { 200 };

    ghost joined = { λ p more. refl };

    fn write_at(&self, buffer: &mut [u8], at: usize) -> usize {
        match self.0 {
            ToolFault::Opening(fault) => OpenWords(fault).write_at(buffer, at),
            ToolFault::List(fault) => ListWords(fault).write_at(buffer, at),
            ToolFault::Reading(fault) => ReadWords(fault).write_at(buffer, at),
            ToolFault::Layout(fault) => LayoutWords(fault).write_at(buffer, at),
            ToolFault::Source(fault) => SourceWords(fault).write_at(buffer, at),
            ToolFault::Budget { offset, size } => BudgetWords { offset, size }.write_at(buffer, at),
            ToolFault::Out => b"output failed".write_at(buffer, at),
            ToolFault::Memory => b"out of memory".write_at(buffer, at),
            ToolFault::MemoryLimit { held } => row![b"memory limit reached: ", held].write_at(
                buffer, at,
            ),
            ToolFault::AsideLimit { offset, size } => {
                row![b"aside limit reached: offset ", offset, b" size ", size].write_at(buffer, at)
            }
            ToolFault::CopyBudget { needed } => row![b"copy needs ", needed, b" bytes"].write_at(
                buffer, at,
            ),
            ToolFault::NotCopied(stream_type) => {
                row![b"type ", stream_type, b" is not copied"].write_at(buffer, at)
            }
        }
    }
}

/// What is said of a fault of reading.
#[derive(Clone, Copy)]
struct ReadWords(ReadFault);

impl Piece for ReadWords {
    ghost text = { λ p. reading_text p.0 };

    ghost before = { λ p more. reading_text p.0 ++ more };

    ghost most = { 180 };

    ghost joined = { λ p more. refl };

    fn write_at(&self, buffer: &mut [u8], at: usize) -> usize {
        match self.0 {
            ReadFault::Opening(fault) => OpenWords(fault).write_at(buffer, at),
            ReadFault::List(fault) => ListWords(fault).write_at(buffer, at),
            ReadFault::PartOutside {
                entry,
                index,
                part,
                offset,
                size,
            } => OutsideWords(PartOutside {
                entry,
                index,
                part,
                offset,
                size,
            })
            .write_at(buffer, at),
            ReadFault::NameTooLong {
                entry,
                index,
                length,
            } => row![
                b"entry ",
                entry,
                b" item ",
                index,
                b": name too long: ",
                length
            ]
            .write_at(buffer, at),
            ReadFault::PartsTooLarge { .. } => LayoutWords(LayoutFault::TooLarge).write_at(
                buffer, at,
            ),
            ReadFault::Memory => b"out of memory".write_at(buffer, at),
            ReadFault::Source(fault) => SourceWords(fault).write_at(buffer, at),
        }
    }
}

/// Why a dump can't be written.
#[derive(Clone, Copy)]
struct LayoutWords(LayoutFault);

impl Piece for LayoutWords {
    ghost text = { λ p. layout_text p.0 };

    ghost before = { λ p more. layout_text p.0 ++ more };

    ghost most = { 70 };

    ghost joined = { λ p more. refl };

    fn write_at(&self, buffer: &mut [u8], at: usize) -> usize {
        match self.0 {
            LayoutFault::RawKnownType { stream } => {
                row![b"stream ", stream, b" holds raw bytes of a known type"].write_at(buffer, at)
            }
            LayoutFault::TooLarge => b"the copy is too large".write_at(buffer, at),
        }
    }
}

/// A fault, shown by the bytes of its line without the program's name and the line feed.
#[derive(Drop)]
pub(crate) struct FaultWords(pub(crate) ToolFault);

impl Display for FaultWords {
    fn fmt<W: Write>(&self, f: &mut Formatter<W>) -> fmt::Result {
        let mut buffer = [0; LINE_ROOM];
        let end = ToolWords(fault_as_told(self.0)).write_at(&mut buffer, 0);
        match str::from_utf8(&buffer[..end]) {
            Ok(words) => f.write_str(words),
            Err(_) => Err(fmt::Error),
        }
    }
}
