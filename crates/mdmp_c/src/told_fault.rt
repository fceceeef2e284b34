//! The fault of a command that plain numbers are.
ghost use Rattle.std.specs.Prelude.{◌≡◌, ◌+◌, ◌*◌, ◌^◌};
ghost use Rattle.mdmp_c.specs.FaultText.{fault_in, kind_by_number, opening_in, part_by_number, reading_in, rest_in};

use crate::fault::PlainFault;
use crate::kinds;
use mdmp_dump::{PartName, ReadFault};
use mdmp_engines::ToolFault;
use mdmp_lister::{FaultKind, ListFault, OpenFault};
use mdmp_writer::LayoutFault;

/// A number of two halves.
fn whole(high: u64, low: u64) -> u128
    ensures { result ≡ high * 2 ^ 64 + low }
{
    u128::from(high) * (1 << 64) + u128::from(low)
}

/// A fault of the opening.
fn opening_in(fault: &PlainFault) -> Option<OpenFault>
    ensures { result ≡ opening_in fault.now }
{
    match fault.kind {
        kinds::FILE_TOO_SHORT => Some(OpenFault::TooShort { size: fault.size }),
        kinds::BAD_SIGNATURE => Some(OpenFault::BadSignature),
        kinds::BAD_VERSION => Some(OpenFault::BadVersion {
            low: (fault.size % (1 << 16)) as u16,
        }),
        kinds::DIRECTORY_OUTSIDE => Some(OpenFault::DirectoryOutside {
            offset: fault.offset,
            size: fault.size,
        }),
        kinds::TOO_MANY_RANGES => Some(OpenFault::TooManyRanges {
            count: whole(fault.high, fault.size),
        }),
        _ => None,
    }
}

/// What is wrong with an entry.
fn kind_by_number(kind: u32) -> Option<FaultKind>
    ensures { result ≡ kind_by_number kind }
{
    match kind {
        kinds::STREAM_OUTSIDE => Some(FaultKind::StreamOutside),
        kinds::SHORT_STREAM => Some(FaultKind::ShortStream),
        kinds::BAD_HEADER_SIZE => Some(FaultKind::BadHeaderSize),
        kinds::BAD_ENTRY_SIZE => Some(FaultKind::BadEntrySize),
        kinds::BAD_COUNT => Some(FaultKind::BadCount),
        kinds::NAME_LENGTH_OUTSIDE => Some(FaultKind::NameLengthOutside),
        kinds::NAME_ODD => Some(FaultKind::NameOdd),
        kinds::NAME_OUTSIDE => Some(FaultKind::NameUnitsOutside),
        _ => None,
    }
}

/// The part of this number.
fn part_by_number(part: u32) -> Option<PartName>
    ensures { result ≡ part_by_number part }
{
    match part {
        kinds::PART_STACK => Some(PartName::Stack),
        kinds::PART_CONTEXT => Some(PartName::Context),
        kinds::PART_CODEVIEW => Some(PartName::CodeView),
        kinds::PART_MISC => Some(PartName::Misc),
        kinds::PART_MEMORY => Some(PartName::Memory),
        _ => None,
    }
}

/// A fault of a part or a name.
fn reading_in(fault: &PlainFault) -> Option<ReadFault>
    ensures { result ≡ reading_in fault.now }
{
    match fault.kind {
        kinds::PART_OUTSIDE => match part_by_number(fault.part) {
            Some(part) => Some(ReadFault::PartOutside {
                entry: fault.entry,
                index: fault.index,
                part,
                offset: whole(fault.high, fault.offset),
                size: fault.size,
            }),
            None => None,
        },
        kinds::NAME_TOO_LONG => Some(ReadFault::NameTooLong {
            entry: fault.entry,
            index: fault.index,
            length: (fault.size % (1 << 32)) as u32,
        }),
        _ => None,
    }
}

/// A fault of the copy, that memory ran out, or that a limit was reached.
fn rest_in(fault: &PlainFault) -> Option<ToolFault>
    ensures { result ≡ rest_in fault.now }
{
    match fault.kind {
        kinds::RAW_KNOWN_TYPE => Some(ToolFault::Layout(LayoutFault::RawKnownType {
            stream: fault.size,
        })),
        kinds::COPY_TOO_LARGE => Some(ToolFault::Layout(LayoutFault::TooLarge)),
        kinds::NOT_COPIED => Some(ToolFault::NotCopied((fault.size % (1 << 32)) as u32)),
        kinds::NO_MEMORY => Some(ToolFault::Memory),
        kinds::BUDGET => Some(ToolFault::Budget {
            offset: fault.offset,
            size: fault.size,
        }),
        kinds::MEMORY_LIMIT => Some(ToolFault::MemoryLimit {
            held: whole(fault.high, fault.size),
        }),
        kinds::ASIDE_LIMIT => Some(ToolFault::AsideLimit {
            offset: fault.offset,
            size: fault.size,
        }),
        kinds::COPY_BUDGET => Some(ToolFault::CopyBudget {
            needed: whole(fault.high, fault.size),
        }),
        _ => None,
    }
}

/// The fault of a command that these numbers are, if they are one.
pub(crate) fn fault_in(fault: &PlainFault) -> Option<ToolFault>
    ensures { result ≡ fault_in fault.now }
{
    if let Some(opening) = opening_in(fault) {
        return Some(ToolFault::Opening(opening));
    }
    if let Some(kind) = kind_by_number(fault.kind) {
        let index = if fault.has_index == 1 {
            Some(fault.index)
        } else {
            None
        };
        return Some(ToolFault::List(ListFault {
            entry: fault.entry,
            index,
            kind,
            offset: fault.offset,
            size: fault.size,
        }));
    }
    match reading_in(fault) {
        Some(reading) => Some(ToolFault::Reading(reading)),
        None => rest_in(fault),
    }
}
