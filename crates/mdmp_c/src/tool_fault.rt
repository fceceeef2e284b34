//! The faults of commands as plain numbers.
ghost use Rattle.std.specs.Prelude.{◌≡◌};
ghost use Rattle.mdmp_c.specs.ToolFault.{check_answer, copy_answer, list_answer, part_number, read_fault, tool_fault};

use crate::fault::{
    NO_FAULT, PlainFault, budget_fault, of_kind, open_fault, plain_list_fault, wide_fault,
};
use crate::kinds;
use mdmp_dump::{PartName, ReadFault};
use mdmp_engines::ToolFault;
use mdmp_writer::LayoutFault;

/// The number of a part.
pub(crate) fn part_number(part: PartName) -> u32
    ensures { result ≡ part_number part }
{
    match part {
        PartName::Stack => kinds::PART_STACK,
        PartName::Context => kinds::PART_CONTEXT,
        PartName::CodeView => kinds::PART_CODEVIEW,
        PartName::Misc => kinds::PART_MISC,
        PartName::Memory => kinds::PART_MEMORY,
    }
}

/// A fault of reading a file into a dump.
pub(crate) fn read_fault(fault: ReadFault) -> PlainFault
    ensures { result ≡ read_fault fault }
{
    match fault {
        ReadFault::Opening(fault) => open_fault(fault),
        ReadFault::List(fault) => plain_list_fault(fault),
        ReadFault::PartOutside {
            entry,
            index,
            part,
            offset,
            size,
        } => PlainFault {
            kind: kinds::PART_OUTSIDE,
            entry,
            index,
            offset: (offset % (1 << 64)) as u64,
            size,
            high: (offset / (1 << 64)) as u64,
            part: part_number(part),
            has_index: 1,
            reserved: [0; 4],
        },
        ReadFault::NameTooLong {
            entry,
            index,
            length,
        } => PlainFault {
            kind: kinds::NAME_TOO_LONG,
            entry,
            index,
            offset: 0,
            size: u64::from(length),
            high: 0,
            part: 0,
            has_index: 1,
            reserved: [0; 4],
        },
        ReadFault::PartsTooLarge { .. } => of_kind(kinds::COPY_TOO_LARGE),
        ReadFault::Memory => of_kind(kinds::NO_MEMORY),
        ReadFault::Source(_) => of_kind(kinds::STORE),
    }
}

/// A fault that ends a command. An output of these calls is memory of their own, so one that refuses is
/// want of memory.
pub(crate) fn tool_fault(fault: ToolFault) -> PlainFault
    ensures { result ≡ tool_fault fault }
{
    match fault {
        ToolFault::Opening(fault) => open_fault(fault),
        ToolFault::List(fault) => plain_list_fault(fault),
        ToolFault::Reading(fault) => read_fault(fault),
        ToolFault::Layout(LayoutFault::RawKnownType { stream }) => PlainFault {
            size: stream,
            ..of_kind(kinds::RAW_KNOWN_TYPE)
        },
        ToolFault::Layout(LayoutFault::TooLarge) => of_kind(kinds::COPY_TOO_LARGE),
        ToolFault::NotCopied(stream_type) => PlainFault {
            size: u64::from(stream_type),
            ..of_kind(kinds::NOT_COPIED)
        },
        ToolFault::Out | ToolFault::Memory => of_kind(kinds::NO_MEMORY),
        ToolFault::Source(_) => of_kind(kinds::STORE),
        ToolFault::Budget { offset, size } => budget_fault(offset, size),
        ToolFault::MemoryLimit { held } => wide_fault(kinds::MEMORY_LIMIT, held),
        ToolFault::AsideLimit { offset, size } => PlainFault {
            offset,
            size,
            ..of_kind(kinds::ASIDE_LIMIT)
        },
        ToolFault::CopyBudget { needed } => wide_fault(kinds::COPY_BUDGET, needed),
    }
}

/// What is told where a check ends so: how many entries have a fault, or its fault.
pub(crate) fn check_answer(answer: Result<u64, ToolFault>) -> PlainFault
    ensures { result ≡ check_answer answer }
{
    match answer {
        Ok(0) => NO_FAULT,
        Ok(bad) => PlainFault {
            size: bad,
            ..of_kind(kinds::BAD_ENTRIES)
        },
        Err(fault) => tool_fault(fault),
    }
}

/// What is told where a list ends so.
pub(crate) fn list_answer(answer: Result<(), ToolFault>) -> PlainFault
    ensures { result ≡ list_answer answer }
{
    match answer {
        Ok(()) => NO_FAULT,
        Err(fault) => tool_fault(fault),
    }
}

/// What is told where a copy ends so.
pub(crate) fn copy_answer(answer: Result<u64, ToolFault>) -> PlainFault
    ensures { result ≡ copy_answer answer }
{
    match answer {
        Ok(_) => NO_FAULT,
        Err(fault) => tool_fault(fault),
    }
}
