//! Why a command ends early.
ghost use Rattle.std.specs.Prelude.{◌≡◌};
ghost use Rattle.mdmp_engines.specs.Faults.{exit_status};
ghost use Rattle.mdmp_engines.specs.Telling.{listing_told, opening_told, reading_told, fault_as_told};

use crate::fault_words::FaultWords;
use mdmp_dump::ReadFault;
use mdmp_lister::{FaultKind, ListFault, OpenFault};
use mdmp_source::SourceFault;
use mdmp_writer::LayoutFault;
use thiserror::Error;

/// Why a command ends early. As text it says what the line of [`fault_line`](crate::fault_line) says
/// behind the program's name.
#[derive(Clone, Copy, Debug, PartialEq, Eq, Error)]
#[error("{}", FaultWords(*self))]
pub enum ToolFault {
    /// The file can't be listed.
    Opening(OpenFault),
    /// An entry or a record of the file has a fault.
    List(ListFault),
    /// A part of a record lies outside the file, or a name is too long, so nothing is copied.
    Reading(ReadFault),
    /// What is to be copied can't be written.
    Layout(LayoutFault),
    /// Bytes of the file were not obtained, or do not agree with what was read before.
    Source(SourceFault),
    /// The output failed, or took nothing.
    Out,
    /// With these bytes more than the budget would have been fetched, so they were not.
    Budget {
        /// Their offset from the start of the file.
        offset: u64,
        /// How many they are.
        size: u64,
    },
    /// There was no memory for what the command holds.
    Memory,
    /// The command would hold more bytes than its limit of memory, so it took none.
    MemoryLimit {
        /// How many it would hold.
        held: u128,
    },
    /// With this CodeView record more bytes than the limit would have been read aside, so it was not read.
    AsideLimit {
        /// Its offset from the start of the file.
        offset: u64,
        /// How many bytes of it would have been read.
        size: u64,
    },
    /// A copy may fetch more bytes than its budget, so nothing was written.
    CopyBudget {
        /// How many bytes it may fetch.
        needed: u128,
    },
    /// Streams of this type are not copied.
    NotCopied(u32),
}

/// The exit status of a command that ends with this fault: 1 where the file is at fault, 2 where a type
/// is not copied, 3 where the file's store, the output, memory or the budget is, also where `Opening`, `List`
/// or `Reading` has a fault of the store, the budget's or want of memory inside.
pub fn status(fault: &ToolFault) -> u8
    ensures { result ≡ exit_status fault.now }
{
    match fault_as_told(*fault) {
        ToolFault::Opening(_) | ToolFault::List(_) | ToolFault::Reading(_) | ToolFault::Layout(_) =>
            1,
        ToolFault::NotCopied(_) => 2,
        ToolFault::Source(_) | ToolFault::Budget { .. } | ToolFault::Out | ToolFault::Memory => 3,
        ToolFault::MemoryLimit { .. }
        | ToolFault::AsideLimit { .. }
        | ToolFault::CopyBudget { .. } => 3,
    }
}

/// A fault as what it is: one of the store or of the budget, and want of memory, as such.
pub(crate) fn fault_as_told(fault: ToolFault) -> ToolFault
    ensures { result ≡ fault_as_told fault }
{
    match fault {
        ToolFault::Opening(fault) => told_opening(fault),
        ToolFault::List(fault) => told_list(fault),
        ToolFault::Reading(fault) => told_reading(fault),
        fault => fault,
    }
}

/// A fault of the opening, as a command tells it.
pub(crate) fn told_opening(fault: OpenFault) -> ToolFault
    ensures { result ≡ opening_told fault }
{
    match fault {
        OpenFault::Source(fault) => ToolFault::Source(fault),
        OpenFault::Budget { offset, size } => ToolFault::Budget { offset, size },
        OpenFault::Memory => ToolFault::Memory,
        OpenFault::MemoryLimit { held } => ToolFault::MemoryLimit { held },
        fault => ToolFault::Opening(fault),
    }
}

/// A fault of the listing, as a command tells it.
pub(crate) fn told_list(fault: ListFault) -> ToolFault
    ensures { result ≡ listing_told fault }
{
    match fault.kind {
        FaultKind::Source(fault) => ToolFault::Source(fault),
        FaultKind::Budget => ToolFault::Budget {
            offset: fault.offset,
            size: fault.size,
        },
        _ => ToolFault::List(fault),
    }
}

/// Why a file gives no dump, or no view of one, as a command tells it. That more bytes are asked for
/// than a dump may have, which no view tells, is a fault of the copy.
pub(crate) fn told_reading(fault: ReadFault) -> ToolFault
    ensures { result ≡ reading_told fault }
{
    match fault {
        ReadFault::Opening(fault) => told_opening(fault),
        ReadFault::List(fault) => told_list(fault),
        ReadFault::PartsTooLarge { .. } => ToolFault::Layout(LayoutFault::TooLarge),
        ReadFault::Memory => ToolFault::Memory,
        ReadFault::Source(fault) => ToolFault::Source(fault),
        fault => ToolFault::Reading(fault),
    }
}
