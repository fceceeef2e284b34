//! Faults as plain numbers, for callers in other languages.
ghost use Rattle.std.specs.Prelude.{◌≡◌};
ghost use Rattle.mdmp_c.specs.Fault.{budget_fault, kind_number, plain_list_fault, of_kind, open_fault, status_of, wide_fault};

use crate::kinds;
use mdmp_lister::{FaultKind, ListFault, OpenFault};
use std::mem::size_of;

/// What is wrong, and at which bytes of the file. A number that the kind does not use is 0.
#[repr(C)]
#[derive(Clone, Copy, Debug, PartialEq, Eq)]
pub struct PlainFault {
    /// What is wrong: 0 for nothing, else one of the kinds of the header.
    pub kind: u32,
    /// The number of the entry in the directory, from 0.
    pub entry: u32,
    /// The index of the item in its stream, from 0, if `has_index` is 1.
    pub index: u64,
    /// An offset from the start of the file, in bytes: its low 64 bits.
    pub offset: u64,
    /// A number of bytes, or the number that the kind names: its low 64 bits.
    pub size: u64,
    /// The high 64 bits of the one number that may be so great.
    pub high: u64,
    /// Which part of the item, from 1: stack, context, CodeView, miscellaneous, memory.
    pub part: u32,
    /// 1 if the error is in one item, 0 if it is in a whole entry.
    pub has_index: u32,
    /// Zeros.
    pub reserved: [u32; 4],
}

const _: () = prove!(size_of::<PlainFault>() == 64);

/// Nothing is wrong.
pub const NO_FAULT: PlainFault = PlainFault {
    kind: 0,
    entry: 0,
    index: 0,
    offset: 0,
    size: 0,
    high: 0,
    part: 0,
    has_index: 0,
    reserved: [0; 4],
};

/// A fault that is told by its kind alone.
pub(crate) fn of_kind(kind: u32) -> PlainFault
    ensures { result ≡ of_kind kind }
{
    PlainFault { kind, ..NO_FAULT }
}

/// A fetch of these bytes was not made, with which more than the budget would have been fetched.
pub(crate) fn budget_fault(offset: u64, size: u64) -> PlainFault
    ensures { result ≡ budget_fault offset size }
{
    PlainFault {
        offset,
        size,
        ..of_kind(kinds::BUDGET)
    }
}

/// A fault of this kind that tells a number of 128 bits.
pub(crate) fn wide_fault(kind: u32, number: u128) -> PlainFault
    ensures { result ≡ wide_fault kind number }
{
    PlainFault {
        size: (number % (1 << 64)) as u64,
        high: (number / (1 << 64)) as u64,
        ..of_kind(kind)
    }
}

/// A fault of the opening.
pub(crate) fn open_fault(fault: OpenFault) -> PlainFault
    ensures { result ≡ open_fault fault }
{
    match fault {
        OpenFault::TooShort { size } => PlainFault {
            size,
            ..of_kind(kinds::FILE_TOO_SHORT)
        },
        OpenFault::BadSignature => of_kind(kinds::BAD_SIGNATURE),
        OpenFault::BadVersion { low } => PlainFault {
            size: u64::from(low),
            ..of_kind(kinds::BAD_VERSION)
        },
        OpenFault::DirectoryOutside { offset, size } => PlainFault {
            offset,
            size,
            ..of_kind(kinds::DIRECTORY_OUTSIDE)
        },
        OpenFault::TooManyRanges { count } => wide_fault(kinds::TOO_MANY_RANGES, count),
        OpenFault::Memory => of_kind(kinds::NO_MEMORY),
        OpenFault::Source(_) => of_kind(kinds::STORE),
        OpenFault::Budget { offset, size } => budget_fault(offset, size),
        OpenFault::MemoryLimit { held } => wide_fault(kinds::MEMORY_LIMIT, held),
    }
}

/// The number of what is wrong with an entry.
fn kind_of(kind: FaultKind) -> u32
    ensures { result ≡ kind_number kind }
{
    match kind {
        FaultKind::StreamOutside => kinds::STREAM_OUTSIDE,
        FaultKind::ShortStream => kinds::SHORT_STREAM,
        FaultKind::BadHeaderSize => kinds::BAD_HEADER_SIZE,
        FaultKind::BadEntrySize => kinds::BAD_ENTRY_SIZE,
        FaultKind::BadCount => kinds::BAD_COUNT,
        FaultKind::NameLengthOutside => kinds::NAME_LENGTH_OUTSIDE,
        FaultKind::NameOdd => kinds::NAME_ODD,
        FaultKind::NameUnitsOutside => kinds::NAME_OUTSIDE,
        FaultKind::Source(_) => kinds::STORE,
        FaultKind::Budget => kinds::BUDGET,
    }
}

/// A fault of the listing. Where it is of the budget, no entry is told.
pub(crate) fn plain_list_fault(fault: ListFault) -> PlainFault
    ensures { result ≡ plain_list_fault fault }
{
    if let FaultKind::Budget = fault.kind {
        return budget_fault(fault.offset, fault.size);
    }
    PlainFault {
        kind: kind_of(fault.kind),
        entry: fault.entry,
        index: fault.index.unwrap_or(0),
        offset: fault.offset,
        size: fault.size,
        high: 0,
        part: 0,
        has_index: if fault.index.is_some() { 1 } else { 0 },
        reserved: [0; 4],
    }
}

/// The status of a call that reports this fault: 0 for none, 1 if the file is at fault, 2 if an argument
/// is, 3 if memory ran out, 5 if a limit was reached.
pub(crate) fn status_of(fault: &PlainFault) -> u32
    ensures { result ≡ status_of fault.now }
{
    match fault.kind {
        0 => 0,
        kinds::NOT_COPIED | kinds::BAD_LIMITS | kinds::BAD_TYPES | kinds::LENGTHS_DIFFER => 2,
        kinds::NO_MEMORY | kinds::STORE => 3,
        kinds::BUDGET | kinds::MEMORY_LIMIT | kinds::ASIDE_LIMIT | kinds::COPY_BUDGET => 5,
        _ => 1,
    }
}
