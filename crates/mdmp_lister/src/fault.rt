//! What is wrong with a file, and where.
ghost use Rattle.std.specs.Prelude.{◌≡◌, None};

use mdmp_source::SourceFault;

/// What is wrong with an entry of the directory, or with one of its items. Each kind says which
/// bytes or number its offset and size are.
#[derive(Clone, Copy, Debug, PartialEq, Eq)]
pub enum FaultKind {
    /// The stream's location is not inside the file: the offset and the size are that location. The
    /// location of an unused entry is not tested.
    StreamOutside,
    /// The stream is shorter than the head of its type, or than its one record: the offset and the size are its location.
    ShortStream,
    /// `SizeOfHeader` is less than that head has or more than the stream has: the offset is where
    /// it stands, and the size is it.
    BadHeaderSize,
    /// `SizeOfEntry` is less than a record has, and there is a record: the offset is where it
    /// stands, and the size is it.
    BadEntrySize,
    /// The stream is shorter than its records need: the offset is where their count stands, and the
    /// size is that count.
    BadCount,
    /// The `Length` of a name is not inside the file: the offset is where it should stand, and the
    /// size is 4.
    NameLengthOutside,
    /// The `Length` of a name is odd: the offset is where it stands, and the size is it.
    NameOdd,
    /// The `Buffer` of a name is not inside the file: the offset and the size are its bytes.
    NameUnitsOutside,
    /// The file's bytes were not obtained, or do not agree with what was read before: the offset is
    /// that of the store's fault, and the size is 0. No definition of a listing gives it.
    Source(SourceFault),
    /// With these bytes more than the budget would have been fetched, so they were not: the offset and
    /// the size are theirs. No definition of a listing gives it.
    Budget,
}

impl FaultKind {
    ghost use Rattle.mdmp_lister.specs.Fault.{is_unobtained};

    /// Whether bytes that were needed were not obtained, or do not agree with what was read before. Such
    /// a fault is told of no item, and stays for good.
    pub(crate) fn is_unobtained(self) -> bool
        ensures { result ≡ is_unobtained self }
    {
        match self {
            FaultKind::Source(_) | FaultKind::Budget => true,
            _ => false,
        }
    }
}

/// A fault, and the bytes or the number that it names.
#[derive(Clone, Copy, Debug, PartialEq, Eq)]
pub struct Fault {
    /// What is wrong.
    pub kind: FaultKind,
    /// An offset from the start of the file, in bytes.
    pub offset: u64,
    /// A number of bytes, or the number that the kind says.
    pub size: u64,
}

/// An answer that is a fault.
pub(crate) fn faulted<T: Drop>(kind: FaultKind, offset: u64, size: u64) -> Result<T, Fault>
    ensures { result ≡ Err (record { kind = kind; offset = offset; size = size }) }
{
    Err(Fault { kind, offset, size })
}

/// Why bytes that a listing needs were not obtained.
#[derive(Clone, Copy)]
pub(crate) enum FetchFault {
    /// The store is at fault.
    Source(SourceFault),
    /// A fetch was not made, with which more than the budget would have been fetched.
    Budget {
        /// The offset of its bytes from the start of the file.
        offset: u64,
        /// How many it was to fetch.
        size: u64,
    },
}

impl From<SourceFault> for FetchFault {
    ghost use Rattle.mdmp_lister.specs.declared.fault.FetchFault.TheVariants.{Source};

    ghost from_gives = { λ fault f. f ≡ Source fault };

    fn from(fault: SourceFault) -> FetchFault {
        FetchFault::Source(fault)
    }
}

impl From<FetchFault> for Fault {
    ghost use Rattle.mdmp_lister.specs.Fault.{fault_of_fetch};

    ghost from_gives = { λ fault f. f ≡ fault_of_fetch fault };

    fn from(fault: FetchFault) -> Fault {
        match fault {
            FetchFault::Source(fault) => Fault::from(fault),
            FetchFault::Budget { offset, size } => Fault {
                kind: FaultKind::Budget,
                offset,
                size,
            },
        }
    }
}

impl From<FetchFault> for OpenFault {
    ghost use Rattle.mdmp_lister.specs.Opening.{refusal_of_fetch};

    ghost from_gives = { λ fault f. f ≡ refusal_of_fetch fault };

    fn from(fault: FetchFault) -> OpenFault {
        match fault {
            FetchFault::Source(fault) => OpenFault::Source(fault),
            FetchFault::Budget { offset, size } => OpenFault::Budget { offset, size },
        }
    }
}

/// A fault of the store names the first byte that was not obtained, or the first of those that do not
/// agree.
impl From<SourceFault> for Fault {
    ghost use Rattle.mdmp_source.specs.Fault.{fault_at};
    ghost use Rattle.mdmp_lister.specs.declared.fault.FaultKind.TheVariants.{Source};

    ghost from_gives = { λ fault f. f ≡ record { kind = Source fault; offset = fault_at fault; size = 0 } };

    fn from(fault: SourceFault) -> Fault {
        let offset = match fault {
            SourceFault::Failed { at }
            | SourceFault::ShortRead { at }
            | SourceFault::Changed { at } => at,
        };
        Fault {
            kind: FaultKind::Source(fault),
            offset,
            size: 0,
        }
    }
}

/// The fault at which a listing ends, and the entry that it belongs to.
#[derive(Clone, Copy, Debug, PartialEq, Eq)]
pub struct ListFault {
    /// The number of the entry in the directory, from 0.
    pub entry: u32,
    /// The index of the item in whose place the fault stands, from 0: of the item whose name is
    /// bad. None where the whole stream is, or bytes were not obtained.
    pub index: Option<u64>,
    /// What is wrong.
    pub kind: FaultKind,
    /// An offset from the start of the file, in bytes.
    pub offset: u64,
    /// A number of bytes, or the number that the kind says.
    pub size: u64,
}

impl ListFault {
    ghost use Rattle.mdmp_lister.specs.Fault.{IsListFaultOf};

    /// The fault of an item of an entry, or of all of it. That of bytes which were not obtained is that of
    /// no item.
    pub(crate) fn of_entry(entry: u32, index: Option<u64>, fault: Fault) -> ListFault
        ensures { IsListFaultOf entry index fault result }
    {
        let index = if fault.kind.is_unobtained() {
            None
        } else {
            index
        };
        ListFault {
            entry,
            index,
            kind: fault.kind,
            offset: fault.offset,
            size: fault.size,
        }
    }
}

/// Why a file can't be listed at all. The header is tested first, then where the directory stands,
/// then how many ranges of memory there are.
#[derive(Clone, Copy, Debug, PartialEq, Eq)]
pub enum OpenFault {
    /// The file has fewer bytes than a header.
    TooShort {
        /// How many bytes it has.
        size: u64,
    },
    /// The first four bytes are not `MDMP`: `MINIDUMP_SIGNATURE`.
    BadSignature,
    /// The low half of `Version` is not 0xa793: `MINIDUMP_VERSION`.
    BadVersion {
        /// The low half that stands there.
        low: u16,
    },
    /// The directory is not inside the file.
    DirectoryOutside {
        /// `StreamDirectoryRva`, an offset from the start of the file.
        offset: u64,
        /// How many bytes the directory has: 12 for each entry.
        size: u64,
    },
    /// The header, the directory or the head of a memory list was not obtained.
    Source(SourceFault),
    /// With these bytes of the header, the directory or the head of a memory list more than the budget
    /// would have been fetched, so they were not.
    Budget {
        /// Their offset from the start of the file.
        offset: u64,
        /// How many they are.
        size: u64,
    },
    /// The allocator refused memory.
    Memory,
    /// The lister's lists would take more bytes than its limit of memory, so they were not made.
    MemoryLimit {
        /// How many they would take: for the directory, the window and a name, and also for the map if
        /// those are within the limit.
        held: u128,
    },
    /// The chosen memory lists that lie inside and have no fault have more ranges than 2^28.
    TooManyRanges {
        /// How many they have, each list as often as an entry names it.
        count: u128,
    },
}
