//! Faults of reading and of printing, their status, and what is said of each.
use crate::runs::BAD_NAME;
use mdmp_engines::{FaultKind, ListFault, OpenFault, PartName, ReadFault, ToolFault};
use mdmp_source::SourceFault;

/// A fault, its status, and what is said of it.
pub type FaultRow<'a> = (ToolFault, u8, &'a str);

/// A stream that lies outside the file.
const OUTSIDE: ListFault = ListFault {
    entry: 2,
    index: None,
    kind: FaultKind::StreamOutside,
    offset: 236,
    size: 5,
};

/// A fault of the last item that there may be.
const LAST: ListFault = ListFault {
    entry: 2,
    index: Some(18446744073709551615),
    kind: FaultKind::NameOdd,
    offset: 236,
    size: 5,
};

/// A fault of the store.
const FAILED: SourceFault = SourceFault::Failed {
    at: 18446744073709551615,
};

/// The same behind an entry of the file.
const UNREAD: ListFault = ListFault {
    entry: 2,
    index: None,
    kind: FaultKind::Source(FAILED),
    offset: 236,
    size: 5,
};

/// A store that ended.
pub const ENDED: SourceFault = SourceFault::ShortRead { at: 7 };

/// A refusal by the budget, before the directory is read.
pub const EARLY: OpenFault = OpenFault::Budget {
    offset: 32,
    size: 12,
};

/// A refusal by the limit of memory.
pub const HELD: OpenFault = OpenFault::MemoryLimit { held: 180 };

/// The budget ends a list at its last entry.
pub const UNMADE: ListFault = ListFault {
    entry: 4294967295,
    index: None,
    kind: FaultKind::Budget,
    offset: 236,
    size: 5,
};

pub static ROWS: [FaultRow<'static>; 16] = [
    (
        ToolFault::Opening(OpenFault::TooShort { size: 0 }),
        1,
        "file of 0 bytes is too short",
    ),
    (
        ToolFault::Opening(OpenFault::BadSignature),
        1,
        "bad signature",
    ),
    (
        ToolFault::Opening(OpenFault::BadVersion { low: 0xa794 }),
        1,
        "bad version 0xa794",
    ),
    (
        ToolFault::Opening(OpenFault::DirectoryOutside {
            offset: 32,
            size: 12,
        }),
        1,
        "directory outside the file: offset 32 size 12",
    ),
    (
        ToolFault::Opening(OpenFault::TooManyRanges { count: 268451840 }),
        1,
        "too many memory ranges: 268451840",
    ),
    (
        ToolFault::List(OUTSIDE),
        1,
        "entry 2: stream outside the file: offset 236 size 5",
    ),
    (
        BAD_NAME,
        1,
        "entry 1 item 0: name length outside the file: offset 4294967295 size 4",
    ),
    (
        ToolFault::List(LAST),
        1,
        "entry 2 item 18446744073709551615: odd name length: offset 236 size 5",
    ),
    (
        ToolFault::Source(FAILED),
        3,
        "store failed at 18446744073709551615",
    ),
    (
        ToolFault::Source(SourceFault::ShortRead { at: 0 }),
        3,
        "store ended at 0",
    ),
    (
        ToolFault::Source(SourceFault::Changed { at: 44 }),
        3,
        "store changed at 44",
    ),
    (ToolFault::Out, 3, "output failed"),
    (ToolFault::Memory, 3, "out of memory"),
    // Faults of the store and want of memory inside the others are told as such.
    (
        ToolFault::Opening(OpenFault::Source(FAILED)),
        3,
        "store failed at 18446744073709551615",
    ),
    (ToolFault::Opening(OpenFault::Memory), 3, "out of memory"),
    (
        ToolFault::List(UNREAD),
        3,
        "store failed at 18446744073709551615",
    ),
];

/// Kinds of faults of an entry, and parts.
pub static KINDS: [FaultRow<'static>; 13] = [
    (
        ToolFault::List(ListFault {
            entry: 3,
            index: None,
            kind: FaultKind::StreamOutside,
            offset: 52,
            size: 18446744073709551615,
        }),
        1,
        "entry 3: stream outside the file: offset 52 size 18446744073709551615",
    ),
    (
        ToolFault::List(ListFault {
            entry: 3,
            index: None,
            kind: FaultKind::ShortStream,
            offset: 52,
            size: 18446744073709551615,
        }),
        1,
        "entry 3: stream too short: offset 52 size 18446744073709551615",
    ),
    (
        ToolFault::List(ListFault {
            entry: 3,
            index: None,
            kind: FaultKind::BadHeaderSize,
            offset: 52,
            size: 18446744073709551615,
        }),
        1,
        "entry 3: bad header size: offset 52 size 18446744073709551615",
    ),
    (
        ToolFault::List(ListFault {
            entry: 3,
            index: None,
            kind: FaultKind::BadEntrySize,
            offset: 52,
            size: 18446744073709551615,
        }),
        1,
        "entry 3: bad entry size: offset 52 size 18446744073709551615",
    ),
    (
        ToolFault::List(ListFault {
            entry: 3,
            index: None,
            kind: FaultKind::BadCount,
            offset: 52,
            size: 18446744073709551615,
        }),
        1,
        "entry 3: bad count: offset 52 size 18446744073709551615",
    ),
    (
        ToolFault::List(ListFault {
            entry: 3,
            index: None,
            kind: FaultKind::NameLengthOutside,
            offset: 52,
            size: 18446744073709551615,
        }),
        1,
        "entry 3: name length outside the file: offset 52 size 18446744073709551615",
    ),
    (
        ToolFault::List(ListFault {
            entry: 3,
            index: None,
            kind: FaultKind::NameOdd,
            offset: 52,
            size: 18446744073709551615,
        }),
        1,
        "entry 3: odd name length: offset 52 size 18446744073709551615",
    ),
    (
        ToolFault::List(ListFault {
            entry: 3,
            index: None,
            kind: FaultKind::NameUnitsOutside,
            offset: 52,
            size: 18446744073709551615,
        }),
        1,
        "entry 3: name outside the file: offset 52 size 18446744073709551615",
    ),
    // Parts.
    (
        ToolFault::Reading(ReadFault::PartOutside {
            entry: 4294967295,
            index: 18446744073709551615,
            part: PartName::Stack,
            offset: 4951760157141521099596496896,
            size: 18446744073709551615,
        }),
        1,
        "entry 4294967295 item 18446744073709551615: stack outside the file: offset 4951760157141521099596496896 size 18446744073709551615",
    ),
    (
        ToolFault::Reading(ReadFault::PartOutside {
            entry: 4294967295,
            index: 18446744073709551615,
            part: PartName::Context,
            offset: 4951760157141521099596496896,
            size: 18446744073709551615,
        }),
        1,
        "entry 4294967295 item 18446744073709551615: context outside the file: offset 4951760157141521099596496896 size 18446744073709551615",
    ),
    (
        ToolFault::Reading(ReadFault::PartOutside {
            entry: 4294967295,
            index: 18446744073709551615,
            part: PartName::CodeView,
            offset: 4951760157141521099596496896,
            size: 18446744073709551615,
        }),
        1,
        "entry 4294967295 item 18446744073709551615: codeview outside the file: offset 4951760157141521099596496896 size 18446744073709551615",
    ),
    (
        ToolFault::Reading(ReadFault::PartOutside {
            entry: 4294967295,
            index: 18446744073709551615,
            part: PartName::Misc,
            offset: 4951760157141521099596496896,
            size: 18446744073709551615,
        }),
        1,
        "entry 4294967295 item 18446744073709551615: misc outside the file: offset 4951760157141521099596496896 size 18446744073709551615",
    ),
    (
        ToolFault::Reading(ReadFault::PartOutside {
            entry: 4294967295,
            index: 18446744073709551615,
            part: PartName::Memory,
            offset: 4951760157141521099596496896,
            size: 18446744073709551615,
        }),
        1,
        "entry 4294967295 item 18446744073709551615: memory outside the file: offset 4951760157141521099596496896 size 18446744073709551615",
    ),
];
