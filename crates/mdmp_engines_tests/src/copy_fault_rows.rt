//! Faults of a copy and at limits, their status, and what is said of each.
use crate::fault_rows::{EARLY, ENDED, FaultRow, HELD, UNMADE};
use mdmp_engines::{FaultKind, LayoutFault, ListFault, OpenFault, PartName, ReadFault, ToolFault};

/// Faults of copies, and those inside a reading, which are told as what they are.
pub static COPIES: [FaultRow<'static>; 14] = [
    // Copies.
    (
        ToolFault::Reading(ReadFault::PartOutside {
            entry: 0,
            index: 0,
            part: PartName::Context,
            offset: 96,
            size: 1,
        }),
        1,
        "entry 0 item 0: context outside the file: offset 96 size 1",
    ),
    (
        ToolFault::Reading(ReadFault::PartOutside {
            entry: 0,
            index: 0,
            part: PartName::CodeView,
            offset: 96,
            size: 1,
        }),
        1,
        "entry 0 item 0: codeview outside the file: offset 96 size 1",
    ),
    (
        ToolFault::Reading(ReadFault::NameTooLong {
            entry: 0,
            index: 0,
            length: 10,
        }),
        1,
        "entry 0 item 0: name too long: 10",
    ),
    (
        ToolFault::Layout(LayoutFault::RawKnownType { stream: 0 }),
        1,
        "stream 0 holds raw bytes of a known type",
    ),
    (
        ToolFault::Layout(LayoutFault::TooLarge),
        1,
        "the copy is too large",
    ),
    (ToolFault::NotCopied(12), 2, "type 12 is not copied"),
    // Faults inside a reading are told as what they are.
    (
        ToolFault::Reading(ReadFault::PartsTooLarge { entry: 0, index: 0 }),
        1,
        "the copy is too large",
    ),
    (
        ToolFault::Reading(ReadFault::Opening(OpenFault::BadSignature)),
        1,
        "bad signature",
    ),
    (
        ToolFault::Reading(ReadFault::Opening(OpenFault::Source(ENDED))),
        3,
        "store ended at 7",
    ),
    (
        ToolFault::Reading(ReadFault::Opening(OpenFault::Memory)),
        3,
        "out of memory",
    ),
    (
        ToolFault::Reading(ReadFault::List(ListFault {
            entry: 1,
            index: Some(0),
            kind: FaultKind::NameLengthOutside,
            offset: 4294967295,
            size: 4,
        })),
        1,
        "entry 1 item 0: name length outside the file: offset 4294967295 size 4",
    ),
    (
        ToolFault::Reading(ReadFault::List(ListFault {
            entry: 1,
            index: Some(0),
            kind: FaultKind::Source(ENDED),
            offset: 4294967295,
            size: 4,
        })),
        3,
        "store ended at 7",
    ),
    (
        ToolFault::Reading(ReadFault::Source(ENDED)),
        3,
        "store ended at 7",
    ),
    (ToolFault::Reading(ReadFault::Memory), 3, "out of memory"),
];

/// Limits that are reached.
pub static LIMITS: [FaultRow<'static>; 11] = [
    (
        ToolFault::Budget {
            offset: 18446744073709551615,
            size: 18446744073709551614,
        },
        3,
        "fetch budget reached: offset 18446744073709551615 size 18446744073709551614",
    ),
    (
        ToolFault::Opening(EARLY),
        3,
        "fetch budget reached: offset 32 size 12",
    ),
    (
        ToolFault::List(UNMADE),
        3,
        "fetch budget reached: offset 236 size 5",
    ),
    (
        ToolFault::Reading(ReadFault::Opening(EARLY)),
        3,
        "fetch budget reached: offset 32 size 12",
    ),
    (
        ToolFault::Reading(ReadFault::List(UNMADE)),
        3,
        "fetch budget reached: offset 236 size 5",
    ),
    (
        ToolFault::MemoryLimit {
            held: 340282366920938463463374607431768211455,
        },
        3,
        "memory limit reached: 340282366920938463463374607431768211455",
    ),
    (ToolFault::Opening(HELD), 3, "memory limit reached: 180"),
    (
        ToolFault::Reading(ReadFault::Opening(HELD)),
        3,
        "memory limit reached: 180",
    ),
    (
        ToolFault::AsideLimit {
            offset: 18446744073709551615,
            size: 30,
        },
        3,
        "aside limit reached: offset 18446744073709551615 size 30",
    ),
    (
        ToolFault::CopyBudget { needed: 778 },
        3,
        "copy needs 778 bytes",
    ),
    (
        ToolFault::CopyBudget {
            needed: 340282366920938463463374607431768211455,
        },
        3,
        "copy needs 340282366920938463463374607431768211455 bytes",
    ),
];
