//! What `hex` prints in each way, and how much it reads.
use crate::commands::CallWay;
use crate::files::File;
use crate::hex_at;
use crate::prints::{CHECK, PrintRow, SHORT, WIDE, assert_rows};
use crate::runs::{FOUR, RunAnswer, USUAL};
use mdmp_engines::{FaultKind, LINE_ROOM, ListFault, ToolFault};
use mdmp_test_support::{ABCD_RANGE, ListedRange, NO_RANGE, WIDE_TEXT, WXYZ_RANGE};

/// Four bytes at 0x1000, the first behind the ranges.
const LOW: ListedRange = ListedRange {
    start: 0x1000,
    size: 4,
    rva: 80,
};

/// Four bytes at 0x1002, behind those.
const HIGH: ListedRange = ListedRange {
    start: 0x1002,
    size: 4,
    rva: 84,
};

/// Six bytes at an address of sixteen digits.
const FAR: ListedRange = ListedRange {
    start: 0xfedcba9876543210,
    size: 6,
    rva: 80,
};

/// Sixteen bytes, which are a line.
const LINE: ListedRange = ListedRange {
    start: 0x1009,
    size: 16,
    rva: 80,
};

/// Two bytes, with one between them that no range has.
const APART: [ListedRange; 2] = [
    ListedRange {
        start: 10,
        size: 1,
        rva: 80,
    },
    ListedRange {
        start: 12,
        size: 1,
        rva: 82,
    },
];

/// The last 24 bytes that have an address.
const LAST: ListedRange = ListedRange {
    start: 0xffffffffffffffe8,
    size: 24,
    rva: 80,
};

const BAD_COUNT: RunAnswer = Err(ToolFault::List(ListFault {
    entry: 0,
    index: None,
    kind: FaultKind::BadCount,
    offset: 44,
    size: 3,
}));

/// Four bytes of memory, over a store.
const FOUR_OF_WIDE: PrintRow<'static> = PrintRow {
    file: WIDE,
    task: FOUR,
    within: USUAL,
    text: WIDE_TEXT,
    ..CHECK
};

/// No bytes of memory at 0x1000.
const NO_BYTES: PrintRow<'static> = PrintRow {
    task: hex_at!(0x1000, 0),
    text: "",
    ..FOUR_OF_WIDE
};

/// Memory lists of all kinds.
static MEMORY: [PrintRow<'static>; 7] = [
    PrintRow { ..FOUR_OF_WIDE },
    PrintRow {
        task: hex_at!(0x2000, 2),
        text: "0x0000000000002000: ?? ??\n",
        ..FOUR_OF_WIDE
    },
    PrintRow { ..NO_BYTES },
    // The first range that holds an address counts.
    PrintRow {
        file: File::Memory(2, ABCD_RANGE, WXYZ_RANGE),
        task: hex_at!(0xfff, 8),
        text: "0x0000000000000fff: ?? 41 42 43 44 79 7a ??\n",
        ..FOUR_OF_WIDE
    },
    PrintRow {
        file: File::Memory(2, WXYZ_RANGE, ABCD_RANGE),
        task: hex_at!(0xfff, 8),
        text: "0x0000000000000fff: ?? 41 42 77 78 79 7a ??\n",
        ..FOUR_OF_WIDE
    },
    PrintRow {
        file: File::Last,
        task: hex_at!(0xfffffffffffffff8, 8),
        text: "0xfffffffffffffff8: 00 01 02 03 04 05 06 07\n",
        ..FOUR_OF_WIDE
    },
    PrintRow {
        file: File::ShortThreads,
        task: hex_at!(0x10, 17),
        text: "0x0000000000000010: ?? ?? ?? ?? ?? ?? ?? ?? ?? ?? ?? ?? ?? ?? ?? ??\n0x0000000000000020: ??\n",
        ..FOUR_OF_WIDE
    },
];

static MEMORY_LINES: [PrintRow<'static>; 8] = [
    // Lines begin at the address.
    PrintRow {
        file: File::TwoRanges(&[LOW, HIGH], b"ABCDwxyz"),
        task: hex_at!(0xfff, 8),
        text: "0x0000000000000fff: ?? 41 42 43 44 79 7a ??\n",
        ..FOUR_OF_WIDE
    },
    PrintRow {
        file: File::TwoRanges(&[HIGH, LOW], b"ABCDwxyz"),
        task: hex_at!(0xfff, 8),
        text: "0x0000000000000fff: ?? 41 42 77 78 79 7a ??\n",
        ..FOUR_OF_WIDE
    },
    PrintRow {
        file: File::TwoRanges(&[NO_RANGE, NO_RANGE], &[0; 17]),
        task: hex_at!(0x10, 17),
        text: "0x0000000000000010: ?? ?? ?? ?? ?? ?? ?? ?? ?? ?? ?? ?? ?? ?? ?? ??\n0x0000000000000020: ??\n",
        ..FOUR_OF_WIDE
    },
    PrintRow {
        file: File::TwoRanges(&[NO_RANGE, NO_RANGE], b""),
        ..NO_BYTES
    },
    PrintRow {
        file: File::TwoRanges(&[FAR, NO_RANGE], &[0, 1, 0x0a, 0x10, 0xa0, 0xff]),
        task: hex_at!(0xfedcba9876543210, 6),
        text: "0xfedcba9876543210: 00 01 0a 10 a0 ff\n",
        ..FOUR_OF_WIDE
    },
    PrintRow {
        file: File::TwoRanges(&[LINE, NO_RANGE], b"0123456789abcdef"),
        task: hex_at!(0x1009, 16),
        text: "0x0000000000001009: 30 31 32 33 34 35 36 37 38 39 61 62 63 64 65 66\n",
        ..FOUR_OF_WIDE
    },
    PrintRow {
        file: File::TwoRanges(&APART, b"\x00\xff\x10"),
        task: hex_at!(10, 3),
        text: "0x000000000000000a: 00 ?? 10\n",
        ..FOUR_OF_WIDE
    },
    PrintRow {
        file: File::TwoRanges(&[LAST, NO_RANGE], &[7; 24]),
        task: hex_at!(0xffffffffffffffe8, 24),
        text: "0xffffffffffffffe8: 07 07 07 07 07 07 07 07 07 07 07 07 07 07 07 07\n0xfffffffffffffff8: 07 07 07 07 07 07 07 07\n",
        ..FOUR_OF_WIDE
    },
];

static MEMORY_WAYS: [PrintRow<'static>; 8] = [
    // A file at fault prints nothing, also of no bytes.
    PrintRow {
        file: File::Memory(3, ABCD_RANGE, WXYZ_RANGE),
        answer: BAD_COUNT,
        ..NO_BYTES
    },
    PrintRow {
        file: File::Memory(3, ABCD_RANGE, WXYZ_RANGE),
        answer: BAD_COUNT,
        text: "",
        ..FOUR_OF_WIDE
    },
    PrintRow {
        file: File::Bytes(&[0; 31]),
        answer: SHORT,
        ..NO_BYTES
    },
    PrintRow {
        file: File::Bytes(&[0; 31]),
        answer: SHORT,
        text: "",
        ..FOUR_OF_WIDE
    },
    // The header, an entry, the head of the list, the list, and four bytes.
    PrintRow {
        way: CallWay::Source,
        fetched: Some(112),
        ..FOUR_OF_WIDE
    },
    PrintRow {
        way: CallWay::Blocks(LINE_ROOM),
        fetched: Some(112),
        ..FOUR_OF_WIDE
    },
    PrintRow {
        way: CallWay::Blocks(LINE_ROOM + 7),
        fetched: Some(112),
        ..FOUR_OF_WIDE
    },
    PrintRow {
        way: CallWay::Blocks(LINE_ROOM + 100),
        fetched: Some(112),
        ..FOUR_OF_WIDE
    },
];

#[test]
fn hex_succeeds_in_each_way(rt: HostRuntime) {
    assert_rows(&rt, rt.alloc(), &MEMORY);
    assert_rows(&rt, rt.alloc(), &MEMORY_WAYS);
}

#[test]
fn lines_of_memory_begin_at_the_address(rt: HostRuntime) {
    assert_rows(&rt, rt.alloc(), &MEMORY_LINES);
}
