//! Commands each of whose growths is refused: at each limit and one byte under it.
use crate::commands::{CallWay, Task};
use crate::copies::{HELD, NEEDED};
use crate::files::File;
use crate::growths::{
    CRASH_FILE, GrownRow, MODULE, NOTHING, SIX_FILE, UNBOUNDED, WIDE, assert_rows,
};
use crate::over_budget;
use crate::runs::{COPY_WAYS, FOUR, OF_CRASH};
use crate::texts::{CUT_LINES, SYMBOL_LINES};
use mdmp_engines::{LINE_ROOM, ToolFault};
use mdmp_test_support::{MODULE_FILE_TEXT, WIDE_TEXT};

/// The ways of a list.
const LIST_WAYS: [CallWay; 4] = [
    CallWay::Store,
    CallWay::Source,
    CallWay::Blocks(LINE_ROOM + 7),
    CallWay::Items,
];

/// The ways of a command that has no items.
const PRINT_WAYS: [CallWay; 3] = [
    CallWay::Store,
    CallWay::Source,
    CallWay::Blocks(LINE_ROOM + 7),
];

/// What opening a view of the crash fetches: the header, the directory, and both streams once.
const OPENED: u64 = 32 + 72 + 52 + 168;

/// Four bytes of memory, of which none is printed.
const FOUR_OF_WIDE: GrownRow<'static> = GrownRow {
    file: WIDE,
    task: FOUR,
    ways: &PRINT_WAYS,
    growths: 0,
    ..UNBOUNDED
};

/// A list of a module.
const LIST_OF_MODULE: GrownRow<'static> = GrownRow {
    file: MODULE,
    task: Task::List,
    ways: &LIST_WAYS,
    written: File::Text(MODULE_FILE_TEXT),
    ..UNBOUNDED
};

/// A list of a module and of its CodeView record, of which the record is not read.
const SYMBOLS_OF_MODULE: GrownRow<'static> = GrownRow {
    file: MODULE,
    task: Task::Symbols,
    ways: &LIST_WAYS,
    written: File::Text(MODULE_FILE_TEXT),
    ..UNBOUNDED
};

/// Commands that print, at each limit and one byte under it.
static LIMITED: [GrownRow<'static>; 12] = [
    // The header, an entry, the head of the list, and the list. What is read at the addresses is not counted.
    GrownRow {
        within: (168, 16, Some(108), None, None),
        written: File::Text(WIDE_TEXT),
        growths: 6,
        ..FOUR_OF_WIDE
    },
    GrownRow {
        within: (168, 16, Some(107), None, None),
        answer: over_budget!(44, 48),
        growths: 4,
        ..FOUR_OF_WIDE
    },
    GrownRow {
        within: (168, 16, Some(60), None, None),
        answer: over_budget!(44, 48),
        growths: 4,
        ..FOUR_OF_WIDE
    },
    GrownRow {
        within: (168, 16, Some(59), None, None),
        answer: over_budget!(44, 16),
        growths: 3,
        ..FOUR_OF_WIDE
    },
    GrownRow {
        within: (168, 16, Some(43), None, None),
        answer: over_budget!(32, 12),
        growths: 3,
        ..FOUR_OF_WIDE
    },
    GrownRow {
        within: (168, 16, Some(31), None, None),
        answer: over_budget!(0, 32),
        ..FOUR_OF_WIDE
    },
    // A list ends at a record that passes the limit.
    GrownRow {
        within: (168, 4096, None, None, Some(30)),
        written: File::Text(SYMBOL_LINES),
        ..SYMBOLS_OF_MODULE
    },
    GrownRow {
        within: (168, 4096, None, None, Some(29)),
        answer: Err(ToolFault::AsideLimit {
            offset: 156,
            size: 30,
        }),
        ..SYMBOLS_OF_MODULE
    },
    GrownRow {
        within: (168, 4096, None, None, Some(0)),
        answer: Err(ToolFault::AsideLimit {
            offset: 156,
            size: 30,
        }),
        ..SYMBOLS_OF_MODULE
    },
    // A name over its limit is not counted.
    GrownRow {
        within: (168, 2, None, None, Some(26)),
        written: File::Text(CUT_LINES),
        ..SYMBOLS_OF_MODULE
    },
    GrownRow {
        within: (168, 2, None, None, Some(25)),
        answer: Err(ToolFault::AsideLimit {
            offset: 156,
            size: 26,
        }),
        ..SYMBOLS_OF_MODULE
    },
    // A list without records reads none.
    GrownRow {
        within: (168, 4096, None, None, Some(0)),
        ..LIST_OF_MODULE
    },
];

/// A check of ranges of memory.
const CHECK_OF_WIDE: GrownRow<'static> = GrownRow {
    file: WIDE,
    ways: &PRINT_WAYS,
    ..UNBOUNDED
};

/// The same of the limit of memory.
static MEMORY_LIMITS: [GrownRow<'static>; 12] = [
    // A window of 168 bytes, an entry of 12, and a name of 4096.
    GrownRow {
        within: (168, 4096, None, Some(4276), None),
        ..LIST_OF_MODULE
    },
    GrownRow {
        within: (168, 4096, None, Some(4275), None),
        answer: Err(ToolFault::MemoryLimit { held: 4276 }),
        written: NOTHING,
        growths: 0,
        ..LIST_OF_MODULE
    },
    GrownRow {
        within: (168, 4096, None, Some(0), None),
        answer: Err(ToolFault::MemoryLimit { held: 4276 }),
        written: NOTHING,
        growths: 0,
        ..LIST_OF_MODULE
    },
    // A window, an entry, a name of 16, and two ranges of 24.
    GrownRow {
        within: (168, 16, None, Some(244), None),
        written: File::Text("entry 0: ok\n"),
        growths: 4,
        ..CHECK_OF_WIDE
    },
    GrownRow {
        within: (168, 16, None, Some(243), None),
        answer: Err(ToolFault::MemoryLimit { held: 244 }),
        ..CHECK_OF_WIDE
    },
    GrownRow {
        within: (168, 16, None, Some(196), None),
        answer: Err(ToolFault::MemoryLimit { held: 244 }),
        ..CHECK_OF_WIDE
    },
    GrownRow {
        within: (168, 16, None, Some(195), None),
        answer: Err(ToolFault::MemoryLimit { held: 196 }),
        growths: 0,
        ..CHECK_OF_WIDE
    },
    // The same, and two times four bytes.
    GrownRow {
        within: (168, 16, None, Some(252), None),
        written: File::Text(WIDE_TEXT),
        growths: 6,
        ..FOUR_OF_WIDE
    },
    GrownRow {
        within: (168, 16, None, Some(251), None),
        answer: Err(ToolFault::MemoryLimit { held: 252 }),
        growths: 3,
        ..FOUR_OF_WIDE
    },
    GrownRow {
        within: (168, 16, None, Some(204), None),
        answer: Err(ToolFault::MemoryLimit { held: 252 }),
        growths: 3,
        ..FOUR_OF_WIDE
    },
    GrownRow {
        within: (168, 16, None, Some(203), None),
        answer: Err(ToolFault::MemoryLimit { held: 204 }),
        ..FOUR_OF_WIDE
    },
    GrownRow {
        within: (168, 16, None, Some(7), None),
        answer: Err(ToolFault::MemoryLimit { held: 204 }),
        ..FOUR_OF_WIDE
    },
];

/// A copy of the crash, of which nothing is written.
const COPY_OF_SIX: GrownRow<'static> = GrownRow {
    file: SIX_FILE,
    task: OF_CRASH,
    ways: &COPY_WAYS,
    growths: 0,
    ..UNBOUNDED
};

/// Copies at each limit and one byte under it, with the least window. Memory is taken up to what the budget refuses,
/// and none over the limit of memory; the limits are tested in the order in which a copy reads.
static COPIES: [GrownRow<'static>; 15] = [
    GrownRow {
        within: (168, 0, Some(NEEDED), None, None),
        answer: Ok(292),
        written: CRASH_FILE,
        growths: 5,
        ..COPY_OF_SIX
    },
    GrownRow {
        within: (168, 0, Some(NEEDED - 1), None, None),
        answer: Err(ToolFault::CopyBudget { needed: 778 }),
        growths: 5,
        ..COPY_OF_SIX
    },
    GrownRow {
        within: (168, 0, Some(OPENED), None, None),
        answer: Err(ToolFault::CopyBudget { needed: 778 }),
        growths: 5,
        ..COPY_OF_SIX
    },
    GrownRow {
        within: (168, 0, Some(OPENED - 1), None, None),
        answer: over_budget!(264, 168),
        growths: 4,
        ..COPY_OF_SIX
    },
    GrownRow {
        within: (168, 0, Some(103), None, None),
        answer: over_budget!(32, 72),
        growths: 2,
        ..COPY_OF_SIX
    },
    GrownRow {
        within: (168, 0, Some(31), None, None),
        answer: over_budget!(0, 32),
        ..COPY_OF_SIX
    },
    GrownRow {
        within: (168, 0, None, Some(HELD), None),
        answer: Ok(292),
        written: CRASH_FILE,
        growths: 5,
        ..COPY_OF_SIX
    },
    GrownRow {
        within: (168, 0, None, Some(HELD - 1), None),
        answer: Err(ToolFault::MemoryLimit { held: 480 }),
        ..COPY_OF_SIX
    },
    GrownRow {
        within: (168, 0, None, Some(0), None),
        answer: Err(ToolFault::MemoryLimit { held: 480 }),
        ..COPY_OF_SIX
    },
    GrownRow {
        within: (168, 0, Some(31), Some(0), None),
        answer: over_budget!(0, 32),
        ..COPY_OF_SIX
    },
    GrownRow {
        within: (168, 0, Some(32), Some(HELD - 1), None),
        answer: Err(ToolFault::MemoryLimit { held: 480 }),
        ..COPY_OF_SIX
    },
    GrownRow {
        within: (168, 0, Some(32), Some(HELD), None),
        answer: over_budget!(32, 72),
        growths: 2,
        ..COPY_OF_SIX
    },
    GrownRow {
        within: (168, 0, Some(NEEDED - 1), Some(HELD - 1), None),
        answer: Err(ToolFault::MemoryLimit { held: 480 }),
        ..COPY_OF_SIX
    },
    GrownRow {
        within: (168, 0, Some(NEEDED - 1), Some(HELD), None),
        answer: Err(ToolFault::CopyBudget { needed: 778 }),
        growths: 5,
        ..COPY_OF_SIX
    },
    GrownRow {
        within: (168, 0, Some(NEEDED), Some(HELD), None),
        answer: Ok(292),
        written: CRASH_FILE,
        growths: 5,
        asked: Some(HELD),
        ..COPY_OF_SIX
    },
];

#[test]
fn print_keeps_to_its_limits_of_reading(rt: HostRuntime) {
    assert_rows(&rt, rt.alloc(), &LIMITED);
}

#[test]
fn print_keeps_to_its_limit_of_memory(rt: HostRuntime) {
    assert_rows(&rt, rt.alloc(), &MEMORY_LIMITS);
}

#[test]
fn copy_keeps_to_its_limits(rt: HostRuntime) {
    assert_rows(&rt, rt.alloc(), &COPIES);
}
