//! What commands over large files take of a heap: the bytes that docs/promises.md tells, each once, and if the limit of
//! memory is a byte less only what is taken before it is tested for the last time.
use crate::commands::{AddressSpan, CallWay, CommandRun, Task};
use crate::runs::{PARTS, RunAnswer, run_bytes, run_within};
use crate::same::assert_same_at;
use crate::summary_objects::OBJECT;
use mdmp_engines::{LineForm, ToolFault};
use mdmp_test_support::{
    EMPTY_PART, HeapCounts, LONG_COMMENT, LONG_NAME, MANY_ENTRIES, MANY_RANGES, MANY_THREADS,
    OneStream, Room, one_stream_file,
};
use std::alloc::Global;
use std::process::Abort;

/// A command over a large file, and what it takes.
struct CommandHeapRow {
    file: OneStream<'static>,
    task: Task<'static>,
    /// The window W and the longest name L.
    limits: (u32, u32),
    /// How many bytes it copies, or 0.
    copied: u64,
    /// How many bytes it takes, by how many growths.
    taken: (u64, u64),
    /// The least limit of memory, which may count names that the file does not have.
    most: u64,
    /// What it takes with a byte less.
    before: (u64, u64),
}

static ROWS: [CommandHeapRow; 9] = [
    // W + 12s + 24r + L.
    CommandHeapRow {
        file: MANY_ENTRIES,
        task: Task::Check,
        limits: (1 << 20, 4096),
        copied: 0,
        taken: ((1 << 20) + 12 * 5000 + 4096, 3),
        most: (1 << 20) + 12 * 5000 + 4096,
        before: (0, 0),
    },
    CommandHeapRow {
        file: MANY_RANGES,
        task: Task::List,
        limits: (70_000, 0),
        copied: 0,
        taken: (70_000 + 12 * 5000 + 24 * 10_000, 3),
        most: 70_000 + 12 * 5000 + 24 * 10_000,
        before: (70_000 + 12 * 5000, 2),
    },
    CommandHeapRow {
        file: MANY_THREADS,
        task: PARTS,
        limits: (70_000, 0),
        copied: 0,
        taken: (70_000 + 12, 2),
        most: 70_000 + 12,
        before: (0, 0),
    },
    // The same, and twice as many bytes as are printed.
    CommandHeapRow {
        file: EMPTY_PART,
        task: Task::Hex(AddressSpan {
            address: 0x1000,
            length: 70_000,
        }),
        limits: (168, 0),
        copied: 0,
        taken: (168 + 12 + 24 + 2 * 70_000, 5),
        most: 168 + 12 + 24 + 2 * 70_000,
        before: (168 + 12, 2),
    },
    // 2W + 24s.
    CommandHeapRow {
        file: LONG_COMMENT,
        task: Task::Copy(&[10]),
        limits: (1 << 20, 0),
        copied: 44 + (1 << 21),
        taken: (2 * (1 << 20) + 24, 5),
        most: 2 * (1 << 20) + 24,
        before: (0, 0),
    },
    CommandHeapRow {
        file: MANY_ENTRIES,
        task: Task::Copy(&[0]),
        limits: (70_000, 0),
        copied: 32 + 12 * 5000,
        taken: (2 * 70_000 + 24 * 5000, 5),
        most: 2 * 70_000 + 24 * 5000,
        before: (0, 0),
    },
    CommandHeapRow {
        file: EMPTY_PART,
        task: Task::Copy(&[5]),
        limits: (168, 0),
        copied: 64,
        taken: (2 * 168 + 24, 5),
        most: 2 * 168 + 24,
        before: (0, 0),
    },
    // W + 12s + 4L, of which two names are not in the file.
    CommandHeapRow {
        file: LONG_NAME,
        task: Task::Summary(LineForm::Text),
        limits: (168, 70_000),
        copied: 0,
        taken: (168 + 12 + 2 * 70_000, 4),
        most: 168 + 12 + 4 * 70_000,
        before: (0, 0),
    },
    // W + 12s + 5L.
    CommandHeapRow {
        file: LONG_NAME,
        task: OBJECT,
        limits: (168, 70_000),
        copied: 0,
        taken: (168 + 12 + 3 * 70_000, 5),
        most: 168 + 12 + 5 * 70_000,
        before: (0, 0),
    },
];

/// What a command answers within so many bytes of memory, and what was taken of a heap.
fn run_with(
    rt: &impl Abort,
    alloc: Global,
    file: &[u8],
    row: &CommandHeapRow,
    memory: u64,
) -> (RunAnswer, HeapCounts) {
    let (window, name) = row.limits;
    let within = (window, name, None, Some(memory), None);
    let room = Room {
        all: 32 << 20,
        call: 1 << 20,
    };
    let run = CommandRun {
        room,
        ..run_within(row.task, CallWay::Source, within)
    };
    let outcome = run_bytes(rt, alloc, file, &run);
    (outcome.end.answer, outcome.heap)
}

/// So many bytes, of which each is taken once, by so many growths, and all are given back.
fn once(taken: (u64, u64)) -> HeapCounts {
    let (bytes, growths) = taken;
    HeapCounts::once(bytes, growths)
}

/// Asserts what the command of a row takes at its least limit of memory, and with a byte less.
fn assert_row(rt: &impl Abort, alloc: Global, number: usize, row: &CommandHeapRow) {
    let file = one_stream_file(alloc, row.file).expect(rt, "memory for a file");
    let found = run_with(rt, alloc, &file, row, row.most);
    assert_same_at(rt, &number, found, (Ok(row.copied), once(row.taken)));
    let held = u128::from(row.most);
    let over = Err(ToolFault::MemoryLimit { held });
    let found = run_with(rt, alloc, &file, row, row.most.saturating_sub(1));
    assert_same_at(rt, &number, found, (over, once(row.before)));
}

#[test]
fn command_over_a_large_file_takes_what_is_promised(rt: HostRuntime) {
    for (number, row) in ROWS.iter().enumerate() {
        assert_row(&rt, rt.alloc(), number, row);
    }
}
