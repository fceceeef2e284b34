//! Runs of the commands over files, and what they come to.
use crate::commands::{CallWay, CommandRun, End, StoreWay, Task, end_over};
use crate::files::{File, bytes_of};
use crate::hex_at;
use crate::same::assert_same_at;
use mdmp_engines::{FaultKind, LINE_ROOM, Limits, LineForm, ListFault, ToolFault};
use mdmp_source::{MemoryStore, PatchyOut, PatchyStore, Store, TwoFaces};
use mdmp_test_support::{HeapCounts, MeteredHeap, Refusal, Room};
use std::alloc::Global;
use std::fmt::Debug;
use std::process::Abort;

/// `hex` of so many bytes at an address. No constant calls a function, so that this is a macro.
#[macro_export]
macro_rules! hex_at {
    ($address:expr, $length:expr) => {
        $crate::commands::Task::Hex($crate::commands::AddressSpan {
            address: $address,
            length: $length,
        })
    };
}

/// A read of so many bytes at an offset that is over the budget.
#[macro_export]
macro_rules! over_budget {
    ($offset:expr, $size:expr) => {
        Err(ToolFault::Budget {
            offset: $offset,
            size: $size,
        })
    };
}

/// The four bytes at 0x1000.
pub const FOUR: Task<'static> = hex_at!(0x1000, 4);

/// A check of parts, as lines of text.
pub const PARTS: Task<'static> = Task::CheckParts(LineForm::Text);

/// What it prints of two ranges of memory, if the second one lies outside the file.
pub const WIDE_PARTS: &str =
    "entry 0 item 1: memory outside the file: offset 96 size 4\nentry 0: ok\n";

/// A copy of threads and exceptions.
pub const OF_CRASH: Task<'static> = Task::Copy(&[3, 6]);

/// The ways of a list.
pub const EACH_WAY: [CallWay; 4] = [
    CallWay::Store,
    CallWay::Source,
    CallWay::Blocks(LINE_ROOM),
    CallWay::Items,
];

/// The ways of a command that has no items.
pub const WITHOUT_ITEMS: [CallWay; 3] = [
    CallWay::Store,
    CallWay::Source,
    CallWay::Blocks(LINE_ROOM),
];

/// The ways of a copy, and of a summary.
pub const COPY_WAYS: [CallWay; 2] = [CallWay::Store, CallWay::Source];

/// What a command answers: how many bad entries or copied bytes, or why not.
pub type RunAnswer = Result<u64, ToolFault>;

/// The fault of the file `FAULTY`.
pub const BAD_NAME: ToolFault = ToolFault::List(ListFault {
    entry: 1,
    index: Some(0),
    kind: FaultKind::NameLengthOutside,
    offset: 4294967295,
    size: 4,
});

/// Limits: the window, the longest name, and what may be read, held, and read of CodeView records.
pub type Within = (u32, u32, Option<u64>, Option<u64>, Option<u64>);

/// The limits of the program.
pub const USUAL: Within = (65536, 4096, None, None, None);

/// An output that takes each text of these tests, by seven bytes a call.
const BY_SEVEN: Room = Room { all: 4000, call: 7 };

/// A run within limits. A window and a name that no limits have are those of the program.
pub fn run_within<'a>(task: Task<'a>, way: CallWay, within: Within) -> CommandRun<'a> {
    let (window, name, budget, memory, aside) = within;
    let room = match Limits::new(window, name) {
        Some(limits) => limits,
        None => Limits::default(),
    };
    CommandRun {
        task,
        way,
        reads: StoreWay::Whole,
        limits: Limits {
            window: room.window,
            name: room.name,
            budget,
            memory,
            aside,
        },
        growth: None,
        room: BY_SEVEN,
        out_fail_at: None,
    }
}

/// How a run ended, the bytes that it wrote, and what it asked of its memory.
#[derive(Drop)]
pub struct RunOutcome {
    pub end: End,
    pub bytes: Vec<u8>,
    pub heap: HeapCounts,
}

/// An output of this room, of which this call fails.
pub fn out_of(
    rt: &impl Abort,
    alloc: Global,
    room: Room,
    fail_at: Option<u64>,
) -> PatchyOut<Global> {
    PatchyOut::with_room(alloc, room.all, room.call, fail_at).expect(rt, "room")
}

/// The bytes that an output took.
pub fn bytes_in(rt: &impl Abort, alloc: Global, out: &PatchyOut<Global>) -> Vec<u8> {
    out.bytes()
        .to_vec(alloc)
        .expect(rt, "memory for what was written")
}

/// What comes of a run over this store.
pub fn run_over<S: Store + Drop>(
    rt: &impl Abort,
    alloc: Global,
    store: S,
    run: &CommandRun<'_>,
) -> RunOutcome {
    let refusal = match run.growth {
        Some(number) => Refusal::Only(number),
        None => Refusal::Never,
    };
    let heap = MeteredHeap::new(alloc, refusal);
    let mut out = out_of(rt, alloc, run.room, run.out_fail_at);
    let end = end_over(rt, alloc, &heap, store, run, &mut out);
    let bytes = bytes_in(rt, alloc, &out);
    RunOutcome {
        end,
        bytes,
        heap: heap.counts(),
    }
}

/// What comes of a run over these bytes.
pub fn run_bytes(rt: &impl Abort, alloc: Global, bytes: &[u8], run: &CommandRun<'_>) -> RunOutcome {
    match run.reads {
        StoreWay::Whole => run_over(rt, alloc, MemoryStore::new(bytes), run),
        StoreWay::Patchy(caps, fail_at) => {
            if caps.is_empty() {
                rt.panic("no caps");
            }
            run_over(rt, alloc, PatchyStore::new(bytes, caps, fail_at), run)
        }
        StoreWay::Unknown => run_over(rt, alloc, TwoFaces::new(bytes, bytes, u64::MAX), run),
    }
}

/// What comes of a run over a file.
pub fn run_file(
    rt: &impl Abort,
    alloc: Global,
    file: &File<'_>,
    run: &CommandRun<'_>,
) -> RunOutcome {
    let bytes = bytes_of(rt, alloc, file);
    run_bytes(rt, alloc, &bytes, run)
}

/// The text that was written.
pub fn text_of<'a>(rt: &impl Abort, bytes: &'a [u8]) -> &'a str {
    str::from_utf8(bytes).ok().expect(rt, "text")
}

/// Asserts what the run of this row, call or size answered, and what it wrote.
pub fn assert_wrote(
    rt: &impl Abort,
    at: &impl Debug,
    outcome: &RunOutcome,
    answer: RunAnswer,
    bytes: &[u8],
) {
    let found = (outcome.end.answer, outcome.bytes.as_slice());
    assert_same_at(rt, at, found, (answer, bytes));
}
