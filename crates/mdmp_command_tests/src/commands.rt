//! The commands, by the calls that run them, and what comes of each run.
//!
//! No function that a test calls here has a contract, so that the test knows nothing of what it did, and its own
//! proof stays short. Each ends the test by itself where memory runs out.

use crate::disk_runs::{Done, made_by, over_disk};
use crate::engine_statuses::{copy_status, print_status};
use crate::failing_system::{FailingSystem, FileCalls, NONE_FAILS};
use crate::files::{SmallFile, bytes_of};
use crate::same::assert_same_at;
use mdmp_disk::GivenInput;
use mdmp_source::{PatchyOut, PatchyStore};
use mdmp_test_support::{FOR_LONG_TEXT, HeapCounts, MeteredHeap, Refusal, Room, limits};
use mdmp_tool::{Limits, run_words};
use std::alloc::{AllocGlobal, Global};
use std::cell::Cell;
use std::fmt::Debug;
use std::io::ErrorKind;
use std::process::Abort;
use std::rt::Files;

/// What is printed of a file.
#[derive(Clone, Copy)]
pub enum Shown {
    Verdicts,
    Items,
    ItemsAndSymbols,
    /// Verdicts as objects of JSON.
    VerdictObjects,
    /// Items and symbols as objects of JSON.
    Objects,
    /// Two bytes from the address 16 on.
    Memory,
}

/// A command, by the call that runs it.
#[derive(Clone, Copy)]
pub enum CommandCall<'a> {
    /// `print_and_report` over a store with this file.
    Print(Shown, SmallFile),
    /// `copy_and_report` of these types out of such a store.
    Copy(&'a [u32], SmallFile),
    /// `run_on_disk` of these words, over a disk in memory.
    Line(&'a [&'a str]),
    /// `run_args` over such a disk: the words behind the program's name.
    Program(&'a [&'a str]),
    /// The same of arguments without a name before them.
    Arguments(&'a [&'a str]),
    /// The same of arguments that cannot be had.
    NoArguments(ErrorKind),
    /// `run_words` of these words, over files of the system.
    System(&'a [&'a str]),
}

/// How much an output takes, and which of its calls fails.
#[derive(Clone, Copy)]
pub struct Outlet {
    pub room: Room,
    pub fail_at: Option<u64>,
}

/// An output that takes all.
pub const TAKES_ALL: Outlet = Outlet {
    room: FOR_LONG_TEXT,
    fail_at: None,
};

/// An output that takes one byte a call, and none at the call of this number.
pub fn failing_at(call: u64) -> Outlet {
    Outlet {
        room: Room {
            all: 10_000,
            call: 1,
        },
        fail_at: Some(call),
    }
}

/// What a command runs into.
#[derive(Clone, Copy)]
pub struct Trial {
    /// Which growth of its memory is refused.
    pub growth: Option<u64>,
    /// Which growth of the disk in memory is refused.
    pub disk_growth: Option<u64>,
    /// How many bytes a read of the store gives at most, and which one fails; also of a file on the disk.
    pub cap: usize,
    pub read: Option<u64>,
    /// Which call of the system fails.
    pub system_call: u64,
    /// What standard input gives to a disk in memory.
    pub input: GivenInput<'static>,
    /// The output for what is printed, and the one for what is told.
    pub out: Outlet,
    pub err: Outlet,
    /// The limits of a command that has no words.
    pub limits: Limits,
    /// How often the words are run, one time after the other.
    pub times: u32,
}

/// Nothing fails.
pub const GOOD: Trial = Trial {
    growth: None,
    disk_growth: None,
    cap: 1000,
    read: None,
    system_call: NONE_FAILS,
    input: GivenInput {
        bytes: b"",
        fail_at: None,
    },
    out: TAKES_ALL,
    err: TAKES_ALL,
    limits: limits!(65536, 4096),
    times: 1,
};

/// How many files were opened and made, and how often that was refused.
pub type DiskRequests = (u128, u128, u128);

/// The exit status of a command, what it printed, and what it told of a fault.
#[derive(Drop)]
pub struct CommandEnd {
    pub status: u8,
    pub text: String,
    pub told: String,
}

/// How a command has to end: its exit status, what it prints, and what it tells of a fault.
pub type Ending<'a> = (u8, &'a str, &'a str);

/// What came of a run.
#[derive(Drop)]
pub struct Ran {
    pub end: CommandEnd,
    /// The bytes of the file that it made, or of the copy that it wrote to its output.
    pub made: Option<Vec<u8>>,
    /// What it asked of the disk.
    pub requests: DiskRequests,
    /// How often standard input was read.
    pub inputs: u128,
    /// What it asked of its memory, and what the disk asked.
    pub heap: HeapCounts,
    pub disk_heap: HeapCounts,
}

/// Runs a command.
fn done_by<R: Files + Input + AllocGlobal + Abort>(
    rt: &R,
    alloc: Global,
    heap: &MeteredHeap<Global>,
    disk_heap: &MeteredHeap<Global>,
    call: CommandCall<'_>,
    trial: &Trial,
    out: &mut PatchyOut<Global>,
    err: &mut PatchyOut<Global>,
) -> Done {
    let caps = [trial.cap];
    let (status, made) = match call {
        CommandCall::Print(shown, file) => {
            let bytes = bytes_of(rt, alloc, file);
            let store = PatchyStore::new(&bytes, &caps, trial.read);
            let status = print_status(rt, alloc, heap, shown, store, trial.limits, out, err);
            (status, None)
        }
        CommandCall::Copy(types, file) => {
            let bytes = bytes_of(rt, alloc, file);
            let store = PatchyStore::new(&bytes, &caps, trial.read);
            let status = copy_status(rt, heap, types, store, trial.limits, out, err);
            let copy = out.bytes().to_vec(alloc).expect(rt, "memory for a copy");
            (status, Some(copy))
        }
        CommandCall::System(words) => {
            let calls = FileCalls {
                made: Cell::new(0),
                asked: Cell::new(0),
            };
            let system = FailingSystem {
                rt,
                calls: &calls,
                fail_at: trial.system_call,
            };
            let status = run_words(&system, heap, words, out, err);
            (status, made_by(rt))
        }
        _ => return over_disk(rt, alloc, heap, disk_heap, call, trial, out, err),
    };
    Done {
        status,
        made,
        requests: (0, 0, 0, 0),
    }
}

/// A heap that refuses this growth.
fn heap_without(alloc: Global, growth: Option<u64>) -> MeteredHeap<Global> {
    let refusal = match growth {
        Some(number) => Refusal::Only(number),
        None => Refusal::Never,
    };
    MeteredHeap::new(alloc, refusal)
}

/// An output that has taken nothing.
fn out_of(rt: &impl Abort, alloc: Global, outlet: Outlet) -> PatchyOut<Global> {
    let Outlet { room, fail_at } = outlet;
    let out = PatchyOut::with_room(alloc, room.all, room.call, fail_at);
    out.expect(rt, "memory for an output")
}

/// The text that an output took.
fn text_of(rt: &impl Abort, alloc: Global, out: &PatchyOut<Global>) -> String {
    let text = str::from_utf8(out.bytes()).expect(rt, "a text");
    String::from_str(alloc, text).expect(rt, "memory for a text")
}

/// Runs a command, and gives what came of it.
pub fn run<R: Files + Input + AllocGlobal + Abort>(
    rt: &R,
    alloc: Global,
    call: CommandCall<'_>,
    trial: &Trial,
) -> Ran {
    let heap = heap_without(alloc, trial.growth);
    let disk_heap = heap_without(alloc, trial.disk_growth);
    let mut out = out_of(rt, alloc, trial.out);
    let mut err = out_of(rt, alloc, trial.err);
    let done = done_by(
        rt, alloc, &heap, &disk_heap, call, trial, &mut out, &mut err,
    );
    if matches!(call, CommandCall::Copy(..)) {
        out = out_of(rt, alloc, TAKES_ALL);
    }
    let (opened, made, inputs, refused) = done.requests;
    Ran {
        end: CommandEnd {
            status: done.status,
            text: text_of(rt, alloc, &out),
            told: text_of(rt, alloc, &err),
        },
        made: done.made,
        requests: (opened, made, refused),
        inputs,
        heap: heap.counts(),
        disk_heap: disk_heap.counts(),
    }
}

/// What a command wrote: the file that it made, or else what it printed.
pub fn written(ran: &Ran) -> &[u8] {
    match &ran.made {
        Some(bytes) => bytes.as_slice(),
        None => ran.end.text.as_bytes(),
    }
}

/// Asserts the status of a command in a trial, what it writes and what it tells, at this byte or call.
pub fn assert_written<R: Files + Input + AllocGlobal + Abort>(
    rt: &R,
    alloc: Global,
    call: CommandCall<'_>,
    trial: &Trial,
    at: u64,
    wanted: (u8, &[u8], &str),
) {
    let ran = run(rt, alloc, call, trial);
    let found = (ran.end.status, written(&ran), ran.end.told.as_str());
    assert_same_at(rt, &at, found, wanted);
}

/// Asserts how a command ended at this row, call or command line.
pub fn assert_end(rt: &impl Abort, at: &impl Debug, end: &CommandEnd, wanted: Ending<'_>) {
    let found = (end.status, end.text.as_str(), end.told.as_str());
    assert_same_at(rt, at, found, wanted)
}
