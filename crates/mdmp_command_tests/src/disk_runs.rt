//! Runs of command lines over files in memory.
use crate::commands::{CommandCall, Trial};
use crate::files::{SmallFile, bytes_of};
use crate::same::assert_same_at;
use mdmp_disk::{GivenFile, MemoryDisk};
use mdmp_source::PatchyOut;
use mdmp_test_support::{MEMORY64, MeteredHeap, SYSTEM};
use mdmp_tool::{run_args, run_on_disk};
use std::alloc::{AllocGlobal, Global};
use std::process::Abort;
use std::rt::Files;
use std::{fs, io};

/// The bytes of the copy, if there is one among the files of the system, which is removed.
pub fn made_by<R: Files + AllocGlobal>(rt: &R) -> Option<Vec<u8>> {
    let made = fs::read(rt, "copy.dmp").ok();
    let _ = fs::remove_file(rt, "copy.dmp");
    made
}

/// The arguments of a program, each a text of its own.
fn args_of(rt: &impl Abort, alloc: Global, call: CommandCall<'_>) -> io::Result<Vec<String>> {
    let (name, words): (&[&str], &[&str]) = match call {
        CommandCall::Program(words) => (&["mdmp"], words),
        CommandCall::Arguments(words) => (&[], words),
        CommandCall::NoArguments(kind) => return Err(io::Error::from(kind)),
        _ => rt.panic("no program"),
    };
    let mut texts: Vec<String> = Vec::new(alloc);
    for part in [name, words] {
        for word in part {
            let text = word.to_string(alloc).expect(rt, "memory for a word");
            texts.push(text).expect(rt, "memory for words");
        }
    }
    Ok(texts)
}

/// The status of a command line or a program over a disk.
fn status_on<R: AllocGlobal + Abort>(
    rt: &R,
    alloc: Global,
    heap: &MeteredHeap<Global>,
    disk: &mut MemoryDisk<'_, &MeteredHeap<Global>>,
    call: CommandCall<'_>,
    out: &mut PatchyOut<Global>,
    err: &mut PatchyOut<Global>,
) -> u8 {
    match call {
        CommandCall::Line(words) => run_on_disk(rt, disk, heap, words, out, err),
        _ => run_args(rt, disk, heap, args_of(rt, alloc, call), out, err),
    }
}

/// A command's status, what it made, and what it asked of the disk: files opened and made, inputs read, and refusals.
#[derive(Drop)]
pub struct Done {
    pub status: u8,
    pub made: Option<Vec<u8>>,
    pub requests: (u128, u128, u128, u128),
}

/// What came of a run over a disk. The files that it was given are as they were.
fn done_on(
    rt: &impl Abort,
    alloc: Global,
    status: u8,
    disk: &MemoryDisk<'_, &MeteredHeap<Global>>,
    files: &[GivenFile<'_>],
) -> Done {
    for file in files {
        assert_same_at(rt, &file.name, disk.bytes(file.name), Some(file.bytes));
    }
    let made = match disk.bytes("copy.dmp") {
        Some(bytes) => Some(bytes.to_vec(alloc).expect(rt, "memory for a file")),
        None => None,
    };
    let asked = disk.requests();
    Done {
        status,
        made,
        requests: (asked.opened, asked.made, asked.inputs, asked.refused),
    }
}

/// Runs a command line or a program over a disk that has these files.
fn over_files<R: AllocGlobal + Abort>(
    rt: &R,
    alloc: Global,
    heap: &MeteredHeap<Global>,
    disk_heap: &MeteredHeap<Global>,
    files: &[GivenFile<'_>],
    call: CommandCall<'_>,
    trial: &Trial,
    out: &mut PatchyOut<Global>,
    err: &mut PatchyOut<Global>,
) -> Done {
    let mut disk = MemoryDisk::with_input(disk_heap, files, trial.input);
    let mut status = 0;
    for _ in 0..trial.times {
        status = status_on(rt, alloc, heap, &mut disk, call, out, err);
    }
    done_on(rt, alloc, status, &disk, files)
}

/// A file of a disk, of which this read fails.
fn given<'a>(name: &'a str, bytes: &'a [u8], fail_at: Option<u64>) -> GivenFile<'a> {
    GivenFile {
        name,
        bytes,
        fail_at,
    }
}

/// Runs a command line or a program over a disk with the small files, an empty one, and two called as standard input.
pub fn over_disk<R: AllocGlobal + Abort>(
    rt: &R,
    alloc: Global,
    heap: &MeteredHeap<Global>,
    disk_heap: &MeteredHeap<Global>,
    call: CommandCall<'_>,
    trial: &Trial,
    out: &mut PatchyOut<Global>,
    err: &mut PatchyOut<Global>,
) -> Done {
    let six = bytes_of(rt, alloc, SmallFile::Six);
    let faulty = bytes_of(rt, alloc, SmallFile::Faulty);
    let module = bytes_of(rt, alloc, SmallFile::Module);
    let fail_at = trial.read;
    let files = [
        given("system.dmp", &SYSTEM, fail_at),
        given("wide.dmp", &MEMORY64, fail_at),
        given("six.dmp", &six, fail_at),
        given("faulty.dmp", &faulty, fail_at),
        given("module.dmp", &module, fail_at),
        given("empty.dmp", b"", fail_at),
        given("\u{1b}[31m\n.dmp", &SYSTEM, fail_at),
        given("-", &SYSTEM, fail_at),
        given("./-", &SYSTEM, fail_at),
    ];
    over_files(rt, alloc, heap, disk_heap, &files, call, trial, out, err)
}
