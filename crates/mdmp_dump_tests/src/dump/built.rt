//! Values of dumps that are built by hand, and files that are read into values.
use crate::files::{DumpReading, choice_of, file_of, limits_of_row};
use mdmp_dump::{Bytes, Dump, ReadAnswered, ReadFault, Records, Stream, read_dump, read_source};
use mdmp_lister::{Choice, Limits};
use mdmp_source::{MemoryStore, Source, Store};
use std::alloc::{Allocator, Global};
use std::process::Abort;

/// These bytes in memory of their own.
pub fn bytes(rt: &impl Abort, alloc: Global, bytes: &[u8]) -> Bytes<Global> {
    Bytes::new(bytes.to_vec(alloc).expect(rt, "memory for bytes"))
}

/// A dump of these streams whose header says nothing more.
pub fn dump_of<const N: usize>(
    rt: &impl Abort,
    alloc: Global,
    streams: [Stream<Global>; N],
) -> Dump<Global> {
    let list = Vec::from_array(alloc, streams).expect(rt, "memory for a list");
    Dump {
        version_high: 0,
        checksum: 0,
        time: 0,
        flags: 0,
        streams: Records::new(list),
    }
}

/// Reads these entries of a file, whose parts have at most so many bytes.
pub fn read_chosen<A: Allocator + Copy>(
    alloc: A,
    file: &[u8],
    limits: Limits,
    choice: Choice,
    parts: u64,
) -> Result<Dump<A>, ReadFault> {
    read_dump(
        alloc,
        Source::new(MemoryStore::new(file)),
        limits,
        choice,
        parts,
    )
}

/// The value of a file that is read.
pub fn value_of(rt: &impl Abort, alloc: Global, reading: &DumpReading) -> Dump<Global> {
    let file = file_of(rt, alloc, &reading.sample);
    let source = Source::new(MemoryStore::new(&file));
    let limits = limits_of_row(rt, &reading.limits);
    let choice = choice_of(rt, reading.types);
    let ReadAnswered { answer, source: _ } = read_source(
        alloc,
        source,
        limits,
        choice,
        reading.parts,
    );
    answer.expect(rt, reading.name)
}

/// Why a file gives no value, whose parts have at most so many bytes.
pub fn fault_of<A: Allocator + Copy>(
    alloc: A,
    file: &[u8],
    limits: Limits,
    parts: u64,
) -> Option<ReadFault> {
    match read_chosen(alloc, file, limits, Choice::All, parts) {
        Ok(_) => None,
        Err(fault) => Some(fault),
    }
}

/// Why a source gives no value of these entries, whose parts have at most so many bytes, and the source that comes
/// back.
pub fn value_fault<S: Store + Drop, A: Allocator + Copy>(
    alloc: A,
    source: Source<S>,
    limits: Limits,
    choice: Choice,
    parts: u64,
) -> (Option<ReadFault>, Source<S>) {
    let ReadAnswered { answer, source } = read_source(alloc, source, limits, choice, parts);
    (answer.err(), source)
}
