//! A dump read into a value, and compared with its list.

use crate::opening::{DumpLister, lister_of, value_of};
use mdmp_dump::Stream;
use mdmp_lister::{Choice, Item, StreamItem, StreamKind};
use std::alloc::Global;
use std::io::Write;

/// What is told of a stream, by the list and by the value: how many records it has, or 0 and how many bytes,
/// where its records are never listed.
#[derive(Clone, Copy, PartialEq, Eq)]
pub struct StreamLength {
    pub stream_type: u32,
    records: usize,
    bytes: Option<usize>,
}

/// Prints how many streams and records a dump's value has. None where they are not those of its list, or either
/// can't be read.
pub fn tell_totals(rt: &HostRuntime, dump: &str) -> Option<()> {
    let lengths = told_by_value(rt, dump)?;
    if lengths != told_by_list(rt, dump)? {
        return None;
    }
    let streams = lengths.len();
    let mut records: usize = 0;
    for length in &lengths {
        records = records.saturating_add(length.records);
    }
    writeln!(
        rt.stdout(),
        "{dump}: value of {streams} streams, {records} records, as listed"
    )
    .ok()
}

/// The streams of a dump's value.
pub fn told_by_value(rt: &HostRuntime, dump: &str) -> Option<Vec<StreamLength>> {
    let value = value_of(rt, dump, Choice::All)?;
    let mut lengths = Vec::new(rt.alloc());
    for stream in value.streams.as_slice() {
        lengths.push(told_of(stream)).ok()?;
    }
    Some(lengths)
}

fn told_of(stream: &Stream<Global>) -> StreamLength {
    let (stream_type, records, bytes) = match stream {
        Stream::Unused => (0, 0, None),
        Stream::Threads(threads) => (3, threads.as_slice().len(), None),
        Stream::Modules(modules) => (4, modules.as_slice().len(), None),
        Stream::Memory(ranges) => (5, ranges.as_slice().len(), None),
        Stream::Exception(_) => (6, 1, None),
        Stream::System(_) => (7, 1, None),
        Stream::Memory64(ranges) => (9, ranges.as_slice().len(), None),
        Stream::Unloaded(modules) => (14, modules.as_slice().len(), None),
        Stream::MemoryInfo(regions) => (16, regions.as_slice().len(), None),
        Stream::ThreadNames(threads) => (24, threads.as_slice().len(), None),
        Stream::Raw(stream_type, bytes) => (*stream_type, 0, Some(bytes.as_slice().len())),
    };
    StreamLength {
        stream_type,
        records,
        bytes,
    }
}

/// The streams of a dump's list.
fn told_by_list(rt: &HostRuntime, dump: &str) -> Option<Vec<StreamLength>> {
    let mut lister = lister_of(rt, dump)?;
    let mut lengths = Vec::new(rt.alloc());
    for _ in 0..u64::MAX {
        if !add_next(&mut lister, &mut lengths)? {
            return Some(lengths);
        }
    }
    None
}

/// Adds the next item, and tells whether there was one.
fn add_next(lister: &mut DumpLister, lengths: &mut Vec<StreamLength>) -> Option<bool> {
    match lister.next().ok()? {
        Some(Item::Stream(stream)) => lengths.push(begun(&stream)).ok()?,
        Some(_) => {
            let length = lengths.last_mut()?;
            length.records = length.records.saturating_add(1);
        },
        None => return Some(false),
    }
    Some(true)
}

/// A stream of which no record was listed yet. One whose records are never listed has its bytes.
fn begun(stream: &StreamItem) -> StreamLength {
    let stream_type = stream.stream_type;
    let is_listed = stream_type == 0 || StreamKind::of_type(stream_type).is_some();
    StreamLength {
        stream_type,
        records: 0,
        bytes: if is_listed {
            None
        } else {
            Some(stream.location.size as usize)
        },
    }
}
