//! A dump's value, written anew, and the dump through a view of its file.

use crate::opening::{value_in, value_of, view_of};
use crate::value::told_by_value;
use mdmp_dump::{Dump, DumpView};
use mdmp_lister::{Choice, TypeSet};
use mdmp_source::{MemoryStore, Source, WriteOut};
use mdmp_writer::write_dump;
use std::alloc::Global;
use std::io::Write;

/// Prints how a dump's value is written, or gives none where it can't be written, or is read back as
/// another value, or that is written as other bytes.
pub fn tell_value(rt: &HostRuntime, dump: &str) -> Option<()> {
    let value = value_of(rt, dump, Choice::All)?;
    let file = written(rt.alloc(), &value)?;
    let again = value_in(
        rt.alloc(),
        Source::new(MemoryStore::new(&file)),
        Choice::All,
    )?;
    if again != value || written(rt.alloc(), &again)? != file {
        return None;
    }
    let size = file.len();
    writeln!(
        rt.stdout(),
        "{dump}: written in {size} bytes, the same value, the same bytes"
    )
    .ok()
}

/// The bytes that a value is written as.
fn written(alloc: Global, value: &Dump<Global>) -> Option<Vec<u8>> {
    written_of(alloc, &mut value.view(), 4096)
}

/// The bytes that are written of what a view gives, through a buffer of so many bytes, from 1 to 4096.
fn written_of<V: DumpView>(alloc: Global, view: &mut V, room: usize) -> Option<Vec<u8>> {
    let mut out = WriteOut::new(Vec::new(alloc));
    let mut buffer = [0; 4096];
    write_dump(view, &mut out, &mut buffer[..room.clamp(1, 4096)]).ok()?;
    Some(out.into_inner())
}

/// Prints that a view of a dump's file writes what is written of its value.
pub fn tell_view(rt: &HostRuntime, dump: &str) -> Option<()> {
    let lengths = told_by_value(rt, dump)?;
    for length in &lengths {
        let _ = size_of_view(rt, dump, &[length.stream_type])?;
    }
    let streams = lengths.len();
    let size = size_of_view(rt, dump, &[])?;
    writeln!(
        rt.stdout(),
        "{dump}: {size} bytes by a view of the file, as of the value; so with the type of each of {streams} streams by itself"
    )
    .ok()
}

/// How many bytes are written through a view of a dump's streams of these types, or of all of them where no
/// type is given; or none where they are not those of the value, by one of some buffers.
fn size_of_view(rt: &HostRuntime, dump: &str, types: &[u32]) -> Option<usize> {
    let file = written_of_value(rt, dump, types)?;
    for room in &[7, 168, 4096] {
        if written_by_view(rt, dump, types, *room)? != file {
            return None;
        }
    }
    Some(file.len())
}

fn written_of_value(rt: &HostRuntime, dump: &str, types: &[u32]) -> Option<Vec<u8>> {
    let value = value_of(rt, dump, choice_of(types))?;
    written(rt.alloc(), &value)
}

fn written_by_view(rt: &HostRuntime, dump: &str, types: &[u32], room: usize) -> Option<Vec<u8>> {
    let mut view = view_of(rt, dump, choice_of(types))?;
    written_of(rt.alloc(), &mut view, room)
}

fn choice_of(types: &[u32]) -> Choice {
    match TypeSet::new(types) {
        Some(types) => Choice::Types(types),
        None => Choice::All,
    }
}
