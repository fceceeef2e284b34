//! Files, the values that they are read as, and what these are written as.
mod memory;
mod mixed;
mod modules;
mod raw;
mod threads;

use self::memory::MEMORY;
use self::mixed::MIXED;
pub use self::mixed::REGION;
use self::modules::MODULES;
pub use self::raw::HEADER_READING;
use self::raw::RAW;
use self::threads::THREADS;
use crate::dump::built::value_of;
use crate::files::{DumpReading, Sample, file_of};
use crate::same::assert_same_at;
use crate::writer::{assert_wrote, patchy_out, size_of};
use mdmp_dump::DumpView;
use std::alloc::Global;
use std::process::Abort;

/// The value of a thread and an exception.
const CRASH_VALUE: &str =
    "Dump { version_high: 0, checksum: 0, time: 0, flags: 0, streams: [Threads([Thread { thread_id: 7, \
suspend_count: 0, priority_class: 32, priority: 0, teb: 20480, stack_start: 28672, stack: Bytes([83, \
84, 65, 75]), context: Bytes([1, 2, 3, 4, 5, 6]) }]), Exception(Exception { thread_id: 7, \
exception_code: 3221225477, exception_flags: 0, exception_record: 0, exception_address: 4198400, \
number_parameters: 2, exception_information: [1, 16, 0, 0, 0, 0, 0, 0, 0, 0, 0, 0, 0, 0, 0], \
context: Bytes([170, 187, 204, 221]) })] }";

/// A file that is read, its value as it is printed, and what is written of that.
pub struct Vector {
    pub reading: DumpReading,
    pub value: &'static str,
    pub written: Sample<'static>,
}

/// Asserts that a view is written as this file, whatever the buffer, and its size told as that.
fn assert_written<V: DumpView>(
    rt: &impl Abort,
    alloc: Global,
    view: &mut V,
    name: &'static str,
    file: &[u8],
) {
    let size = file.len() as u64;
    assert_same_at(rt, &name, size_of(view), Ok(size));
    for room in &[1, 7, 64, 4096] {
        let out = patchy_out(rt, alloc, 4096, 4096, None);
        assert_wrote(rt, view, out, *room, Ok(size), file);
    }
}

/// Asserts that a file is read as its value, and that this is written as it is to be.
fn assert_vector(rt: &impl Abort, alloc: Global, vector: &Vector) {
    let name = vector.reading.name;
    let dump = value_of(rt, alloc, &vector.reading);
    let printed = format!(in alloc; "{dump:?}").expect(rt, "memory for a text");
    assert_same_at(rt, &name, printed.as_str(), vector.value);
    let file = file_of(rt, alloc, &vector.written);
    assert_written(rt, alloc, &mut dump.view(), name, &file);
}

#[test]
fn files_are_read_and_written(rt: HostRuntime) {
    for vectors in [
        RAW.as_slice(),
        THREADS.as_slice(),
        MEMORY.as_slice(),
        MODULES.as_slice(),
        MIXED.as_slice(),
    ] {
        for vector in vectors {
            assert_vector(&rt, rt.alloc(), vector);
        }
    }
}
