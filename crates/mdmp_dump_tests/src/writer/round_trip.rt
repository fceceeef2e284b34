//! Dumps that are written into memory and read back.
use super::{fault_back, stored_size};
use crate::dump::built::{bytes, dump_of, read_chosen, value_of};
use crate::files::{
    ALL, CRASH_FILE, CRASH_READING, DumpReading, EXACT_ROW, LEAST, LEAST_ROW, NAMED_ROW, RowLimits,
    SIX_READING, SYSTEM_READING, Sample, file_of, limits_of_row,
};
use crate::same::assert_same_at;
use linked_list_allocator::LocalHeap;
use mdmp_dump::{ReadFault, Stream};
use mdmp_lister::{Choice, FaultKind, ListFault};
use mdmp_writer::{LayoutFault, RoundTripFault, ToMemoryFault, to_memory, write_and_read};
use std::alloc::Global;
use std::process::Abort;

/// A dump that is read of a file, and why it is not read back, under these limits and with parts of at most so many bytes.
struct BackRow {
    name: &'static str,
    reading: DumpReading,
    limits: RowLimits,
    parts: u64,
    fault: Option<RoundTripFault>,
}

static BACK: [BackRow; 9] = [
    BackRow {
        name: "six streams",
        reading: SIX_READING,
        limits: NAMED_ROW,
        parts: 18,
        fault: None,
    },
    BackRow {
        name: "a name of the limit",
        reading: SYSTEM_READING,
        limits: EXACT_ROW,
        parts: 0,
        fault: None,
    },
    BackRow {
        name: "a name past the limit",
        reading: SYSTEM_READING,
        limits: RowLimits {
            name: 27,
            ..LEAST_ROW
        },
        parts: 0,
        fault: Some(RoundTripFault::Read(ReadFault::NameTooLong {
            entry: 0,
            index: 0,
            length: 28,
        })),
    },
    BackRow {
        name: "parts past their limit",
        reading: CRASH_READING,
        limits: LEAST_ROW,
        parts: 13,
        fault: Some(RoundTripFault::Read(ReadFault::PartsTooLarge { entry: 1, index: 0 })),
    },
    // A window of 168 bytes, 12 of an entry, and a name of 28.
    BackRow {
        name: "a limit of memory that suffices",
        reading: SYSTEM_READING,
        limits: RowLimits {
            memory: Some(208),
            ..EXACT_ROW
        },
        parts: 0,
        fault: None,
    },
    BackRow {
        name: "a limit of memory that does not",
        reading: SYSTEM_READING,
        limits: RowLimits {
            memory: Some(207),
            ..EXACT_ROW
        },
        parts: 0,
        fault: Some(RoundTripFault::Memory),
    },
    // The header, an entry, the record, and a name of 28 bytes with its length.
    BackRow {
        name: "a read limit that suffices",
        reading: SYSTEM_READING,
        limits: RowLimits {
            budget: Some(132),
            ..EXACT_ROW
        },
        parts: 0,
        fault: None,
    },
    BackRow {
        name: "a read limit that does not",
        reading: SYSTEM_READING,
        limits: RowLimits {
            budget: Some(99),
            ..EXACT_ROW
        },
        parts: 0,
        fault: Some(RoundTripFault::Read(ReadFault::List(ListFault {
            entry: 0,
            index: None,
            kind: FaultKind::Budget,
            offset: 44,
            size: 56,
        }))),
    },
    BackRow {
        name: "a part of two mebibytes",
        reading: DumpReading {
            name: "a part of two mebibytes",
            sample: Sample::Large,
            types: ALL,
            limits: LEAST_ROW,
            parts: 2_097_152,
        },
        limits: LEAST_ROW,
        parts: 2_097_152,
        fault: None,
    },
];

/// Asserts that a dump has the bytes of its file in memory, and is read back, or is not for this reason.
fn assert_back(rt: &impl Abort, alloc: Global, row: &BackRow) {
    let file = file_of(rt, alloc, &row.reading.sample);
    let dump = value_of(rt, alloc, &row.reading);
    let bytes = to_memory(alloc, &dump).expect(rt, "bytes");
    let limits = limits_of_row(rt, &row.limits);
    let is_file = bytes.as_slice() == file.as_slice();
    let (is_same, fault) = match write_and_read(alloc, &dump, limits, row.parts) {
        Ok(back) => (back == dump, None),
        Err(fault) => (true, Some(fault)),
    };
    let found = (is_file, is_same, fault);
    assert_same_at(rt, &row.name, found, (true, true, row.fault));
}

#[test]
fn dump_is_read_back(rt: HostRuntime) {
    for row in &BACK {
        assert_back(&rt, rt.alloc(), row);
    }
}

#[test]
fn dump_that_is_not_written_is_not_read_back(rt: HostRuntime) {
    let raw = Stream::Raw(3, bytes(&rt, rt.alloc(), &[1]));
    let dump = dump_of(&rt, rt.alloc(), [raw]);
    let fault = LayoutFault::RawKnownType { stream: 0 };
    let stored = stored_size(rt.alloc(), &dump);
    let back = fault_back(rt.alloc(), &dump, LEAST, 1);
    let expected = (
        Err(ToMemoryFault::Layout(fault)),
        Some(RoundTripFault::Layout(fault)),
    );
    assert_same_at(&rt, &"raw", (stored, back), expected);
}

/// What a dump comes to in memory: how many bytes, and why it is not read back.
type RoundTripOutcome = (Result<usize, ToMemoryFault>, Option<RoundTripFault>);

/// What the dump of a file comes to in a heap of so many bytes, if that is read there.
fn outcome_in(
    rt: &impl Abort,
    alloc: Global,
    size: usize,
    file: &[u8],
) -> Option<RoundTripOutcome> {
    let heap = LocalHeap::new(alloc, size).expect(rt, "a heap");
    match read_chosen(&heap, file, LEAST, Choice::All, 14) {
        Ok(dump) => Some((
            stored_size(&heap, &dump),
            fault_back(&heap, &dump, LEAST, 14),
        )),
        Err(_) => None,
    }
}

#[test]
fn want_of_memory_for_the_bytes_is_told(rt: HostRuntime) {
    let file = file_of(&rt, rt.alloc(), &CRASH_FILE);
    let enough = outcome_in(&rt, rt.alloc(), 4096, &file);
    assert_same_at(&rt, &"enough", enough, Some((Ok(292), None)));
    // What is read takes less beside the dump than its bytes do: in the least heap in which the file is read.
    let mut least = None;
    for step in 0..256 {
        if least.is_none() {
            least = outcome_in(&rt, rt.alloc(), 16 * step, &file);
        }
    }
    let wanting = (Err(ToMemoryFault::Memory), Some(RoundTripFault::Memory));
    assert_same_at(&rt, &"wanting", least, Some(wanting));
}
