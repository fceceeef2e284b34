//! Calls that take memory, each of whose growths is refused.
use crate::dump::built::{fault_of, read_chosen};
use crate::files::{CRASH_FILE, NAMED, SIX_FILE, SYSTEM_FILE, Sample, file_of};
use crate::same::assert_same_at;
use crate::store_calls::{ReadInto, fault_into};
use crate::viewed::view_fault_of;
use crate::writer::{fault_back, stored_size};
use mdmp_dump::ReadFault;
use mdmp_lister::Choice;
use mdmp_source::{MemoryStore, Source};
use mdmp_test_support::{HeapCounts, MODULE, MeteredHeap, OVERLAPPING, Refusal};
use mdmp_writer::{RoundTripFault, ToMemoryFault};
use std::alloc::Global;
use std::process::Abort;

/// A call that takes memory.
enum DumpCall {
    Read,
    Open,
    /// One that hands the source back.
    OfSource(ReadInto),
    ToMemory,
    WriteAndRead,
}

/// What came of a call in a heap that refuses a growth: its fault, how often it asked for a block, and how many blocks
/// were not given back.
type InHeap = (Option<RoundTripFault>, u64, u64);

/// What comes of reading or opening a file where this growth is refused.
fn read_without(
    rt: &impl Abort,
    alloc: Global,
    growth: u64,
    file: &[u8],
    call: &DumpCall,
) -> InHeap {
    let heap = MeteredHeap::new(alloc, Refusal::Only(growth));
    let source = Source::new(MemoryStore::new(file));
    let fault = match call {
        DumpCall::Open => view_fault_of(&heap, source, NAMED),
        DumpCall::OfSource(into) => {
            let (fault, left) = fault_into(&heap, into, source, NAMED, Choice::All, 18);
            // What is handed back is read with ample memory.
            let (again, _) = fault_into(alloc, &ReadInto::Value, left, NAMED, Choice::All, 18);
            assert_same_at(rt, &growth, again, None);
            fault
        }
        _ => fault_of(&heap, file, NAMED, 18),
    };
    let told = match fault {
        None => None,
        Some(ReadFault::Memory) => Some(RoundTripFault::Memory),
        Some(fault) => Some(RoundTripFault::Read(fault)),
    };
    let HeapCounts { growths, out, .. } = heap.counts();
    (told, growths, out)
}

/// What comes of writing into memory, or of reading that back, for the dump of a file that is read by so many growths, where this growth behind these is
/// refused.
fn written_without(
    rt: &impl Abort,
    alloc: Global,
    reading: u64,
    growth: u64,
    file: &[u8],
    call: &DumpCall,
) -> InHeap {
    let heap = MeteredHeap::new(alloc, Refusal::Only(reading.saturating_add(growth)));
    let dump = read_chosen(&heap, file, NAMED, Choice::All, 18).expect(rt, "a value");
    let before = heap.counts();
    let told = match call {
        DumpCall::ToMemory => match stored_size(&heap, &dump) {
            Ok(_) => None,
            Err(ToMemoryFault::Memory) => Some(RoundTripFault::Memory),
            Err(ToMemoryFault::Layout(fault)) => Some(RoundTripFault::Layout(fault)),
        },
        _ => fault_back(&heap, &dump, NAMED, 18),
    };
    let behind = heap.counts();
    (
        told,
        behind.growths.saturating_sub(before.growths),
        behind.out.saturating_sub(before.out),
    )
}

/// Asserts that a call succeeds by its growths, each of which may be refused: it is told, none is asked for behind it, all
/// that was taken is given back, and the source that is handed back is read with ample memory. A view takes a directory, a
/// window and two lists, and what is written takes one block.
fn assert_growths(
    rt: &impl Abort,
    alloc: Global,
    file: &[u8],
    reading: u64,
    name: &'static str,
    call: &DumpCall,
) {
    let growths = match call {
        DumpCall::Read => reading,
        DumpCall::OfSource(ReadInto::Value) => reading,
        DumpCall::ToMemory => 1,
        DumpCall::WriteAndRead => reading.saturating_add(1),
        _ => 4,
    };
    for growth in 0..growths.saturating_add(1) {
        let taken = match call {
            DumpCall::ToMemory => written_without(rt, alloc, reading, growth, file, call),
            DumpCall::WriteAndRead => written_without(rt, alloc, reading, growth, file, call),
            _ => read_without(rt, alloc, growth, file, call),
        };
        let expected = if growth < growths {
            (Some(RoundTripFault::Memory), growth.saturating_add(1), 0)
        } else {
            (None, growths, 0)
        };
        assert_same_at(rt, &(name, growth), taken, expected);
    }
}

/// The calls, by their names.
static CALLS: [(&str, DumpCall); 6] = [
    ("read", DumpCall::Read),
    ("read_source", DumpCall::OfSource(ReadInto::Value)),
    ("open", DumpCall::Open),
    ("open_source", DumpCall::OfSource(ReadInto::View)),
    ("to_memory", DumpCall::ToMemory),
    ("write_and_read", DumpCall::WriteAndRead),
];

/// A file, and how many growths it takes to read it: what a lister takes, a list of streams, a list for each that has
/// records of which there may be several, and each name, part and stream of bytes.
static GROWTHS: [(Sample<'static>, u64); 5] = [
    (Sample::Numbers(1, &OVERLAPPING), 4 + 1 + 1 + 2),
    (Sample::Numbers(1, &MODULE), 3 + 1 + 1 + 3),
    (CRASH_FILE, 3 + 1 + 1 + 3),
    (SIX_FILE, 3 + 1 + 1 + 5),
    (SYSTEM_FILE, 3 + 1 + 1),
];

#[test]
fn each_growth_may_be_refused(rt: HostRuntime) {
    for (sample, reading) in &GROWTHS {
        let file = file_of(&rt, rt.alloc(), sample);
        for (name, call) in &CALLS {
            assert_growths(&rt, rt.alloc(), &file, *reading, *name, call);
        }
    }
}
