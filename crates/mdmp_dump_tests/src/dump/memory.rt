//! The memory that a dump takes.
use super::built::{fault_of, read_chosen};
use crate::files::{CRASH_FILE, SYSTEM_FILE, Sample, file_of};
use crate::same::assert_same_at;
use linked_list_allocator::LocalHeap;
use mdmp_dump::{MemoryRange, ReadFault, Stream, Thread};
use mdmp_lister::{Choice, Limits};
use mdmp_test_support::{MODULE, OVERLAPPING, limits};
use std::alloc::Global;
use std::mem::size_of;
use std::process::Abort;

/// A window of 176 bytes and names of 32, both multiples of 16 as a heap's blocks are.
const LIMITS: Limits = limits!(176, 32);

/// Two ranges of memory.
const RANGES: Sample<'static> = Sample::Numbers(1, &OVERLAPPING);

/// Why a file is not read in a heap of so many bytes, and how much of the heap is used behind it.
fn fault_in(
    rt: &impl Abort,
    alloc: Global,
    heap_size: usize,
    file: &[u8],
) -> (Option<ReadFault>, usize) {
    let heap = LocalHeap::new(alloc, heap_size).expect(rt, "a heap");
    let fault = fault_of(&heap, file, LIMITS, 14);
    (fault, heap.used())
}

/// Reads a file in greater and greater heaps, as long as memory is wanted and all of it given back, and asserts that the
/// first heap of which another thing comes suffices.
fn assert_wanting(rt: &impl Abort, alloc: Global, number: u32, sample: &Sample<'static>) {
    let file = file_of(rt, alloc, sample);
    for step in 0..200 {
        let found = fault_in(rt, alloc, 16 * step, &file);
        if found != (Some(ReadFault::Memory), 0) {
            assert_same_at(rt, &number, found, (None, 0));
            return;
        }
    }
    rt.panic("a heap that suffices")
}

/// Files that are read in a heap that suffices, and want memory in each smaller one.
static WANTING: [Sample<'static>; 4] = [
    SYSTEM_FILE,
    CRASH_FILE,
    Sample::Numbers(1, &MODULE),
    RANGES,
];

#[test]
fn want_of_memory_is_told_at_each_growth(rt: HostRuntime) {
    let mut number: u32 = 0;
    for sample in &WANTING {
        assert_wanting(&rt, rt.alloc(), number, sample);
        number = number.saturating_add(1);
    }
    // The window, the directory and the name alone take 224 bytes.
    let file = file_of(&rt, rt.alloc(), &SYSTEM_FILE);
    let found = fault_in(&rt, rt.alloc(), 224, &file);
    assert_same_at(&rt, &"224", found, (Some(ReadFault::Memory), 0));
}

/// Asserts how much of a heap the dump of a file uses.
fn assert_used(rt: &impl Abort, alloc: Global, file: &[u8], size: usize) {
    let heap = LocalHeap::new(alloc, 1 << 16).expect(rt, "a heap");
    let _dump = read_chosen(&heap, file, LIMITS, Choice::All, 14).expect(rt, "a value");
    assert_same_at(rt, &file.len(), heap.used(), size);
}

/// How much of a heap a list of so many bytes takes.
fn block(bytes: usize) -> usize {
    bytes.div_ceil(16).saturating_mul(16)
}

#[test]
fn memory_is_that_of_the_lists_which_take_their_room_once(rt: HostRuntime) {
    let stream = size_of::<Stream<&LocalHeap>>();
    // Two streams, a thread, and three parts of one block each.
    let thread = block(size_of::<Thread<&LocalHeap>>());
    let size = block(stream.saturating_mul(2))
        .saturating_add(thread)
        .saturating_add(48);
    let file = file_of(&rt, rt.alloc(), &CRASH_FILE);
    assert_used(&rt, rt.alloc(), &file, size);
    // Beside it stand a directory of 32 bytes, a window of 176 and a name of 32.
    let less = fault_in(&rt, rt.alloc(), size.saturating_add(224), &file);
    let enough = fault_in(&rt, rt.alloc(), size.saturating_add(240), &file);
    let expected = ((Some(ReadFault::Memory), 0), (None, 0));
    assert_same_at(&rt, &"less and enough", (less, enough), expected);
    // A stream, two ranges, and the bytes of each of these, a block each.
    let ranges = block(size_of::<MemoryRange<&LocalHeap>>().saturating_mul(2));
    let size = block(stream).saturating_add(ranges).saturating_add(32);
    let file = file_of(&rt, rt.alloc(), &RANGES);
    assert_used(&rt, rt.alloc(), &file, size);
}
