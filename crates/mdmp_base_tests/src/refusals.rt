//! Calls that take memory, each of whose growths is refused, and heaps that are too small for them.
use crate::same::assert_same_at;
use crate::wire::units::over;
use linked_list_allocator::LocalHeap;
use mdmp_map::AddressMap;
use mdmp_source::{FileStore, PatchyOut, Window};
use mdmp_test_support::{HeapCounts, MeteredHeap, Refusal};
use mdmp_wire::{Units, text_survives_utf16};
use std::alloc::{Allocator, Global};
use std::fs;
use std::process::Abort;

/// A call that takes memory.
enum MemoryCall {
    /// A window of that room.
    Window(usize),
    /// An output in memory.
    Patchy,
    /// A map with that room.
    Map(usize),
    /// The units of a text.
    UnitsOfText(&'static str),
    /// The units of these bytes.
    UnitsOfBytes(&'static [u8]),
    /// The units that stand in these bytes, in memory of their own.
    OwnUnits(&'static [u8]),
    /// The text of the units that stand in these bytes.
    Text(&'static [u8]),
}

/// The nine units of `symbol.db`.
const NINE: &[u8] = b"s\0y\0m\0b\0o\0l\0.\0d\0b\0";

/// Whether the call succeeds with memory of this heap.
fn succeeds<A: Allocator + Copy>(rt: &impl Abort, heap: A, call: &MemoryCall) -> bool {
    match call {
        MemoryCall::Window(room) => Window::with_room(heap, *room).is_ok(),
        MemoryCall::Patchy => PatchyOut::with_room(heap, 168, 7, None).is_ok(),
        MemoryCall::Map(room) => AddressMap::with_room(heap, *room).is_ok(),
        MemoryCall::UnitsOfText(text) => {
            text_survives_utf16(*text);
            Units::from_str(heap, *text).is_ok()
        }
        MemoryCall::UnitsOfBytes(bytes) => {
            assert!(rt; bytes.len() % 2 == 0);
            Units::from_le(heap, *bytes).is_ok()
        }
        MemoryCall::OwnUnits(bytes) => over(rt, *bytes).to_owned(heap).is_ok(),
        MemoryCall::Text(bytes) => over(rt, *bytes).to_utf8(heap).is_ok(),
    }
}

/// Tells by how many growths a call succeeds, of which one that is refused is its last; each call gives back all that
/// it takes.
fn growths_of(rt: &impl Abort, alloc: Global, name: &str, call: &MemoryCall) -> u32 {
    for growth in 0..20u32 {
        let heap = MeteredHeap::new(alloc, Refusal::Only(u64::from(growth)));
        let is_ok = succeeds(rt, &heap, call);
        let counts = heap.counts();
        let growths = if is_ok { growth } else { growth + 1 };
        assert_same_at(
            rt,
            &(name, growth),
            (counts.growths, counts.out),
            (u64::from(growths), 0),
        );
        if is_ok {
            return growth;
        }
    }
    rt.panic("too many growths")
}

/// Calls, and by how many growths each succeeds, if not only by some.
static CALLS: [(&str, MemoryCall, Option<u32>); 7] = [
    ("a window", MemoryCall::Window(168), Some(1)),
    ("an output", MemoryCall::Patchy, Some(1)),
    ("a map", MemoryCall::Map(2), Some(1)),
    ("units of bytes", MemoryCall::UnitsOfBytes(NINE), Some(1)),
    ("own units", MemoryCall::OwnUnits(NINE), Some(1)),
    (
        "units of a text",
        MemoryCall::UnitsOfText("symbol.db"),
        None,
    ),
    ("a text", MemoryCall::Text(NINE), None),
];

#[test]
fn each_growth_of_a_call_may_be_refused(rt: HostRuntime) {
    for (name, call, expected) in &CALLS {
        let growths = growths_of(&rt, rt.alloc(), *name, call);
        assert_same_at(&rt, name, growths, expected.unwrap_or(growths.max(1)));
    }
}

/// The size of a heap, and whether a call succeeds with its memory.
static HEAPS: [(usize, &str, MemoryCall, bool); 13] = [
    (16, "a window of 17 bytes", MemoryCall::Window(17), false),
    // Two ranges have 48 bytes.
    (32, "a map of two", MemoryCall::Map(2), false),
    (32, "the largest map", MemoryCall::Map(usize::MAX), false),
    // The smallest heap has 16 bytes, so 9 units do not fit. In 32 bytes they do, and no text beside them.
    (
        0,
        "units of bytes",
        MemoryCall::UnitsOfBytes(&[0; 18]),
        false,
    ),
    (0, "own units", MemoryCall::OwnUnits(NINE), false),
    (0, "a text", MemoryCall::Text(NINE), false),
    (
        0,
        "units of a text",
        MemoryCall::UnitsOfText("symbol.db"),
        false,
    ),
    (
        32,
        "units of bytes",
        MemoryCall::UnitsOfBytes(&[0; 18]),
        true,
    ),
    (32, "own units", MemoryCall::OwnUnits(NINE), true),
    (32, "a text", MemoryCall::Text(NINE), false),
    // A text is made of its units as numbers, in 48 bytes with both: it takes no more.
    (
        48,
        "units of bytes",
        MemoryCall::UnitsOfBytes(&[0; 18]),
        true,
    ),
    (48, "own units", MemoryCall::OwnUnits(NINE), true),
    (48, "a text", MemoryCall::Text(NINE), true),
];

#[test]
fn call_fails_in_a_heap_that_is_too_small(rt: HostRuntime) {
    for (size, name, call, is_ok) in &HEAPS {
        let heap = LocalHeap::new(rt.alloc(), *size).expect(&rt, "a heap");
        assert_same_at(&rt, &(size, name), succeeds(&rt, &heap, call), *is_ok);
    }
}

#[test]
fn block_of_a_file_is_one_growth_which_may_be_refused(rt: HostRuntime) {
    fs::write(&rt, "block", "abcdef").expect(&rt, "a file");
    for (growth, is_opened, peak) in &[(0, false, 0), (1, true, 16_384)] {
        let counts = HeapCounts {
            growths: 1,
            bytes: 16_384,
            out: 0,
            held: 0,
            peak: *peak,
        };
        let heap = MeteredHeap::new(rt.alloc(), Refusal::Only(*growth));
        let found = FileStore::open(&(&rt, &heap), "block").is_ok();
        assert_same_at(&rt, growth, (found, heap.counts()), (*is_opened, counts));
    }
}
