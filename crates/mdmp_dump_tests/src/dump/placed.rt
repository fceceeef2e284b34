//! Sizes over 0, sizes of parts, and a record with the places of its name and parts.
use crate::same::assert_same_at;
use mdmp_dump::{Fields, PartSize, PositiveSize};
use mdmp_source::Location;
use mdmp_wire::{AnyRecord, Descriptor, ThreadRecord};

/// Where no byte stands.
const NOWHERE: Location = Location { size: 0, rva: 0 };

/// A thread whose stack and registers have no locations.
const THREAD: ThreadRecord = ThreadRecord {
    thread_id: 7,
    suspend_count: 0,
    priority_class: 32,
    priority: 0,
    teb: 0x5000,
    stack: Descriptor {
        start_of_memory_range: 0x7000,
        memory: NOWHERE,
    },
    thread_context: NOWHERE,
};

/// How large the stack and the registers of a thread are, how much room they take, and where they are written
/// from 100 on.
struct PlacedRow {
    name: &'static str,
    stack_size: PartSize,
    context_size: PartSize,
    room: u128,
    stack: Location,
    thread_context: Location,
}

static PLACED: [PlacedRow; 2] = [
    PlacedRow {
        name: "parts stand one behind the other",
        stack_size: PartSize::Size(6),
        context_size: PartSize::Size(4),
        room: 12,
        stack: Location { size: 6, rva: 100 },
        thread_context: Location { size: 4, rva: 108 },
    },
    PlacedRow {
        name: "absent and empty parts take no room",
        stack_size: PartSize::Absent(256),
        context_size: PartSize::Size(0),
        room: 0,
        stack: Location { size: 256, rva: 0 },
        thread_context: NOWHERE,
    },
];

#[test]
fn parts_are_placed_one_behind_the_other(rt: HostRuntime) {
    for row in &PLACED {
        let fields = Fields {
            wire: AnyRecord::Thread(THREAD),
            parts: [row.stack_size, row.context_size, PartSize::NoPart],
        };
        let room = fields.room();
        assert_same_at(&rt, &row.name, room, row.room);
        if room < 1 << 31 {
            let expected = ThreadRecord {
                stack: Descriptor {
                    start_of_memory_range: 0x7000,
                    memory: row.stack,
                },
                thread_context: row.thread_context,
                ..THREAD
            };
            let found = fields.placed(100);
            assert_same_at(&rt, &row.name, found, AnyRecord::Thread(expected));
        }
    }
}

/// Sizes, and what they are as ones over 0.
static OVER_ZERO: [(u32, Option<u32>, &str); 5] = [
    (0, None, "None"),
    (1, Some(1), "Some(PositiveSize { size: 1 })"),
    (7, Some(7), "Some(PositiveSize { size: 7 })"),
    (8, Some(8), "Some(PositiveSize { size: 8 })"),
    (
        u32::MAX,
        Some(u32::MAX),
        "Some(PositiveSize { size: 4294967295 })",
    ),
];

#[test]
fn sizes_are_told_compared_and_printed(rt: HostRuntime) {
    for (size, expected, text) in &OVER_ZERO {
        let positive = PositiveSize::new(*size);
        let told = match positive {
            Some(over) => Some(over.get()),
            None => None,
        };
        let printed = format!(in rt.alloc(); "{positive:?}").expect(&rt, "memory for a text");
        let found = (told, positive == PositiveSize::new(7), printed.as_str());
        assert_same_at(&rt, size, found, (*expected, *size == 7, *text));
    }
    let bytes = PartSize::Size(5).size();
    let absent = PartSize::Absent(5).size();
    let none = PartSize::NoPart.size();
    assert_same_at(&rt, &"parts", [bytes, absent, none], [5, 0, 0]);
}
