//! Ranges of memory.
use super::Vector;
use crate::files::{ALL, DumpReading, LEAST_ROW, MEMORY64_FILE, MEMORY64_READING, Sample};
use mdmp_test_support::OVERLAPPING;

/// Ranges of memory.
pub static MEMORY: [Vector; 4] = [
    Vector {
        reading: DumpReading {
            name: "ranges of memory",
            sample: Sample::Numbers(1, &OVERLAPPING),
            types: ALL,
            limits: LEAST_ROW,
            parts: 8,
        },
        value: "Dump { version_high: 0, checksum: 0, time: 0, flags: 0, streams: [Memory([MemoryRange { start: 4096, \
bytes: Bytes([65, 66, 67, 68]) }, MemoryRange { start: 4098, bytes: Bytes([119, 120, 121, 122]) }])] \
}",
        written: Sample::Numbers(1, &OVERLAPPING),
    },
    Vector {
        reading: DumpReading {
            name: "ranges whose bytes are absent or none",
            sample: Sample::Numbers(1, &[5, 36, 44, 2, 0x1000, 0, 4, 0, 0x2000, 0, 0, 80]),
            types: ALL,
            limits: LEAST_ROW,
            parts: 0,
        },
        value: "Dump { version_high: 0, checksum: 0, time: 0, flags: 0, streams: [Memory([MemoryRange { start: 4096, \
bytes: Absent(PositiveSize { size: 4 }) }, MemoryRange { start: 8192, bytes: Bytes([]) }])] }",
        written: Sample::Numbers(1, &[5, 36, 44, 2, 0x1000, 0, 4, 0, 0x2000, 0, 0, 0]),
    },
    Vector {
        reading: MEMORY64_READING,
        value: "Dump { version_high: 0, checksum: 0, time: 0, flags: 0, streams: [Memory64([Memory64Range { start: \
4096, bytes: [65, 66, 67, 68] }, Memory64Range { start: 8192, bytes: [69, 70, 71, 72] }])] }",
        written: MEMORY64_FILE,
    },
    Vector {
        reading: DumpReading {
            name: "lists of 64-bit memory, whose bytes are written behind all streams",
            sample: Sample::Numbers(
                4,
                &[
                    9, 48, 80, 10, 1, 128, 9, 32, 132, 9, 16, 164, // the directory
                    2, 0, 184, 0, 0x1000, 0, 5, 0, 0x2000, 0, 1, 0, // two ranges
                    1, // the raw byte
                    1, 0, 180, 0, 0x3000, 0, 2, 0, // one range
                    0, 0, 0, 0, // none
                    0x4847, 0x44434241, 0x4645,
                ],
            ),
            types: ALL,
            limits: LEAST_ROW,
            parts: 9,
        },
        value: "Dump { version_high: 0, checksum: 0, time: 0, flags: 0, streams: [Memory64([Memory64Range { start: \
4096, bytes: [65, 66, 67, 68, 69] }, Memory64Range { start: 8192, bytes: [70] }]), Raw(10, [1]), \
Memory64([Memory64Range { start: 12288, bytes: [71, 72] }]), Memory64([])] }",
        written: Sample::Numbers(
            4,
            &[
                9, 48, 80, 10, 1, 128, 9, 32, 132, 9, 16, 164, // the directory
                2, 0, 180, 0, 0x1000, 0, 5, 0, 0x2000, 0, 1, 0, // two ranges
                1, // the raw byte
                1, 0, 188, 0, 0x3000, 0, 2, 0, // one range
                0, 0, 192, 0, // none, behind the bytes of the others
                0x44434241, 0x4645, 0x4847,
            ],
        ),
    },
];
