//! Systems, a region of memory, and files with streams of several kinds.
use super::{CRASH_VALUE, Vector};
use crate::files::{
    ALL, CRASH_FILE, DumpReading, LEAST_ROW, SIX_FILE, SIX_READING, SYSTEM_FILE, SYSTEM_READING,
    Sample,
};
use mdmp_test_support::FAULTY;

/// A region of memory.
pub const REGION: [u32; 19] = [
    16, 64, 44, 16, 48, 1, 0, // the directory, and the head
    4096, 0, 4096, 0, 4, 0, 8192, 0, 4096, 4, 131072, 0,
];

/// Systems, a region of memory, and streams of several kinds.
pub static MIXED: [Vector; 5] = [
    Vector {
        reading: SYSTEM_READING,
        value: "Dump { version_high: 0, checksum: 0, time: 0, flags: 0, streams: [System(System { \
processor_architecture: 9, processor_level: 6, processor_revision: 3, number_of_processors: 4, \
product_type: 1, major_version: 6, minor_version: 1, build_number: 7601, platform_id: 2, name: \
Some(\"Service Pack 1\"), suite_mask: 256, reserved2: 0, cpu: [0, 0, 0, 0, 0, 0, 0, 0, 0, 0, 0, 0, \
0, 0, 0, 0, 0, 0, 0, 0, 0, 0, 0, 0] })] }",
        written: SYSTEM_FILE,
    },
    Vector {
        reading: DumpReading {
            name: "chosen entries, of which the others have faults",
            sample: Sample::Numbers(3, &FAULTY),
            types: &[7],
            limits: LEAST_ROW,
            parts: 0,
        },
        value: "Dump { version_high: 0, checksum: 0, time: 0, flags: 0, streams: [System(System { \
processor_architecture: 0, processor_level: 0, processor_revision: 0, number_of_processors: 0, \
product_type: 0, major_version: 0, minor_version: 0, build_number: 0, platform_id: 0, name: None, \
suite_mask: 0, reserved2: 0, cpu: [0, 0, 0, 0, 0, 0, 0, 0, 0, 0, 0, 0, 0, 0, 0, 0, 0, 0, 0, 0, 0, 0, \
0, 0] })] }",
        written: Sample::Numbers(1, &[7, 56, 44, 0, 0, 0, 0, 0, 0, 0, 0, 0, 0, 0, 0, 0, 0]),
    },
    Vector {
        reading: DumpReading {
            name: "a region of memory",
            sample: Sample::Numbers(1, &REGION),
            types: ALL,
            limits: LEAST_ROW,
            parts: 0,
        },
        value: "Dump { version_high: 0, checksum: 0, time: 0, flags: 0, streams: [MemoryInfo([MemoryInfoRecord { \
base_address: 4096, allocation_base: 4096, allocation_protect: 4, region_size: 8192, state: 4096, \
protect: 4, memory_type: 131072 }])] }",
        written: Sample::Numbers(1, &REGION),
    },
    Vector {
        reading: SIX_READING,
        value: "Dump { version_high: 0, checksum: 0, time: 0, flags: 0, streams: [System(System { \
processor_architecture: 9, processor_level: 6, processor_revision: 3, number_of_processors: 4, \
product_type: 1, major_version: 6, minor_version: 1, build_number: 7601, platform_id: 2, name: \
Some(\"Service Pack 1\"), suite_mask: 256, reserved2: 0, cpu: [0, 0, 0, 0, 0, 0, 0, 0, 0, 0, 0, 0, \
0, 0, 0, 0, 0, 0, 0, 0, 0, 0, 0, 0] }), Threads([Thread { thread_id: 7, suspend_count: 0, \
priority_class: 32, priority: 0, teb: 20480, stack_start: 28672, stack: Bytes([83, 84, 65, 75]), \
context: Bytes([1, 2, 3, 4, 5, 6]) }]), Modules([]), Exception(Exception { thread_id: 7, \
exception_code: 3221225477, exception_flags: 0, exception_record: 0, exception_address: 4198400, \
number_parameters: 2, exception_information: [1, 16, 0, 0, 0, 0, 0, 0, 0, 0, 0, 0, 0, 0, 0], \
context: Bytes([170, 187, 204, 221]) }), Memory([]), Raw(12, [1, 2, 3, 4])] }",
        written: SIX_FILE,
    },
    Vector {
        reading: DumpReading {
            name: "a thread and an exception chosen of six streams",
            sample: SIX_FILE,
            types: &[3, 6],
            limits: LEAST_ROW,
            parts: 14,
        },
        value: CRASH_VALUE,
        written: CRASH_FILE,
    },
];
