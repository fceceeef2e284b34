//! Lists of threads, an exception, and names of threads.
use super::{CRASH_VALUE, Vector};
use crate::files::{
    ABSENT_STACK_READING, ALL, CRASH_FILE, CRASH_READING, DumpReading, LEAST_ROW, NAMED_ROW, Sample,
};
use mdmp_test_support::{ABSENT_STACK, THREAD_NAME, THRICE};

/// The value of a name of a thread.
const NAMED_THREAD_VALUE: &str =
    "Dump { version_high: 0, checksum: 0, time: 0, flags: 0, streams: [ThreadNames([ThreadName { \
thread_id: 7, name: Some(\"abcd\") }])] }";

/// The file that it is written as.
const NAMED_THREAD_FILE: Sample<'static> = Sample::Numbers(
    1,
    &[24, 16, 44, 1, 7, 60, 0, 8, 0x00620061, 0x00640063, 0],
);

/// Lists of threads, an exception, and names of threads.
pub static THREADS: [Vector; 6] = [
    Vector {
        reading: ABSENT_STACK_READING,
        value: "Dump { version_high: 0, checksum: 0, time: 0, flags: 0, streams: [Threads([Thread { thread_id: 7, \
suspend_count: 0, priority_class: 0, priority: 0, teb: 0, stack_start: 28672, stack: \
Absent(PositiveSize { size: 256 }), context: Bytes([170]) }])] }",
        written: Sample::Numbers(1, &ABSENT_STACK),
    },
    Vector {
        reading: CRASH_READING,
        value: CRASH_VALUE,
        written: CRASH_FILE,
    },
    Vector {
        reading: DumpReading {
            name: "a list of one thread that three entries name",
            sample: Sample::Numbers(3, &THRICE),
            types: ALL,
            limits: LEAST_ROW,
            parts: 0,
        },
        value: "Dump { version_high: 0, checksum: 0, time: 0, flags: 0, streams: [Threads([Thread { thread_id: 7, \
suspend_count: 0, priority_class: 0, priority: 0, teb: 0, stack_start: 0, stack: Bytes([]), context: \
Bytes([]) }]), Threads([Thread { thread_id: 7, suspend_count: 0, priority_class: 0, priority: 0, \
teb: 0, stack_start: 0, stack: Bytes([]), context: Bytes([]) }]), Threads([Thread { thread_id: 7, \
suspend_count: 0, priority_class: 0, priority: 0, teb: 0, stack_start: 0, stack: Bytes([]), context: \
Bytes([]) }])] }",
        written: Sample::Numbers(
            3,
            &[
                3, 52, 68, 3, 52, 120, 3, 52, 172, // the directory
                1, 7, 0, 0, 0, 0, 0, 0, 0, 0, 0, 0, 0, // the thread
                1, 7, 0, 0, 0, 0, 0, 0, 0, 0, 0, 0, 0, // once more
                1, 7, 0, 0, 0, 0, 0, 0, 0, 0, 0, 0, 0, // and once more
            ],
        ),
    },
    Vector {
        reading: DumpReading {
            name: "a name of a thread",
            sample: Sample::Numbers(1, &THREAD_NAME),
            types: ALL,
            limits: NAMED_ROW,
            parts: 0,
        },
        value: NAMED_THREAD_VALUE,
        written: NAMED_THREAD_FILE,
    },
    Vector {
        reading: DumpReading {
            name: "a name of a thread behind padding, which is not written",
            sample: Sample::Numbers(1, &[24, 20, 44, 1, 9, 7, 64, 0, 8, 0x00620061, 0x00640063]),
            types: ALL,
            limits: NAMED_ROW,
            parts: 0,
        },
        value: NAMED_THREAD_VALUE,
        written: NAMED_THREAD_FILE,
    },
    Vector {
        reading: DumpReading {
            name: "a name of a thread that stands nowhere",
            sample: Sample::Numbers(1, &[24, 16, 44, 1, 7, 0, 0, 8, 0x00620061, 0x00640063]),
            types: ALL,
            limits: NAMED_ROW,
            parts: 0,
        },
        value: "Dump { version_high: 0, checksum: 0, time: 0, flags: 0, streams: [ThreadNames([ThreadName { \
thread_id: 7, name: None }])] }",
        written: Sample::Numbers(1, &[24, 16, 44, 1, 7, 0, 0]),
    },
];
