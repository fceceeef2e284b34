//! Numbers of the header, unused entries, and raw streams.
use super::Vector;
use crate::files::{ALL, DumpReading, LEAST_ROW, Sample};
use mdmp_test_support::COMMENT;

/// A file without streams, whose header has numbers.
pub const HEADER_READING: DumpReading = DumpReading {
    name: "numbers of the header",
    sample: Sample::Parts(
        &[b"MDMP\x93\xa7\xaa\x12\0\0\0\0\xff\xff\xff\xff\x01\0\0\0\x02\0\0\0\x03\0\0\0\0\0\0\x04"],
        32,
    ),
    types: ALL,
    limits: LEAST_ROW,
    parts: 0,
};

/// Headers, unused entries and raw streams.
pub static RAW: [Vector; 4] = [
    Vector {
        reading: HEADER_READING,
        value: "Dump { version_high: 4778, checksum: 1, time: 2, flags: 288230376151711747, streams: [] }",
        written: Sample::Parts(
            &[b"MDMP\x93\xa7\xaa\x12\0\0\0\0\x20\0\0\0\x01\0\0\0\x02\0\0\0\x03\0\0\0\0\0\0\x04"],
            32,
        ),
    },
    Vector {
        reading: DumpReading {
            name: "an unused entry and a stream without bytes",
            sample: Sample::Numbers(2, &[0, 7, 4294967295, 10, 0, 0]),
            types: ALL,
            limits: LEAST_ROW,
            parts: 0,
        },
        value: "Dump { version_high: 0, checksum: 0, time: 0, flags: 0, streams: [Unused, Raw(10, [])] }",
        written: Sample::Numbers(2, &[0, 0, 0, 10, 0, 0]),
    },
    Vector {
        reading: DumpReading {
            name: "a stream of another type",
            sample: Sample::Cut(1, &COMMENT, 49),
            types: ALL,
            limits: LEAST_ROW,
            parts: 5,
        },
        value: "Dump { version_high: 0, checksum: 0, time: 0, flags: 0, streams: [Raw(10, [1, 2, 3, 4, 5])] }",
        written: Sample::Numbers(1, &COMMENT),
    },
    Vector {
        reading: DumpReading {
            name: "raw streams in another order, of which one has no bytes and one is unused",
            sample: Sample::Numbers(
                4,
                &[10, 5, 84, 0, 0, 0, 11, 0, 0, 12, 1, 80, 6, 0x04030201, 5],
            ),
            types: ALL,
            limits: LEAST_ROW,
            parts: 6,
        },
        value: "Dump { version_high: 0, checksum: 0, time: 0, flags: 0, streams: [Raw(10, [1, 2, 3, 4, 5]), Unused, \
Raw(11, []), Raw(12, [6])] }",
        written: Sample::Numbers(
            4,
            &[10, 5, 80, 0, 0, 0, 11, 0, 0, 12, 1, 88, 0x04030201, 5, 6],
        ),
    },
];
