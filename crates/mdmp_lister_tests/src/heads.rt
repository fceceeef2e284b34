//! The header of a file in memory, and the ranges of a file listed for themselves.
use crate::files::{file_of, first_bytes};
use crate::opening::{fault, listed_ranges};
use crate::same::assert_same_at;
use crate::script::STANDARD;
use mdmp_lister::{FaultKind, ListFault, OpenFault, header_of};
use mdmp_source::MemoryStore;
use mdmp_test_support::{OVERLAPPING, SYSTEM};

/// A header of one stream at 32, whose signature begins with this byte, and whose version does with that.
macro_rules! header {
    ($signature:expr, $version:expr, $streams:expr, $rva:expr) => {
        &[
            $signature, b'D', b'M', b'P', $version, 0xa7, 0, 0, $streams, 0, 0, 0, $rva, 0, 0, 0, 0,
            0, 0, 0, 0, 0, 0, 0, 0, 0, 0, 0, 0, 0, 0, 0,
        ]
    };
}

/// How many bytes of a file there are, and the number of streams that its header tells, or its fault.
static HEADERS: [(usize, &[u8], Result<u32, OpenFault>); 6] = [
    (136, &SYSTEM, Ok(1)),
    (32, header!(b'M', 0x93, 0, 7), Ok(0)),
    // Faults are told in order.
    (31, &SYSTEM, Err(OpenFault::TooShort { size: 31 })),
    (32, header!(0, 0, 1, 32), Err(OpenFault::BadSignature)),
    (
        32,
        header!(b'M', 0, 1, 32),
        Err(OpenFault::BadVersion { low: 0xa700 }),
    ),
    (
        32,
        header!(b'M', 0x93, 1, 32),
        Err(OpenFault::DirectoryOutside {
            offset: 32,
            size: 12,
        }),
    ),
];

#[test]
fn header_tells_its_streams_or_its_first_fault(rt: HostRuntime) {
    for i in 0..HEADERS.len() {
        let (size, file, expected) = &HEADERS[i];
        let found = match header_of(first_bytes(&rt, file, *size)) {
            Ok(header) => Ok(header.number_of_streams),
            Err(fault) => Err(fault),
        };
        assert_same_at(&rt, &i, found, *expected);
    }
}

/// How many bytes of `OVERLAPPING` there are, what ends a listing of its ranges, and how many are mapped.
static LISTED: [(usize, Result<(), ListFault>, usize); 2] = [
    (88, Ok(()), 2),
    (60, Err(fault!(None, FaultKind::StreamOutside, 44, 36)), 0),
];

#[test]
fn list_ranges_succeeds(rt: HostRuntime) {
    let file = file_of(&rt, rt.alloc(), 1, &OVERLAPPING);
    for (size, ended, mapped) in &LISTED {
        let store = MemoryStore::new(first_bytes(&rt, &file, *size));
        let found = listed_ranges(rt.alloc(), store, STANDARD);
        assert_same_at(&rt, size, found, Some((*ended, *mapped)));
    }
}
