//! The name at an address of a file.
use crate::files::first_bytes;
use crate::given::{ABCD, ABCDE, EMPTY_NAME, Named, plain_name};
use crate::same::assert_same_at;
use mdmp_lister::{Fault, FaultKind, name_at};

/// Bytes at 4 of a file of so many, the place and the limit of a name in it, and what is found there.
struct PlacedName {
    bytes: &'static [u8],
    size: usize,
    at: u64,
    limit: u32,
    found: Result<Named, Fault>,
}

/// A name that is found.
macro_rules! name {
    ($bytes:expr, $size:expr, $at:expr, $limit:expr, $name:expr) => {
        PlacedName {
            bytes: $bytes,
            size: $size,
            at: $at,
            limit: $limit,
            found: Ok($name),
        }
    };
}

/// A bad name, whose length stands at 4.
macro_rules! bad {
    ($length:expr, $size:expr, $at:expr, $kind:expr, $offset:expr, $told:expr) => {
        PlacedName {
            bytes: &[$length],
            size: $size,
            at: $at,
            limit: 8,
            found: Err(Fault {
                kind: $kind,
                offset: $offset,
                size: $told,
            }),
        }
    };
}

static NAMES: [PlacedName; 11] = [
    // A name of the limit is lent.
    name!(b"\x08\0\0\0a\0b\0c\0d\0", 16, 4, 8, ABCD),
    // One of no units is a name.
    name!(&[0; 4], 8, 4, 8, EMPTY_NAME),
    name!(&[0; 4], 8, 0, 8, Named::None),
    // One over the limit is long.
    name!(b"\x0a\0\0\0a\0b\0c\0d\0e\0", 18, 4, 8, Named::Long(10)),
    name!(b"\x0a\0\0\0a\0b\0c\0d\0e\0", 18, 4, 10, ABCDE),
    bad!(7, 32, 4, FaultKind::NameOdd, 4, 7),
    // An odd length is told before its bytes are looked for.
    bad!(7, 8, 4, FaultKind::NameOdd, 4, 7),
    // And bytes that are not there before their number is compared with the limit.
    bad!(10, 16, 4, FaultKind::NameUnitsOutside, 8, 10),
    bad!(10, 7, 4, FaultKind::NameLengthOutside, 4, 4),
    bad!(
        10,
        32,
        4294967295,
        FaultKind::NameLengthOutside,
        4294967295,
        4
    ),
    // The sum of the place and the length of its length is past 2^64.
    bad!(
        10,
        32,
        18446744073709551612,
        FaultKind::NameLengthOutside,
        18446744073709551612,
        4
    ),
];

#[test]
fn name_is_lent_or_long_or_bad_in_order(rt: HostRuntime) {
    for (number, row) in NAMES.iter().enumerate() {
        let mut file = [0; 32];
        for i in 0..row.bytes.len().min(28) {
            file[4 + i] = row.bytes[i];
        }
        let found = match name_at(first_bytes(&rt, &file, row.size), row.at, row.limit) {
            Ok(name) => Ok(plain_name(&rt, rt.alloc(), &name)),
            Err(fault) => Err(fault),
        };
        assert_same_at(&rt, &(number, row.at, row.limit), found, row.found);
    }
}
