//! Where the records of a stream stand.
use crate::same::assert_same_at;
use mdmp_lister::{Fault, FaultKind, Shape, StreamKind, range_extent, shape_of};
use mdmp_source::{Extent, Location};

/// The shape of a stream of so many bytes at 4, whose head is these bytes.
fn shape(kind: StreamKind, size: u32, head: [u8; 16]) -> Result<Shape, Fault> {
    let mut file = [0; 4096];
    for i in 0..16 {
        file[4 + i] = head[i];
    }
    if size > 4092 {
        return shape_of(&file, Location { size: 0, rva: 0 }, kind);
    }
    shape_of(&file, Location { size, rva: 4 }, kind)
}

/// A kind, a size and a head of a stream, and its shape.
type ShapeRow = (StreamKind, u32, [u8; 16], Result<Shape, Fault>);

/// The head of a list: three numbers, of which the second has two bytes, and a fourth that is 0.
macro_rules! head {
    ($first:expr, $stride:expr, $count:expr) => {
        head!($first, $stride, 0, $count)
    };
    ($first:expr, $low:expr, $high:expr, $count:expr) => {
        [$first, 0, 0, 0, $low, $high, 0, 0, $count, 0, 0, 0, 0, 0, 0, 0]
    };
}

/// Where the records stand.
macro_rules! stands {
    ($first:expr, $stride:expr, $count:expr) => {
        Ok(Shape {
            first: $first,
            stride: $stride,
            count: $count,
        })
    };
}

/// The fault of a stream.
macro_rules! bad {
    ($kind:ident, $offset:expr, $size:expr) => {
        Err(Fault {
            kind: FaultKind::$kind,
            offset: $offset,
            size: $size,
        })
    };
}

/// A head that counts the most records.
const MOST: [u8; 16] = *b"\x10\0\0\0\xff\xff\xff\xff\xff\xff\xff\xff\xff\xff\xff\xff";

static SHAPES: [ShapeRow; 27] = [
    // A list is padded where four bytes are left.
    (StreamKind::Threads, 52, head!(1, 0, 0), stands!(4, 48, 1)),
    (StreamKind::Threads, 56, head!(1, 0, 0), stands!(8, 48, 1)),
    (StreamKind::Threads, 60, head!(1, 0, 0), stands!(4, 48, 1)),
    (
        StreamKind::Threads,
        51,
        head!(1, 0, 0),
        bad!(BadCount, 4, 1),
    ),
    (
        StreamKind::Threads,
        3,
        head!(1, 0, 0),
        bad!(ShortStream, 4, 3),
    ),
    (StreamKind::Modules, 116, head!(1, 0, 0), stands!(8, 108, 1)),
    (StreamKind::Memory, 24, head!(1, 0, 0), stands!(8, 16, 1)),
    (StreamKind::Memory, 8, head!(0, 0, 0), stands!(8, 16, 0)),
    // Single records have no count.
    (
        StreamKind::Exception,
        168,
        head!(9, 9, 9),
        stands!(0, 168, 1),
    ),
    (
        StreamKind::Exception,
        167,
        head!(9, 9, 9),
        bad!(ShortStream, 4, 167),
    ),
    (StreamKind::System, 56, head!(9, 9, 9), stands!(0, 56, 1)),
    (
        StreamKind::System,
        55,
        head!(9, 9, 9),
        bad!(ShortStream, 4, 55),
    ),
    // Sized lists say where their records stand: 0x3e8 is 1000.
    (
        StreamKind::Unloaded,
        2012,
        head!(12, 0xe8, 3, 2),
        stands!(12, 1000, 2),
    ),
    (
        StreamKind::Unloaded,
        44,
        head!(20, 24, 1),
        stands!(20, 24, 1),
    ),
    (
        StreamKind::Unloaded,
        11,
        head!(12, 24, 1),
        bad!(ShortStream, 4, 11),
    ),
    (
        StreamKind::Unloaded,
        36,
        head!(11, 24, 1),
        bad!(BadHeaderSize, 4, 11),
    ),
    (
        StreamKind::Unloaded,
        36,
        head!(37, 24, 0),
        bad!(BadHeaderSize, 4, 37),
    ),
    (
        StreamKind::Unloaded,
        36,
        head!(12, 23, 1),
        bad!(BadEntrySize, 8, 23),
    ),
    (
        StreamKind::Unloaded,
        36,
        head!(12, 23, 0),
        stands!(12, 23, 0),
    ),
    (
        StreamKind::Unloaded,
        36,
        head!(12, 24, 2),
        bad!(BadCount, 12, 2),
    ),
    (
        StreamKind::MemoryInfo,
        64,
        head!(16, 48, 1),
        stands!(16, 48, 1),
    ),
    (
        StreamKind::MemoryInfo,
        64,
        head!(16, 47, 1),
        bad!(BadEntrySize, 8, 47),
    ),
    // Counts are compared without wrapping.
    (
        StreamKind::MemoryInfo,
        16,
        MOST,
        bad!(BadCount, 12, u64::MAX),
    ),
    (
        StreamKind::Memory64,
        16,
        [0xff; 16],
        bad!(BadCount, 4, u64::MAX),
    ),
    (
        StreamKind::Threads,
        4,
        [0xff; 16],
        bad!(BadCount, 4, 4294967295),
    ),
    (
        StreamKind::Memory64,
        48,
        head!(2, 0, 92),
        stands!(16, 16, 2),
    ),
    (
        StreamKind::Memory64,
        15,
        head!(0, 0, 0),
        bad!(ShortStream, 4, 15),
    ),
];

#[test]
fn records_of_a_stream_stand_where_its_head_says(rt: HostRuntime) {
    for (kind, size, head, expected) in &SHAPES {
        let found = shape(*kind, *size, *head);
        assert_same_at(&rt, &(*kind, *size, *head), found, *expected);
    }
}

#[test]
fn stream_of_no_bytes_is_too_short_wherever_it_is(rt: HostRuntime) {
    let nowhere = Location {
        size: 0,
        rva: u32::MAX,
    };
    let found = shape_of(b"", nowhere, StreamKind::Threads);
    let short = bad!(ShortStream, 4294967295, 0);
    assert_same_at(&rt, &0, found, short);
}

/// The offset and the size of a range, the size of its file, and whether it lies inside.
static EXTENTS: [(u128, u64, u64, Extent); 4] = [
    (44, 4, 48, Extent::Inside),
    (44, 5, 48, Extent::Outside),
    (49, 0, 48, Extent::Empty),
    (1 << 64, 1, u64::MAX, Extent::Outside),
];

#[test]
fn range_lies_inside_up_to_the_end_of_the_file(rt: HostRuntime) {
    for (offset, len, size, extent) in &EXTENTS {
        let found = range_extent(*offset, *len, *size);
        assert_same_at(&rt, offset, found, *extent);
    }
}
