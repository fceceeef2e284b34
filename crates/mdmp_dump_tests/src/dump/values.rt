//! Dumps as values: built, looked at, given back and compared.
use super::built::{bytes, dump_of, read_chosen};
use crate::files::{NAMED, Sample, file_of};
use crate::same::assert_same_at;
use mdmp_dump::{Memory64Range, Records, Stream};
use mdmp_lister::Choice;

#[test]
fn dump_is_built_and_looked_at_and_its_lists_given_back(rt: HostRuntime) {
    let range = Memory64Range {
        start: 0x1000,
        bytes: bytes(&rt, rt.alloc(), b"ABCD"),
    };
    let ranges = Vec::from_array(rt.alloc(), [range]).expect(&rt, "memory for a list");
    let stream = Stream::Memory64(Records::new(ranges));
    let dump = dump_of(&rt, rt.alloc(), [stream]);
    let mut seen: u32 = 0;
    let mut others: u32 = 0;
    for stream in &dump.streams {
        if let Stream::Memory64(ranges) = stream {
            for range in ranges {
                if range.bytes.as_slice() == b"ABCD".as_slice() {
                    seen = seen.saturating_add(1);
                } else {
                    others = others.saturating_add(1);
                }
            }
        }
    }
    assert_same_at(&rt, &"looked at", (seen, others), (1, 0));
    for stream in dump.streams.into_vec() {
        if let Stream::Memory64(ranges) = stream {
            let list = ranges.into_vec();
            assert_same_at(&rt, &"given back", list.len(), 1);
            for range in list {
                let bytes = range.bytes.into_vec();
                assert_same_at(&rt, &"bytes", bytes.as_slice(), b"ABCD".as_slice());
            }
        }
    }
}

/// Two files, and whether their values are the same.
struct ComparedRow {
    one: Sample<'static>,
    other: Sample<'static>,
    are_same: bool,
}

/// An unloaded module of this name.
const NAME: Sample<'static> = Sample::Named(b"\x0a\0\0\0a\0.\0d\0l\0l\0");

/// A range of memory of the bytes `AB`.
const RANGE: Sample<'static> = Sample::Numbers(1, &[5, 20, 44, 1, 0x7000, 0, 2, 64, 0x4241]);

static COMPARED: [ComparedRow; 5] = [
    ComparedRow {
        one: NAME,
        other: NAME,
        are_same: true,
    },
    // Another name.
    ComparedRow {
        one: NAME,
        other: Sample::Named(b"\x0a\0\0\0b\0.\0d\0l\0l\0"),
        are_same: false,
    },
    // The same bytes at another place.
    ComparedRow {
        one: RANGE,
        other: Sample::Numbers(1, &[5, 20, 44, 1, 0x7000, 0, 2, 68, 0, 0x4241]),
        are_same: true,
    },
    // Other bytes.
    ComparedRow {
        one: RANGE,
        other: Sample::Numbers(1, &[5, 20, 44, 1, 0x7000, 0, 2, 64, 0x4341]),
        are_same: false,
    },
    // As many bytes, which are absent.
    ComparedRow {
        one: RANGE,
        other: Sample::Numbers(1, &[5, 20, 44, 1, 0x7000, 0, 2, 0]),
        are_same: false,
    },
];

#[test]
fn names_and_parts_are_compared(rt: HostRuntime) {
    let mut number: u32 = 0;
    for row in &COMPARED {
        let one_file = file_of(&rt, rt.alloc(), &row.one);
        let one = read_chosen(rt.alloc(), &one_file, NAMED, Choice::All, 2).expect(&rt, "one");
        let other_file = file_of(&rt, rt.alloc(), &row.other);
        let other = read_chosen(rt.alloc(), &other_file, NAMED, Choice::All, 2).expect(
            &rt, "other",
        );
        let found = (one == other, one != other);
        assert_same_at(&rt, &number, found, (row.are_same, !row.are_same));
        number = number.saturating_add(1);
    }
}
