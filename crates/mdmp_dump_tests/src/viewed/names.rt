//! Names through a view.
use super::write_over;
use crate::dump::built::fault_of;
use crate::files::{EIGHT, Sample, file_of};
use crate::same::assert_same_at;
use mdmp_dump::ReadFault;
use mdmp_lister::{FaultKind, ListFault};
use mdmp_source::MemoryStore;

/// An unloaded module, and the size of the file that it is written as, zeros behind what it is, or why it is refused, as
/// it gives no value for the same reason.
struct NameRow {
    name: &'static str,
    sample: Sample<'static>,
    written: Result<usize, ReadFault>,
}

static NAMES: [NameRow; 12] = [
    // Behind the record its length, its units, the zero that ends it, and two bytes up to a multiple of 4.
    NameRow {
        name: "a name of the limit",
        sample: Sample::Named(b"\x08\0\0\0a\0b\0c\0d\0"),
        written: Ok(96),
    },
    NameRow {
        name: "a name of two bytes more",
        sample: Sample::Named(b"\x0a\0\0\0a\0b\0c\0d\0e\0"),
        written: Err(ReadFault::NameTooLong {
            entry: 0,
            index: 0,
            length: 10,
        }),
    },
    NameRow {
        name: "a name of no bytes, which is written in eight",
        sample: Sample::Named(b"\0\0\0\0"),
        written: Ok(88),
    },
    NameRow {
        name: "a name that is not there",
        sample: Sample::Numbers(1, &[14, 36, 44, 12, 24, 1, 0, 0, 0, 0, 0, 0]),
        written: Ok(80),
    },
    NameRow {
        name: "an odd name",
        sample: Sample::Named(b"\x03\0\0\0abc"),
        written: Err(ReadFault::List(ListFault {
            entry: 0,
            index: Some(0),
            kind: FaultKind::NameOdd,
            offset: 80,
            size: 3,
        })),
    },
    NameRow {
        name: "a name whose units lie outside",
        sample: Sample::Named(b"\x04\0\0\0abc"),
        written: Err(ReadFault::List(ListFault {
            entry: 0,
            index: Some(0),
            kind: FaultKind::NameUnitsOutside,
            offset: 84,
            size: 4,
        })),
    },
    NameRow {
        name: "a name whose length ends outside",
        sample: Sample::Named(b"\x04\0\0"),
        written: NO_LENGTH,
    },
    NameRow {
        name: "a name whose length begins outside",
        sample: Sample::Named(b""),
        written: NO_LENGTH,
    },
    // Over the limit, and odd or past the end of the file: the first fault is told.
    NameRow {
        name: "a long name past the end",
        sample: Sample::Named(b"\x0a\0\0\0abc"),
        written: Err(ReadFault::List(ListFault {
            entry: 0,
            index: Some(0),
            kind: FaultKind::NameUnitsOutside,
            offset: 84,
            size: 10,
        })),
    },
    NameRow {
        name: "a long odd name",
        sample: Sample::Named(b"\x09\0\0\0a\0b\0c\0d\0e\0"),
        written: Err(ReadFault::List(ListFault {
            entry: 0,
            index: Some(0),
            kind: FaultKind::NameOdd,
            offset: 80,
            size: 9,
        })),
    },
    NameRow {
        name: "a name of almost the greatest length",
        sample: Sample::Named(b"\xfe\xff\xff\xffab"),
        written: Err(ReadFault::List(ListFault {
            entry: 0,
            index: Some(0),
            kind: FaultKind::NameUnitsOutside,
            offset: 84,
            size: 4294967294,
        })),
    },
    NameRow {
        name: "an odd name of the greatest length",
        sample: Sample::Named(b"\xff\xff\xff\xffab"),
        written: Err(ReadFault::List(ListFault {
            entry: 0,
            index: Some(0),
            kind: FaultKind::NameOdd,
            offset: 80,
            size: 4294967295,
        })),
    },
];

/// Not even the length of the name is there.
const NO_LENGTH: Result<usize, ReadFault> = Err(ReadFault::List(ListFault {
    entry: 0,
    index: Some(0),
    kind: FaultKind::NameLengthOutside,
    offset: 80,
    size: 4,
}));

#[test]
fn names_are_written_or_refused_for_their_first_fault(rt: HostRuntime) {
    for row in &NAMES {
        let mut file = file_of(&rt, rt.alloc(), &row.sample);
        let store = MemoryStore::new(&file);
        let written = write_over(&rt, rt.alloc(), store, &[14], EIGHT, 5);
        let fault = fault_of(rt.alloc(), &file, EIGHT, 0);
        let (outcome, size, expected) = match row.written {
            Ok(size) => (Ok(Ok(size as u64)), size, None),
            Err(fault) => (Err(fault), 0, Some(fault)),
        };
        file.resize(size, 0).expect(&rt, "memory for zeros");
        let found = (written.outcome, written.bytes, fault);
        assert_same_at(&rt, &row.name, found, (outcome, file, expected));
    }
}
