//! An index of ranges, and a search in it.
use crate::map::range;
use crate::same::assert_same_at;
use mdmp_index::{IndexSlot, Listed, index, read, slot_at};
use mdmp_map::Range;

/// How many slots an index of these tests has at most.
const ROOM: usize = 8;

/// A slot of no address.
const NONE: IndexSlot = IndexSlot {
    start: 0,
    length: 0,
    offset: 0,
    owner: 0,
};

/// A slot: its start, its length, its offset in the file and its owner.
macro_rules! slot {
    ($start:expr, $length:expr, $offset:expr, $owner:expr) => {
        IndexSlot {
            start: $start,
            length: $length,
            offset: $offset,
            owner: $owner,
        }
    };
}

/// The slot that is found for an address.
fn slot_of(slots: &[IndexSlot], address: u64) -> Option<IndexSlot> {
    let number = slot_at(slots, address)?;
    Some(slots[number])
}

/// The first of these ranges is inside the second, and the third has no bytes.
const OVERLAPPING: &[Range] = &[
    range!(0x1004, 4, 100),
    range!(0xff0, 0x40, 200),
    range!(0x1000, 0, 300),
];

/// The slots of their index: where the range of no bytes stands a slot ends.
const PIECES: &[IndexSlot] = &[
    slot!(0xff0, 16, 200, 1),
    slot!(0x1000, 4, 216, 1),
    slot!(0x1004, 4, 100, 0),
    slot!(0x1008, 40, 224, 1),
];

/// The slots of an index of three ranges.
const INDEXED: &[IndexSlot] = &[
    slot!(2, 2, 0, 1),
    slot!(4, 2, 12, 0),
    slot!(6, 1, 4, 1),
    slot!(8, 1, 9, 2),
];

/// Ranges, and the slots of their index, if their offsets fit.
static INDEXES: &[(&[Range], Option<&[IndexSlot]>)] = &[
    (OVERLAPPING, Some(PIECES)),
    // The first two of them.
    (
        &[range!(0x1004, 4, 100), range!(0xff0, 0x40, 200)],
        Some(&[
            slot!(0xff0, 20, 200, 1),
            slot!(0x1004, 4, 100, 0),
            slot!(0x1008, 40, 224, 1),
        ]),
    ),
    // Addresses end.
    (
        &[range!(u64::MAX - 1, 8, 100)],
        Some(&[slot!(u64::MAX - 1, 2, 100, 0)]),
    ),
    (&[], Some(&[])),
    (
        &[range!(4, 2, 12), range!(2, 5, 0), range!(8, 1, 9)],
        Some(INDEXED),
    ),
    // An offset has to fit.
    (&[range!(0, 2, u64::MAX - 1)], None),
    (
        &[range!(0, 1, u64::MAX - 1)],
        Some(&[slot!(0, 1, u64::MAX - 1, 0)]),
    ),
];

#[test]
fn a_slot_has_its_bytes(rt: HostRuntime) {
    for (ranges, expected) in INDEXES {
        assert!(rt; ranges.len() <= ROOM / 2);
        let mut slots = [NONE; ROOM];
        let found = match Listed::new(*ranges) {
            Some(listed) => {
                let count = index(&listed, &mut slots);
                slots.get(..count)
            }
            None => None,
        };
        assert_same_at(&rt, ranges, found, *expected);
    }
}

/// Slots that are no index.
const NO_INDEX: &[IndexSlot] = &[slot!(8, 8, 0, 5), slot!(0, 16, 0, 6), slot!(4, 2, 0, 7)];

/// Slots, an address, and the owner of its slot.
static OWNERS: [(&[IndexSlot], u64, Option<u64>); 11] = [
    (PIECES, 0, None),
    (PIECES, 0xfef, None),
    (PIECES, 0xff0, Some(1)),
    (PIECES, 0x1003, Some(1)),
    (PIECES, 0x1004, Some(0)),
    (PIECES, 0x1007, Some(0)),
    (PIECES, 0x1008, Some(1)),
    (PIECES, 0x102f, Some(1)),
    (PIECES, 0x1030, None),
    (PIECES, u64::MAX, None),
    (NO_INDEX, 16, None),
];

#[test]
fn the_first_range_has_an_address(rt: HostRuntime) {
    for (slots, address, expected) in &OWNERS {
        let owner = match slot_of(*slots, *address) {
            Some(slot) => Some(slot.owner),
            None => None,
        };
        assert_same_at(&rt, address, owner, *expected);
    }
    // Slots that are no index have some slot that holds the address, or none.
    for address in 0..20 {
        let is_right = match slot_of(NO_INDEX, address) {
            Some(slot) => slot.holds(address),
            None => true,
        };
        assert_same_at(&rt, &address, is_right, true);
    }
}

/// The bytes of the file.
const FILE: &[u8] = b"ABCDEFGHIJKLMNOP";

/// Slots, an address, the eight bytes that are read there by them, and whether each is known.
type SlotsRow = (&'static [IndexSlot], u64, [u8; 8], [bool; 8]);

static READS: &[SlotsRow] = &[
    (
        INDEXED,
        1,
        *b"\0ABMNE\0J",
        [false, true, true, true, true, true, false, true],
    ),
    // Slots outside the file are not read.
    (
        &[slot!(0, 4, 14, 0), slot!(4, 4, 0, 1), slot!(2, 8, 3, 2)],
        0,
        *b"\0\0\0\0ABCD",
        [false, false, false, false, true, true, true, true],
    ),
];

#[test]
fn memory_is_read_by_an_index(rt: HostRuntime) {
    for (slots, address, bytes, are_known) in READS {
        let mut out = [7; 8];
        let mut known = [true; 8];
        read(FILE, *slots, *address, &mut out, &mut known);
        assert_same_at(&rt, address, (out, known), (*bytes, *are_known));
    }
}
