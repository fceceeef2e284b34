//! The place of an address, among ranges and in a map of them.

/// A range: its start, its length and its offset in the file.
macro_rules! range {
    ($start:expr, $length:expr, $offset:expr) => {
        Range {
            start: $start,
            length: $length,
            offset: $offset,
        }
    };
}

pub(crate) use range;

/// Where an address stands: its offset in the file, and how many bytes are left.
macro_rules! place {
    ($offset:expr, $left:expr) => {
        Some(Place {
            offset: $offset,
            left: $left,
        })
    };
}

mod finding;
mod paint;
mod places;
mod steps;
mod table;

use crate::same::assert_same_at;
use mdmp_map::{AddressMap, Place, Range};
use std::alloc::Allocator;
use std::process::Abort;

/// A row of a test: an address and where it stands.
type PlaceRow = (u64, Option<Place>);

/// A map of these ranges, with that room.
fn map_of<A: Allocator>(rt: &impl Abort, alloc: A, room: usize, ranges: &[Range]) -> AddressMap<A> {
    let mut map = AddressMap::with_room(alloc, room).expect(rt, "a map");
    for range in ranges {
        assert!(rt; 0 < map.free());
        assert!(rt; 0 < range.length);
        assert!(rt; range.length <= u64::MAX - range.offset);
        map.push(range.start, range.length, range.offset);
    }
    map
}

/// Asserts that the map places each address as its row says.
fn assert_places<A: Allocator>(rt: &impl Abort, map: &AddressMap<A>, rows: &[PlaceRow]) {
    for (address, expected) in rows {
        assert_same_at(rt, address, map.find(*address), *expected);
    }
}
