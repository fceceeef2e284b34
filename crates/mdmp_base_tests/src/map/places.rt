//! Where addresses stand by a map, how far no range holds one, and the room of a map.
use super::{PlaceRow, assert_places, map_of};
use crate::same::assert_same_at;
use linked_list_allocator::LocalHeap;
use mdmp_map::{Found, Place, Range};

/// How many addresses there are.
const ALL: u128 = 1 << 64;

/// A row of a test: an address, and how many are free from there on.
type GapRow = (u64, u128);

/// No place of the address 0.
const NO_PLACE: [PlaceRow; 1] = [(0, None)];

/// The gaps of an empty map.
const NO_RANGE: [GapRow; 3] = [(0, ALL), (0x1000, ALL - 0x1000), (u64::MAX, 1)];

/// Two ranges that overlap.
const OVERLAPPING: [Range; 2] = [range!(0x1000, 4, 80), range!(0x1002, 4, 84)];

/// Places by these ranges.
const OVERLAPPING_PLACES: [PlaceRow; 3] = [
    (0x1000, place!(80, 4)),
    (0x1002, place!(82, 2)),
    (0x1004, place!(86, 2)),
];

/// The same two ranges, exchanged.
const OVERLAPPING_EXCHANGED: [Range; 2] = [range!(0x1002, 4, 84), range!(0x1000, 4, 80)];

/// Places by them.
const EXCHANGED_PLACES: [PlaceRow; 2] = [(0x1000, place!(80, 2)), (0x1002, place!(84, 4))];

/// A range that runs past the last address.
const LAST_RANGE: [Range; 1] = [range!(0xFFFF_FFFF_FFFF_FFF8, 16, 44)];

/// Places by it.
const LAST_RANGE_PLACES: [PlaceRow; 2] = [(0xFFFF_FFFF_FFFF_FFF8, place!(44, 8)), (0, None)];

/// Three ranges out of order.
const DISORDERED: [Range; 3] = [
    range!(0x3000, 16, 400),
    range!(0x1000, 16, 500),
    range!(0x2000, 16, 600),
];

/// Places by them.
const DISORDERED_PLACES: [PlaceRow; 3] = [
    (0x3001, place!(401, 15)),
    (0x1001, place!(501, 15)),
    (0x2001, place!(601, 15)),
];

/// Two sorted ranges.
const SORTED: [Range; 2] = [range!(0x1000, 4, 80), range!(0x2000, 16, 100)];

/// The same ranges, exchanged.
const EXCHANGED: [Range; 2] = [range!(0x2000, 16, 100), range!(0x1000, 4, 80)];

/// The gaps beside them.
const GAPS: [GapRow; 9] = [
    (0, 0x1000),
    (0xfff, 1),
    (0x1000, 0),
    (0x1003, 0),
    (0x1004, 0xffc),
    (0x1fff, 1),
    (0x200f, 0),
    (0x2010, ALL - 0x2010),
    (u64::MAX, 1),
];

/// A range at 8, and one that runs past the last address: if addresses did wrap, it would end at 8.
const PAST_THE_LAST: [Range; 2] = [range!(8, 4, 80), range!(0xFFFF_FFFF_FFFF_FFF8, 16, 100)];

/// The same ranges, exchanged.
const FROM_THE_LAST: [Range; 2] = [range!(0xFFFF_FFFF_FFFF_FFF8, 16, 100), range!(8, 4, 80)];

/// The gaps beside them.
const LAST_GAPS: [GapRow; 5] = [
    (0, 8),
    (12, 0xFFFF_FFFF_FFFF_FFEC),
    (0xFFFF_FFFF_FFFF_FFF7, 1),
    (0xFFFF_FFFF_FFFF_FFF8, 0),
    (u64::MAX, 0),
];

/// Places by them.
const LAST_PLACES: [PlaceRow; 5] = [
    (0, None),
    (9, place!(81, 3)),
    (0xFFFF_FFFF_FFFF_FFF7, None),
    (0xFFFF_FFFF_FFFF_FFF8, place!(100, 8)),
    (u64::MAX, place!(107, 1)),
];

/// The room of a map, its ranges, whether they are sorted, the gaps beside them, and places by them.
type MapRow = (
    usize,
    &'static [Range],
    bool,
    &'static [GapRow],
    &'static [PlaceRow],
);

/// Maps. The range that is pushed first decides.
static MAPS: [MapRow; 11] = [
    (0, &[], true, &NO_RANGE, &NO_PLACE),
    (1000, &[], true, &[], &[]),
    (1000, &[range!(0x1000, 4, 80)], true, &[], &[]),
    (2, &OVERLAPPING, false, &[], &OVERLAPPING_PLACES),
    (2, &OVERLAPPING_EXCHANGED, false, &[], &EXCHANGED_PLACES),
    (1, &LAST_RANGE, true, &[], &LAST_RANGE_PLACES),
    (3, &DISORDERED, false, &[], &DISORDERED_PLACES),
    (2, &SORTED, true, &GAPS, &[]),
    (2, &EXCHANGED, false, &GAPS, &[]),
    // No gap is behind a range that runs past the last address.
    (2, &PAST_THE_LAST, true, &LAST_GAPS, &LAST_PLACES),
    (2, &FROM_THE_LAST, false, &LAST_GAPS, &LAST_PLACES),
];

#[test]
fn map_with_room_succeeds_and_its_first_range_decides(rt: HostRuntime) {
    for (room, ranges, is_sorted, gaps, places) in &MAPS {
        let map = map_of(&rt, rt.alloc(), *room, *ranges);
        let found = (map.is_empty(), map.len(), map.free(), map.is_sorted());
        let len = ranges.len();
        let free = room.saturating_sub(len);
        assert_same_at(
            &rt,
            &(room, ranges),
            found,
            (len == 0, len, free, *is_sorted),
        );
        assert_places(&rt, &map, *places);
        for (address, gap) in *gaps {
            // A look tells the place where there is one, and else the gap.
            let looked_up = match map.find(*address) {
                Some(place) => Found::Held(place),
                None => Found::Gap(*gap),
            };
            let found = (map.gap(*address), map.look_up(*address));
            assert_same_at(&rt, &(ranges, address), found, (*gap, looked_up));
        }
    }
}

#[test]
fn map_of_two_ranges_fills_a_heap_of_48_bytes(rt: HostRuntime) {
    let heap = LocalHeap::new(rt.alloc(), 48).expect(&rt, "a heap");
    let map = map_of(&rt, &heap, 2, &OVERLAPPING);
    assert_places(&rt, &map, &OVERLAPPING_PLACES);
    assert_same_at(&rt, &2, heap.used(), 48);
}
