//! Where addresses stand by some ranges.
ghost use Rattle.std.specs.Prelude.{All};
ghost use Rattle.mdmp_map.specs.Ranges.{IsPlaced};

use super::PlaceRow;
use crate::same::assert_same_at;
use mdmp_map::{Place, Range, Search, place_of};
use std::process::Abort;

/// These ranges place each address as its row says.
fn assert_places(rt: &impl Abort, ranges: &[Range], rows: &[PlaceRow])
    requires { All IsPlaced ranges.now }
{
    for (address, expected) in rows {
        assert_same_at(rt, address, place_of(ranges, *address), *expected);
    }
}

/// Places by two ranges that overlap.
static FIRST_DECIDES: [PlaceRow; 5] = [
    (0x1000, place!(80, 4)),
    (0x1002, place!(82, 2)),
    (0x1004, place!(86, 2)),
    (0xfff, None),
    (0x1006, None),
];

#[test]
fn first_of_two_ranges_decides(rt: HostRuntime) {
    let first = range!(0x1000, 4, 80);
    let second = range!(0x1002, 4, 84);
    assert_places(&rt, &[first, second], &FIRST_DECIDES);
    // A range that is given first cuts one that begins before it.
    let rows = [(0x1000, place!(80, 2)), (0x1002, place!(84, 4))];
    assert_places(&rt, &[second, first], &rows);
    // Addresses end and do not wrap.
    let last = range!(0xFFFF_FFFF_FFFF_FFF8, 16, 44);
    let rows = [(0xFFFF_FFFF_FFFF_FFF8, place!(44, 8)), (0, None)];
    assert_places(&rt, &[last], &rows);
    // No range holds nothing.
    assert_places(&rt, &[], &[(0, None)]);
}

#[test]
fn search_that_is_shown_ranges_finds_the_first(rt: HostRuntime) {
    let high = range!(0x2000, 4, 80);
    let low = range!(0x1000, 16, 44);
    let mut search = Search::new(0x1004);
    let found = [search.look(&high), search.look(&low)];
    assert_same_at(&rt, &0x1004, found, [None, place!(48, 12)]);
    let mut search = Search::new(0xff8);
    let found = (search.look(&high), search.gap());
    assert_same_at(&rt, &0xff8, found, (None, 0x1008));
    let found = (search.look(&low), search.gap());
    assert_same_at(&rt, &0xff8, found, (None, 8));
}
