//! Small maps, sorted and not, beside a look at their ranges one after another.
ghost use Rattle.std.specs.Prelude.{◌≡◌, ◌<◌, All};
ghost use Rattle.mdmp_map.specs.Ranges.{IsPlaced};

use super::map_of;
use crate::same::assert_same_at;
use mdmp_map::{AddressMap, Place, Range, Steps, place_of};
use std::alloc::{Allocator, Global};
use std::marker::Brand;
use std::process::Abort;
use std::sync::ledger::{Blank, Ledger};

/// How far a gap is counted.
const FAR: u8 = 16;

/// What is answered of an address: where it stands, the same with its steps counted, and how far
/// nothing is held.
type TableAnswers = (Option<Place>, Option<Place>, u128);

/// One of 18 ranges, of one to three bytes that begin below 6.
fn range_of(number: u8, offset: u16) -> Range
    ensures { IsPlaced result }
{
    Range {
        start: u64::from(number / 3),
        length: u64::from(number % 3) + 1,
        offset: u64::from(offset),
    }
}

/// Whether each range begins at or past the end of the one before.
fn are_sorted(ranges: &[Range]) -> bool {
    for i in 1..ranges.len() {
        if u128::from(ranges[i].start) < ranges[i - 1].end() {
            return false;
        }
    }
    true
}

/// How many addresses from this one on no range holds, counted one by one.
fn free_from(ranges: &[Range], address: u8) -> u128
    requires { All IsPlaced ranges.now }
{
    for k in 0..FAR {
        if place_of(ranges, u64::from(address) + u64::from(k)).is_some() {
            return u128::from(k);
        }
    }
    u128::from(FAR)
}

/// Finds an address and counts the steps under a ledger that nothing reads.
fn find_under<G: Ledger, A: Allocator>(
    map: &AddressMap<A>,
    address: u64,
    blank: Blank,
) -> Option<Place>
    requires name { blank.name ≡ G.name }
    requires parts { blank.parts ≡ G.parts }
    requires some { 0 < blank.parts }
{
    map.find_counted(address, &mut Steps::<G>::new(blank))
}

/// What the map finds.
fn found<A: Allocator>(map: &AddressMap<A>, address: u64) -> TableAnswers {
    let counted = find_under::<Brand, A>(map, address, Blank::new(1));
    let gap = map.gap(address).min(u128::from(FAR));
    (map.find(address), counted, gap)
}

/// Asserts that a map of these ranges finds the addresses up to 12 where the ranges have them.
fn assert_agrees(rt: &impl Abort, alloc: Global, ranges: &[Range])
    requires { All IsPlaced ranges.now }
{
    let map = map_of(rt, alloc, ranges.len(), ranges);
    assert_same_at(rt, &ranges, map.is_sorted(), are_sorted(ranges));
    for address in 0..13 {
        let place = place_of(ranges, u64::from(address));
        assert_same_at(
            rt,
            &(address, ranges),
            found(&map, u64::from(address)),
            (place, place, free_from(ranges, address)),
        );
    }
}

#[test]
fn maps_of_up_to_three_ranges_agree_with_the_scan(rt: HostRuntime) {
    assert_agrees(&rt, rt.alloc(), &[]);
    for first in 0..18 {
        let first = range_of(first, 80);
        assert_agrees(&rt, rt.alloc(), &[first]);
        for second in 0..18 {
            let second = range_of(second, 100);
            assert_agrees(&rt, rt.alloc(), &[first, second]);
            for third in 0..18 {
                assert_agrees(&rt, rt.alloc(), &[first, second, range_of(third, 120)]);
            }
        }
    }
}
