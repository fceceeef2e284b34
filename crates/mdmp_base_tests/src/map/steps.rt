//! In how many steps an address is found.
ghost use Rattle.std.specs.Prelude.{◌≡◌, ◌≤◌, ◌<◌, ◌+◌, length};
ghost use Rattle.mdmp_map.specs.Ranges.{AreSorted};

use super::{PlaceRow, assert_places, map_of};
use crate::same::assert_same_at;
use mdmp_map::{AddressMap, Found, Place, Range, Steps};
use std::alloc::Allocator;
use std::marker::Brand;
use std::process::Abort;
use std::sync::ledger::{Blank, Ledger};

/// Finds an address among five sorted ranges, in at most four steps.
#[tactic(auto, using(crate::proofs::Steps::at_most_four))]
fn find_among_five<G: Ledger, A: Allocator>(
    map: &AddressMap<A>,
    address: u64,
    steps: &mut Steps<G>,
) -> Option<Place>
    requires five { length map.now.ranges ≡ 5 }
    requires sorted { AreSorted map.now.ranges }
    ensures { steps.new ≤ steps.old + 4 }
{
    map.find_counted(address, steps)
}

/// Looks an address up among five sorted ranges, in at most four steps.
#[tactic(auto, using(crate::proofs::Steps::at_most_four))]
fn look_up_among_five<G: Ledger, A: Allocator>(
    map: &AddressMap<A>,
    address: u64,
    steps: &mut Steps<G>,
) -> Found
    requires five { length map.now.ranges ≡ 5 }
    requires sorted { AreSorted map.now.ranges }
    ensures { steps.new ≤ steps.old + 4 }
{
    map.look_up_counted(address, steps)
}

/// Tells how far five sorted ranges hold no address from one on, in at most four steps.
#[tactic(auto, using(crate::proofs::Steps::at_most_four))]
fn gap_among_five<G: Ledger, A: Allocator>(
    map: &AddressMap<A>,
    address: u64,
    steps: &mut Steps<G>,
) -> u128
    requires five { length map.now.ranges ≡ 5 }
    requires sorted { AreSorted map.now.ranges }
    ensures { steps.new ≤ steps.old + 4 }
{
    map.gap_counted(address, steps)
}

/// What is answered of an address: where it stands, the same or how far nothing is held, and this alone.
type StepAnswers = (Option<Place>, Found, u128);

/// The answers under a ledger that nothing reads.
fn answers_under<G: Ledger, A: Allocator>(
    map: &AddressMap<A>,
    address: u64,
    blank: Blank,
) -> StepAnswers
    requires five { length map.now.ranges ≡ 5 }
    requires sorted { AreSorted map.now.ranges }
    requires name { blank.name ≡ G.name }
    requires parts { blank.parts ≡ G.parts }
    requires some { 0 < blank.parts }
{
    let mut steps = Steps::<G>::new(blank);
    let place = find_among_five(map, address, &mut steps);
    let looked_up = look_up_among_five(map, address, &mut steps);
    (place, looked_up, gap_among_five(map, address, &mut steps))
}

/// The answers of a map that has to have five ranges, sorted, each in four steps.
fn answers_in_four_steps<A: Allocator>(
    rt: &impl Abort,
    map: &AddressMap<A>,
    address: u64,
) -> StepAnswers {
    assert!(rt; map.len() == 5);
    assert!(rt; map.is_sorted());
    answers_under::<Brand, A>(map, address, Blank::new(1))
}

/// Five sorted ranges.
static FIVE: [Range; 5] = [
    range!(0x1000, 4, 80),
    range!(0x1004, 4, 84),
    range!(0x2000, 16, 100),
    range!(0x3000, 1, 120),
    range!(0x4000, 1, 121),
];

/// Where the second of them holds an address.
const HELD: Place = Place {
    offset: 86,
    left: 2,
};

/// What is answered of one address that is held, and of two that are not.
static ANSWERS: [(u64, StepAnswers); 3] = [
    (0x1006, (Some(HELD), Found::Held(HELD), 0)),
    (0x1fff, (None, Found::Gap(1), 1)),
    (0xff8, (None, Found::Gap(8), 8)),
];

/// An address that none of them holds.
static FREE: [PlaceRow; 1] = [(0x1fff, None)];

/// The place of an address that the first of them holds, as a sixth does that is pushed behind them.
static FIRST: [PlaceRow; 1] = [(0x1002, place!(82, 2))];

#[test]
fn range_that_begins_before_the_last_one_ends_the_order(rt: HostRuntime) {
    let mut map = map_of(&rt, rt.alloc(), 6, &FIVE);
    for (address, expected) in &ANSWERS {
        let found = answers_in_four_steps(&rt, &map, *address);
        assert_same_at(&rt, address, found, *expected);
    }
    assert_places(&rt, &map, &FREE);

    assert!(rt; 0 < map.free());
    map.push(0x1002, 4, 200);
    assert_same_at(&rt, &"a sixth", map.is_sorted(), false);
    assert_places(&rt, &map, &FIRST);
}
