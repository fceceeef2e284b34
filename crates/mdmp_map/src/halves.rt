//! An address among sorted ranges.
ghost use Rattle.std.specs.Prelude.{◌≡◌, ℕ, All, length, slice_get};
ghost use Rattle.mdmp_map.specs.Finding.{IsFirstPast, IsFound, IsHalved};
ghost use Rattle.mdmp_map.specs.Ranges.{AreSorted, IsPlaced};

use crate::found::{ADDRESS_END, Found, place_in};
use crate::range::Range;
use crate::steps::{CountedRanges, Steps};
use std::sync::ledger::Ledger;

/// Finds an address among sorted ranges, by halves.
pub(crate) fn halve<G: Ledger>(
    ranges: &CountedRanges<'_, G>,
    address: u64,
    steps: &mut Steps<G>,
) -> Found
    requires placed { All IsPlaced ranges.now }
    requires sorted { AreSorted ranges.now }
    ensures found { IsFound ranges.now address result }
    ensures steps { IsHalved (length ranges.now) steps.old steps.new }
{
    match first_past(ranges, address, steps) {
        None => Found::Gap(ADDRESS_END - u128::from(address)),
        Some(range) if range.start <= address => {
            Found::Held(place_in(&range, address, ADDRESS_END))
        }
        Some(range) => Found::Gap(u128::from(range.start - address)),
    }
}

/// The first range that ends past an address, or none where none does.
fn first_past<G: Ledger>(
    ranges: &CountedRanges<'_, G>,
    address: u64,
    steps: &mut Steps<G>,
) -> Option<Range>
    requires { AreSorted ranges.now }
    ensures first { (i : ℕ) × IsFirstPast ranges.now address i × (result ≡ slice_get ranges.now i) }
    ensures steps { IsHalved (length ranges.now) steps.old steps.new }
{
    let mut next = None;
    let mut low = 0;
    let mut high = ranges.len();
    while low < high {
        let middle = low + (high - low) / 2;
        let range = ranges.look(middle, steps);
        if range.end() <= u128::from(address) {
            low = middle + 1;
        } else {
            high = middle;
            next = Some(range);
        }
    }
    next
}
