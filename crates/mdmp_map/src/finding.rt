//! The place of an address.
ghost use Rattle.std.specs.Prelude.{◌≡◌, ◌<◌, ◌+◌, All, IfSome, IsTrue, length};
ghost use Rattle.mdmp_map.specs.declared.range.Range.{Range};
ghost use Rattle.mdmp_map.specs.Finding.{IsFound, IsHalved, scan_len};
ghost use Rattle.mdmp_map.specs.Ranges.{AreSorted, IsGreatestLeft, IsPlaced, first_range, place_of};

use crate::found::Found;
use crate::halves::halve;
use crate::place::Place;
use crate::range::Range;
use crate::scan::scan;
use crate::steps::{CountedRanges, Steps};
use std::marker::Brand;
use std::sync::ledger::{Blank, Ledger};

/// Where the byte of an address stands, by the first of these ranges that holds it, or none where no
/// range does. It looks at the ranges one after another.
#[tactic(auto, using(crate::proofs::Places::left_greatest))]
pub fn place_of(ranges: &[Range], address: u64) -> Option<Place>
    requires placed { All IsPlaced ranges.now }
    ensures place { result ≡ place_of ranges.now address }

    // What is left is the greatest count of addresses that the same range is the first to hold.
    ensures left { IfSome result (λ place. (r : Range) → first_range ranges.now address ≡ Some r
        → IsGreatestLeft ranges.now address r place.left) }
{
    scan_under::<Brand>(ranges, address, Blank::new(1)).place()
}

/// Scans ranges for an address under the ledger that the blank opens.
fn scan_under<G: Ledger>(ranges: &[Range], address: u64, blank: Blank) -> Found
    requires placed { All IsPlaced ranges.now }
    requires name { blank.name ≡ G.name }
    requires parts { blank.parts ≡ G.parts }
    requires some { 0 < blank.parts }
    ensures { IsFound ranges.now address result }
{
    let mut steps = Steps::<G>::new(blank);
    scan(&CountedRanges::over(ranges), address, &mut steps)
}

/// Finds an address among ranges: by halves where they are known to be sorted.
pub(crate) fn search<G: Ledger>(
    ranges: &CountedRanges<'_, G>,
    is_sorted: bool,
    address: u64,
    steps: &mut Steps<G>,
) -> Found
    requires placed { All IsPlaced ranges.now }
    requires sorted { IsTrue is_sorted → AreSorted ranges.now }
    ensures found { IsFound ranges.now address result }
    ensures by_halves { IsTrue is_sorted → IsHalved (length ranges.now) steps.old steps.new }
    ensures one_by_one { (IsTrue is_sorted → ⊥) → steps.new ≡ steps.old + scan_len ranges.now address }
{
    if is_sorted {
        halve(ranges, address, steps)
    } else {
        scan(ranges, address, steps)
    }
}
