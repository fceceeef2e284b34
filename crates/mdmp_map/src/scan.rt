//! An address among ranges in any order.
ghost use Rattle.std.specs.Prelude.{◌≡◌, ◌+◌, All};
ghost use Rattle.mdmp_map.specs.Finding.{IsFound, scan_len};
ghost use Rattle.mdmp_map.specs.Ranges.{IsPlaced};

use crate::found::Found;
use crate::search::Search;
use crate::steps::{CountedRanges, Steps};
use std::sync::ledger::Ledger;

/// Finds an address among ranges in any order, by a look at one after another.
pub(crate) fn scan<G: Ledger>(
    ranges: &CountedRanges<'_, G>,
    address: u64,
    steps: &mut Steps<G>,
) -> Found
    requires placed { All IsPlaced ranges.now }
    ensures found { IsFound ranges.now address result }
    ensures steps { steps.new ≡ steps.old + scan_len ranges.now address }
{
    let mut search = Search::new(address);
    for number in 0..ranges.len() {
        let range = ranges.look(number, steps);
        if let Some(place) = search.look(&range) {
            return Found::Held(place);
        }
    }
    Found::Gap(search.gap())
}
