//! A search for an address among ranges that are shown one after another.
ghost use Rattle.std.specs.Prelude.{◌≡◌, ◌<◌, ◌++◌, ◌∷◌, [], List, All, None, Some, IfSome, is_some};
ghost use Rattle.mdmp_map.specs.declared.found.Found.TheVariants.{Gap};
ghost use Rattle.mdmp_map.specs.declared.range.Range.{Range};
ghost use Rattle.mdmp_map.specs.Finding.{IsFound};
ghost use Rattle.mdmp_map.specs.Ranges.{IsPlaced, holds, place_of};
ghost use Rattle.mdmp_map.specs.Search.{HasSeen};

use crate::found::{ADDRESS_END, place_in};
use crate::place::Place;
use crate::range::Range;
use std::marker::Model;

/// A search for an address that is shown ranges in any order, one after another, wherever they stand.
#[derive(Drop)]
pub struct Search {
    address: u64,
    /// The lowest start behind the address among the ranges so far: from there on its range comes
    /// first.
    next_start: u128,
}

impl Model for Search {
    ghost use Rattle.std.specs.Prelude.{◌<◌, ◌≤◌};
    ghost use Rattle.mdmp_map.specs.Ranges.{address_end};
    ghost use Rattle.mdmp_map.specs.Search.{SearchState};

    ghost Value = { SearchState };

    ghost view = { λ s. record { address = s.address; next_start = s.next_start } };

    ghost invariant = { λ s. (s.address < s.next_start) × (s.next_start ≤ address_end) };
}

impl Search {
    /// A search for this address that was shown no range yet.
    pub fn new(address: u64) -> Search
        ensures address { result.address ≡ address }
        ensures seen { HasSeen [] result }
    {
        Search {
            address,
            next_start: ADDRESS_END,
        }
    }

    /// Shows it the next range: where the address stands, if this is the first range that holds it.
    #[tactic(auto, using(crate::proofs::Seen::seen_held, crate::proofs::Seen::seen_more))]
    pub fn look(&mut self, range: &Range) -> Option<Place>
        requires placed { IsPlaced range.now }
        ensures held { is_some result ≡ holds self.old.address range.now }
        ensures place { (seen : List Range) → HasSeen seen self.old → IfSome result (λ place. (rest : List Range) → Some place ≡ place_of (seen ++ range.now ∷ rest) self.old.address) }
        ensures passed { (seen : List Range) → HasSeen seen self.old → result ≡ None → HasSeen (seen ++ range.now ∷ []) self.new }
        ensures address { self.new.address ≡ self.old.address }
    {
        if range.holds(self.address) {
            return Some(place_in(range, self.address, self.next_start));
        }
        if self.address < range.start {
            self.next_start = self.next_start.min(u128::from(range.start));
        }
        None
    }

    /// Where none of the ranges holds the address: how far none holds one.
    #[tactic(auto, using(crate::proofs::Seen::seen_gap))]
    pub fn gap(&self) -> u128
        ensures { (seen : List Range) → HasSeen seen self.now → All IsPlaced seen → IsFound seen self.now.address (Gap result) }
    {
        self.next_start - u128::from(self.address)
    }
}
