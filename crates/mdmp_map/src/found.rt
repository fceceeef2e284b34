//! What is found at an address.
ghost use Rattle.std.specs.Prelude.{◌≡◌, ◌≤◌, ◌<◌, ◌^◌, true};
ghost use Rattle.mdmp_map.specs.Finding.{place_in};
ghost use Rattle.mdmp_map.specs.Ranges.{IsPlaced, holds};

use crate::place::Place;
use crate::range::Range;

/// One behind the last address.
pub(crate) const ADDRESS_END: u128 = 1 << 64;

/// What is found at an address, and how far it goes.
#[derive(Clone, Copy, Debug, PartialEq, Eq)]
pub enum Found {
    /// A range holds it: where its byte stands.
    Held(Place),
    /// No range holds it: so many addresses from it on have none, all of them below 2^64.
    Gap(u128),
}

impl Found {
    ghost use Rattle.std.specs.Prelude.{◌≡◌, ℕ, List};
    ghost use Rattle.mdmp_map.specs.declared.range.Range.{Range};
    ghost use Rattle.mdmp_map.specs.Finding.{IsFound};
    ghost use Rattle.mdmp_map.specs.Ranges.{IsGap, place_of};

    /// The place, where a range holds the address.
    pub(crate) fn place(self) -> Option<Place>
        ensures { (ranges : List Range) → (address : ℕ) → IsFound ranges address self → result ≡ place_of ranges address }
    {
        match self {
            Found::Held(place) => Some(place),
            Found::Gap(_) => None,
        }
    }

    /// How far no range holds an address.
    #[tactic(auto, using(crate::proofs::Gaps::held_has_no_gap))]
    pub(crate) fn gap(self) -> u128
        ensures { (ranges : List Range) → (address : ℕ) → IsFound ranges address self → IsGap ranges address result }
    {
        match self {
            Found::Held(_) => 0,
            Found::Gap(count) => count,
        }
    }
}

/// The place of an address in a range that holds it, where from `limit` on another comes first.
pub(crate) fn place_in(range: &Range, address: u64, limit: u128) -> Place
    requires placed { IsPlaced range.now }
    requires held { holds address range.now ≡ true }
    requires behind { address < limit }
    requires within { limit ≤ 2 ^ 64 }
    ensures { result ≡ place_in limit address range.now }
{
    let end = range.end().min(limit);
    Place {
        offset: range.offset + (address - range.start),
        left: (end - u128::from(address)) as u64,
    }
}
