//! A map of the dumped process's memory.
ghost use Rattle.std.specs.Prelude.{◌≡◌, ◌≤◌, ◌<◌, ◌+◌, ◌-◌, ◌^◌, ◌++◌, ◌∷◌, ◌↔◌, [], ℕ, All, IfOk, IfSome, IsTrue, Some, length, slice_get, slice_index_or, vec_capacity};
ghost use Rattle.mdmp_map.specs.declared.range.Range.{Range};
ghost use Rattle.mdmp_map.specs.Map.{MapState, free_of};
ghost use Rattle.mdmp_map.specs.Finding.{HasReach, IfHeld, IsFound, LooksAt};
ghost use Rattle.mdmp_map.specs.Ranges.{AreSorted, IsGap, IsGreatestLeft, IsPlaced, IsWithin, first_range, place_of, range_end};

use crate::finding::search;
use crate::found::Found;
use crate::place::Place;
use crate::range::Range;
use crate::steps::{CountedRanges, Steps};
use std::alloc::{AllocError, Allocator};
use std::marker::{Brand, Model};
use std::sync::ledger::{Blank, Ledger};

/// Ranges of the dumped process's memory in listing order, with room for so many of them.
///
/// They may overlap and stand in any order: of those that hold an address, the one that was pushed
/// first decides. All memory is taken by `with_room`.
#[derive(Drop)]
pub struct AddressMap<A: Allocator> {
    ranges: Vec<Range, A>,
    is_sorted: bool,
}

impl<A: Allocator> Model for AddressMap<A> {
    ghost Value = { MapState };

    ghost view = { λ m. record { ranges = m.ranges.items; room = vec_capacity m.ranges } };

    ghost invariant = { λ m. (All IsPlaced m.ranges.items) × (IsTrue m.is_sorted ↔ AreSorted m.ranges.items) };
}

impl<A: Allocator> AddressMap<A> {
    /// A map that holds no range, and has room for `room` of them. It is the only call that takes
    /// memory, 24 bytes for each of them, and it fails only where that is refused.
    pub fn with_room(alloc: A, room: usize) -> Result<AddressMap<A>, AllocError>
        ensures { IfOk result (λ map. map ≡ record { ranges = []; room = room }) }
    {
        Ok(AddressMap {
            ranges: Vec::with_capacity(alloc, room)?,
            is_sorted: true,
        })
    }

    /// Puts a range behind the others: `length` bytes of the dumped process from the address `start`
    /// on, which stand in the file from `offset` on, counted from its start. `free` tells whether
    /// there is room.
    pub fn push(&mut self, start: u64, length: u64, offset: u64)
        requires free { 0 < free_of self.old }
        requires some { 0 < length }
        requires within { offset + length ≤ 2 ^ 64 - 1 }
        ensures { self.new ≡ record self.old { ranges = self.old.ranges ++ (record { start = start; length = length; offset = offset }) ∷ [] } }
    {
        self.is_sorted = self.is_sorted && begins_behind(&self.ranges, start);
        self.ranges.push_reserved(Range {
            start,
            length,
            offset,
        });
    }

    /// How many ranges it holds.
    pub fn len(&self) -> usize
        ensures { result ≡ length self.now.ranges }
    {
        self.ranges.len()
    }

    /// Whether it holds no range.
    pub fn is_empty(&self) -> bool
        ensures { IsTrue result ↔ (length self.now.ranges ≡ 0) }
    {
        self.ranges.is_empty()
    }

    /// How many more ranges it has room for.
    pub fn free(&self) -> usize
        ensures value { result ≡ free_of self.now }
        ensures room { length self.now.ranges ≤ self.now.room }
    {
        self.ranges.capacity() - self.len()
    }

    /// Whether each range begins at or past the end of the one before. While it is so, an address is
    /// found by halves, else by a look at one range after another.
    pub fn is_sorted(&self) -> bool
        ensures { IsTrue result ↔ AreSorted self.now.ranges }
    {
        self.is_sorted
    }

    /// Where the byte of an address of the dumped process stands, by the first range that holds it,
    /// or none where no range does. The search is that of `find_counted`.
    #[tactic(auto, using(crate::proofs::Places::left_greatest, crate::proofs::Places::some_left, crate::proofs::Places::left_within))]
    pub fn find(&self, address: u64) -> Option<Place>
        ensures place { result ≡ place_of self.now.ranges address }

        // What is left is the greatest count of addresses that the same range is the first to hold.
        ensures left { IfSome result (λ place. (r : Range) → first_range self.now.ranges address ≡ Some r
            → IsGreatestLeft self.now.ranges address r place.left) }
        ensures some { IfSome result (λ place. 0 < place.left) }

        // Where the bytes of each range lie in a file of that size, what is left does too.
        ensures within { (size : ℕ) → All (IsWithin size) self.now.ranges
            → IfSome result (λ place. place.offset + place.left ≤ size) }
        ensures placed { All IsPlaced self.now.ranges }
    {
        self.look_up(address).place()
    }

    /// Looks an address up, by one search: where its byte stands, which is what `find` tells, or how far
    /// no range holds one, which is what `gap` tells. The search is that of `look_up_counted`.
    pub fn look_up(&self, address: u64) -> Found
        ensures found { IsFound self.now.ranges address result }
        ensures reach { IfHeld result (HasReach self.now.ranges address) }
        ensures placed { All IsPlaced self.now.ranges }
    {
        self.look_up_under::<Brand>(address, Blank::new(1))
    }

    /// Looks an address up as `look_up` does, and counts a step for each range that it looks at: while
    /// the ranges are sorted as many as their number has binary digits, or one fewer; else one for each
    /// up to the first that holds the address.
    pub fn look_up_counted<G: Ledger>(&self, address: u64, steps: &mut Steps<G>) -> Found
        ensures found { IsFound self.now.ranges address result }
        ensures reach { IfHeld result (HasReach self.now.ranges address) }
        ensures placed { All IsPlaced self.now.ranges }
        ensures steps { LooksAt self.now.ranges address steps.old steps.new }
    {
        let ranges = CountedRanges::over(&self.ranges);
        search(&ranges, self.is_sorted, address, steps)
    }

    /// Looks at the range with this number, from 0 on in listing order, and counts the look.
    pub fn look_at<G: Ledger>(&self, number: usize, steps: &mut Steps<G>) -> Range
        requires { number < length self.now.ranges }
        ensures range { slice_get self.now.ranges number ≡ Some result }
        ensures placed { All IsPlaced self.now.ranges }
        ensures steps { steps.new ≡ steps.old + 1 }
    {
        CountedRanges::over(&self.ranges).look(number, steps)
    }

    /// Finds what `find` does, and counts the steps of `look_up_counted`.
    pub fn find_counted<G: Ledger>(&self, address: u64, steps: &mut Steps<G>) -> Option<Place>
        ensures place { result ≡ place_of self.now.ranges address }
        ensures steps { LooksAt self.now.ranges address steps.old steps.new }
    {
        self.look_up_counted(address, steps).place()
    }

    /// How many addresses from this one on no range holds, up to the last address: 0 where one holds
    /// this address, and 2^64 for the address 0 where there are no ranges. The search is that of
    /// `gap_counted`.
    pub fn gap(&self, address: u64) -> u128
        ensures { IsGap self.now.ranges address result }
    {
        self.look_up(address).gap()
    }

    /// Tells what `gap` does, and counts the steps of `look_up_counted`.
    pub fn gap_counted<G: Ledger>(&self, address: u64, steps: &mut Steps<G>) -> u128
        ensures gap { IsGap self.now.ranges address result }
        ensures steps { LooksAt self.now.ranges address steps.old steps.new }
    {
        self.look_up_counted(address, steps).gap()
    }

    /// Looks an address up under the ledger that the blank opens.
    fn look_up_under<G: Ledger>(&self, address: u64, blank: Blank) -> Found
        requires name { blank.name ≡ G.name }
        requires parts { blank.parts ≡ G.parts }
        requires some { 0 < blank.parts }
        ensures found { IsFound self.now.ranges address result }
        ensures reach { IfHeld result (HasReach self.now.ranges address) }
        ensures placed { All IsPlaced self.now.ranges }
    {
        self.look_up_counted(address, &mut Steps::<G>::new(blank))
    }
}

/// Whether a range that begins at this address may stand behind sorted ranges.
fn begins_behind(ranges: &[Range], start: u64) -> bool
    ensures { IsTrue result ↔ ((d : Range) → 0 < length ranges.now → range_end (slice_index_or ranges.now (length ranges.now - 1) d) ≤ start) }
{
    match ranges.last() {
        None => true,
        Some(last) => last.end() <= u128::from(start),
    }
}
