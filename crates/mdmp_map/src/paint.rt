//! Ranges that are painted onto a block of addresses, one after another.
ghost use Rattle.std.specs.Prelude.{◌≡◌, ◌≤◌, ◌<◌, ◌+◌, ◌++◌, ◌∷◌, ◌^◌, ◌↔◌, [], ℕ, IsTrue, List, MatchOption, Some, IfSome, false, length, slice_index, true};
ghost use Rattle.mdmp_map.specs.declared.range.Range.{Range};
ghost use Rattle.mdmp_map.specs.Painting.{HoldsFirst, IsFull, IsPaintOf, IsPaintTo, IsPassed, IsRun, Paints, Skips, is_held_at, is_marked, is_painted};
ghost use Rattle.mdmp_map.specs.Ranges.{IsPlaced};

use crate::found::ADDRESS_END;
use crate::range::Range;
use std::marker::Model;

/// How many addresses a block has at most.
pub const BLOCK: usize = 32768;

/// One place more than a block has, which is never painted.
const PLACES: usize = 32769;

/// Addresses of a block that follow each other, which one range is the first to hold.
#[derive(Clone, Copy, Debug, PartialEq, Eq)]
pub struct PaintedRun {
    /// Where the byte of the first of them stands in the file.
    pub offset: u64,
    /// The place of the first of them in the block.
    pub first: usize,
    /// One behind the place of the last of them.
    pub end: usize,
}

/// A block of addresses onto which ranges are painted in listing order, each where it holds an address
/// that none before it holds.
#[derive(Drop)]
pub struct Paint {
    /// The address of the first place.
    start: u128,
    /// How many places there are.
    count: usize,
    /// No place has an address below this one.
    first: u64,
    /// Nor one past this one.
    last: u64,
    /// For each place one at or behind it before which all from it on are painted: itself, where it is
    /// not painted.
    next: [u16; 32769],
}

impl Model for Paint {
    ghost use Rattle.std.specs.Prelude.{◌≤◌};
    ghost use Rattle.mdmp_map.specs.Painting.{IsAround, PaintState, Skips, marks};

    ghost Value = { PaintState };

    ghost view = { λ p. record { start = p.start; count = p.count; painted = marks p.next p.count } };

    ghost invariant = { λ p. (p.count ≤ 32768) × IsAround p.first p.last p.start p.count × Skips p.next };
}

impl Paint {
    /// So many addresses from this one on, none of which is painted. Those of 2^64 or more never are.
    pub fn over(start: u128, count: usize) -> Paint
        requires { count ≤ 32768 }
        ensures start { result.start ≡ start }
        ensures count { result.count ≡ count }
        ensures free { (place : ℕ) → is_painted result place ≡ false }
        ensures of_none { IsPaintOf [] result }
    {
        let most = u128::from(u64::MAX);
        let mut next = [0; PLACES];
        number(&mut next);
        Paint {
            start,
            count,
            first: start.min(most) as u64,
            last: start.saturating_add(count as u128).min(most) as u64,
            next,
        }
    }

    /// Paints a range where it holds the first place from this one on that it holds and that is not
    /// painted, as far as it goes: none where there is no such place.
    pub fn paint(&mut self, range: &Range, from: usize) -> Option<PaintedRun>
        requires placed { IsPlaced range.now }
        requires from { from ≤ self.old.count }
        ensures run { MatchOption result (IsPassed self.old range.now from self.old.count) (IsRun self.old range.now from) }
        ensures painted { MatchOption result (self.new.painted ≡ self.old.painted) (λ run. Paints run.first run.end self.old self.new) }
        ensures start { self.new.start ≡ self.old.start }
        ensures count { self.new.count ≡ self.old.count }

        // Where ranges before it were painted, and itself up to this place: it is the first of them to
        // hold the addresses of the run, and in the end it is painted beside them.
        ensures first { (seen : List Range) → IsPaintTo from seen range.now self.old → IfSome result (HoldsFirst self.old.start seen range.now) }
        ensures goes_on { (seen : List Range) → IsPaintTo from seen range.now self.old
            → MatchOption result (IsPaintOf (seen ++ range.now ∷ []) self.new) (λ run. IsPaintTo run.end seen range.now self.new) }
    {
        // Of many ranges nearly all lie elsewhere.
        if self.misses(range) {
            return None;
        }
        let low = from.max(self.place_of(u128::from(range.start)));
        let high = self.place_of(range.end().min(ADDRESS_END));
        if low >= high {
            return None;
        }
        let first = free_from(&mut self.next, low);
        if first >= high {
            return None;
        }
        let end = free_end(&self.next, first, high);
        mark(&mut self.next, first, end);
        let address = (self.start + first as u128) as u64;
        Some(PaintedRun {
            offset: range.offset + (address - range.start),
            first,
            end,
        })
    }

    /// Whether the range begins behind the block, or ends before it: then it holds no place.
    fn misses(&self, range: &Range) -> bool
        ensures { IsTrue result → (place : ℕ) → place < self.now.count → is_held_at self.now range.now place ≡ false }
    {
        (range.start > self.last) | (self.first.saturating_sub(range.start) >= range.length)
    }

    /// Whether each place is painted.
    pub fn is_full(&mut self) -> bool
        ensures full { IsTrue result ↔ IsFull self.old }
        ensures same { self.new ≡ self.old }
    {
        free_from(&mut self.next, 0) >= self.count
    }

    /// The first place whose address is this one or more, or how many there are.
    fn place_of(&self, address: u128) -> usize
        ensures count { result ≤ self.now.count }
        ensures below { (place : ℕ) → place < result → self.now.start + place < address }
        ensures behind { (place : ℕ) → result ≤ place → place < self.now.count → address ≤ self.now.start + place }
    {
        address.saturating_sub(self.start).min(self.count as u128) as usize
    }
}

/// Gives each place its own number.
fn number(next: &mut [u16])
    requires { length next.old ≤ 2 ^ 16 }
    ensures { (place : ℕ) → place < length next.new → slice_index next.new place ≡ place }
{
    for place in 0..next.len() {
        next[place] = place as u16;
    }
}

/// The first place at or behind this one that is not painted. What it passes gets shorter to pass.
fn free_from(next: &mut [u16], from: usize) -> usize
    requires within { from < length next.old }
    requires skips { Skips next.old }
    ensures skips { Skips next.new }
    ensures order { from ≤ result }
    ensures within { result < length next.new }
    ensures passed { (place : ℕ) → from ≤ place → place < result → is_marked next.old place ≡ true }
    ensures free { is_marked next.new result ≡ false }
    ensures same { (place : ℕ) → is_marked next.new place ≡ is_marked next.old place }
{
    let mut place = from;
    while next[place] as usize > place {
        let behind = next[place] as usize;
        let far = next[behind];
        next[place] = far;
        place = far as usize;
    }
    place
}

/// One behind the last of the places from this one on that are not painted, below `high`.
fn free_end(next: &[u16], first: usize, high: usize) -> usize
    requires order { first < high }
    requires within { high < length next.now }
    requires free { is_marked next.now first ≡ false }
    ensures some { first < result }
    ensures within { result ≤ high }
    ensures free { (place : ℕ) → first ≤ place → place < result → is_marked next.now place ≡ false }
    ensures whole { result < high → is_marked next.now result ≡ true }
{
    let mut end = first + 1;
    while end < high && next[end] as usize <= end {
        end += 1;
    }
    end
}

/// Paints the places from one on, up to another.
fn mark(next: &mut [u16], first: usize, end: usize)
    requires order { first < end }
    requires within { end < length next.old }
    requires short { length next.old ≤ 2 ^ 16 }
    requires skips { Skips next.old }
    ensures skips { Skips next.new }
    ensures marked { (place : ℕ) → first ≤ place → place < end → is_marked next.new place ≡ true }
    ensures below { (place : ℕ) → place < first → is_marked next.new place ≡ is_marked next.old place }
    ensures behind { (place : ℕ) → end ≤ place → is_marked next.new place ≡ is_marked next.old place }
{
    for place in first..end {
        next[place] = end as u16;
    }
}
