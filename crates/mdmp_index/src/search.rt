//! An address among the slots of an index.
ghost use Rattle.std.specs.Prelude.{◌≡◌, ◌<◌, ◌≤◌, ℕ, List, MatchOption, IfSome, length, true};
ghost use Rattle.mdmp_map.specs.declared.range.Range.{Range};
ghost use Rattle.mdmp_index.specs.Index.{AreApart, IsFirstToHold, IsHeldByNone, IsIndexOf};
ghost use Rattle.mdmp_index.specs.Slots.{covers, index_slot, slot_end};

use crate::slot::IndexSlot;

/// The number of the slot that holds an address. Over an index: the slot of the first range that holds it, or
/// none if no range does. Over slots that are no index: some slot that holds it, or none.
pub fn slot_at(slots: &[IndexSlot], address: u64) -> Option<usize>
    ensures within { IfSome result (λ k. k < length slots.now) }
    ensures covers { IfSome result (λ k. covers address (index_slot slots.now k) ≡ true) }
    ensures index { (ranges : List Range) → IsIndexOf ranges slots.now
        → MatchOption result (IsHeldByNone ranges address) (λ k. IsFirstToHold ranges address (index_slot slots.now k).owner) }
{
    let number = first_past(slots, address);
    if number < slots.len() && slots[number].holds(address) {
        Some(number)
    } else {
        None
    }
}

/// The number of the first slot that ends past an address, or how many slots there are if none does.
pub fn first_past(slots: &[IndexSlot], address: u64) -> usize
    ensures within { result ≤ length slots.now }
    ensures behind { AreApart slots.now → (k : ℕ) → k < result → slot_end (index_slot slots.now k) ≤ address }
    ensures past { result < length slots.now → address < slot_end (index_slot slots.now result) }
{
    let mut low = 0;
    let mut high = slots.len();
    while low < high {
        let middle = low + (high - low) / 2;
        if slots[middle].end() <= u128::from(address) {
            low = middle + 1;
        } else {
            high = middle;
        }
    }
    low
}
