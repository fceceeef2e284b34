//! Memory that is read by the slots of an index.
ghost use Rattle.std.specs.Prelude.{◌≡◌, ◌≤◌, ◌<◌, ◌+◌, ◌-◌, ℕ, List, All, false, get_or, length, min, slice_index, true};
ghost use Rattle.mdmp_map.specs.declared.range.Range.{Range};
ghost use Rattle.mdmp_map.specs.Ranges.{IsWithin};
ghost use Rattle.mdmp_index.specs.Index.{IsIndexOf};
ghost use Rattle.mdmp_index.specs.Reading.{AreSomeBytesOf, IsSameAt, ReadsBytes};
ghost use Rattle.mdmp_index.specs.Slots.{covers, slot_end};

use crate::search::first_past;
use crate::slot::IndexSlot;

/// Reads the memory from an address on by an index of ranges whose bytes are in the file: each byte that a range
/// holds, and whether it does. A byte that no range holds is 0. Slots that are no index give bytes of the file, or
/// none.
///
/// It takes one search, and a step for each slot that has an address of these and for each byte.
pub fn read(file: &[u8], slots: &[IndexSlot], address: u64, out: &mut [u8], known: &mut [bool])
    requires { length out.old ≡ length known.old }
    ensures index { (ranges : List Range) → IsIndexOf ranges slots.now → All (IsWithin (length file.now)) ranges → ReadsBytes file.now ranges address out.new known.new }
    ensures of_file { AreSomeBytesOf file.now out.new known.new }
{
    out.fill(0);
    known.fill(false);
    let mut done = 0;
    let mut number = first_past(slots, address);
    while done < out.len() && number < slots.len() {
        done = read_slot(file, &slots[number], address, done, out, known);
        number += 1;
    }
}

/// Reads the bytes of a slot into a buffer of which the first `done` places are done. Returns how many are done then: all
/// of them, if the slot begins after the buffer's addresses or ends before those that are left.
fn read_slot(
    file: &[u8],
    slot: &IndexSlot,
    address: u64,
    done: usize,
    out: &mut [u8],
    known: &mut [bool],
) -> usize
    requires same { length out.old ≡ length known.old }
    requires more { done < length out.old }
    ensures ahead { done < result }
    ensures within { result ≤ length out.new }
    ensures below { (k : ℕ) → k < done → IsSameAt out.old out.new known.old known.new k }
    ensures behind { (k : ℕ) → result ≤ k → IsSameAt out.old out.new known.old known.new k }
    ensures other { (k : ℕ) → covers (address + k) slot.now ≡ false → IsSameAt out.old out.new known.old known.new k }
    ensures known { slot.now.offset + slot.now.length ≤ length file.now → (k : ℕ) → done ≤ k → k < result → covers (address + k) slot.now ≡ true → get_or known.new k false ≡ true }
    ensures bytes { slot.now.offset + slot.now.length ≤ length file.now → (k : ℕ) → done ≤ k → k < result → covers (address + k) slot.now ≡ true
        → slice_index out.new k ≡ slice_index file.now (slot.now.offset + (address + k - slot.now.start)) }
    ensures before_end { 0 < slot.now.length → address + done < slot_end slot.now → (k : ℕ) → k < result → address + k < slot_end slot.now }
    ensures end { result < length out.new → slot_end slot.now ≤ address + result }
    ensures of_file { AreSomeBytesOf file.now out.old known.old → AreSomeBytesOf file.now out.new known.new }
{
    let first = place_of(u128::from(slot.start), address, out.len()).max(done);
    let end = place_of(slot.end(), address, out.len());
    if end <= first {
        return out.len();
    }
    let offset = u128::from(slot.offset) + u128::from(address) + first as u128
        - u128::from(slot.start);
    if offset + (end - first) as u128 <= file.len() as u128 {
        copy(file, offset as usize, first, end, out, known);
    }
    end
}

/// How many of so many addresses from one on are below another.
fn place_of(at: u128, address: u64, count: usize) -> usize
    ensures { result ≡ min (at - address) count }
{
    at.saturating_sub(u128::from(address)).min(count as u128) as usize
}

/// Copies bytes of the file that follow each other to the places from `first` on, up to `end`.
fn copy(file: &[u8], offset: usize, first: usize, end: usize, out: &mut [u8], known: &mut [bool])
    requires same { length out.old ≡ length known.old }
    requires some { first ≤ end }
    requires within { end ≤ length out.old }
    requires inside { offset + (end - first) ≤ length file.now }
    ensures known { (k : ℕ) → first ≤ k → k < end → get_or known.new k false ≡ true }
    ensures bytes { (k : ℕ) → first ≤ k → k < end → slice_index out.new k ≡ slice_index file.now (offset + (k - first)) }
    ensures below { (k : ℕ) → k < first → IsSameAt out.old out.new known.old known.new k }
    ensures behind { (k : ℕ) → end ≤ k → IsSameAt out.old out.new known.old known.new k }
{
    for place in first..end {
        out[place] = file[offset + (place - first)];
        known[place] = true;
    }
}
