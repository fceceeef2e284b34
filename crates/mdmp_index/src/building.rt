//! An index of ranges.
ghost use Rattle.std.specs.Prelude.{◌≡◌, ◌≤◌, ◌<◌, ◌+◌, ◌*◌, ℕ, length, take, true};
ghost use Rattle.mdmp_map.specs.Ranges.{address_end, holds};
ghost use Rattle.mdmp_index.specs.Cells.{ArePlaced, AreTaken, StartsRise, edge_at, start_at};
ghost use Rattle.mdmp_index.specs.Index.{IsFirstToHold, IsIndexOf, IsSlotOf};
ghost use Rattle.mdmp_index.specs.Slots.{index_slot};

use crate::cells::{cut_all, edge};
use crate::ranges::Ranges;
use crate::slot::IndexSlot;
use crate::taking::take;

/// Makes an index of ranges at the front of `slots`, and answers how many slots it has. It takes two slots for
/// each range. The contract does not say what the other slots hold.
pub fn index<R: Ranges>(ranges: &R, slots: &mut [IndexSlot]) -> usize
    requires { 2 * length (R.ranges ranges.now) ≤ length slots.old }
    ensures count { result ≤ 2 * length (R.ranges ranges.now) }
    ensures index { IsIndexOf (R.ranges ranges.now) (take result slots.new) }
{
    let cells = 2 * ranges.count();
    make(ranges, &mut slots[..cells])
}

/// Makes an index of ranges in two slots for each.
fn make<R: Ranges>(ranges: &R, cells: &mut [IndexSlot]) -> usize
    requires { length cells.old ≡ 2 * length (R.ranges ranges.now) }
    ensures count { result ≤ length cells.new }
    ensures index { IsIndexOf (R.ranges ranges.now) (take result cells.new) }
{
    cut_all(ranges, cells);
    for number in 0..ranges.count() {
        take(ranges, number, cells);
    }
    keep(ranges, cells)
}

/// Makes a slot of each cell that is taken, and puts it at the front. Answers how many there are.
fn keep<R: Ranges>(ranges: &R, cells: &mut [IndexSlot]) -> usize
    requires placed { ArePlaced (R.ranges ranges.now) cells.old }
    requires rise { StartsRise cells.old }
    requires taken { AreTaken (R.ranges ranges.now) (length (R.ranges ranges.now)) cells.old }
    ensures count { result ≤ length cells.new }
    ensures index { IsIndexOf (R.ranges ranges.now) (take result cells.new) }
{
    let mut kept = 0;
    for number in 0..cells.len() {
        let cell = cells[number];
        let start = edge(cells, number);
        let end = edge(cells, number + 1);
        if cell.length > number as u64 && start < end {
            cells[kept] = slot_of(ranges, &cell, end);
            kept += 1;
        }
    }
    kept
}

/// The slot that a cell is.
fn slot_of<R: Ranges>(ranges: &R, cell: &IndexSlot, end: u128) -> IndexSlot
    requires some { cell.now.start < end }
    requires below { end ≤ address_end }
    requires first { (address : ℕ) → cell.now.start ≤ address → address < end → IsFirstToHold (R.ranges ranges.now) address cell.now.owner }
    ensures slot { IsSlotOf (R.ranges ranges.now) end result }
    ensures start { result.start ≡ cell.now.start }
    ensures length { result.start + result.length ≡ end }
{
    let range = ranges.range(cell.owner as usize);
    IndexSlot {
        start: cell.start,
        length: (end - u128::from(cell.start)) as u64,
        offset: range.offset + (cell.start - range.start),
        owner: cell.owner,
    }
}
