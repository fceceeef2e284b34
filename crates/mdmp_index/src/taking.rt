//! Ranges take cells in listing order, each what no range before it took.
ghost use Rattle.std.specs.Prelude.{◌≡◌, ◌≢◌, ◌≤◌, ◌<◌, ◌+◌, ◌*◌, ℕ, false, length, max, true};
ghost use Rattle.mdmp_map.specs.Ranges.{address_end, range_end};
ghost use Rattle.mdmp_index.specs.Cells.{AreTaken, ArePlaced, KeepsCells, SkipsTaken, StartsRise, TakesCells, cell_of, is_taken, next_at, owner_at, start_at};
ghost use Rattle.mdmp_index.specs.Slots.{range_at, index_slot};

use crate::ranges::Ranges;
use crate::slot::IndexSlot;

/// A range takes those of the cells that it holds which no earlier range took.
pub(crate) fn take<R: Ranges>(ranges: &R, number: usize, cells: &mut [IndexSlot])
    requires within { number < length (R.ranges ranges.now) }
    requires room { length cells.old ≡ 2 * length (R.ranges ranges.now) }
    requires placed { ArePlaced (R.ranges ranges.now) cells.old }
    requires rise { StartsRise cells.old }
    requires skips { SkipsTaken cells.old }
    requires taken { AreTaken (R.ranges ranges.now) number cells.old }
    ensures keeps { KeepsCells cells.old cells.new }
    ensures skips { SkipsTaken cells.new }
    ensures taken { AreTaken (R.ranges ranges.now) (number + 1) cells.new }
{
    let low = cells[2 * number].offset as usize;
    let high = end_of(ranges, number, cells);
    take_between(cells, low, high, number as u64);
}

/// The number of the cell that begins where a range ends, or how many there are if no address is there.
fn end_of<R: Ranges>(ranges: &R, number: usize, cells: &[IndexSlot]) -> usize
    requires within { number < length (R.ranges ranges.now) }
    requires room { length cells.now ≡ 2 * length (R.ranges ranges.now) }
    ensures cell { range_end (range_at (R.ranges ranges.now) number) < address_end → result ≡ cell_of cells.now (2 * number + 1) }
    ensures none { address_end ≤ range_end (range_at (R.ranges ranges.now) number) → result ≡ length cells.now }
{
    let range = ranges.range(number);
    if range.start.checked_add(range.length).is_some() {
        cells[2 * number + 1].offset as usize
    } else {
        cells.len()
    }
}

/// Takes those of the cells from `low` on, up to `high`, that are not taken. What it passes gets shorter to
/// pass.
fn take_between(cells: &mut [IndexSlot], low: usize, high: usize, owner: u64)
    requires low { low ≤ length cells.old }
    requires high { high ≤ length cells.old }
    requires skips { SkipsTaken cells.old }
    ensures skips { SkipsTaken cells.new }
    ensures takes { TakesCells low high owner cells.old cells.new }
    ensures keeps { KeepsCells cells.old cells.new }
{
    let mut cell = low;
    while cell < high {
        cell = take_one(cells, cell, high, owner);
    }
}

/// Takes a cell if it is not taken. Returns the number of a later cell; all cells up to that one are taken then.
fn take_one(cells: &mut [IndexSlot], cell: usize, high: usize, owner: u64) -> usize
    requires within { cell < length cells.old }
    ensures behind { result ≡ max (next_at cells.old cell) (cell + 1) }
    ensures next { next_at cells.new cell ≡ max result high }
    ensures owner { is_taken cells.old cell ≡ false → owner_at cells.new cell ≡ owner }
    ensures before { is_taken cells.old cell ≡ true → owner_at cells.new cell ≡ owner_at cells.old cell }
    ensures others { (k : ℕ) → k ≢ cell → index_slot cells.new k ≡ index_slot cells.old k }
    ensures keeps { KeepsCells cells.old cells.new }
{
    let next = cells[cell].length as usize;
    if next <= cell {
        cells[cell].owner = owner;
    }
    let behind = next.max(cell + 1);
    cells[cell].length = behind.max(high) as u64;
    behind
}
