//! The cells that an index is made from, which are in the memory of its slots.
ghost use Rattle.std.specs.Prelude.{◌≡◌, ◌≢◌, ◌≤◌, ◌<◌, ◌+◌, ◌*◌, ℕ, List, length};
ghost use Rattle.mdmp_map.specs.Ranges.{address_end};
ghost use Rattle.mdmp_index.specs.declared.slot.IndexSlot.{IndexSlot};
ghost use Rattle.mdmp_index.specs.Cells.{AreCuts, ArePlaced, IsCellOfCut, StartsRise, cell_of, edge_at, next_at, owner_at, start_at};

use crate::ranges::Ranges;
use crate::slot::IndexSlot;

/// The end of all addresses.
const ADDRESS_END: u128 = 1 << 64;

/// Begins a cell where a range begins, and one where it ends, in order of their first addresses. None is taken.
pub(crate) fn cut_all<R: Ranges>(ranges: &R, cells: &mut [IndexSlot])
    requires { length cells.old ≡ 2 * length (R.ranges ranges.now) }
    ensures placed { ArePlaced (R.ranges ranges.now) cells.new }
    ensures rise { StartsRise cells.new }
    ensures own { (k : ℕ) → k < length cells.new → next_at cells.new k ≡ k }
{
    cut(ranges, cells);
    cells.sort_unstable_by_key(|cell| cell.start);
    number(cells);
}

/// Begins a cell where a range begins, and one where it ends, if an address is there. Each gets its number.
fn cut<R: Ranges>(ranges: &R, cells: &mut [IndexSlot])
    requires { length cells.old ≡ 2 * length (R.ranges ranges.now) }
    ensures { AreCuts (R.ranges ranges.now) (length (R.ranges ranges.now)) cells.new }
{
    for number in 0..ranges.count() {
        let range = ranges.range(number);
        let end = range.start.checked_add(range.length);
        cells[2 * number] = cell_at(range.start, 2 * number);
        cells[2 * number + 1] = cell_at(end.unwrap_or(range.start), 2 * number + 1);
    }
}

/// A cell that begins at a cut.
fn cell_at(start: u64, cut: usize) -> IndexSlot
    ensures { result ≡ record { start = start; length = 0; offset = 0; owner = cut } }
{
    IndexSlot {
        start,
        length: 0,
        offset: 0,
        owner: cut as u64,
    }
}

/// Gives each cell its own number, and its cut too.
fn number(cells: &mut [IndexSlot])
    requires { (k : ℕ) → k < length cells.old → owner_at cells.old k < length cells.old }
    ensures own { (k : ℕ) → k < length cells.new → next_at cells.new k ≡ k }
    ensures starts { (k : ℕ) → start_at cells.new k ≡ start_at cells.old k }
    ensures placed { (cuts : List IndexSlot) → ((k : ℕ) → k < length cells.old → start_at cells.old k ≡ start_at cuts (owner_at cells.old k))
        → (k : ℕ) → k < length cells.old → IsCellOfCut cells.new (owner_at cells.old k) (start_at cells.old k) }
{
    for number in 0..cells.len() {
        place(cells, number);
    }
}

/// Gives a cell its own number, and its cut too.
fn place(cells: &mut [IndexSlot], number: usize)
    requires within { number < length cells.old }
    requires cut { owner_at cells.old number < length cells.old }
    ensures own { next_at cells.new number ≡ number }
    ensures other_cells { (k : ℕ) → k ≢ number → next_at cells.new k ≡ next_at cells.old k }
    ensures cut { cell_of cells.new (owner_at cells.old number) ≡ number }
    ensures other_cuts { (k : ℕ) → k ≢ owner_at cells.old number → cell_of cells.new k ≡ cell_of cells.old k }
    ensures starts { (k : ℕ) → start_at cells.new k ≡ start_at cells.old k }
    ensures owners { (k : ℕ) → owner_at cells.new k ≡ owner_at cells.old k }
{
    let cut = cells[number].owner as usize;
    cells[cut].offset = number as u64;
    cells[number].length = number as u64;
}

/// The first address of a cell, or after the last cell the end of all addresses.
pub(crate) fn edge(cells: &[IndexSlot], number: usize) -> u128
    ensures edge { result ≡ edge_at cells.now number }
    ensures below { result ≤ address_end }
{
    if number < cells.len() {
        u128::from(cells[number].start)
    } else {
        ADDRESS_END
    }
}
