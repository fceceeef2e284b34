//! Calls that make an index of rows that a caller keeps, and find an address by it.
ghost use Rattle.std.specs.Prelude.{◌≡◌, List, length};
ghost use Rattle.mdmp_map.specs.declared.range.Range.{Range};
ghost use Rattle.mdmp_index.specs.Index.{IsIndexOf};
ghost use Rattle.mdmp_c.specs.Index.{GivesIndex, IsOwner, ReadsIndexed, image_ranges, row_ranges};

use crate::addressing::kept_range;
use crate::fault::{NO_FAULT, PlainFault, of_kind};
use crate::giving::{TOO_SHORT, refuse};
use crate::kinds;
use crate::rows::{ModuleRow, RangeRow};
use mdmp_index::{IndexSlot, Ranges, index, read, slot_at};
use mdmp_map::Range;

/// The owner that no slot has.
pub const NO_OWNER: u64 = u64::MAX;

/// A range of no bytes, for a row that is passed over.
const NO_RANGE: Range = Range {
    start: 0,
    length: 0,
    offset: 0,
};

/// Rows of ranges, of which those count whose bytes lie inside a file of `size` bytes.
#[derive(Drop)]
struct KeptRows<'a> {
    size: u64,
    rows: &'a [RangeRow],
}

impl Ranges for KeptRows<'_> {
    ghost use Rattle.mdmp_c.specs.Index.{row_ranges};

    ghost ranges = { λ s. row_ranges s.size s.rows.now };

    fn count(&self) -> usize {
        self.rows.len()
    }

    fn range(&self, number: usize) -> Range {
        kept_range(self.size, &self.rows[number]).unwrap_or(NO_RANGE)
    }
}

/// Rows of modules: the addresses of their images.
#[derive(Drop)]
struct Images<'a> {
    rows: &'a [ModuleRow],
}

impl Ranges for Images<'_> {
    ghost use Rattle.mdmp_c.specs.Index.{image_ranges};

    ghost ranges = { λ s. image_ranges s.rows.now };

    fn count(&self) -> usize {
        self.rows.len()
    }

    fn range(&self, number: usize) -> Range {
        let row = self.rows[number];
        Range {
            start: row.base_of_image,
            length: u64::from(row.size_of_image),
            offset: 0,
        }
    }
}

/// Gives an index of ranges, or how many slots it needs: two for each range.
fn give_index<R: Ranges>(
    ranges: &R,
    out: &mut [IndexSlot],
    count: &mut u64,
    fault: &mut PlainFault,
) -> u32
    ensures { GivesIndex (R.ranges ranges.now) result count.new fault.new out.old out.new }
{
    *fault = NO_FAULT;
    if out.len() / 2 < ranges.count() {
        *count = (ranges.count() as u64).saturating_mul(2);
        return TOO_SHORT;
    }
    *count = index(ranges, out) as u64;
    0
}

/// Gives an index of ranges that [`mdmp_ranges_`](crate::mdmp_ranges_) gave. It skips ranges whose bytes do not lie
/// inside the file. A slot's owner is the number of a row.
///
/// It allocates nothing. If `out` has room for two slots for each row, that is enough; with less room nothing is given.
#[unsafe(no_mangle)]
pub extern "C" fn mdmp_index_(
    file: &[u8],
    ranges: &[RangeRow],
    out: &mut [IndexSlot],
    count: &mut u64,
    fault: &mut PlainFault,
) -> u32
    ensures { GivesIndex (row_ranges (length file.now) ranges.now) result count.new fault.new out.old out.new }
{
    let rows = KeptRows {
        size: file.len() as u64,
        rows: ranges,
    };
    give_index(&rows, out, count, fault)
}

/// Gives an index of the images of modules that [`mdmp_modules_`](crate::mdmp_modules_) gave. A slot's owner is the
/// number of a row, and its offset how far its first address is into the image.
#[unsafe(no_mangle)]
pub extern "C" fn mdmp_index_modules_(
    modules: &[ModuleRow],
    out: &mut [IndexSlot],
    count: &mut u64,
    fault: &mut PlainFault,
) -> u32
    ensures { GivesIndex (image_ranges modules.now) result count.new fault.new out.old out.new }
{
    give_index(&Images { rows: modules }, out, count, fault)
}

/// Gives the memory of the dumped process from an address on, by an index that [`mdmp_index_`] gave: what
/// [`mdmp_read_`](crate::mdmp_read_) gives by its rows. Slots that are no index give bytes of the file, or none.
///
/// It allocates nothing.
#[unsafe(no_mangle)]
pub extern "C" fn mdmp_read_index_(
    file: &[u8],
    slots: &[IndexSlot],
    address: u64,
    out: &mut [u8],
    known: &mut [bool],
    fault: &mut PlainFault,
) -> u32
    ensures { ReadsIndexed file.now slots.now address result fault.new out.old out.new known.old known.new }
{
    let mut none = 0;
    if out.len() != known.len() {
        return refuse(of_kind(kinds::LENGTHS_DIFFER), &mut none, fault);
    }
    read(file, slots, address, out, known);
    *fault = NO_FAULT;
    0
}

/// Gives the owner of an address in an index: the number of the first row that holds it, or [`NO_OWNER`] if none
/// does.
#[unsafe(no_mangle)]
pub extern "C" fn mdmp_where_(slots: &[IndexSlot], address: u64, owner: &mut u64) -> u32
    ensures status { result ≡ 0 }
    ensures owner { (ranges : List Range) → IsIndexOf ranges slots.now → IsOwner ranges address owner.new }
{
    *owner = match slot_at(slots, address) {
        Some(number) => slots[number].owner,
        None => NO_OWNER,
    };
    0
}
