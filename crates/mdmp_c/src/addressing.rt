//! Memory of the dumped process, read of a file in memory by ranges that a caller kept.
ghost use Rattle.std.specs.Prelude.{◌≡◌, ◌≤◌, ◌<◌, ◌+◌, ◌-◌, ◌∷◌, ◌++◌, [], ℕ, List, Some, false, get_or, length, slice_index, true};
ghost use Rattle.mdmp_c.specs.Memory.{kept_range, kept_ranges};
ghost use Rattle.mdmp_lister.specs.Addressing.{ReadsCells};
ghost use Rattle.mdmp_lister.specs.Painting.{AreCells, ArePainted};
ghost use Rattle.mdmp_map.specs.declared.range.Range.{Range};
ghost use Rattle.mdmp_map.specs.Ranges.{IsPlaced, IsWithin};

use crate::rows::RangeRow;
use mdmp_map::{BLOCK, Paint, PaintedRun, Range};

/// The range that a row is, where its bytes lie inside a file of `size` bytes, as it says.
pub(crate) fn kept_range(size: u64, row: &RangeRow) -> Option<Range>
    ensures { result ≡ kept_range size row.now }
{
    if row.extent == 2
        && row.offset_high == 0
        && row.size > 0
        && row.offset <= size
        && row.size <= size - row.offset
    {
        Some(Range {
            start: row.start,
            length: row.size,
            offset: row.offset,
        })
    } else {
        None
    }
}

/// Copies a run of a block, none of whose bytes is known yet.
fn read_run(file: &[u8], run: PaintedRun, out: &mut [u8], known: &mut [bool])
    requires same { length out.old ≡ length known.old }
    requires some { run.first < run.end }
    requires within { run.end ≤ length out.old }
    requires inside { run.offset + (run.end - run.first) ≤ length file.now }
    ensures known { (k : ℕ) → run.first ≤ k → k < run.end → get_or known.new k false ≡ true }
    ensures known_below { (k : ℕ) → k < run.first → get_or known.new k false ≡ get_or known.old k false }
    ensures known_behind { (k : ℕ) → run.end ≤ k → get_or known.new k false ≡ get_or known.old k false }
    ensures bytes { (k : ℕ) → run.first ≤ k → k < run.end → slice_index out.new k ≡ slice_index file.now (run.offset + (k - run.first)) }
    ensures bytes_below { (k : ℕ) → k < run.first → slice_index out.new k ≡ slice_index out.old k }
    ensures bytes_behind { (k : ℕ) → run.end ≤ k → slice_index out.new k ≡ slice_index out.old k }
{
    known[run.first..run.end].fill(true);
    let start = run.offset as usize;
    let end = start + (run.end - run.first);
    out[run.first..run.end].copy_from_slice(&file[start..end]);
}

/// Copies the bytes of a range at those places of a block that no range before it holds.
fn read_range(file: &[u8], paint: &mut Paint, range: &Range, out: &mut [u8], known: &mut [bool])
    requires same { length out.old ≡ length known.old }
    requires placed { IsPlaced range.now }
    requires inside { IsWithin (length file.now) range.now }
    requires painted { ArePainted paint.old known.old }
    ensures painted { ArePainted paint.new known.new }
    ensures start { paint.new.start ≡ paint.old.start }
    ensures cells { (seen : List Range) → AreCells (Some file.now) seen paint.old.start out.old known.old
        → AreCells (Some file.now) (seen ++ range.now ∷ []) paint.old.start out.new known.new }
{
    let mut from = 0;
    'runs: while let Some(run) = paint.paint(range, from) {
        read_run(file, run, out, known);
        from = run.end;
    }
}

/// Reads a block of addresses, at most 32768, by a look at one row after another.
fn read_block(file: &[u8], rows: &[RangeRow], address: u128, out: &mut [u8], known: &mut [bool])
    requires same { length out.old ≡ length known.old }
    requires few { length out.old ≤ 32768 }
    ensures { ReadsCells (Some file.now) (kept_ranges (length file.now) rows.now) address out.new known.new }
{
    out.fill(0);
    known.fill(false);
    let size = file.len() as u64;
    let mut paint = Paint::over(address, out.len());
    for row in rows {
        if paint.is_full() {
            return;
        }
        if let Some(range) = kept_range(size, row) {
            read_range(file, &mut paint, &range, out, known);
        }
    }
}

/// Reads memory by those of some ranges whose bytes lie inside the file, block after block.
pub(crate) fn read_by(
    file: &[u8],
    rows: &[RangeRow],
    address: u64,
    out: &mut [u8],
    known: &mut [bool],
)
    requires { length out.old ≡ length known.old }
    ensures { ReadsCells (Some file.now) (kept_ranges (length file.now) rows.now) address out.new known.new }
{
    let mut done = 0;
    while done < out.len() {
        let end = done + (out.len() - done).min(BLOCK);
        let at = u128::from(address) + done as u128;
        read_block(file, rows, at, &mut out[done..end], &mut known[done..end]);
        done = end;
    }
}
