//! What is read of the dumped process's memory.
ghost use Rattle.std.specs.Prelude.{◌≡◌, ◌≤◌, ◌<◌, ◌+◌, ◌-◌, ◌*◌, ◌/◌, ◌∷◌, ◌++◌, [], ℕ, List, None, Some, get_or, false, length, replicate, slice_index, true, All, IfOk, IfSome, OnOk, is_some};
ghost use Rattle.mdmp_source.specs.Range.{IsInside, bytes_at};
ghost use Rattle.mdmp_source.specs.Source.{fault_of};
ghost use Rattle.mdmp_map.specs.declared.range.Range.{Range};
ghost use Rattle.mdmp_map.specs.Ranges.{AreSorted, IsPlaced, IsWithin, first_range};
ghost use Rattle.mdmp_lister.specs.Addressing.{FetchesAside, FetchesStretches, HalvesAtMost, IsStretch, LooksUpAtMost, ReadsAddresses, is_same_range, stretches_at};
ghost use Rattle.mdmp_lister.specs.Fault.{IsCaused};
ghost use Rattle.mdmp_lister.specs.Fetching.{ReadsBeside};
ghost use Rattle.mdmp_lister.specs.Meter.{BooksAside, counts_of};
ghost use Rattle.mdmp_lister.specs.Painting.{AreCells, ArePainted, BooksNewly, FetchesBegun, count_known};

use crate::meter::Meter;
use mdmp_map::{AddressMap, BLOCK, Found, Paint, PaintedRun, Range, Steps};
use mdmp_source::{SourceFault, Store};
use std::alloc::Allocator;
use std::sync::ledger::Ledger;

/// Addresses that follow each other, which one range is the first to hold, or which none holds.
#[derive(Clone, Copy)]
struct Stretch {
    /// Where the first byte stands in the file, or none where no range holds an address of them.
    offset: Option<u64>,
    /// How many addresses they are.
    count: usize,
}

/// The addresses from this one on that stand together, as far as they do, and at most so many. No range
/// holds an address of 2^64 or more.
#[tactic(auto, using(crate::proofs::Looks::looks_up_one))]
fn stretch_at<A: Allocator, G: Ledger>(
    map: &AddressMap<A>,
    address: u128,
    most: usize,
    steps: &mut Steps<G>,
) -> Stretch
    requires some { 0 < most }
    requires sorted { AreSorted map.now.ranges }
    ensures some { 0 < result.count }
    ensures most { result.count ≤ most }
    ensures stretch { IsStretch map.now.ranges address result.offset result.count }
    ensures within { (size : ℕ) → All (IsWithin size) map.now.ranges → IfSome result.offset (λ at. at + result.count ≤ size) }
    ensures edge { result.count < most → is_same_range (first_range map.now.ranges (address + (result.count - 1))) (first_range map.now.ranges (address + result.count)) ≡ false }
    ensures looks { HalvesAtMost (length map.now.ranges) 1 steps.old steps.new }
{
    let Ok(first) = u64::try_from(address) else {
        return Stretch {
            offset: None,
            count: most,
        };
    };
    match map.look_up_counted(first, steps) {
        Found::Held(place) => Stretch {
            offset: Some(place.offset),
            count: place.left.min(most as u64) as usize,
        },
        Found::Gap(count) => Stretch {
            offset: None,
            count: count.min(most as u128) as usize,
        },
    }
}

/// Reads the bytes that stand from an offset of the file on, by one fetch; where there is none they are
/// not known, and nothing is fetched.
fn read_stretch<S: Store>(
    meter: &mut Meter<S>,
    offset: Option<u64>,
    out: &mut [u8],
    known: &mut [bool],
) -> Result<(), SourceFault>
    requires same { length out.old ≡ length known.old }
    requires inside { IfSome offset (λ at. IsInside at (length out.old) meter.old.source.size) }
    ensures known { IfOk result (λ _. known.new ≡ replicate (length out.new) (is_some offset)) }
    ensures zeros { offset ≡ None → out.new ≡ replicate (length out.new) 0 }
    ensures none { offset ≡ None → meter.new ≡ meter.old }
    ensures reads { ReadsBeside 1 (length out.new) (λ file _. IfSome offset (λ at. out.new ≡ bytes_at file at (length out.new))) result meter.old meter.new }
{
    known.fill(offset.is_some());
    match offset {
        None => {
            out.fill(0);
            Ok(())
        }
        Some(at) => meter.fetch_aside(at, out),
    }
}

/// Reads a run of a block, none of whose bytes is known yet, by one fetch.
fn read_run<S: Store>(
    meter: &mut Meter<S>,
    run: PaintedRun,
    out: &mut [u8],
    known: &mut [bool],
) -> Result<(), SourceFault>
    requires same { length out.old ≡ length known.old }
    requires some { run.first < run.end }
    requires within { run.end ≤ length out.old }
    requires inside { run.offset + (run.end - run.first) ≤ meter.old.source.size }
    requires free { (k : ℕ) → run.first ≤ k → k < run.end → get_or known.old k false ≡ false }
    ensures known { (k : ℕ) → run.first ≤ k → k < run.end → get_or known.new k false ≡ true }
    ensures known_below { (k : ℕ) → k < run.first → get_or known.new k false ≡ get_or known.old k false }
    ensures known_behind { (k : ℕ) → run.end ≤ k → get_or known.new k false ≡ get_or known.old k false }
    ensures counted { count_known known.new ≡ count_known known.old + (run.end - run.first) }
    ensures bytes { (F : List ℕ) → meter.old.source.store.content ≡ Some F → OnOk result ((k : ℕ) → run.first ≤ k → k < run.end → slice_index out.new k ≡ slice_index F (run.offset + (k - run.first))) }
    ensures bytes_below { (k : ℕ) → k < run.first → slice_index out.new k ≡ slice_index out.old k }
    ensures bytes_behind { (k : ℕ) → run.end ≤ k → slice_index out.new k ≡ slice_index out.old k }
    ensures books { BooksAside 1 (run.end - run.first) meter.old meter.new }
    ensures caused { IsCaused (fault_of result) meter.old.source meter.new.source }
{
    known[run.first..run.end].fill(true);
    meter.fetch_aside(run.offset, &mut out[run.first..run.end])
}

/// Reads the bytes of a range at those places of a block that no range before it holds.
fn read_range<S: Store>(
    meter: &mut Meter<S>,
    paint: &mut Paint,
    range: &Range,
    out: &mut [u8],
    known: &mut [bool],
) -> Result<(), SourceFault>
    requires same { length out.old ≡ length known.old }
    requires placed { IsPlaced range.now }
    requires inside { IsWithin meter.old.source.size range.now }
    requires painted { ArePainted paint.old known.old }
    ensures painted { OnOk result (ArePainted paint.new known.new) }
    ensures start { paint.new.start ≡ paint.old.start }
    ensures cells { (seen : List Range) → AreCells meter.old.source.store.content seen paint.old.start out.old known.old
        → OnOk result (AreCells meter.old.source.store.content (seen ++ range.now ∷ []) paint.old.start out.new known.new) }
    ensures books { BooksNewly known.old known.new meter.old meter.new }
    ensures calls { (seen rest : List Range) → AreCells meter.old.source.store.content seen paint.old.start out.old known.old
        → FetchesBegun (seen ++ range.now ∷ rest) paint.old.start known.old known.new meter.old meter.new }
    ensures caused { IsCaused (fault_of result) meter.old.source meter.new.source }
{
    let mut from = 0;
    'runs: while let Some(run) = paint.paint(range, from) {
        read_run(meter, run, out, known)?;
        from = run.end;
    }
    Ok(())
}

/// Reads a block of addresses, at most 32768, by a look at one range after another.
fn read_block<S: Store, A: Allocator, G: Ledger>(
    meter: &mut Meter<S>,
    map: &AddressMap<A>,
    address: u128,
    out: &mut [u8],
    known: &mut [bool],
    steps: &mut Steps<G>,
) -> Result<(), SourceFault>
    requires same { length out.old ≡ length known.old }
    requires few { length out.old ≤ 32768 }
    requires inside { All (IsWithin meter.old.source.size) map.now.ranges }
    ensures reads { ReadsAddresses map.now.ranges address result out.new known.new meter.old meter.new }
    ensures looks { steps.new ≤ steps.old + length map.now.ranges }
    ensures calls { FetchesAside (stretches_at map.now.ranges address (length out.new)) meter.old.source meter.new.source (counts_of meter.old) (counts_of meter.new) }
{
    out.fill(0);
    known.fill(false);
    let mut paint = Paint::over(address, out.len());
    for number in 0..map.len() {
        if paint.is_full() {
            return Ok(());
        }
        let range = map.look_at(number, steps);
        read_range(meter, &mut paint, &range, out, known)?;
    }
    Ok(())
}

/// Reads addresses block after block.
fn read_blocks<S: Store, A: Allocator, G: Ledger>(
    meter: &mut Meter<S>,
    map: &AddressMap<A>,
    address: u64,
    out: &mut [u8],
    known: &mut [bool],
    steps: &mut Steps<G>,
) -> Result<(), SourceFault>
    requires same { length out.old ≡ length known.old }
    requires inside { All (IsWithin meter.old.source.size) map.now.ranges }
    ensures reads { ReadsAddresses map.now.ranges address result out.new known.new meter.old meter.new }
    ensures looks { steps.new ≤ steps.old + length map.now.ranges * (length out.new / 32768 + 1) }
    ensures calls { FetchesAside (stretches_at map.now.ranges address (length out.new) + (length out.new - 1) / 32768) meter.old.source meter.new.source (counts_of meter.old) (counts_of meter.new) }
{
    let mut done = 0;
    while done < out.len() {
        let end = done + (out.len() - done).min(BLOCK);
        let at = u128::from(address) + done as u128;
        read_block(
            meter,
            map,
            at,
            &mut out[done..end],
            &mut known[done..end],
            steps,
        )?;
        done = end;
    }
    Ok(())
}

/// Reads addresses stretch after stretch, each of which one search finds.
fn read_stretches<S: Store, A: Allocator, G: Ledger>(
    meter: &mut Meter<S>,
    map: &AddressMap<A>,
    address: u64,
    out: &mut [u8],
    known: &mut [bool],
    steps: &mut Steps<G>,
) -> Result<(), SourceFault>
    requires same { length out.old ≡ length known.old }
    requires inside { All (IsWithin meter.old.source.size) map.now.ranges }
    requires sorted { AreSorted map.now.ranges }
    ensures reads { ReadsAddresses map.now.ranges address result out.new known.new meter.old meter.new }
    ensures looks { HalvesAtMost (length map.now.ranges) (length out.new) steps.old steps.new }
    ensures calls { FetchesAside (stretches_at map.now.ranges address (length out.new)) meter.old.source meter.new.source (counts_of meter.old) (counts_of meter.new) }
{
    let mut done = 0;
    while done < out.len() {
        let at = u128::from(address) + done as u128;
        let stretch = stretch_at(map, at, out.len() - done, steps);
        let end = done + stretch.count;
        read_stretch(
            meter,
            stretch.offset,
            &mut out[done..end],
            &mut known[done..end],
        )?;
        done = end;
    }
    Ok(())
}

/// Reads the memory of the dumped process from an address on, as far as the ranges of the map hold it.
/// Where one holds an address, its byte is put into `out`, and `known` is true there; else both are 0
/// and false. After a fault they may hold anything. Each stretch of addresses is read by one fetch, or
/// by none where no range holds it. While the ranges are sorted one search finds a stretch; else each
/// range is looked at once for each block of 32768 addresses, and a stretch is cut where a block ends.
/// The looks are counted.
pub(crate) fn read_addresses<S: Store, A: Allocator, G: Ledger>(
    meter: &mut Meter<S>,
    map: &AddressMap<A>,
    address: u64,
    out: &mut [u8],
    known: &mut [bool],
    steps: &mut Steps<G>,
) -> Result<(), SourceFault>
    requires same { length out.old ≡ length known.old }
    requires inside { All (IsWithin meter.old.source.size) map.now.ranges }
    ensures reads { ReadsAddresses map.now.ranges address result out.new known.new meter.old meter.new }
    ensures looks { LooksUpAtMost map.now.ranges (length out.new) steps.old steps.new }
    ensures calls { FetchesStretches map.now.ranges address (length out.new) meter.old.source meter.new.source (counts_of meter.old) (counts_of meter.new) }
{
    if map.is_sorted() {
        read_stretches(meter, map, address, out, known, steps)
    } else {
        read_blocks(meter, map, address, out, known, steps)
    }
}
