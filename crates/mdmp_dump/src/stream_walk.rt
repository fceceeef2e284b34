//! The walk over all streams of a file, as a view of it is opened.
ghost use Rattle.std.specs.Prelude.{◌≡◌, ◌≤◌, ◌<◌, ◌+◌, ◌*◌, ◌^◌, ◌⊎◌, ℕ, List, length, map, None, Some, Err, IfErr, IfOk, IsTrue, MatchResult, sum, vec_capacity};
ghost use Rattle.mdmp_source.specs.Count.{raised};
ghost use Rattle.mdmp_lister.specs.Format.Kind.{kind_of};
ghost use Rattle.mdmp_lister.specs.Meter.{KeepsTo, is_passed};
ghost use Rattle.mdmp_lister.specs.declared.kind.StreamKind.TheVariants.{MemoryInfo};
ghost use Rattle.mdmp_dump.specs.EntryWalk.{MayCount, Pays, chosen_entry, listed, name_cost, pass_cost};
ghost use Rattle.mdmp_dump.specs.FileView.{AreBare, AreCounted, AreWalked, HasWalked, IsShortAt, KeepsAll, KeepsUpTo, PaysAll, PaysSome, PaysUpTo, TellsFirst, TellsStream, WalksRecord, asks_in, costs_in, kind_at, pass_cost_in};
ghost use Rattle.mdmp_dump.specs.Shape.{GivesNone};
ghost use Rattle.mdmp_dump.specs.FileRefusal.{IsOfOpening, run_told};
ghost use Rattle.mdmp_dump.specs.Left.{run_of};
ghost use Rattle.mdmp_dump.specs.Reading.{Fetches, IsWanting};

use crate::entry_walk::EntryWalk;
use crate::fault::ReadFault;
use crate::pass::{cost_of, met_room, raw_part};
use crate::placed::part_bytes;
use mdmp_lister::{OpenFault, StreamKind};
use mdmp_source::Store;
use mdmp_wire::Entry;
use std::alloc::Allocator;

/// What is kept of a stream: how many records it has, and what their names and parts take. And what a
/// pass over it costs, and how many bytes its names and parts have, or it has itself if its records are
/// not known.
#[derive(Clone, Copy)]
pub(crate) struct Walked {
    pub(crate) count: u32,
    pub(crate) room: u64,
    pub(crate) cost: u64,
    pub(crate) asks: u128,
}

/// The most bytes that opening a view may fetch, if there is a most, and how many it may have fetched.
#[derive(Clone, Copy)]
pub(crate) struct Spending {
    pub(crate) budget: Option<u64>,
    pub(crate) spent: u128,
}

/// Refuses a pass over a stream of so many records with which more bytes than the budget may be fetched.
fn keep_to_budget(spending: Spending, entry: Entry, count: u32) -> Result<(), ReadFault>
    requires { spending.spent ≤ 2 ^ 100 }
    ensures kept { MatchResult result (λ _. KeepsTo spending.budget (spending.spent + pass_cost entry count)) (λ _. IsTrue (is_passed spending.budget (spending.spent + pass_cost entry count))) }
    ensures told { IfErr result (λ fault. fault ≡ ReadFault.Opening (OpenFault.Budget entry.location.rva (pass_cost entry count))) }
{
    let cost = cost_of(entry, count);
    let offset = u64::from(entry.location.rva);
    match spending.budget {
        None => Ok(()),
        Some(most) => {
            if spending.spent + u128::from(cost) > u128::from(most) {
                return Err(ReadFault::Opening(OpenFault::Budget { offset, size: cost }));
            }
            Ok(())
        },
    }
}

/// Whether the records of a stream of this type are memory regions.
fn are_regions(stream_type: u32) -> bool
    ensures { IsTrue result → kind_of stream_type ≡ Some MemoryInfo }
{
    matches!(
        StreamKind::of_type(stream_type),
        Some(StreamKind::MemoryInfo)
    )
}

/// What the names and parts of the records up to one take, and how many bytes that one's have.
#[derive(Clone, Copy)]
pub(crate) struct TakenRoom {
    pub(crate) room: u64,
    pub(crate) bytes: u128,
}

/// Walks over the next record. Regions, which have no names and parts, are not decoded. Names and parts of the
/// records before it take `room`.
fn walk_record<S: Store + Drop, A: Allocator + Copy>(
    walk: &mut EntryWalk<S, A>,
    limit: u32,
    is_region: bool,
    room: u64,
) -> Result<TakenRoom, ReadFault>
    requires left { 0 < walk.old.left }
    requires regions { IsTrue is_region → kind_of walk.old.current.entry.stream_type ≡ Some MemoryInfo }
    ensures { WalksRecord walk.old limit room result walk.new }
{
    if is_region {
        walk.pass_region()?;
        return Ok(TakenRoom { room, bytes: 0 });
    }
    let fields = walk.next_record(limit)?.fields();
    Ok(TakenRoom {
        room: met_room(room, &fields),
        bytes: part_bytes(&fields),
    })
}

/// Walks over the records of a stream.
fn walk_stream<S: Store + Drop, A: Allocator + Copy>(
    walk: &mut EntryWalk<S, A>,
    stream: u64,
    limit: u32,
    spending: Spending,
) -> Result<Walked, ReadFault>
    requires within { stream < length walk.old.chosen }
    requires going { walk.old.failed ≡ None }
    requires few { spending.spent ≤ 2 ^ 100 }
    requires long { 32 ≤ walk.old.source.size }
    ensures pays { MatchResult result
        (λ walked. Pays (listed (chosen_entry walk.old stream).entry) (walked.count * name_cost (chosen_entry walk.old stream).entry.stream_type) walk.old walk.new)
        (λ _. PaysUpTo stream walk.old walk.new) }
    ensures goes { IfOk result (λ _. walk.new.failed ≡ None) }
    ensures counts { IfOk result (λ walked. MayCount walk.old.source.size (chosen_entry walk.old stream).entry walked.count) }
    ensures bare { IfOk result (λ walked. GivesNone (kind_at walk.old stream) walked.count → walked.room ≡ 0) }
    ensures cost { IfOk result (λ walked. (walked.cost ≡ pass_cost (chosen_entry walk.old stream).entry walked.count) × (walked.cost ≤ 2 ^ 64)) }
    ensures told { IfErr result (IsOfOpening spending.budget) }
    ensures kept { MatchResult result
        (λ walked. KeepsTo spending.budget (spending.spent + pass_cost (chosen_entry walk.old stream).entry walked.count))
        (λ _. (walk.new ≡ walk.old) ⊎ KeepsUpTo spending.budget spending.spent stream walk.old walk.new) }
    ensures over { (file : List ℕ) → walk.old.source.store.content ≡ Some file → IfErr result (IsShortAt spending.budget (spending.spent + pass_cost_in file (chosen_entry walk.old stream))) }
    ensures place { (file : List ℕ) → walk.old.source.store.content ≡ Some file → IfErr result (TellsStream spending.budget spending.spent file (chosen_entry walk.old stream)) }
    ensures of_file { (file : List ℕ) → walk.old.source.store.content ≡ Some file → HasWalked A file limit walk.old stream result }
    ensures fetches { Fetches result walk.old.source walk.new.source }
{
    let entry = walk.entry(stream);
    keep_to_budget(spending, entry, 0)?;
    let count = walk.begin(stream)?;
    keep_to_budget(spending, entry, count)?;
    let are_regions = are_regions(entry.stream_type);
    let mut room = 0;
    let mut asks = u128::from(raw_part(entry).size.size());
    for index in 0..count {
        let taken = walk_record(walk, limit, are_regions, room)?;
        room = taken.room;
        asks += taken.bytes;
    }
    Ok(Walked {
        count,
        room,
        cost: cost_of(entry, count),
        asks,
    })
}

/// What is kept of each stream. And what a pass over all of them costs, and how many bytes their names and
/// parts have, and those whose records are not known: 2^128 - 1 if they are more.
#[derive(Drop)]
pub(crate) struct Kept<A: Allocator> {
    pub(crate) counts: Vec<u32, A>,
    pub(crate) rooms: Vec<u64, A>,
    pub(crate) costs: u128,
    pub(crate) asks: u128,
}

/// Walks over all streams.
pub(crate) fn walk_all<S: Store + Drop, A: Allocator + Copy>(
    alloc: A,
    walk: &mut EntryWalk<S, A>,
    limit: u32,
    budget: Option<u64>,
) -> Result<Kept<A>, ReadFault>
    requires going { walk.old.failed ≡ None }
    requires few { length walk.old.chosen ≤ walk.old.header.number_of_streams }
    requires long { 32 ≤ walk.old.source.size }
    ensures pays { MatchResult result (λ kept. PaysAll kept.counts.items walk.old walk.new) (λ _. PaysSome walk.old walk.new) }
    ensures counts { IfOk result (λ kept. (length kept.counts.items ≡ length walk.old.chosen) × (length kept.rooms.items ≡ length walk.old.chosen)) }
    ensures lists { IfOk result (λ kept. (vec_capacity kept.counts ≡ walk.old.header.number_of_streams) × (vec_capacity kept.rooms ≡ walk.old.header.number_of_streams)) }
    ensures goes { IfOk result (λ _. walk.new.failed ≡ None) }
    ensures counted { IfOk result (λ kept. AreCounted walk.old.source.size walk.old kept.counts.items) }
    ensures bare { IfOk result (λ kept. AreBare (kind_at walk.old) kept.counts.items kept.rooms.items) }
    ensures costs { IfOk result (λ kept. (kept.costs ≡ sum (costs_in walk.old.chosen kept.counts.items)) × (kept.costs ≤ 2 ^ 100)) }
    ensures asks { (file : List ℕ) → walk.old.source.store.content ≡ Some file → IfOk result (λ kept. kept.asks ≡ raised 0 (asks_in A file walk.old.chosen)) }
    ensures told { IfErr result (IsOfOpening budget) }
    ensures kept { (walk.new ≡ walk.old) ⊎ KeepsAll budget walk.old walk.new }
    ensures over { (file : List ℕ) → walk.old.source.store.content ≡ Some file
        → IfErr result (IsShortAt budget (32 + 12 * walk.old.header.number_of_streams + sum (map (pass_cost_in file) walk.old.chosen))) }
    ensures place { (file : List ℕ) → walk.old.source.store.content ≡ Some file → IfErr result (TellsFirst budget file walk.old.header.number_of_streams walk.old.chosen) }
    ensures of_file { (file : List ℕ) → walk.old.source.store.content ≡ Some file
        → MatchResult result (λ kept. AreWalked A file limit walk.old kept.counts.items kept.rooms.items) (λ fault. (IsWanting fault → ⊥) → run_told file (run_of file limit walk.old.chosen) ≡ Some fault) }
    ensures fetches { Fetches result walk.old.source walk.new.source }
{
    let room = walk.header().number_of_streams as usize;
    let Ok(mut counts) = Vec::with_capacity(alloc, room) else {
        return Err(ReadFault::Memory);
    };
    let Ok(mut rooms) = Vec::with_capacity(alloc, room) else {
        return Err(ReadFault::Memory);
    };
    let opened = 32 + 12 * u128::from(walk.header().number_of_streams);
    let mut costs = 0;
    let mut asks = 0u128;
    let streams = walk.streams();
    for stream in 0..streams {
        let spending = Spending {
            budget,
            spent: opened + costs,
        };
        let walked = walk_stream(walk, stream, limit, spending)?;
        counts.push_reserved(walked.count);
        rooms.push_reserved(walked.room);
        costs += u128::from(walked.cost);
        asks = asks.saturating_add(walked.asks);
    }
    Ok(Kept {
        counts,
        rooms,
        costs,
        asks,
    })
}
