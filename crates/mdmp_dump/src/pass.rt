//! A pass over the records of a stream of a file, and what it costs.
ghost use Rattle.std.specs.Prelude.{◌≡◌, ◌≤◌, ◌<◌, ◌+◌, ◌^◌, ℕ, List, length, Some, Err, IfErr, IfOk, Ok};
ghost use Rattle.mdmp_lister.specs.Format.Shape.{record_count};
ghost use Rattle.mdmp_dump.specs.EntryWalk.{Pays, chosen_entry, kind_by, listed, name_cost, pass_cost, raw_part};
ghost use Rattle.mdmp_dump.specs.FileView.{IsPass, IsPassOf, TellsViewFault, first_pass, pass_cursor, told_as};
ghost use Rattle.mdmp_dump.specs.Reading.{store_fault};
ghost use Rattle.mdmp_dump.specs.Placed.{far_room, fields_room};
ghost use Rattle.mdmp_dump.specs.Shape.{GivesRecord, IsChangeAt, body_by, told};

use crate::body::rows_size;
use crate::entry_walk::EntryWalk;
use crate::fault::ReadFault;
use crate::found_record::{NO_PART, PartAt};
use crate::given::add_told;
use crate::placed::far_room;
use crate::view::{Fields, Kind, PartSize, ViewFault};
use mdmp_lister::{FaultKind, OpenFault, StreamKind};
use mdmp_source::{SourceFault, Store};
use mdmp_wire::Entry;
use std::alloc::Allocator;

/// How far the stream is that was begun last.
#[derive(Clone, Copy)]
pub(crate) struct Pass {
    /// Which stream that is, and where it stands.
    pub(crate) stream: u64,
    pub(crate) rva: u32,
    /// How many of its records were given, and how many are left.
    pub(crate) given: u64,
    pub(crate) left: u64,
    /// What the names and parts of all take, and those of the records that were given.
    pub(crate) room: u64,
    pub(crate) met: u64,
    /// The names and parts of the record given last, or the raw bytes.
    pub(crate) parts: [PartAt; 3],
}

/// What a stream is, by its type.
pub(crate) fn kind_of(stream_type: u32) -> Kind
    ensures { result ≡ kind_by stream_type }
{
    if stream_type == 0 {
        Kind::Unused
    } else if StreamKind::of_type(stream_type).is_some() {
        Kind::Known(stream_type)
    } else {
        Kind::Raw(stream_type)
    }
}

/// What a name costs of a record of this type.
fn name_cost(stream_type: u32) -> u64
    ensures { result ≡ name_cost stream_type }
{
    match StreamKind::of_type(stream_type) {
        Some(kind) if kind.has_names() => 4,
        _ => 0,
    }
}

/// What a pass over a stream may fetch.
pub(crate) fn cost_of(entry: Entry, count: u32) -> u64
    ensures { result ≡ pass_cost entry count }
{
    let size = if StreamKind::of_type(entry.stream_type).is_some() {
        u64::from(entry.location.size)
    } else {
        0
    };
    size + u64::from(count) * name_cost(entry.stream_type)
}

/// The bytes of a body of so many records of this type.
pub(crate) fn records_size(stream_type: u32, count: u32) -> u64
    ensures value { result ≡ body_by (Kind.Known stream_type) count 0 }
    ensures bound { result ≤ 2 ^ 40 }
{
    rows_size(stream_type, u64::from(count)) as u64
}

/// The file has changed where this stream stands.
pub(crate) fn changed(rva: u32) -> ViewFault
    ensures { result ≡ told_as rva None }
{
    ViewFault::Source(SourceFault::Changed { at: u64::from(rva) })
}

/// A fault of the store is told as it is. A change is told where the stream stands.
fn told_source(fault: SourceFault, rva: u32) -> ViewFault
    ensures told { result ≡ told_as rva (Some fault) }
    ensures place { IsChangeAt rva result }
{
    match fault {
        SourceFault::Failed { at } => ViewFault::Source(SourceFault::Failed { at }),
        SourceFault::ShortRead { at } => ViewFault::Source(SourceFault::ShortRead { at }),
        SourceFault::Changed { .. } => changed(rva),
    }
}

/// A fault of the store is told as it is, and any other says that the file has changed.
fn told_reading(fault: ReadFault, rva: u32) -> ViewFault
    ensures told { result ≡ told_as rva (store_fault fault) }
    ensures place { IsChangeAt rva result }
{
    match fault {
        ReadFault::Source(fault) => told_source(fault, rva),
        ReadFault::Opening(OpenFault::Source(fault)) => told_source(fault, rva),
        ReadFault::List(fault) => match fault.kind {
            FaultKind::Source(fault) => told_source(fault, rva),
            _ => changed(rva),
        },
        _ => changed(rva),
    }
}

/// What the names and parts of records take, with those of one more.
pub(crate) fn met_room(total: u64, fields: &Fields) -> u64
    ensures { result ≡ told (told (total + fields_room fields.now) + far_room fields.now) }
{
    add_told(add_told(total, fields.room()), far_room(fields))
}

/// The raw bytes of a stream, as a part.
pub(crate) fn raw_part(entry: Entry) -> PartAt
    ensures { result ≡ raw_part entry }
{
    let size = match kind_of(entry.stream_type) {
        Kind::Raw(_) => PartSize::Size(u64::from(entry.location.size)),
        _ => PartSize::NoPart,
    };
    PartAt {
        size,
        at: u64::from(entry.location.rva),
    }
}

/// Begins a stream that had so many records, whose names and parts took so much.
pub(crate) fn begin_pass<S: Store + Drop, A: Allocator + Copy>(
    walk: &mut EntryWalk<S, A>,
    stream: u64,
    count: u32,
    room: u64,
) -> Result<Pass, ViewFault>
    requires within { stream < length walk.old.chosen }
    requires counted { (file : List ℕ) → walk.old.source.store.content ≡ Some file → record_count file (chosen_entry walk.old stream).entry ≡ Ok count }
    ensures pays { Pays (listed (chosen_entry walk.old stream).entry) 0 walk.old walk.new }
    ensures begins { IfOk result (λ pass. IsPass walk.new pass × (pass ≡ first_pass walk.old stream count room)) }
    ensures tells { TellsViewFault walk.old result walk.new }
    ensures place { IfErr result (IsChangeAt (chosen_entry walk.old stream).entry.location.rva) }
{
    let entry = walk.entry(stream);
    let rva = entry.location.rva;
    let now = match walk.begin(stream) {
        Ok(now) => now,
        Err(fault) => return Err(told_reading(fault, rva)),
    };
    let raw = raw_part(entry);
    if now != count || !raw.lies_inside(walk.size()) {
        return Err(changed(rva));
    }
    Ok(Pass {
        stream,
        rva,
        given: 0,
        left: u64::from(count),
        room,
        met: 0,
        parts: [raw, NO_PART, NO_PART],
    })
}

/// Takes the next record of a pass, or tells that the file has changed.
pub(crate) fn take_record<S: Store + Drop, A: Allocator + Copy>(
    walk: &mut EntryWalk<S, A>,
    limit: u32,
    pass: Pass,
) -> Result<(Fields, Pass), ViewFault>
    requires going { 0 < pass.left }
    requires unfailed { walk.old.failed ≡ None }
    requires passing { IsPass walk.old pass }
    requires of_file { (file : List ℕ) → walk.old.source.store.content ≡ Some file → IsPassOf A file limit walk.old pass }
    ensures pays { Pays 0 (name_cost (chosen_entry walk.old pass.stream).entry.stream_type) walk.old walk.new }
    ensures gives { IfOk result (λ r. GivesRecord (pass_cursor A walk.old pass) r.0 (pass_cursor A walk.new r.1)) }
    ensures passes { IfOk result (λ r. IsPass walk.new r.1 × (r.1.stream ≡ pass.stream) × (r.1.left + 1 ≡ pass.left)) }
    ensures passes_of { (file : List ℕ) → walk.old.source.store.content ≡ Some file → IfOk result (λ r. IsPassOf A file limit walk.new r.1) }
    ensures tells { TellsViewFault walk.old result walk.new }
    ensures place { IfErr result (IsChangeAt pass.rva) }
{
    // The proof learns here that the size has 64 bits, and that known content is one of bytes.
    let _size = walk.size();
    let rva = pass.rva;
    let found = match walk.next_record(limit) {
        Ok(found) => found,
        Err(fault) => return Err(told_reading(fault, rva)),
    };
    let fields = found.fields();
    let left = pass.left - 1;
    let met = met_room(pass.met, &fields);
    if met > pass.room {
        return Err(changed(rva));
    }
    if left == 0 && met < pass.room {
        return Err(changed(rva));
    }
    let next = Pass {
        given: pass.given + 1,
        left,
        met,
        parts: found.parts,
        ..pass
    };
    Ok((fields, next))
}
