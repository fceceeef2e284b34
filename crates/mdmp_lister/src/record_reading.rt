//! A record of any kind and its name, read through a source.
ghost use Rattle.std.specs.Prelude.{◌≡◌, ◌≤◌, ◌<◌, ◌^◌, ℕ, List, Some, false, length, min, IfOk, OnOk, MatchResult};
ghost use Rattle.mdmp_lister.specs.Fetching.{Reads, ReadsRecord, TellsRecord, TriesHold, TriesRecord};
ghost use Rattle.mdmp_lister.specs.Following.{IsRecordFault, IsSomeRecord};
ghost use Rattle.mdmp_lister.specs.Format.Item.{item_at, kind_told, range_offset, record_at};
ghost use Rattle.mdmp_lister.specs.HeldStep.{HasItsBytes, read_told};
ghost use Rattle.mdmp_lister.specs.Holding.{ComesTo, IsAhead, Slides, needed};
ghost use Rattle.mdmp_lister.specs.Meter.{Books};
ghost use Rattle.mdmp_lister.specs.Fault.{Answers};
ghost use Rattle.mdmp_lister.specs.Format.Kind.{has_names, record_size};
ghost use Rattle.mdmp_lister.specs.Step.{step_item};

use crate::fault::{Fault, FetchFault};
use crate::fetching::{NameRead, read_name};
use crate::held_step::{HeldRecord, HeldStep, held_name_rva};
use crate::holding::hold;
use crate::kind::StreamKind;
use crate::meter::Meter;
use crate::name_buffer::NameBuffer;
use mdmp_source::{Store, Window};
use std::alloc::Allocator;

/// Sees to it that the record at `at`, of a stream of this kind, stands at the front of a window that slides
/// over the stream.
#[inline(always)]
fn hold_record<S: Store, A: Allocator>(
    meter: &mut Meter<S>,
    window: &mut Window<A>,
    kind: StreamKind,
    at: u64,
) -> Result<(), FetchFault>
    requires { IsAhead meter.old.source at (record_size kind) window.old }
    ensures whole { OnOk result (record_size kind ≤ length window.new.held) }
    ensures kind { kind_told (record_at kind window.new.held 0) ≡ kind }
    ensures reads { Reads window.old.room (Books (min 1 (needed at (record_size kind) window.old)) (needed at (record_size kind) window.old)) (λ file _. record_at kind file at ≡ record_at kind window.new.held 0) result meter.old meter.new }
    ensures comes { ComesTo at meter.old.source.store.content window.old window.new }
    ensures slides { Slides at (record_size kind) window.old result window.new }
    ensures tries { TriesHold at (record_size kind) window.old result window.new meter.old meter.new }
{
    hold(meter, window, at, kind.record_size() as usize)
}

/// The record at `at`, whose bytes then stand at the front of the window, and its name, or the fault of its
/// name. The bytes of a range of a 64-bit memory list stand at `offset`.
#[tactic(auto, using(crate::proofs::RecordItems::item_read, crate::proofs::RecordItems::name_faulted, crate::proofs::Sliding::slides_then, crate::proofs::Sliding::slides_fault, crate::proofs::RecordItems::named_kind))]
#[inline(always)]
pub(crate) fn read_item<S: Store, A: Allocator>(
    meter: &mut Meter<S>,
    window: &mut Window<A>,
    buffer: &mut NameBuffer<A>,
    kind: StreamKind,
    entry: u32,
    index: u64,
    at: u64,
    offset: u128,
) -> Result<HeldStep, Fault>
    requires ahead { IsAhead meter.old.source at (record_size kind) window.old }
    requires small { buffer.old.limit < 2 ^ 32 }
    ensures item { (file : List ℕ) → meter.old.source.store.content ≡ Some file → (stream : ℕ)
        → (kind ≡ StreamKind.Memory64 → offset ≡ range_offset file stream index)
        → Answers (item_at file buffer.new.limit entry index stream at kind) (step_item meter.old.source.size buffer.new.items) (read_told window.new.held result) }
    ensures whole { IfOk result (HasItsBytes window.new.held) }
    ensures tells { IfOk (read_told window.new.held result) (TellsRecord (length buffer.new.items) kind) }
    ensures limit { buffer.new.limit ≡ buffer.old.limit }
    ensures comes { ComesTo at meter.old.source.store.content window.old window.new }
    ensures slides { Slides at (record_size kind) window.old result window.new }
    ensures reads { ReadsRecord window.old.room (needed at (record_size kind) window.old) buffer.new.limit (read_told window.new.held result) meter.old meter.new }
    ensures tries { TriesRecord buffer.new.limit kind at (read_told window.new.held result) meter.old meter.new window.old window.new }
    ensures nameless { has_names kind ≡ false → meter.new.names ≡ meter.old.names }
    ensures some { MatchResult (read_told window.new.held result) (IsSomeRecord meter.old.source.size buffer.new.limit kind entry index offset) (IsRecordFault meter.old.source.size buffer.new.limit kind) }
{
    // The proof learns here that the size is that of the content.
    let _size = meter.size();
    hold_record(meter, window, kind, at)?;
    let Some(rva) = held_name_rva(kind, window.bytes()) else {
        return Ok(HeldStep::Record(HeldRecord {
            entry,
            index,
            kind,
            offset,
            name: NameRead::None,
        }));
    };
    let name = read_name(meter, buffer, rva)?;
    Ok(HeldStep::Record(HeldRecord {
        entry,
        index,
        kind,
        offset,
        name,
    }))
}
