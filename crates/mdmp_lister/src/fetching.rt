//! Bytes and names of a file, read through its source.
ghost use Rattle.std.specs.Prelude.{◌≡◌, ◌≤◌, ◌<◌, ◌+◌, ◌^◌, ℕ, List, Some, length, take, IfOk};
ghost use Rattle.mdmp_source.specs.Count.{raised};
ghost use Rattle.mdmp_source.specs.Range.{IsInside, bytes_at};
ghost use Rattle.mdmp_wire.specs.Number.{u32_at};
ghost use Rattle.mdmp_lister.specs.Fetching.{Reads, ReadsBeside, ReadsName, TriesName};
ghost use Rattle.mdmp_lister.specs.Following.{IsSomeName};
ghost use Rattle.mdmp_lister.specs.Meter.{Books, TriesFetch};
ghost use Rattle.mdmp_lister.specs.Format.Name.{name_at};
ghost use Rattle.mdmp_lister.specs.Fault.{Answers};
ghost use Rattle.mdmp_lister.specs.Step.{IsHeld, name_read};

use crate::fault::{Fault, FaultKind, FetchFault, faulted};
use crate::meter::Meter;
use crate::name::check_units;
use crate::name_buffer::NameBuffer;
use mdmp_source::{SourceFault, Store, inside};
use mdmp_wire::{Record, get_at};
use std::alloc::Allocator;

/// The name of a record, whose units were read into the front of a buffer.
#[derive(Clone, Copy, Debug, PartialEq, Eq)]
pub enum NameRead {
    /// The RVA of the name is 0.
    None,
    /// How many bytes its units have.
    Units(u32),
    /// How many bytes it has, where those are more than the limit.
    Long(u32),
}

/// Fetches `count` bytes at `at` into the front of a buffer.
pub(crate) fn fetch_front<S: Store>(
    meter: &mut Meter<S>,
    at: u64,
    buffer: &mut [u8],
    count: usize,
) -> Result<(), FetchFault>
    requires room { count ≤ length buffer.old }
    requires inside { IsInside at count meter.old.source.size }
    ensures reads { Reads count (Books 1 count) (λ file _. take count buffer.new ≡ bytes_at file at count) result meter.old meter.new }
    ensures tries { TriesFetch at count result meter.old meter.new }
{
    meter.fetch(at, &mut buffer[..count])
}

/// Fetches `count` bytes at `at` into the front of a buffer, aside from the listing.
pub(crate) fn fetch_front_aside<S: Store>(
    meter: &mut Meter<S>,
    at: u64,
    buffer: &mut [u8],
    count: usize,
) -> Result<(), SourceFault>
    requires room { count ≤ length buffer.old }
    requires inside { IsInside at count meter.old.source.size }
    ensures reads { ReadsBeside 1 count (λ file _. take count buffer.new ≡ bytes_at file at count) result meter.old meter.new }
    ensures counted { meter.new.aside.bytes ≡ raised meter.old.aside.bytes count }
{
    meter.fetch_aside(at, &mut buffer[..count])
}

/// The record that bytes of a file begin with.
pub(crate) fn first_of<R: Record>(bytes: &[u8]) -> R
    requires { R.SIZE ≤ length bytes.now }
    ensures { (file : List ℕ) (at : ℕ) → bytes.now ≡ bytes_at file at (length bytes.now) → R.at file at ≡ result }
{
    get_at(bytes, 0)
}

/// How many bytes the units of the name at `rva` have, as it says.
fn read_length<S: Store>(meter: &mut Meter<S>, rva: u64) -> Result<u32, FetchFault>
    requires { rva + 4 ≤ meter.old.source.size }
    ensures reads { Reads 4 (Books 1 4) (λ file length. u32_at file rva ≡ length) result meter.old meter.new }
    ensures tries { TriesFetch rva 4 result meter.old meter.new }
{
    let mut bytes = [0; 4];
    meter.fetch(rva, &mut bytes)?;
    Ok(first_of(&bytes))
}

/// The name at `rva`, its units into the front of a buffer with room for the limit, or its fault: a
/// length outside the file, an odd one, units outside. The units of a longer name are not fetched.
#[tactic(auto, unfolding(crate::specs::Format::Name::name_at, mdmp_wire::specs::Number::array_at))]
pub(crate) fn read_name<S: Store, A: Allocator>(
    meter: &mut Meter<S>,
    buffer: &mut NameBuffer<A>,
    rva: u64,
) -> Result<NameRead, Fault>
    requires { buffer.old.limit < 2 ^ 32 }
    ensures limit { buffer.new.limit ≡ buffer.old.limit }
    ensures name { (file : List ℕ) → meter.old.source.store.content ≡ Some file
        → Answers (name_at file rva buffer.new.limit) (name_read buffer.new.items) result }
    ensures held { IfOk result (IsHeld (length buffer.new.items)) }
    ensures some { IsSomeName meter.old.source.size buffer.new.limit rva result }
    ensures reads { ReadsName buffer.new.limit rva result meter.old meter.new }
    ensures tries { TriesName buffer.new.limit rva result meter.old meter.new }
{
    let size = meter.size();
    if rva == 0 {
        return Ok(NameRead::None);
    }
    meter.reach_name();
    if !inside(rva, 4, size) {
        return faulted(FaultKind::NameLengthOutside, rva, 4);
    }
    let length = read_length(meter, rva)?;
    check_units(rva, length, size)?;
    if buffer.limit() < length as usize {
        return Ok(NameRead::Long(length));
    }
    buffer.fetch(meter, rva + 4, length as usize)?;
    Ok(NameRead::Units(length))
}
