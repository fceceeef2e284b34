//! A dump to memory and back.
ghost use Rattle.std.specs.Prelude.{◌≡◌, IfOk, None, MatchResult, Some};
ghost use Rattle.mdmp_lister.specs.declared.choice.Choice.TheVariants.{All};
ghost use Rattle.mdmp_dump.specs.Reading.{OpensWithin};
ghost use Rattle.mdmp_writer.specs.Layout.{layout_fault};
ghost use Rattle.mdmp_writer.specs.RoundTrip.{ComesBack, IsNotInMemory, not_read};
ghost use Rattle.mdmp_writer.specs.Written.{written};

use crate::dump_out::write_dump;
use crate::fault::{LayoutFault, WriteFault};
use crate::laws::what_is_written_is_laid_out;
use crate::layout::written_size;
use mdmp_dump::{Dump, ReadFault, a_dump_within_limits_is_read, read_dump};
use mdmp_lister::{Choice, Limits, OpenFault};
use mdmp_source::{MemoryStore, Source, WriteOut};
use std::alloc::Allocator;

/// Why a dump was not written into memory.
#[derive(Clone, Copy, Debug, PartialEq, Eq)]
pub enum ToMemoryFault {
    /// It can't be written.
    Layout(LayoutFault),
    /// Memory was wanting.
    Memory,
}

/// Why a dump did not come back.
#[derive(Clone, Copy, Debug, PartialEq, Eq)]
pub enum RoundTripFault {
    /// It can't be written.
    Layout(LayoutFault),
    /// What was written is not read with these limits: a name or the parts are past them, the memory
    /// lists have more than 2^28 ranges, or the budget was reached.
    Read(ReadFault),
    /// Memory was wanting, or reading would take more than the limit of memory.
    Memory,
}

/// The bytes of a dump, in memory of their own.
pub fn to_memory<A: Allocator + Copy>(alloc: A, dump: &Dump<A>) -> Result<Vec<u8, A>, ToMemoryFault>
    ensures { MatchResult result (λ bytes. (layout_fault dump.now ≡ None) × (bytes.items ≡ written dump.now)) (IsNotInMemory dump.now) }
{
    let mut view = dump.view();
    let size = match written_size(&mut view) {
        Ok(size) => size,
        Err(fault) => return Err(ToMemoryFault::Layout(fault)),
    };
    let Ok(room) = Vec::with_capacity(alloc, size as usize) else {
        return Err(ToMemoryFault::Memory);
    };
    let mut out = WriteOut::new(room);
    let mut buffer = [0; 4096];
    match write_dump(&mut view, &mut out, &mut buffer) {
        Ok(_) => Ok(out.into_inner()),
        // The output refuses where memory is wanting alone, and the view of a value never does.
        Err(_) => Err(ToMemoryFault::Memory),
    }
}

/// Writes a dump into memory and reads it back, with these limits on names and on parts.
///
/// What comes back is the dump. It does not where the dump can't be written, where it is past the
/// limits, where it costs more than their budget, or where memory is wanting.
pub fn write_and_read<A: Allocator + Copy>(
    alloc: A,
    dump: &Dump<A>,
    limits: Limits,
    parts: u64,
) -> Result<Dump<A>, RoundTripFault>
    ensures comes_back { ComesBack dump.now limits parts result }
    ensures limited { IfOk result (λ _. OpensWithin limits All (Some (written dump.now))) }
{
    let bytes = match to_memory(alloc, dump) {
        Ok(bytes) => bytes,
        Err(ToMemoryFault::Layout(fault)) => return Err(RoundTripFault::Layout(fault)),
        Err(ToMemoryFault::Memory) => return Err(RoundTripFault::Memory),
    };
    let source = Source::new(MemoryStore::new(&bytes));
    match read_dump(alloc, source, limits, Choice::All, parts) {
        Ok(back) => {
            what_is_written_is_laid_out(dump, &back);
            return Ok(back);
        },
        Err(fault) => {
            what_is_written_is_laid_out(dump, dump);
            a_dump_within_limits_is_read(dump);
            return Err(not_read(fault));
        },
    }
}

/// Why what was written is not read.
fn not_read(fault: ReadFault) -> RoundTripFault
    ensures { result ≡ not_read fault }
{
    match fault {
        ReadFault::Memory | ReadFault::Opening(OpenFault::MemoryLimit { .. }) =>
            RoundTripFault::Memory,
        fault => RoundTripFault::Read(fault),
    }
}
