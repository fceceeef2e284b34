//! Calls that give memory of the dumped process.
ghost use Rattle.mdmp_c.specs.Fault.{status_of};
ghost use Rattle.mdmp_c.specs.Memory.{ReadsKept, ReadsMemory};

use crate::addressing::read_by;
use crate::fault::{NO_FAULT, PlainFault, of_kind, open_fault, plain_list_fault, status_of};
use crate::giving::refuse;
use crate::kinds;
use crate::limits::{PlainLimits, limits_of};
use crate::ranging::list_ranges;
use crate::rows::RangeRow;
use mdmp_lister::{Choice, Lister};
use mdmp_source::{MemoryStore, Source};
use std::alloc::Global;

/// Gives the memory of the dumped process from an address on. If a range of the file's memory lists
/// holds an address, its byte is put into `out`, and `known` is true for it; else they are 0 and false.
/// If a memory list has an error or a limit is reached, neither buffer is touched.
#[unsafe(no_mangle)]
pub extern "C" fn mdmp_memory_(
    alloc: Global,
    file: &[u8],
    limits: &PlainLimits,
    address: u64,
    out: &mut [u8],
    known: &mut [bool],
    fault: &mut PlainFault,
) -> u32
    ensures { ReadsMemory file.now limits.now address result fault.new out.old out.new known.old known.new }
{
    *fault = read_memory(alloc, file, limits, address, out, known);
    status_of(fault)
}

/// Puts memory of the dumped process into buffers, and returns what was wrong, or that nothing was.
fn read_memory(
    alloc: Global,
    file: &[u8],
    limits: &PlainLimits,
    address: u64,
    out: &mut [u8],
    known: &mut [bool],
) -> PlainFault
    ensures { ReadsMemory file.now limits.now address (status_of result) result out.old out.new known.old known.new }
{
    if out.len() != known.len() {
        return of_kind(kinds::LENGTHS_DIFFER);
    }
    let Some(limits) = limits_of(limits) else {
        return of_kind(kinds::BAD_LIMITS);
    };
    let source = Source::new(MemoryStore::new(file));
    let mut lister = match Lister::open(alloc, source, limits, Choice::memory_lists()) {
        Ok(lister) => lister,
        Err(refused) => return open_fault(refused.fault),
    };
    match list_ranges(&mut lister) {
        Ok(()) => {}
        Err(found) => return plain_list_fault(found),
    }
    match lister.read_address(address, out, known) {
        Ok(()) => NO_FAULT,
        // The store is memory, which does not fail.
        Err(_) => of_kind(kinds::STORE),
    }
}

/// Gives the memory of the dumped process from an address on, by ranges that [`mdmp_ranges_`](crate::mdmp_ranges_)
/// gave. It skips ranges whose bytes do not lie inside the file, and allocates nothing.
#[unsafe(no_mangle)]
pub extern "C" fn mdmp_read_(
    file: &[u8],
    ranges: &[RangeRow],
    address: u64,
    out: &mut [u8],
    known: &mut [bool],
    fault: &mut PlainFault,
) -> u32
    ensures { ReadsKept file.now ranges.now address result fault.new out.old out.new known.old known.new }
{
    let mut none = 0;
    if out.len() != known.len() {
        return refuse(of_kind(kinds::LENGTHS_DIFFER), &mut none, fault);
    }
    read_by(file, ranges, address, out, known);
    *fault = NO_FAULT;
    0
}
