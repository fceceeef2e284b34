//! Calls that give an array of records.
ghost use Rattle.std.specs.Prelude.{◌≡◌, ◌<◌, ◌^◌, ◌∷◌, [], ℕ, length, nat_lt, if◌then◌else◌};
ghost use Rattle.mdmp_c.specs.Fault.{list_told, status_of};
ghost use Rattle.mdmp_c.specs.Giving.{Ends, bad_limits, told_count};
ghost use Rattle.mdmp_c.specs.Limits.{AreLimits, EndsListing, KeepsListing};
ghost use Rattle.mdmp_c.specs.Table.{IsTable};
ghost use Rattle.mdmp_lister.specs.declared.choice.Choice.TheVariants.{Types};

use crate::collecting::collect;
use crate::fault::{NO_FAULT, PlainFault, of_kind, open_fault, plain_list_fault, status_of};
use crate::giving::{TOO_SHORT, refuse};
use crate::kinds;
use crate::limits::{PlainLimits, limits_of};
use crate::rows::PlainRow;
use mdmp_lister::{Choice, ListFault, Lister, TypeSet};
use mdmp_source::{MemoryStore, Source};
use std::alloc::Global;

/// The entries of one type.
pub(crate) fn only(stream_type: u32) -> Choice
    ensures { result ≡ Types (stream_type ∷ []) }
{
    match TypeSet::new(&[stream_type]) {
        Some(types) => Choice::Types(types),
        None => Choice::All,
    }
}

/// Gives the rows of the listing of some entries.
pub(crate) fn give_rows<T: PlainRow>(
    alloc: Global,
    file: &[u8],
    limits: &PlainLimits,
    choice: Choice,
    out: &mut [T],
    count: &mut u64,
    fault: &mut PlainFault,
) -> u32
    requires { length out.old < 2 ^ 63 }
    ensures { Ends (IsTable T.row_of file.now choice limits.now.name) (AreLimits limits.now) (KeepsListing limits.now file.now choice) (EndsListing limits.now file.now choice) bad_limits result count.new fault.new out.old out.new }
{
    let Some(limits) = limits_of(limits) else {
        return refuse(of_kind(kinds::BAD_LIMITS), count, fault);
    };
    let source = Source::new(MemoryStore::new(file));
    let mut lister = match Lister::open(alloc, source, limits, choice) {
        Ok(lister) => lister,
        Err(refused) => return refuse(open_fault(refused.fault), count, fault),
    };
    let collected = collect(&mut lister, out);
    tell(
        collected.count,
        list_end(collected.fault),
        out.len(),
        count,
        fault,
    )
}

/// Tells how many rows there are, and what is wrong with the file.
pub(crate) fn tell(
    rows: u64,
    told: PlainFault,
    room: usize,
    count: &mut u64,
    fault: &mut PlainFault,
) -> u32
    requires { room < 2 ^ 63 }
    ensures status { (n : ℕ) → rows ≡ told_count n → result ≡ (if nat_lt room n then 4 else status_of told) }
    ensures count { count.new ≡ rows }
    ensures fault { fault.new ≡ told }
{
    *count = rows;
    *fault = told;
    if (room as u64) < rows {
        TOO_SHORT
    } else {
        status_of(&told)
    }
}

/// The fault at which the rows of a listing end.
pub(crate) fn list_end(fault: Option<ListFault>) -> PlainFault
    ensures { result ≡ list_told fault }
{
    match fault {
        None => NO_FAULT,
        Some(fault) => plain_list_fault(fault),
    }
}
