//! The numbers that bound a listing.
ghost use Rattle.std.specs.Prelude.{◌≡◌, ◌≤◌, ◌<◌, ◌+◌, ◌*◌, ◌^◌, length};
ghost use Rattle.mdmp_lister.specs.Listed.{cost_of, entry_cost};

use crate::choice::Choice;
use crate::kind::StreamKind;
use mdmp_source::inside;
use mdmp_wire::Entry;
use std::mem::size_of;

// What the directory takes for each entry.
const _: () = prove!(size_of::<Entry>() == 12);

/// What a lister has room for, what it has fetched and in how many calls, and the numbers that bound
/// them. An entry, a stream or a name that stands in a file more than once counts each time.
#[derive(Clone, Copy, Debug, PartialEq, Eq)]
pub struct Counts {
    /// The entries of the directory.
    pub s: u128,
    /// The ranges of memory that the chosen memory lists counted as the file was opened.
    pub r: u128,
    /// The bytes of the chosen streams that have records and lie inside the file.
    pub n: u128,
    /// The names reached so far: given, refused, or at fault in their fetch. One of RVA 0 is none.
    pub m: u128,
    /// The bytes that the lister's lists take at most: the window, 12 for each entry, 24 for each
    /// range, and the longest name.
    pub held: u128,
    /// The bytes fetched for the listing so far, faults included.
    pub fetched: u128,
    /// The calls of `fetch` for the listing so far.
    pub calls: u128,
    /// The bytes fetched so far aside from the listing: memory by its address, parts, and CodeView
    /// records.
    pub aside: u128,
}

/// The bytes of an entry that are listed: all of a stream that has records and lies inside the file.
#[tactic(auto, unfolding(crate::specs::Listed::entry_cost_by))]
fn listed_bytes_of(entry: Entry, size: u64) -> u32
    ensures { result ≡ entry_cost size entry }
{
    let location = entry.location;
    if StreamKind::of_type(entry.stream_type).is_some()
        && inside(u64::from(location.rva), u64::from(location.size), size)
    {
        location.size
    } else {
        0
    }
}

/// The bytes of the chosen entries of a directory that are listed.
pub(crate) fn listed_bytes(entries: &[Entry], choice: &Choice, size: u64) -> u128
    requires few { length entries.now < 2 ^ 32 }
    ensures value { result ≡ cost_of choice.now size entries.now }
    ensures small { result ≤ 2 ^ 32 * length entries.now }
{
    let mut total = 0;
    for entry in entries {
        if !choice.has(entry.stream_type) {
            continue;
        }
        total += u128::from(listed_bytes_of(*entry, size));
    }
    total
}
