//! How many ranges the memory lists of a file have, read through a source.
ghost use Rattle.std.specs.Prelude.{◌≡◌, ◌<◌, ◌^◌, ℕ, List, Some, length};
ghost use Rattle.mdmp_lister.specs.Format.Numbers.{range_count, ranges_in};
ghost use Rattle.mdmp_lister.specs.Format.Directory.{IsDirectory};
ghost use Rattle.mdmp_lister.specs.Fetching.{Reads};
ghost use Rattle.mdmp_lister.specs.NextFetch.{TriesHeads};
ghost use Rattle.mdmp_lister.specs.StreamHead.{ahead_of, heads_ahead};
ghost use Rattle.mdmp_lister.specs.Meter.{Books, TriesFetch};
ghost use Rattle.mdmp_lister.specs.Format.Kind.{kind_of};

use crate::choice::Choice;
use crate::fault::{FaultKind, FetchFault};
use crate::kind::StreamKind;
use crate::meter::Meter;
use crate::shape::location_fault;
use crate::stream_head::fetch_head;
use mdmp_source::Store;
use mdmp_wire::Entry;

/// How many ranges an entry has: those of a memory list that lies inside the file and whose shape
/// has no fault; any other entry has none. Of a list that is long enough its head is fetched, of
/// anything else nothing.
#[tactic(auto, using(crate::proofs::Metering::Books_none))]
fn ranges_of_entry<S: Store>(meter: &mut Meter<S>, entry: Entry) -> Result<u64, FetchFault>
    ensures reads { Reads 16 (Books 1 (ahead_of meter.old.source.size entry)) (λ file count. count ≡ ranges_in file entry (kind_of entry.stream_type))
        result meter.old meter.new }
    ensures tries { TriesFetch entry.location.rva (ahead_of meter.old.source.size entry) result meter.old meter.new }
{
    let Some(kind) = StreamKind::of_type(entry.stream_type) else {
        return Ok(0);
    };
    if !kind.lists_ranges() || location_fault(entry, meter.size()).is_some() {
        return Ok(0);
    }
    match fetch_head(meter, entry.location, kind) {
        Ok(head) => Ok(head.shape.count),
        Err(fault) => match fault.kind {
            FaultKind::Source(fault) => Err(FetchFault::Source(fault)),
            FaultKind::Budget => Err(FetchFault::Budget {
                offset: fault.offset,
                size: fault.size,
            }),
            _ => Ok(0),
        },
    }
}

/// How many ranges the chosen memory lists of a directory have together.
pub(crate) fn count_ranges<S: Store>(
    meter: &mut Meter<S>,
    entries: &[Entry],
    choice: &Choice,
) -> Result<u128, FetchFault>
    requires few { length entries.now < 2 ^ 32 }
    requires directory { (file : List ℕ) → meter.old.source.store.content ≡ Some file → IsDirectory file entries.now }
    ensures reads { Reads 16 (Books (length entries.now) (heads_ahead choice.now meter.old.source.size entries.now)) (λ file count. count ≡ range_count file choice.now)
        result meter.old meter.new }
    ensures tries { TriesHeads choice.now meter.old.source.size entries.now result meter.old meter.new }
{
    let mut total = 0;
    for entry in entries {
        if !choice.has(entry.stream_type) {
            continue;
        }
        total += u128::from(ranges_of_entry(meter, *entry)?);
    }
    Ok(total)
}
