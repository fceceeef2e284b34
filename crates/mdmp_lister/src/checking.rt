//! Reading entries to find their faults: of each the records are read, up to its end or its first
//! fault, and the ranges of memory among them that lie inside the file are put into a map.
ghost use Rattle.std.specs.Prelude.{◌≡◌};
ghost use Rattle.mdmp_lister.specs.Walk.{IsListing};
ghost use Rattle.mdmp_lister.specs.Walk.Checking.{EntriesChecked, EntryJudged, NextRead, judged_by};
ghost use Rattle.mdmp_lister.specs.Walk.Mapping.{IsMapped};

use crate::fault::ListFault;
use crate::range_map::push_range;
use crate::ranging::read_head;
use crate::sink::{RunFault, Stopped, VerdictSink};
use crate::stage::Stage;
use crate::verdict::Verdict;
use crate::walk::Walk;
use mdmp_map::AddressMap;
use mdmp_source::Store;
use std::alloc::Allocator;

/// Hands a sink the verdict on each chosen entry behind the current one, up to a fault of the store or of
/// the budget.
pub(crate) fn check_entries<S: Store + Drop, A: Allocator + Copy, K: VerdictSink>(
    walk: &mut Walk<S, A>,
    map: &mut AddressMap<A>,
    sink: &mut K,
) -> Result<(), RunFault>
    requires mapped { IsMapped walk.old map.old }
    requires between { walk.old.stage ≡ Stage.Between }
    ensures { EntriesChecked K.step walk.old map.old sink.old result walk.new map.new sink.new }
{
    while let Some(_) = walk.next_stream() {
        let entry = (walk.next - 1) as u32;
        let fault = match judge_entry(walk, map) {
            Ok(fault) => fault,
            Err(fault) => return Err(RunFault::At(fault)),
        };
        walk.skip_entry();
        match sink.take(&Verdict { entry, fault }) {
            Ok(()) => {}
            Err(Stopped) => return Err(RunFault::Stopped),
        }
    }
    Ok(())
}

/// Reads the current entry, whose head is not read yet, to its end or its first fault, and gives that
/// fault or none. A fault of the store or of the budget is an error.
fn judge_entry<S: Store + Drop, A: Allocator + Copy>(
    walk: &mut Walk<S, A>,
    map: &mut AddressMap<A>,
) -> Result<Option<ListFault>, ListFault>
    requires mapped { IsMapped walk.old map.old }
    requires head { walk.old.stage ≡ Stage.Head }
    ensures { EntryJudged walk.old map.old result walk.new map.new }
{
    if let Err(fault) = read_head(walk, map.free()) {
        return judged(fault);
    }
    loop {
        match read_next(walk, map) {
            Ok(true) => {}
            Ok(false) => return Ok(None),
            Err(fault) => return judged(fault),
        }
    }
}

/// Reads the next record of the current entry, and puts it into the map where it is a range that lies
/// inside the file: false where no record is left.
fn read_next<S: Store + Drop, A: Allocator + Copy>(
    walk: &mut Walk<S, A>,
    map: &mut AddressMap<A>,
) -> Result<bool, ListFault>
    requires mapped { IsMapped walk.old map.old }
    requires stage { IsListing walk.old.stage }
    ensures { NextRead walk.old map.old result walk.new map.new }
{
    match walk.next_record() {
        Ok(Some(held)) => {
            push_range(map, walk.range(&held));
            Ok(true)
        }
        Ok(None) => Ok(false),
        Err(fault) => Err(fault),
    }
}

/// What an entry with this fault is judged to have; a fault of the store or of the budget is an error.
fn judged(fault: ListFault) -> Result<Option<ListFault>, ListFault>
    ensures { result ≡ judged_by fault.kind fault }
{
    if fault.kind.is_unobtained() {
        return Err(fault);
    }
    Ok(Some(fault))
}
