//! A check of all entries and of the parts of their records.
ghost use Rattle.std.specs.Prelude.{◌≡◌, None, false, IfOk};
ghost use Rattle.mdmp_lister.specs.Counts.{AreSpent, numbers_of};
ghost use Rattle.mdmp_summary.specs.Checking.{IsAllLeft, LeavesChecked, LeavesRun, RowsHanded, TellsRows, TellsRun};

use crate::check_row::CheckRowSink;
use crate::row_maker::RowMaker;
use crate::walking::is_unobtained;
use mdmp_lister::{Lister, RunFault, Stopped};
use mdmp_source::Store;
use std::alloc::Allocator;

/// Hands a sink the rows of a check, for each entry in the order of the directory: its parts that lie outside the
/// file, and then its result. An entry is read to its end or its first error, and after a bad entry the next one is
/// read. If bytes are not read, or the read limit is reached, the check ends, with no result of that entry; so it does
/// if the sink wants no more.
///
/// No item, result or error was given before. Of any source it fetches at most the streams of the entries that it reads
/// and their names: no more than a listing does.
pub fn check_parts_into<S: Store + Drop, A: Allocator + Copy, K: CheckRowSink>(
    lister: &mut Lister<S, A>,
    sink: &mut K,
) -> Result<(), RunFault>
    requires { IsAllLeft lister.old }
    ensures rows { RowsHanded K.step lister.old sink.old result lister.new sink.new }
    ensures told { TellsRun lister.old result lister.new }
    ensures leaves { LeavesChecked lister.old result lister.new }
    ensures spent { AreSpent lister.new (numbers_of lister.new) }
{
    let mut maker = RowMaker {
        sink,
        entry: None,
        loses_parts: false,
    };
    let ended = check_runs(lister, &mut maker);
    // The proof learns here within which bounds the lister stayed.
    let _counts = lister.counts();
    ended
}

/// Hands on the rows of all entries.
fn check_runs<S: Store + Drop, A: Allocator + Copy, K: CheckRowSink>(
    lister: &mut Lister<S, A>,
    maker: &mut RowMaker<'_, K>,
) -> Result<(), RunFault>
    requires left { IsAllLeft lister.old }
    requires fresh { (maker.old.entry ≡ None) × (maker.old.loses_parts ≡ false) }
    ensures same_sink { maker.new.sink.ghost_name ≡ maker.old.sink.ghost_name }
    ensures rows { RowsHanded K.step lister.old maker.old.sink.now result lister.new maker.new.sink.now }
    ensures told { TellsRun lister.old result lister.new }
    ensures leaves { LeavesChecked lister.old result lister.new }
{
    // Each run but the last ends at the error of an entry.
    let runs = u64::from(lister.header().number_of_streams) + 1;
    'entries: for _ in 0..runs {
        let more = check_run(lister, maker)?;
        if !more {
            return Ok(());
        }
    }
    Ok(())
}

/// Hands on the rows of the entries that are left, up to the end or the first bad entry, which it drops: true after a
/// bad entry.
fn check_run<S: Store + Drop, A: Allocator + Copy, K: CheckRowSink>(
    lister: &mut Lister<S, A>,
    maker: &mut RowMaker<'_, K>,
) -> Result<bool, RunFault>
    requires going { lister.old.stop ≡ None }
    requires fresh { (maker.old.entry ≡ None) × (maker.old.loses_parts ≡ false) }
    ensures same_sink { maker.new.sink.ghost_name ≡ maker.old.sink.ghost_name }
    ensures fresh { IfOk result (λ more. (maker.new.entry ≡ None) × (maker.new.loses_parts ≡ false)) }
    ensures rows { TellsRows K.step lister.old maker.old.sink.now result lister.new maker.new.sink.now }
    ensures told { TellsRun lister.old result lister.new }
    ensures leaves { LeavesRun lister.old result lister.new }
{
    match lister.list_into(maker) {
        Ok(()) => match maker.close() {
            Ok(()) => Ok(false),
            Err(Stopped) => Err(RunFault::Stopped),
        },
        Err(RunFault::Stopped) => Err(RunFault::Stopped),
        Err(RunFault::At(fault)) => {
            if is_unobtained(fault) {
                return Err(RunFault::At(fault));
            }
            match maker.close_bad(fault) {
                Ok(()) => {
                    lister.skip_entry();
                    Ok(true)
                }
                Err(Stopped) => Err(RunFault::Stopped),
            }
        }
    }
}
