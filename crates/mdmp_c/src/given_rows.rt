//! What a check gives as plain structures, put into an array.
ghost use Rattle.std.specs.Prelude.{◌≡◌, ◌+◌, ◌≤◌, ℕ, List, sum_by};
ghost use Rattle.mdmp_c.specs.GivenRows.{AreChecked, AreNamesWithin, GivesChecked, ending_told};
ghost use Rattle.mdmp_c.specs.Giving.{Ends, bad_limits};
ghost use Rattle.mdmp_c.specs.Limits.{AreLimits, EndsChecking, KeepsChecking, most_read, names_checked};
ghost use Rattle.mdmp_c.specs.Table.{EndsListAt};
ghost use Rattle.mdmp_engines.specs.Engines.{IsOpened};
ghost use Rattle.mdmp_lister.specs.Format.Listing.{entry_count};
ghost use Rattle.mdmp_lister.specs.declared.choice.Choice.TheVariants.{All};
ghost use Rattle.mdmp_source.specs.Store.{IsGood};

use crate::fault::{PlainFault, of_kind, open_fault, plain_list_fault};
use crate::giving::refuse;
use crate::kinds;
use crate::limits::{PlainLimits, limits_of};
use crate::table::tell;
use crate::tool_fault::check_answer;
use mdmp_lister::{Choice, ListFault, Lister, RunFault};
use mdmp_source::{MemoryStore, Source, Store};
use std::alloc::{Allocator, Global};

/// The rows of a check, and what a call gives of each.
pub(crate) trait GivenRows: Copy {
    ghost use Rattle.std.specs.Prelude.{◌≡◌, ◌+◌, ◌≤◌, ℕ, List, Some};
    ghost use Rattle.mdmp_c.specs.GivenRows.{TakesRow};
    ghost use Rattle.mdmp_c.specs.Limits.{names_checked};
    ghost use Rattle.mdmp_c.specs.declared.fault.PlainFault.{PlainFault};
    ghost use Rattle.mdmp_summary.specs.Checking.{TellsRun};
    ghost use Rattle.mdmp_engines.specs.CheckRuns.{HandsChecked};
    ghost use Rattle.mdmp_engines.specs.Engines.{IsOpened};
    ghost use Rattle.mdmp_lister.specs.Lister.{IsSameLister};
    ghost use Rattle.mdmp_lister.specs.declared.choice.Choice.TheVariants.{All};
    ghost use Rattle.mdmp_summary.specs.InEntry.{EndsInEntry};

    /// What is given as a structure, or as none.
    type Row: Copy;

    // The rows of a file, with names up to a limit.
    ghost rows_of: { List ℕ → ℕ → List Self.Row };

    // What is given of a row.
    ghost given: { Self.Row → List PlainFault };

    // 1 for the row of a bad entry.
    ghost is_bad: { Self.Row → ℕ };

    /// Reads all entries, and hands their rows to a sink that puts them into an array.
    fn check_into<S: Store + Drop, A: Allocator + Copy>(
        self,
        lister: &mut Lister<S, A>,
        sink: &mut FaultRows<'_>,
    ) -> Result<(), RunFault>
        requires { IsOpened All lister.old }
        ensures hands { HandsChecked sink.old (λ old row result new. (new.out.ghost_name ≡ old.out.ghost_name)
            × TakesRow given is_bad old.out.now old.count old.bad row result new.out.now new.count new.bad) is_bad rows_of lister.old result lister.new sink.new }
        ensures told { TellsRun lister.old result lister.new }
        ensures ends { EndsInEntry lister.old result lister.new }
        ensures names { (file : List ℕ) → lister.old.source.store.content ≡ Some file
            → lister.new.counts.names ≤ lister.old.counts.names + names_checked file All lister.old.limit + 1 }
        ensures same { IsSameLister lister.old lister.new };
}

/// A sink that puts structures into an array, as far as it has room, and counts them and the bad entries.
#[derive(Drop)]
pub(crate) struct FaultRows<'a> {
    pub(crate) out: &'a mut [PlainFault],
    pub(crate) count: u64,
    pub(crate) bad: u64,
}

impl FaultRows<'_> {
    /// The counts of the rows, which end so.
    fn ended(&self, fault: Option<ListFault>) -> Judged
        ensures { result ≡ record { count = self.now.count; bad = self.now.bad; fault = fault } }
    {
        Judged {
            count: self.count,
            bad: self.bad,
            fault,
        }
    }
}

/// How many structures there are, how many entries are bad, and the fault at which the check ends.
#[derive(Clone, Copy)]
pub(crate) struct Judged {
    pub(crate) count: u64,
    pub(crate) bad: u64,
    pub(crate) fault: Option<ListFault>,
}

/// Gives the rows of a check of a file. As many as `out` has room for, and in `count` how many there are. `fault` says
/// why the file can't be opened, or how many entries are bad. If the read limit is reached, `fault` says that, and the
/// rows before it are given.
pub(crate) fn give_checked<R: GivenRows>(
    alloc: Global,
    file: &[u8],
    limits: &PlainLimits,
    rows: R,
    out: &mut [PlainFault],
    count: &mut u64,
    fault: &mut PlainFault,
) -> u32
    ensures { Ends (AreChecked R.rows_of R.given R.is_bad file.now limits.now.name) (AreLimits limits.now) (KeepsChecking limits.now file.now) (EndsChecking limits.now file.now) bad_limits result count.new fault.new out.old out.new }
{
    let Some(limits) = limits_of(limits) else {
        return refuse(of_kind(kinds::BAD_LIMITS), count, fault);
    };
    let source = Source::new(MemoryStore::new(file));
    let mut lister = match Lister::open(alloc, source, limits, Choice::All) {
        Ok(lister) => lister,
        Err(refused) => return refuse(open_fault(refused.fault), count, fault),
    };
    // The prover needs that a directory has fewer than 2^32 entries: so no count is at its greatest.
    let _entries = lister.header().number_of_streams;
    let judged = judge(rows, &mut lister, out);
    tell(
        judged.count,
        ending_told(judged.bad, judged.fault),
        out.len(),
        count,
        fault,
    )
}

/// Puts the rows of a check into an array, as far as it has room.
fn judge<R: GivenRows, S: Store + Drop, A: Allocator + Copy>(
    rows: R,
    lister: &mut Lister<S, A>,
    out: &mut [PlainFault],
) -> Judged
    requires { IsOpened All lister.old }
    ensures gives { (file : List ℕ) → IsGood lister.old.source.store file
        → GivesChecked R.given R.is_bad (R.rows_of file lister.old.limit) (AreNamesWithin lister.old file)
        (EndsListAt lister.old (most_read file lister.old.choice lister.old.limit (lister.old.counts.names + names_checked file lister.old.choice lister.old.limit)))
        result out.old out.new }
    ensures few { (file : List ℕ) → sum_by R.is_bad (R.rows_of file lister.old.limit) ≤ entry_count file }
{
    let mut sink = FaultRows {
        out,
        count: 0,
        bad: 0,
    };
    judge_into(rows, lister, &mut sink)
}

/// Hands the rows of a check to a sink that was given none yet.
fn judge_into<R: GivenRows, S: Store + Drop, A: Allocator + Copy>(
    rows: R,
    lister: &mut Lister<S, A>,
    sink: &mut FaultRows<'_>,
) -> Judged
    requires opened { IsOpened All lister.old }
    requires none { (sink.old.count ≡ 0) × (sink.old.bad ≡ 0) }
    ensures same_output { sink.new.out.ghost_name ≡ sink.old.out.ghost_name }
    ensures gives { (file : List ℕ) → IsGood lister.old.source.store file
        → GivesChecked R.given R.is_bad (R.rows_of file lister.old.limit) (AreNamesWithin lister.old file)
        (EndsListAt lister.old (most_read file lister.old.choice lister.old.limit (lister.old.counts.names + names_checked file lister.old.choice lister.old.limit)))
        result sink.old.out.now sink.new.out.now }
    ensures few { (file : List ℕ) → sum_by R.is_bad (R.rows_of file lister.old.limit) ≤ entry_count file }
{
    match rows.check_into(lister, sink) {
        Ok(()) => {
            // The proof learns here that the lister kept to its budget.
            let _counts = lister.counts();
            sink.ended(None)
        }
        Err(RunFault::At(fault)) => {
            // The proof learns here within which bounds the lister stayed.
            let _counts = lister.counts();
            sink.ended(Some(fault))
        }
        // This sink never stops.
        Err(RunFault::Stopped) => sink.ended(None),
    }
}

/// What is told where a check ends so. The store is memory, which does not fail, so a fault is the budget's.
fn ending_told(bad: u64, fault: Option<ListFault>) -> PlainFault
    ensures { result ≡ ending_told bad fault }
{
    match fault {
        Some(found) => plain_list_fault(found),
        None => check_answer(Ok(bad)),
    }
}
