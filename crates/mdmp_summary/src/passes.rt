//! The two passes of a summary.
ghost use Rattle.std.specs.Prelude.{◌≡◌, ℕ, List, Some, false, IfOk};
ghost use Rattle.mdmp_lister.specs.Walker.{is_failed};
ghost use Rattle.mdmp_lister.specs.declared.choice.Choice.TheVariants.{All};
ghost use Rattle.mdmp_summary.specs.BadEntries.{all_items};
ghost use Rattle.mdmp_summary.specs.Passes.{MakesPass, all_gathered, searched};

use crate::bad_entries::BadEntries;
use crate::gathering::Gathering;
use crate::search::CrashSearch;
use crate::summary::{Crash, FileSummary};
use crate::visiting::VisitFault;
use crate::walking::visit_all;
use mdmp_lister::{ListFault, Walker};
use mdmp_source::Store;
use mdmp_wire::Header;
use std::alloc::Allocator;

/// What the first pass gives.
#[derive(Clone, Copy)]
pub(crate) struct FirstPass {
    pub(crate) gathering: Gathering,
    pub(crate) bad: BadEntries,
}

impl FirstPass {
    ghost use Rattle.mdmp_summary.specs.Passes.{summary_with};

    /// The summary of a file with this header and this crash.
    pub(crate) fn summary(&self, header: Header, crash: Option<Crash>) -> FileSummary
        ensures { result ≡ summary_with self.now header crash }
    {
        FileSummary {
            header,
            system: self.gathering.system,
            program: self.gathering.program,
            crash,
            counts: self.gathering.counts,
            outside: self.gathering.outside,
            bad: self.bad,
        }
    }
}

/// Gathers what all items tell.
pub(crate) fn gather_all<S: Store + Drop, A: Allocator + Copy>(
    walker: &mut Walker<S, A>,
) -> Result<FirstPass, ListFault>
    requires all { walker.old.list.choice ≡ All }
    requires going { is_failed walker.old.list.stop ≡ false }
    ensures gathers { (file : List ℕ) → walker.old.list.source.store.content ≡ Some file
        → IfOk result (λ told. told ≡ all_gathered file walker.old.list.limit) }
    ensures passes { MakesPass walker.old result walker.new }
{
    let mut gathering = Gathering::new();
    let visited = visit_all(walker, &mut gathering);
    // The proof learns here that the walker kept to its read limit.
    let _counts = walker.counts();
    match visited {
        Ok(bad) => Ok(FirstPass { gathering, bad }),
        Err(VisitFault::List(fault)) => Err(fault),
        // It takes every item, and reads nothing.
        Err(VisitFault::Ended(_)) => unreachable!(),
    }
}

/// Searches all items for the modules at an address and for the name of a thread.
pub(crate) fn search_all<S: Store + Drop, A: Allocator + Copy>(
    walker: &mut Walker<S, A>,
    address: u64,
    thread: u32,
) -> Result<CrashSearch, ListFault>
    requires all { walker.old.list.choice ≡ All }
    requires going { is_failed walker.old.list.stop ≡ false }
    ensures finds { (file : List ℕ) → walker.old.list.source.store.content ≡ Some file
        → IfOk result (λ search. search ≡ searched address thread (all_items file walker.old.list.limit)) }
    ensures passes { MakesPass walker.old result walker.new }
{
    let mut search = CrashSearch::new(address, thread);
    let visited = visit_all(walker, &mut search);
    let _counts = walker.counts();
    match visited {
        Ok(_) => Ok(search),
        Err(VisitFault::List(fault)) => Err(fault),
        Err(VisitFault::Ended(_)) => unreachable!(),
    }
}
