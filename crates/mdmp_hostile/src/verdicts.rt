//! The verdicts on the entries of a file, through two windows.

use crate::bounds::counts_of;
use crate::census::{Census, Counted, OUT_OF_MEMORY};
use crate::lists::ListEnd;
use crate::windows::{TwoWindows, open};
use mdmp_lister::{Limits, ListFault, Lister, RunFault, Stopped, Verdict, VerdictSink};
use mdmp_source::MemoryStore;
use std::alloc::Global;

/// Keeps all verdicts.
#[derive(Drop)]
struct VerdictList {
    verdicts: Vec<Verdict>,
}

impl VerdictSink for VerdictList {
    ghost step = { λ _ _ _ _. Unit {0} };

    fn take(&mut self, verdict: &Verdict) -> Result<(), Stopped> {
        self.verdicts.push(*verdict).map_err(|_| Stopped)
    }
}

/// Compares the verdicts through two windows with each other, and the first fault with the end of the list.
pub fn check_file(
    alloc: Global,
    file: &[u8],
    windows: TwoWindows,
    end: ListEnd,
    census: &mut Census,
) {
    if let ListEnd::Refused(_) = end {
        return;
    }
    let one = verdicts_of(alloc, file, windows.one, census);
    let other = verdicts_of(alloc, file, windows.other, census);
    census.agree(one == other, "the windows give other verdicts");
    census.agree(
        first_fault(&one) == fault_of(end),
        "the first bad verdict is not the end of the list",
    );
    for verdict in &one {
        census.count(Counted::Verdicts);
        if verdict.fault.is_some() {
            census.count(Counted::BadVerdicts);
        }
    }
}

/// The verdict on each entry of a file.
fn verdicts_of(alloc: Global, file: &[u8], limits: Limits, census: &mut Census) -> Vec<Verdict> {
    let mut sink = VerdictList {
        verdicts: Vec::new(alloc),
    };
    match open(alloc, file, limits) {
        Ok(mut lister) => {
            check(&mut lister, &mut sink, census);
            census.agree(
                sink.verdicts.len() as u128 == counts_of(&lister).s,
                "an entry has no verdict",
            );
        },
        Err(_) => census.keep_trouble("opened once, and then refused"),
    }
    sink.verdicts
}

/// Appends all verdicts of a new lister into a sink.
fn check(
    lister: &mut Lister<MemoryStore<'_>, Global>,
    sink: &mut VerdictList,
    census: &mut Census,
) {
    if !lister.is_fresh() {
        return census.keep_trouble("a new lister has begun");
    }
    match lister.check_into(sink) {
        Ok(()) => {},
        Err(RunFault::Stopped) => census.keep_trouble(OUT_OF_MEMORY),
        Err(RunFault::At(_)) => census.keep_trouble("a check ends at a fault"),
    }
}

fn first_fault(verdicts: &[Verdict]) -> Option<ListFault> {
    for verdict in verdicts {
        if verdict.fault.is_some() {
            return verdict.fault;
        }
    }
    None
}

fn fault_of(end: ListEnd) -> Option<ListFault> {
    match end {
        ListEnd::At(fault) => Some(fault),
        ListEnd::Refused(_) | ListEnd::Whole => None,
    }
}
