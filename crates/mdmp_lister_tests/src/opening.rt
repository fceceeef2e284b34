//! Listers that are opened, how many items they give, and what they are opened with.
use mdmp_lister::{
    Choice, Counts, FaultKind, Limits, ListFault, Lister, OpenFault, OpenRefused, RunFault, StopAt,
    TypeSet,
};
use mdmp_source::{PatchyStore, Source, Store};
use std::alloc::{Allocator, Global};
use std::process::Abort;

/// All items and how many ranges of memory were mapped, or why there is no lister.
#[derive(Clone, Copy, Debug, PartialEq, Eq)]
pub enum ListOutcome {
    Listed {
        fault: Option<RunFault>,
        items: u64,
        mapped: usize,
    },
    Refused(OpenFault),
}

/// Each entry, or those of these types.
pub fn chosen(rt: &impl Abort, types: &[u32]) -> Choice {
    if types.is_empty() {
        return Choice::All;
    }
    Choice::Types(TypeSet::new(types).expect(rt, "types"))
}

/// A window of so many bytes, and names of at most so many.
pub fn limits_of(rt: &impl Abort, window: u32, name: u32) -> Limits {
    Limits::new(window, name).expect(rt, "limits")
}

/// A lister of a store.
pub fn opened<S: Store + Drop, A: Allocator + Copy>(
    rt: &impl Abort,
    alloc: A,
    store: S,
    limits: Limits,
    choice: Choice,
) -> Lister<S, A> {
    match Lister::open(alloc, Source::new(store), limits, choice) {
        Ok(lister) => lister,
        Err(_) => panic!(rt; "a lister was refused"),
    }
}

/// A store that gives as many bytes a call as the caps say, in turn, and fails at this call, if at one.
pub fn patchy<'a>(
    rt: &impl Abort,
    bytes: &'a [u8],
    caps: &'a [usize],
    fail_at: Option<u64>,
) -> PatchyStore<'a> {
    assert!(rt; !caps.is_empty());
    PatchyStore::new(bytes, caps, fail_at)
}

/// A fault of the first entry, or of this one, by a macro since no static calls a function.
macro_rules! fault {
    ($index:expr, $kind:expr, $offset:expr, $size:expr) => {
        $crate::opening::fault!(0, $index, $kind, $offset, $size)
    };
    ($entry:expr, $index:expr, $kind:expr, $offset:expr, $size:expr) => {
        mdmp_lister::ListFault {
            entry: $entry,
            index: $index,
            kind: $kind,
            offset: $offset,
            size: $size,
        }
    };
}

pub(crate) use fault;

/// The fault of an entry whose byte at this place is not obtained.
macro_rules! store_fault {
    ($entry:expr, $at:expr) => {
        $crate::opening::fault!(
            $entry,
            None,
            mdmp_lister::FaultKind::Source(mdmp_source::SourceFault::Failed { at: $at }),
            $at,
            0
        )
    };
}

pub(crate) use store_fault;

/// The fault of the second entry of `FAULTY`, in the name of its module.
pub const FAULTY_NAME: ListFault = ListFault {
    entry: 1,
    index: Some(0),
    kind: FaultKind::NameLengthOutside,
    offset: 4294967295,
    size: 4,
};

/// That of the third, whose bytes stand behind the file.
pub const FAULTY_STREAM: ListFault = ListFault {
    entry: 2,
    index: None,
    kind: FaultKind::StreamOutside,
    offset: 236,
    size: 5,
};

/// Gives all items of a lister: what ended that.
pub fn list_all<S: Store + Drop, A: Allocator + Copy>(
    lister: &mut Lister<S, A>,
) -> Option<RunFault> {
    lister.list_into(&mut StopAt::new(u64::MAX)).err()
}

/// What a lister counts.
pub fn counts_of<S: Store + Drop, A: Allocator + Copy>(lister: &Lister<S, A>) -> Counts {
    lister.counts()
}

/// Closes a lister, which is short for the prover here, and long at the end of a function that does more.
pub fn close<S: Store + Drop, A: Allocator + Copy>(lister: Lister<S, A>) {
    let _ = lister.into_source();
}

/// Closes a lister: how many bytes and calls its source counts.
pub fn fetched_by<S: Store + Drop, A: Allocator + Copy>(lister: Lister<S, A>) -> (u128, u128) {
    let source = lister.into_source();
    (source.fetched(), source.calls())
}

/// Why an opening was refused, and the source that it hands back.
pub fn refused_with<S: Store + Drop>(refused: OpenRefused<S>) -> (Option<OpenFault>, Source<S>) {
    let OpenRefused { fault, source } = refused;
    (Some(fault), source)
}

/// Opens a lister and closes it again: why it was refused, and the source.
pub fn open_and_close<S: Store + Drop, A: Allocator + Copy>(
    alloc: A,
    source: Source<S>,
    limits: Limits,
    choice: Choice,
) -> (Option<OpenFault>, Source<S>) {
    match Lister::open(alloc, source, limits, choice) {
        Ok(lister) => (None, lister.into_source()),
        Err(refused) => refused_with(refused),
    }
}

/// Hands all items to a sink, and then the source back.
pub fn run_over<S: Store + Drop, A: Allocator + Copy>(
    alloc: A,
    source: Source<S>,
    limits: Limits,
    choice: Choice,
) -> (ListOutcome, Source<S>) {
    let mut lister = match Lister::open(alloc, source, limits, choice) {
        Ok(lister) => lister,
        Err(refused) => {
            let OpenRefused { fault, source } = refused;
            return (ListOutcome::Refused(fault), source);
        }
    };
    let mut sink = StopAt::new(u64::MAX);
    let fault = lister.list_into(&mut sink).err();
    let outcome = ListOutcome::Listed {
        fault,
        items: sink.calls(),
        mapped: lister.map().len(),
    };
    (outcome, lister.into_source())
}

/// What a listing without a fault comes to.
pub fn all(items: u64, mapped: usize) -> ListOutcome {
    ListOutcome::Listed {
        fault: None,
        items,
        mapped,
    }
}

/// What ended a listing of the ranges of a store, and how many were mapped; none where it is not opened.
pub fn listed_ranges<S: Store + Drop>(
    alloc: Global,
    store: S,
    limits: Limits,
) -> Option<(Result<(), ListFault>, usize)> {
    let opened = Lister::open(alloc, Source::new(store), limits, Choice::memory_lists());
    let Ok(mut lister) = opened else {
        return None;
    };
    let ended = lister.list_ranges();
    Some((ended, lister.map().len()))
}
