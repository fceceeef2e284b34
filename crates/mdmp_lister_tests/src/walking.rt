//! A walker that is opened, and its calls in a row.
use crate::opening::refused_with;
use crate::playing::answer_by;
use crate::same::assert_same_at;
use crate::script::{Answer, Call, ScriptStep, parts_of};
use mdmp_lister::{Choice, Counts, Limits, ListFault, OpenFault, Step as Read, Walker};
use mdmp_source::{Source, SourceFault, Store, inside};
use mdmp_wire::Entry;
use std::alloc::{Allocator, Global};
use std::process::Abort;

/// A walker over a store.
pub fn open_over<S: Store + Drop>(
    rt: &impl Abort,
    alloc: Global,
    store: S,
    limits: Limits,
    choice: Choice,
) -> Walker<S, Global> {
    match Walker::open(alloc, Source::new(store), limits, choice) {
        Ok(walker) => walker,
        Err(_) => panic!(rt; "a walker was refused"),
    }
}

/// What the next call of a walker answers, as it was read.
pub fn step_of<S: Store + Drop, A: Allocator + Copy>(
    walker: &mut Walker<S, A>,
) -> Result<Option<Read>, ListFault> {
    walker.next_step()
}

/// Whether its next call passes over a step.
pub fn passed_of<S: Store + Drop, A: Allocator + Copy>(
    walker: &mut Walker<S, A>,
) -> Result<bool, ListFault> {
    walker.pass_step()
}

/// What a walker counts.
pub fn counts_of<S: Store + Drop, A: Allocator + Copy>(walker: &Walker<S, A>) -> Counts {
    walker.counts()
}

/// Closes a walker, which is short for the prover here, and long at the end of a function that does more.
pub fn close<S: Store + Drop, A: Allocator + Copy>(walker: Walker<S, A>) {
    let _ = walker.into_source();
}

/// What its source has fetched, once it is closed.
pub fn fetched_of<S: Store + Drop, A: Allocator + Copy>(walker: Walker<S, A>) -> u128 {
    walker.into_source().fetched()
}

/// Opens a walker and closes it again: why it was refused, and the source.
pub fn open_and_close<S: Store + Drop, A: Allocator + Copy>(
    alloc: A,
    source: Source<S>,
    limits: Limits,
) -> (Option<OpenFault>, Source<S>) {
    match Walker::open(alloc, source, limits, Choice::All) {
        Ok(walker) => (None, walker.into_source()),
        Err(refused) => refused_with(refused),
    }
}

/// An entry of the directory, if there is one.
pub fn entry_of<S: Store + Drop, A: Allocator + Copy>(
    walker: &Walker<S, A>,
    number: usize,
) -> Option<Entry> {
    if number < walker.header().number_of_streams as usize {
        Some(walker.entry(number))
    } else {
        None
    }
}

/// Whether an entry is chosen, if there is one.
pub fn is_chosen<S: Store + Drop, A: Allocator + Copy>(
    walker: &Walker<S, A>,
    number: usize,
) -> Option<bool> {
    if number < walker.header().number_of_streams as usize {
        Some(walker.is_chosen(number))
    } else {
        None
    }
}

/// Four bytes of the file, or the fault of the store; none where it has not so many there.
pub type PartRead = Option<Result<[u8; 4], SourceFault>>;

/// What a walker reads at this place.
pub fn part_of<S: Store + Drop, A: Allocator + Copy>(
    walker: &mut Walker<S, A>,
    at: u64,
) -> PartRead {
    if !inside(at, 4, walker.size()) {
        return None;
    }
    let mut bytes = [0; 4];
    match walker.read_part(at, &mut bytes) {
        Ok(()) => Some(Ok(bytes)),
        Err(fault) => Some(Err(fault)),
    }
}

/// How many records a stream has whose Stream item was given last, or the fault in their place.
pub fn records_of<S: Store + Drop, A: Allocator + Copy>(
    walker: &mut Walker<S, A>,
) -> Option<Result<u64, ListFault>> {
    if walker.is_begun() {
        Some(walker.records())
    } else {
        None
    }
}

/// What a walker answers to a call.
pub fn answer_of<S: Store + Drop, A: Allocator + Copy>(
    rt: &impl Abort,
    alloc: Global,
    walker: &mut Walker<S, A>,
    step: ScriptStep,
) -> Answer {
    match step {
        ScriptStep::Entries => Answer::Entries(walker.header().number_of_streams),
        ScriptStep::Next => answer_by(rt, alloc, walker.next()),
        ScriptStep::Skip => {
            walker.skip_entry();
            Answer::Done
        }
        ScriptStep::Seek(number) => {
            if number >= walker.header().number_of_streams as usize {
                return Answer::NoCall;
            }
            walker.seek_entry(number);
            Answer::Done
        }
        ScriptStep::Records => match records_of(walker) {
            Some(Ok(count)) => Answer::Counted(count),
            Some(Err(fault)) => Answer::Fault(fault),
            None => Answer::NoCall,
        },
        _ => Answer::NoCall,
    }
}

/// Asserts that a walker gives the answers of a script.
pub fn assert_walk<S: Store + Drop, A: Allocator + Copy>(
    rt: &impl Abort,
    alloc: Global,
    shows: &str,
    walker: &mut Walker<S, A>,
    calls: &[Call],
) {
    for i in 0..calls.len() {
        let (step, answer) = parts_of(&calls[i]);
        let found = answer_of(rt, alloc, walker, step);
        assert_same_at(rt, &(shows, i), found, answer);
    }
}

/// Asserts that a walker of a store gives the answers of a script, and gives the size of the source that it hands
/// back.
pub fn play<S: Store + Drop>(
    rt: &impl Abort,
    alloc: Global,
    shows: &str,
    store: S,
    limits: Limits,
    choice: Choice,
    calls: &[Call],
) -> u64 {
    let mut walker = open_over(rt, alloc, store, limits, choice);
    assert_walk(rt, alloc, shows, &mut walker, calls);
    walker.into_source().size()
}
