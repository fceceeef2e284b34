//! Plays a script over a lister or a walker, and asserts each answer.
use crate::files::made;
use crate::given::plain;
use crate::opening::{chosen, limits_of, opened, patchy};
use crate::same::assert_same_at;
use crate::script::{Answer, Call, Script, ScriptReader, ScriptStep, parts_of};
use crate::walking;
use mdmp_lister::{Choice, Item, Limits, ListFault, Lister, StopAt};
use mdmp_source::{MemoryStore, Store, inside};
use std::alloc::{Allocator, Global};
use std::process::Abort;

/// An item, the end or a fault as an answer.
pub fn answer_by(
    rt: &impl Abort,
    alloc: Global,
    given: Result<Option<Item<'_>>, ListFault>,
) -> Answer {
    match given {
        Ok(Some(item)) => Answer::Item(plain(rt, alloc, &item)),
        Ok(None) => Answer::End,
        Err(fault) => Answer::Fault(fault),
    }
}

/// Hands what is left to a sink.
fn run<S: Store + Drop, A: Allocator + Copy>(
    lister: &mut Lister<S, A>,
    sink: &mut StopAt,
) -> Answer {
    let fault = lister.list_into(sink).err();
    Answer::Ran(fault, sink.calls())
}

/// Hands all verdicts to a sink, if nothing was given yet.
fn check<S: Store + Drop, A: Allocator + Copy>(
    lister: &mut Lister<S, A>,
    sink: &mut StopAt,
) -> Answer {
    if !lister.is_fresh() {
        return Answer::Begun;
    }
    let fault = lister.check_into(sink).err();
    Answer::Ran(fault, sink.calls())
}

/// Which of these are true, a bit each, from the lowest on.
pub fn bits_of(known: &[bool]) -> u16 {
    let mut bits: u16 = 0;
    for i in 0..known.len().min(16) {
        if known[i] {
            bits |= 1u16.wrapping_shl(i as u32);
        }
    }
    bits
}

/// Reads memory into bytes that are no answer, of which none is known at an odd address, and all are at an even one.
fn read<S: Store + Drop, A: Allocator + Copy>(
    lister: &mut Lister<S, A>,
    address: u64,
    len: usize,
) -> Answer {
    let len = len.min(16);
    let mut out = [0; 16];
    let mut known = [false; 16];
    out[..len].fill(0xee);
    known[..len].fill(address % 2 == 0);
    match lister.read_address(address, &mut out[..len], &mut known[..len]) {
        Ok(()) => Answer::Memory(out, bits_of(&known)),
        Err(fault) => Answer::Failed(fault),
    }
}

/// Reads a part of the file into bytes that are no answer, if it lies inside.
fn read_part<S: Store + Drop, A: Allocator + Copy>(
    lister: &mut Lister<S, A>,
    at: u64,
    len: usize,
) -> Answer {
    let len = len.min(16);
    if !inside(at, len as u64, lister.size()) {
        return Answer::Outside;
    }
    let mut out = [0; 16];
    out[..len].fill(0xee);
    match lister.read_part(at, &mut out[..len]) {
        Ok(()) => Answer::Bytes(out),
        Err(fault) => Answer::Failed(fault),
    }
}

/// What a lister answers to a call, and its sink comes to.
pub fn answer_of<S: Store + Drop, A: Allocator + Copy>(
    rt: &impl Abort,
    alloc: Global,
    lister: &mut Lister<S, A>,
    sink: &mut StopAt,
    step: ScriptStep,
) -> Answer {
    match step {
        ScriptStep::Entries => Answer::Entries(lister.header().number_of_streams),
        ScriptStep::Next => answer_by(rt, alloc, lister.next()),
        ScriptStep::Skip => {
            lister.skip_entry();
            Answer::Done
        }
        ScriptStep::NewSink(stop_at) => {
            *sink = StopAt::new(stop_at);
            run(lister, sink)
        }
        ScriptStep::SameSink => run(lister, sink),
        ScriptStep::Check(stop_at) => {
            *sink = StopAt::new(stop_at);
            check(lister, sink)
        }
        ScriptStep::Room => Answer::Room {
            len: lister.map().len(),
            free: lister.map().free(),
        },
        ScriptStep::Find(address) => Answer::Place(lister.map().find(address)),
        ScriptStep::Read(address, len) => read(lister, address, len),
        ScriptStep::Part(at, len) => read_part(lister, at, len),
        ScriptStep::Numbers => Answer::Numbers {
            size: lister.size(),
            aside: lister.counts().aside,
        },
        ScriptStep::RecordsLeft => Answer::RecordsLeft(lister.records_left()),
        ScriptStep::Fresh => Answer::Fresh(lister.is_fresh()),
        ScriptStep::Seek(_) | ScriptStep::Records => Answer::NoCall,
    }
}

/// Asserts that a lister of a store gives the answers of a script, and gives the size of the source that it hands
/// back.
pub fn play<S: Store + Drop>(
    rt: &impl Abort,
    alloc: Global,
    shows: &str,
    store: S,
    limits: Limits,
    choice: Choice,
    calls: &[Call],
) -> u64 {
    let mut lister = opened(rt, alloc, store, limits, choice);
    let mut sink = StopAt::new(u64::MAX);
    for i in 0..calls.len() {
        let (step, answer) = parts_of(&calls[i]);
        let found = answer_of(rt, alloc, &mut lister, &mut sink, step);
        assert_same_at(rt, &(shows, i), found, answer);
    }
    lister.into_source().size()
}

/// Plays a script over a store: the size of the source that is handed back.
fn play_over<S: Store + Drop>(
    rt: &impl Abort,
    alloc: Global,
    script: &Script<'_>,
    store: S,
) -> u64 {
    let (window, name) = script.limits;
    let limits = limits_of(rt, window, name);
    let choice = chosen(rt, script.types);
    match script.reader {
        ScriptReader::Lister => play(rt, alloc, script.shows, store, limits, choice, script.calls),
        ScriptReader::Walker => {
            walking::play(rt, alloc, script.shows, store, limits, choice, script.calls)
        }
    }
}

/// Asserts that the reader of a script gives its answers, and hands a source of the file's size back.
pub fn assert_script(rt: &impl Abort, alloc: Global, script: &Script<'_>) {
    let file = made(rt, alloc, &script.file);
    let size = if script.caps.is_empty() {
        play_over(rt, alloc, script, MemoryStore::new(&file))
    } else {
        let store = patchy(rt, &file, script.caps, script.fail_at);
        play_over(rt, alloc, script, store)
    };
    assert_same_at(rt, &script.shows, size, file.len() as u64);
}

/// Asserts that of each of these scripts.
pub fn assert_scripts(rt: &impl Abort, alloc: Global, scripts: &[Script<'_>]) {
    for script in scripts {
        assert_script(rt, alloc, script);
    }
}
