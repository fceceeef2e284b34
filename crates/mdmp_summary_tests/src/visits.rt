//! A visitor of all items, and what is read outside the listing.
use crate::counter::Counter;
use crate::files::{LINUX, crash_file};
use crate::same::assert_same_at;
use mdmp_lister::{Choice, Limits, Walker};
use mdmp_source::{Location, MemoryStore, PatchyStore, Source, Store};
use mdmp_summary::{
    Registers, SymbolsRead, VisitEnd, VisitFault, read_registers, read_symbols, visit_all,
};
use mdmp_test_support::{CODEVIEW_RECORD, module_file};
use mdmp_wire::{Record, SystemRecord};
use std::alloc::Global;
use std::process::Abort;

/// How many items a visitor of a store was shown that wants so many, and how many entries are bad or how it ended;
/// none if the file is not opened.
fn visited_over<S: Store + Drop>(
    alloc: Global,
    store: S,
    most: u32,
) -> Option<(u32, Result<u64, VisitFault>)> {
    let source = Source::new(store);
    let Ok(mut walker) = Walker::open(alloc, source, Limits::default(), Choice::All) else {
        return None;
    };
    let mut counter = Counter {
        threads: 0,
        others: 0,
        most,
        is_of_threads: false,
    };
    let end = match visit_all(&mut walker, &mut counter) {
        Ok(bad) => Ok(bad.count),
        Err(fault) => Err(fault),
    };
    Some((counter.threads.saturating_add(counter.others), end))
}

#[test]
fn visit_succeeds_behind_a_bad_entry(rt: HostRuntime) {
    let file = crash_file(&rt, rt.alloc(), &LINUX);
    // Five entries, of which the first is bad, and a record in each of the others.
    let told = visited_over(rt.alloc(), MemoryStore::new(&file), 100);
    assert_same_at(&rt, &"all", told, Some((9, Ok(1))));
}

#[test]
fn sink_stops_at_each_item(rt: HostRuntime) {
    let file = crash_file(&rt, rt.alloc(), &LINUX);
    for most in 1..10u32 {
        let told = visited_over(rt.alloc(), MemoryStore::new(&file), most);
        let end = Err(VisitFault::Ended(VisitEnd::Stopped));
        assert_same_at(&rt, &most, told, Some((most, end)));
    }
}

#[test]
fn store_that_fails_at_a_call_ends_the_visit(rt: HostRuntime) {
    let file = crash_file(&rt, rt.alloc(), &LINUX);
    let mut calls = 0u32;
    for call in 0..20u64 {
        let store = PatchyStore::new(&file, &[1 << 20], Some(call));
        match visited_over(rt.alloc(), store, 100) {
            None | Some((_, Err(VisitFault::List(_)))) => calls = calls.saturating_add(1),
            told => assert_same_at(&rt, &call, told, Some((9, Ok(1)))),
        }
    }
    assert_same_at(&rt, &"calls", calls, 6);
}

/// The CodeView record at a location of a store, the end of which is read into `name`.
fn symbols_over<S: Store + Drop>(
    rt: &impl Abort,
    alloc: Global,
    store: S,
    at: Location,
    name: &mut [u8],
) -> Option<Option<SymbolsRead>> {
    let source = Source::new(store);
    let walker = Walker::open(alloc, source, Limits::default(), Choice::All);
    let Ok(mut walker) = walker else {
        panic!(rt; "a walker");
    };
    read_symbols(&mut walker, at, name).ok()
}

const RECORD: Location = Location { size: 30, rva: 156 };

#[test]
fn symbols_are_read_up_to_the_room_unless_the_store_fails_at_a_call(rt: HostRuntime) {
    let file = module_file(rt.alloc(), 30, CODEVIEW_RECORD).expect(&rt, "a file");
    let mut name = [0; 4];
    let told = symbols_over(&rt, rt.alloc(), MemoryStore::new(&file), RECORD, &mut name);
    let Some(Some(read)) = &told else {
        panic!(rt; "a record");
    };
    assert_same_at(&rt, &"read", (read.rest, read.size), (4, 30));
    let record = CODEVIEW_RECORD;
    let head = read.head;
    assert_same_at(&rt, &"head", &head[..], &record[..24]);
    assert_same_at(&rt, &"name", &name[..], &record[24..28]);
    let outside = Location {
        size: 300,
        rva: 156,
    };
    let told = symbols_over(&rt, rt.alloc(), MemoryStore::new(&file), outside, &mut name);
    assert_same_at(&rt, &"outside", matches!(&told, Some(None)), true);
    // The header and the directory are read before: two calls.
    for (call, is_read) in [(2, false), (3, false), (4, true)] {
        let store = PatchyStore::new(&file, &[1 << 20], Some(call));
        let told = symbols_over(&rt, rt.alloc(), store, RECORD, &mut [0; 4]);
        assert_same_at(&rt, &call, told.is_some(), is_read);
    }
}

/// The registers in the context of the crash file, read as those of a system of this architecture.
fn registers_over<S: Store + Drop>(
    rt: &impl Abort,
    alloc: Global,
    store: S,
    system: Option<SystemRecord>,
) -> Option<Option<Registers>> {
    let source = Source::new(store);
    let walker = Walker::open(alloc, source, Limits::default(), Choice::All);
    let Ok(mut walker) = walker else {
        panic!(rt; "a walker");
    };
    let at = Location {
        size: 272,
        rva: 596,
    };
    read_registers(&mut walker, system, at).ok()
}

#[test]
fn registers_are_read_unless_the_store_fails_at_a_call(rt: HostRuntime) {
    let file = crash_file(&rt, rt.alloc(), &LINUX);
    let system = SystemRecord::read(file.get(540..596).expect(&rt, "a system"));
    let told = registers_over(&rt, rt.alloc(), MemoryStore::new(&file), Some(system));
    let Some(Some(registers)) = told else {
        panic!(rt; "registers");
    };
    assert_same_at(&rt, &"instruction", registers.instruction, 0x5010);
    let none = registers_over(&rt, rt.alloc(), MemoryStore::new(&file), None);
    assert_same_at(&rt, &"no system", none, Some(None));
    // The header and the directory are read before: two calls.
    for (call, is_read) in [(2, false), (3, true)] {
        let store = PatchyStore::new(&file, &[1 << 20], Some(call));
        let told = registers_over(&rt, rt.alloc(), store, Some(system));
        assert_same_at(&rt, &call, told.is_some(), is_read);
    }
}
