//! A long list of memory regions, which no visitor of a summary looks at.
use crate::counter::Counter;
use crate::same::assert_same_at;
use crate::summing::{fetched_within, summary_in};
use mdmp_lister::{Choice, FaultKind, Limits, ListFault, Walker};
use mdmp_source::{MemoryStore, Source};
use mdmp_summary::visit_all;
use mdmp_test_support::{entry, file_of_parts, header_of};
use std::alloc::Global;
use std::process::Abort;

/// A list of memory regions, whose head tells so many and which has room for 1,000, and a list of two threads.
fn regions_file(rt: &impl Abort, alloc: Global, told: u64) -> Vec<u8> {
    let mut head = [0; 16];
    head[0] = 16;
    head[4] = 48;
    head[8..].copy_from_slice(&told.to_le_bytes());
    let parts: [&[u8]; 5] = [
        &header_of(2, 32),
        &entry(16, 48016, 156),
        &entry(3, 100, 56),
        &[2; 1],
        &[0; 99],
    ];
    let mut file = file_of_parts(alloc, &parts, 156).expect(rt, "a head");
    file.extend_from_slice(&head).expect(rt, "a stream");
    file.resize(48172, 0).expect(rt, "regions");
    file
}

/// How many items a listing gives, and how many bytes it fetches.
fn listed(alloc: Global, file: &[u8], limits: Limits) -> Option<(u32, u128)> {
    let source = Source::new(MemoryStore::new(file));
    let Ok(mut walker) = Walker::open(alloc, source, limits, Choice::All) else {
        return None;
    };
    let mut items = 0u32;
    for _ in 0..2000u32 {
        match walker.next() {
            Ok(Some(_)) => items = items.saturating_add(1),
            Ok(None) | Err(_) => break,
        }
    }
    let counts = walker.counts();
    Some((items, counts.fetched))
}

#[test]
fn regions_are_not_read_for_a_summary(rt: HostRuntime) {
    let file = regions_file(&rt, rt.alloc(), 1000);
    // The least window, so that no more is fetched of a stream than is looked at, but for its first bytes.
    let limits = Limits::new(168, 0).expect(&rt, "limits");
    // Header, directory, the threads, and the regions or as much of them as the window takes.
    let all = listed(rt.alloc(), &file, limits);
    assert_same_at(&rt, &"listing", all, Some((1004, 32 + 24 + 100 + 48016)));
    let few = fetched_within(rt.alloc(), &file, limits);
    assert_same_at(&rt, &"summary", few, Some((32 + 24 + 100 + 168, 0)));
}

#[test]
fn regions_change_no_summary_but_by_a_bad_head(rt: HostRuntime) {
    let some = summary_in(&rt, rt.alloc(), &regions_file(&rt, rt.alloc(), 1000));
    let none = summary_in(&rt, rt.alloc(), &regions_file(&rt, rt.alloc(), 0));
    assert_same_at(&rt, &"regions", some, none);
    assert_same_at(&rt, &"threads", some.counts.threads, 2);
    // But where their head tells too many.
    let summary = summary_in(&rt, rt.alloc(), &regions_file(&rt, rt.alloc(), 1001));
    let fault = ListFault {
        entry: 0,
        index: None,
        kind: FaultKind::BadCount,
        offset: 164,
        size: 1001,
    };
    let told = (summary.bad.count, summary.bad.first, summary.counts.threads);
    assert_same_at(&rt, &"bad", told, (1, Some(fault), 2));
}

#[test]
fn visitor_is_shown_what_it_wants(rt: HostRuntime) {
    let file = regions_file(&rt, rt.alloc(), 1000);
    let source = Source::new(MemoryStore::new(&file));
    let limits = Limits::new(168, 0).expect(&rt, "limits");
    let walker = Walker::open(rt.alloc(), source, limits, Choice::All);
    let Ok(mut walker) = walker else {
        panic!(&rt; "a walker");
    };
    let mut counter = Counter {
        threads: 0,
        others: 0,
        most: 2000,
        is_of_threads: true,
    };
    let bad = visit_all(&mut walker, &mut counter);
    assert_same_at(&rt, &"bad", bad.is_ok_and(|bad| bad.count == 0), true);
    // The Stream items are always shown.
    let shown = (counter.threads, counter.others);
    assert_same_at(&rt, &"shown", shown, (2, 2));
    let counts = walker.counts();
    assert_same_at(&rt, &"fetched", counts.fetched, 32 + 24 + 100 + 168);
}
