//! Stores, and fetches from them.
use super::four_at_one;
use crate::same::assert_same_at;
use mdmp_source::{FileStore, MemoryStore, Source, Store, StoreCounts, StoreFailed};
use std::fs;
use std::process::Abort;

/// Asserts that the source has six bytes, of which those at 1 to 4 are `bcde`.
fn assert_has_six<S: Store>(rt: &impl Abort, name: &str, source: &mut Source<S>) {
    let found = (source.size(), four_at_one(rt, source));
    assert_same_at(rt, &name, found, (6, (None, *b"bcde")));
}

#[test]
fn source_over_each_store_succeeds(rt: HostRuntime) {
    let mut source = Source::new(MemoryStore::new(b"abcdef"));
    assert_has_six(&rt, "in memory", &mut source);
    let counts = (source.calls(), source.fetched(), source.into_store().size());
    assert_same_at(&rt, &"counts", counts, (1, 4, 6));
    // A store that is lent is had back.
    let mut store = MemoryStore::new(b"abcdef");
    assert_has_six(&rt, "lent", &mut Source::new(&mut store));
    let mut byte = [0];
    let answer = store.read_at(5, &mut byte);
    assert_same_at(&rt, &"had back", (answer, byte), (Ok(1), *b"f"));
    // A file that is removed is not opened.
    fs::write(&rt, "six", "abcdef").expect(&rt, "a file");
    let store = FileStore::open(&rt, "six").expect(&rt, "a store");
    assert_has_six(&rt, "a file", &mut Source::new(store));
    fs::remove_file(&rt, "six").expect(&rt, "the removal of a file");
    let is_opened = FileStore::open(&rt, "six").is_ok();
    assert_same_at(&rt, &"removed", is_opened, false);
}

/// Answers to calls: where each begins and how much it asks for, and the place that the counts have then. A call
/// that asks for nothing and gets it has no place.
static COUNTED: [(Result<usize, StoreFailed>, u64, usize, u64); 5] = [
    (Ok(3), 1, 4, 0),
    (Ok(0), 5, 4, 5),
    (Ok(0), 6, 0, 5),
    (Err(StoreFailed), 7, 4, 7),
    (Ok(4), 8, 4, 7),
];

#[test]
fn store_counts_follow_the_answers(rt: HostRuntime) {
    let mut counts = StoreCounts::new();
    for (answer, at, len, place) in &COUNTED {
        counts.count(answer, *at, *len);
        assert_same_at(&rt, at, counts.place, *place);
    }
    let counted = StoreCounts {
        calls: 5,
        failures: 1,
        empties: 1,
        place: 7,
    };
    assert_same_at(&rt, &"all", counts, counted);
}
