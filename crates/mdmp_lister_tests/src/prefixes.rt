//! Files that are cut at each of their bytes.
use crate::files::first_bytes;
use crate::opening::{ListOutcome, fault, run_over};
use crate::same::assert_same_at;
use crate::script::STANDARD;
use mdmp_lister::{Choice, FaultKind, OpenFault, RunFault};
use mdmp_source::{MemoryStore, Source};
use mdmp_test_support::SYSTEM;
use std::alloc::Global;
use std::process::Abort;

/// What a listing comes to that ends behind the Stream item with this fault of the entry, or of its record.
macro_rules! ends_at {
    ($index:expr, $kind:expr, $offset:expr, $size:expr) => {
        ListOutcome::Listed {
            fault: Some(RunFault::At(fault!($index, $kind, $offset, $size))),
            items: 1,
            mapped: 0,
        }
    };
}

/// The first prefix of the system's dump and the last that come to this.
static SPANS: [(usize, usize, ListOutcome); 5] = [
    (
        32,
        43,
        ListOutcome::Refused(OpenFault::DirectoryOutside {
            offset: 32,
            size: 12,
        }),
    ),
    (44, 99, ends_at!(None, FaultKind::StreamOutside, 44, 56)),
    (
        100,
        103,
        ends_at!(Some(0), FaultKind::NameLengthOutside, 100, 4),
    ),
    (
        104,
        131,
        ends_at!(Some(0), FaultKind::NameUnitsOutside, 104, 28),
    ),
    // The end of the name is no part of it.
    (
        132,
        136,
        ListOutcome::Listed {
            fault: None,
            items: 2,
            mapped: 0,
        },
    ),
];

/// Asserts what comes of listing the first bytes of the system's dump, as many as this.
fn assert_prefix(rt: &impl Abort, alloc: Global, size: usize, expected: ListOutcome) {
    let source = Source::new(MemoryStore::new(first_bytes(rt, &SYSTEM, size)));
    let (outcome, _) = run_over(alloc, source, STANDARD, Choice::All);
    assert_same_at(rt, &size, outcome, expected);
}

#[test]
fn each_prefix_of_a_system_is_told_by_what_is_cut(rt: HostRuntime) {
    // A header that is cut is too short.
    for size in 0..32 {
        let short = OpenFault::TooShort { size: size as u64 };
        assert_prefix(&rt, rt.alloc(), size, ListOutcome::Refused(short));
    }
    for (first, last, outcome) in &SPANS {
        for size in *first..last.saturating_add(1) {
            assert_prefix(&rt, rt.alloc(), size, *outcome);
        }
    }
}
