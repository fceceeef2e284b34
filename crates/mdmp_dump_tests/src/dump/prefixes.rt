//! A dump that is cut at each of its bytes.
use super::built::fault_of;
use crate::files::{CRASH_FILE, NAMED, file_of};
use crate::same::assert_same_at;
use crate::viewed::view_fault_of;
use mdmp_dump::{PartName, ReadFault};
use mdmp_lister::{FaultKind, ListFault, OpenFault};
use mdmp_source::{MemoryStore, Source};
use std::alloc::Global;
use std::process::Abort;

/// The fewest and the most bytes of some prefixes, and what comes of each of these.
type PrefixSpan = (usize, usize, Option<ReadFault>);

/// What is cut of the thread and the exception.
static SPANS: [PrefixSpan; 8] = [
    // Too short for a header, by the size of each.
    (0, 31, None),
    (
        32,
        55,
        Some(ReadFault::Opening(OpenFault::DirectoryOutside {
            offset: 32,
            size: 24,
        })),
    ),
    (
        56,
        107,
        Some(ReadFault::List(ListFault {
            entry: 0,
            index: None,
            kind: FaultKind::StreamOutside,
            offset: 56,
            size: 52,
        })),
    ),
    (
        108,
        111,
        Some(ReadFault::PartOutside {
            entry: 0,
            index: 0,
            part: PartName::Stack,
            offset: 108,
            size: 4,
        }),
    ),
    (
        112,
        117,
        Some(ReadFault::PartOutside {
            entry: 0,
            index: 0,
            part: PartName::Context,
            offset: 112,
            size: 6,
        }),
    ),
    (
        118,
        287,
        Some(ReadFault::List(ListFault {
            entry: 1,
            index: None,
            kind: FaultKind::StreamOutside,
            offset: 120,
            size: 168,
        })),
    ),
    (
        288,
        291,
        Some(ReadFault::PartOutside {
            entry: 1,
            index: 0,
            part: PartName::Context,
            offset: 288,
            size: 4,
        }),
    ),
    (292, 292, None),
];

/// Asserts that the first bytes of a file, as many as the span tells, give neither a value with parts of at most 100
/// bytes nor a view, for this reason, or both where there is none.
fn assert_span(rt: &impl Abort, alloc: Global, file: &[u8], span: &PrefixSpan) {
    let (from, to, told) = *span;
    for size in from..to.saturating_add(1) {
        let first = file.get(..size).expect(rt, "a prefix");
        let value = fault_of(alloc, first, NAMED, 100);
        let view = view_fault_of(alloc, Source::new(MemoryStore::new(first)), NAMED);
        let fault = if size < 32 {
            Some(ReadFault::Opening(OpenFault::TooShort { size: size as u64 }))
        } else {
            told
        };
        assert_same_at(rt, &size, (value, view), (fault, fault));
    }
}

#[test]
fn each_prefix_of_a_dump_is_told_by_what_is_cut(rt: HostRuntime) {
    let file = file_of(&rt, rt.alloc(), &CRASH_FILE);
    for span in &SPANS {
        assert_span(&rt, rt.alloc(), &file, span);
    }
}
