//! A lister and a walker over a store that changes while it is read.
use crate::given::{range, stream};
use crate::opening::{fault, open_and_close};
use crate::script::{Call, LEAST, ScriptReader};
use crate::{playing, walking};
use mdmp_lister::{Choice, FaultKind};
use mdmp_source::{Extent, Source, SourceFault, TwoFaces};
use mdmp_test_support::{ABCD_RANGE, WXYZ_RANGE, memory_file};
use std::alloc::Global;
use std::process::Abort;

/// A memory list that counts so many ranges, and has two, which overlap: `ABCD` at 0x1000, and `wxyz` at 0x1002.
pub fn counting(rt: &impl Abort, alloc: Global, ranges: u32) -> Vec<u8> {
    memory_file(alloc, ranges, ABCD_RANGE, WXYZ_RANGE).expect(rt, "memory for a file")
}

/// A store that has the bytes of the first file, and those of the second from this call on.
pub fn faces<'a>(rt: &impl Abort, first: &'a [u8], second: &'a [u8], turn: u64) -> TwoFaces<'a> {
    assert!(rt; first.len() == second.len());
    TwoFaces::new(first, second, turn)
}

/// How many calls of its store opening this file takes.
fn reads_of_open(rt: &impl Abort, alloc: Global, file: &[u8]) -> u64 {
    let source = Source::new(faces(rt, file, file, u64::MAX));
    let (_, source) = open_and_close(alloc, source, LEAST, Choice::All);
    source.into_store().reads()
}

/// A list that counts so many ranges when it is opened, and so many behind that, and what is answered.
struct CountChange {
    shows: &'static str,
    reader: ScriptReader,
    first: u32,
    second: u32,
    calls: &'static [Call],
}

static CHANGES: [CountChange; 3] = [
    CountChange {
        shows: "a list that counts more ranges than before has changed",
        reader: ScriptReader::Lister,
        first: 1,
        second: 2,
        calls: &[
            Call::HasRoom(0, 1),
            Call::Gives(stream!(0, 5, 36, 44)),
            Call::Fails(fault!(
                None,
                FaultKind::Source(SourceFault::Changed { at: 44 }),
                44,
                0
            )),
            Call::Fails(fault!(
                None,
                FaultKind::Source(SourceFault::Changed { at: 44 }),
                44,
                0
            )),
        ],
    },
    CountChange {
        shows: "a list that counts fewer ranges than before is listed",
        reader: ScriptReader::Lister,
        first: 2,
        second: 1,
        calls: &[
            Call::HasRoom(0, 2),
            Call::Gives(stream!(0, 5, 36, 44)),
            Call::Gives(range!(0, 0x1000, 4, Extent::Inside, 80)),
            Call::Ends,
        ],
    },
    CountChange {
        shows: "a walker has no room to keep, and tells no change",
        reader: ScriptReader::Walker,
        first: 1,
        second: 2,
        calls: &[
            Call::Gives(stream!(0, 5, 36, 44)),
            Call::Counts(2),
            Call::Gives(range!(0, 0x1000, 4, Extent::Inside, 80)),
            Call::Gives(range!(1, 0x1002, 4, Extent::Inside, 84)),
            Call::Ends,
        ],
    },
];

/// Asserts what is answered over a store that changes behind the opening, by which a walker reads the header and
/// the directory.
fn assert_change(rt: &impl Abort, alloc: Global, row: &CountChange) {
    let first = counting(rt, alloc, row.first);
    let second = counting(rt, alloc, row.second);
    match row.reader {
        ScriptReader::Lister => {
            let store = faces(rt, &first, &second, reads_of_open(rt, alloc, &first));
            let _ = playing::play(rt, alloc, row.shows, store, LEAST, Choice::All, row.calls);
        }
        ScriptReader::Walker => {
            let store = faces(rt, &first, &second, 2);
            let _ = walking::play(rt, alloc, row.shows, store, LEAST, Choice::All, row.calls);
        }
    }
}

#[test]
fn lister_tells_a_list_that_counts_more_than_before_and_a_walker_does_not(rt: HostRuntime) {
    for row in &CHANGES {
        assert_change(&rt, rt.alloc(), row);
    }
}
