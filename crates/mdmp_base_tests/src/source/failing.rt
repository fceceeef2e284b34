//! Stores and outputs each of whose calls fails in turn.
use super::{Fetched, four_at_one, part};
use crate::same::assert_same_at;
use mdmp_source::{PatchyOut, PatchyStore, Source, SourceFault, send, write_all};
use std::alloc::Global;
use std::process::Abort;

/// A fetch that gives all.
const WHOLE: Fetched = (None, *b"bcde");

/// The number of the call that fails of a store that gives one byte a call, and two fetches of the four bytes at 1.
static FETCHES: [(u64, &[Fetched]); 5] = [
    (0, &[(Some(SourceFault::Failed { at: 1 }), [0; 4]), WHOLE]),
    (
        1,
        &[(Some(SourceFault::Failed { at: 2 }), *b"b\0\0\0"), WHOLE],
    ),
    (
        2,
        &[(Some(SourceFault::Failed { at: 3 }), *b"bc\0\0"), WHOLE],
    ),
    (
        3,
        &[(Some(SourceFault::Failed { at: 4 }), *b"bcd\0"), WHOLE],
    ),
    (4, &[WHOLE, (Some(SourceFault::Failed { at: 1 }), [0; 4])]),
];

#[test]
fn each_call_of_a_fetch_may_fail(rt: HostRuntime) {
    for (call, expected) in &FETCHES {
        let mut source = Source::new(PatchyStore::new(b"abcdef", &[1], Some(*call)));
        for fetched in *expected {
            assert_same_at(&rt, call, four_at_one(&rt, &mut source), *fetched);
        }
        assert_same_at(&rt, call, (source.calls(), source.fetched()), (2, 8));
    }
}

/// What is written.
const TEXT: &[u8] = b"abcdefghi";

/// An output that takes one byte a call, and fails at this one.
fn failing_out(rt: &impl Abort, alloc: Global, fail_at: usize) -> PatchyOut<Global> {
    PatchyOut::with_room(alloc, 100, 1, Some(fail_at as u64)).expect(rt, "an output")
}

#[test]
fn each_call_of_an_output_may_fail(rt: HostRuntime) {
    for call in 0..10 {
        // The bytes before the call that fails are taken, and no others.
        let first = part(&rt, TEXT, 0, call);
        let mut out = failing_out(&rt, rt.alloc(), call);
        let sent = send(&mut out, TEXT);
        assert_same_at(&rt, &call, (sent, out.bytes()), (call, first));
        let mut out = failing_out(&rt, rt.alloc(), call);
        let is_ok = write_all(&mut out, TEXT).is_ok();
        assert_same_at(&rt, &call, (is_ok, out.bytes()), (call == 9, first));
    }
}
