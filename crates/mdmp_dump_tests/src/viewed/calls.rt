//! The calls of a view over a store that gives one byte a call, each of whose calls fails in turn.
use super::asked_thrice;
use crate::dump::view::{NEXT_RECORD, PART, REWIND, ViewCall, Wanted};
use crate::files::{CRASH_FILE, NAMED, SIX_FILE, Sample, file_of};
use crate::same::assert_same_at;
use mdmp_dump::ViewFault;
use mdmp_source::{PatchyStore, SourceFault};
use std::alloc::Global;
use std::process::Abort;

/// Calls of a store, one behind the other: how many they are, where the byte of the first one stands, and
/// the call of the view that makes them.
type PassCalls = (u64, u64, ViewCall);

/// Bytes of a file that a view is asked for.
struct Asking {
    name: &'static str,
    sample: Sample<'static>,
    /// How many calls open the view.
    opening: u64,
    wanted: Wanted,
    bytes: [u8; 4],
    /// All calls that are made for them.
    calls: &'static [PassCalls],
}

/// An unloaded module whose record stands behind a head of 200 bytes, and its name `ab`.
const FAR_RECORD: [u32; 61] = [
    14, 224, 44, 200, 24, 1, // the directory, and the head
    0, 0, 0, 0, 0, 0, 0, 0, 0, 0, 0, 0, 0, 0, 0, 0, 0, 0, 0, 0, 0, 0, 0, 0, //
    0, 0, 0, 0, 0, 0, 0, 0, 0, 0, 0, 0, 0, 0, 0, 0, 0, 0, 0, 0, 0, 0, 0, // up to the record
    0, 0, 0, 0, 0, 268, // the record
    4, 0x00620061,
];

static ASKINGS: [Asking; 5] = [
    Asking {
        name: "a stack",
        sample: CRASH_FILE,
        opening: 276,
        wanted: Wanted {
            stream: 0,
            which: 0,
            at: 0,
        },
        bytes: *b"STAK",
        calls: &[(52, 56, REWIND), (4, 108, PART)],
    },
    Asking {
        name: "the end of a context",
        sample: CRASH_FILE,
        opening: 276,
        wanted: Wanted {
            stream: 0,
            which: 1,
            at: 2,
        },
        bytes: [3, 4, 5, 6],
        calls: &[(52, 56, REWIND), (4, 114, PART)],
    },
    // Where a stream is one record, nothing has to be known to begin it.
    Asking {
        name: "the context of an exception",
        sample: CRASH_FILE,
        opening: 276,
        wanted: Wanted {
            stream: 1,
            which: 0,
            at: 0,
        },
        bytes: [0xaa, 0xbb, 0xcc, 0xdd],
        calls: &[(168, 120, NEXT_RECORD), (4, 288, PART)],
    },
    Asking {
        name: "the bytes of a stream",
        sample: SIX_FILE,
        opening: 392,
        wanted: Wanted {
            stream: 5,
            which: 0,
            at: 0,
        },
        bytes: [1, 2, 3, 4],
        calls: &[(4, 440, PART)],
    },
    // What is in the window with the head, then the record, and the length of its name behind it.
    Asking {
        name: "a record behind the window",
        sample: Sample::Numbers(1, &FAR_RECORD),
        opening: 44 + 168 + 28,
        wanted: Wanted {
            stream: 0,
            which: 0,
            at: 0,
        },
        bytes: *b"a\0b\0",
        calls: &[
            (168, 44, REWIND),
            (24 + 4, 244, NEXT_RECORD),
            (4, 272, PART),
        ],
    },
];

/// Asserts that the failure of each of these calls is told, which are numbered from `first` on. A stream that could not be
/// read is never begun again, and a part is given when it is asked for again.
fn assert_told(
    rt: &impl Abort,
    alloc: Global,
    file: &[u8],
    first: u64,
    calls: &PassCalls,
    asking: &Asking,
) {
    let (count, place, view_call) = *calls;
    for call in 0..count {
        let fail_at = first.saturating_add(call);
        let store = PatchyStore::new(file, &[1], Some(fail_at));
        let asked = asked_thrice(rt, alloc, store, NAMED, &asking.wanted);
        let at = place.saturating_add(call);
        let fault = ViewFault::Source(SourceFault::Failed { at });
        let again = if view_call == PART {
            Ok(asking.bytes)
        } else {
            Err((REWIND, fault))
        };
        let expected = [Err((view_call, fault)), again, again];
        assert_same_at(rt, &(asking.name, fail_at), asked, expected);
    }
}

/// Asserts it of all these calls, and that the bytes are given where the call behind them fails.
fn assert_all_told(rt: &impl Abort, alloc: Global, asking: &Asking) {
    let file = file_of(rt, alloc, &asking.sample);
    let mut first = asking.opening;
    for some in asking.calls {
        assert_told(rt, alloc, &file, first, some, asking);
        let (count, _, _) = *some;
        first = first.saturating_add(count);
    }
    let store = PatchyStore::new(&file, &[1], Some(first));
    let [asked, _, _] = asked_thrice(rt, alloc, store, NAMED, &asking.wanted);
    assert_same_at(rt, &asking.name, asked, Ok(asking.bytes));
}

#[test]
fn each_call_for_bytes_may_fail(rt: HostRuntime) {
    for asking in &ASKINGS {
        assert_all_told(&rt, rt.alloc(), asking);
    }
}
