//! A view whose calls are watched: what went out before one that answers a fault, and how often a
//! writer begins its streams and asks for their sizes.
ghost use Rattle.std.specs.Prelude.{false, None};
ghost use Rattle.std.proofs.lemmas.Option.{none-some};

use super::{patchy_out, write_view};
use crate::dump::built::value_of;
use crate::files::{
    ALL, DumpReading, MEMORY64_READING, NAMED_ROW, SIX_FILE, SIX_READING, Sample, file_of,
};
use crate::same::assert_same_at;
use mdmp_dump::{DumpView, Fields, HeaderFields, Kind, ViewFault};
use mdmp_source::SourceFault;
use mdmp_test_support::{MODULE, OVERLAPPING, THRICE};
use mdmp_writer::WriteFault;
use std::alloc::Global;
use std::process::Abort;

/// The fault that is answered.
const FAULT: ViewFault = ViewFault::Source(SourceFault::Failed { at: 7 });

/// Another call, of which so many were made: whether it is the one that fails.
fn fails(made: &mut u64, fail_at: u64) -> bool {
    let call = *made;
    *made = call.saturating_add(1);
    call == fail_at
}

/// Once more with this stream, of the first six.
fn count(counts: &mut [u32; 6], stream: u64) {
    if stream < 6 {
        let count = &mut counts[stream as usize];
        *count = count.saturating_add(1);
    }
}

/// A view that gives what another one gives, but where a call fails; its content counts as unknown.
/// It counts how often each of its streams was begun, and asked for its sizes.
#[derive(Drop)]
struct WatchedView<V: DumpView> {
    inner: V,
    made: u64,
    fail_at: u64,
    last: Option<ViewFault>,
    begun: [u32; 6],
    bodies: [u32; 6],
    parts: [u32; 6],
}

impl<V: DumpView> DumpView for WatchedView<V> {
    type Memory = V::Memory;

    ghost shape = { λ v. record (V.shape v.inner) { is_reliable = false; seen = None } };

    ghost cursor = { λ v. record (V.cursor v.inner) { seen = None; parts = None } };

    ghost spent = { λ v. record (V.spent v.inner) { fault = v.last } };

    ghost Moves = { λ u v. V.Moves u.inner v.inner };

    ghost sound = { λ v x known. absurd (none-some x known) };

    ghost kinds = { λ v x k known. absurd (none-some x known) };

    ghost stray = { λ v. V.stray v.inner };

    ghost stays = { λ v. V.stays v.inner };

    ghost follows = { λ u v w. V.follows u.inner v.inner w.inner };

    fn streams(&mut self) -> u64 {
        self.inner.streams()
    }

    fn header(&mut self) -> HeaderFields {
        self.inner.header()
    }

    fn kind(&mut self, stream: u64) -> Kind {
        self.inner.kind(stream)
    }

    fn body_size(&mut self, stream: u64) -> u64 {
        count(&mut self.bodies, stream);
        self.inner.body_size(stream)
    }

    fn parts_size(&mut self, stream: u64) -> u64 {
        count(&mut self.parts, stream);
        self.inner.parts_size(stream)
    }

    fn rewind(&mut self, stream: u64) -> Result<(), ViewFault> {
        count(&mut self.begun, stream);
        let answer = if fails(&mut self.made, self.fail_at) {
            Err(FAULT)
        } else {
            self.inner.rewind(stream)
        };
        self.last = answer.err();
        answer
    }

    fn next_record(&mut self) -> Result<Fields, ViewFault> {
        let answer = if fails(&mut self.made, self.fail_at) {
            Err(FAULT)
        } else {
            self.inner.next_record()
        };
        self.last = answer.err();
        answer
    }

    fn part(&mut self, which: usize, at: u64, out: &mut [u8]) -> Result<(), ViewFault> {
        let answer = if fails(&mut self.made, self.fail_at) {
            Err(FAULT)
        } else {
            self.inner.part(which, at, out)
        };
        self.last = answer.err();
        answer
    }

    fn passed(&mut self) -> u128 {
        self.inner.passed()
    }

    fn asked(&mut self) -> u128 {
        self.inner.asked()
    }
}

/// What is answered where a view is written through a buffer of so many bytes, a call of which fails, what goes out, and
/// the view behind it.
fn written_with<V: DumpView>(
    rt: &impl Abort,
    alloc: Global,
    inner: V,
    fail_at: u64,
    room: usize,
) -> (Result<u64, WriteFault>, Vec<u8, Global>, WatchedView<V>) {
    let mut view = WatchedView {
        inner,
        made: 0,
        fail_at,
        last: None,
        begun: [0; 6],
        bodies: [0; 6],
        parts: [0; 6],
    };
    let mut out = patchy_out(rt, alloc, 4096, 4096, None);
    let answer = write_view(&mut view, &mut out, room);
    let bytes = out.bytes().to_vec(alloc).expect(rt, "memory for bytes");
    (answer, bytes, view)
}

/// Writes the dump of a file with each call of its view failing in turn, and asserts that what went out is a
/// first part of the file, and all of it where no call failed.
fn assert_first_parts(rt: &impl Abort, alloc: Global, reading: &DumpReading, room: usize) {
    let file = file_of(rt, alloc, &reading.sample);
    let dump = value_of(rt, alloc, reading);
    for fail_at in 0..1000 {
        let (answer, bytes, _) = written_with(rt, alloc, dump.view(), fail_at, room);
        let is_whole = answer.is_ok();
        let expected = if is_whole {
            Ok(file.len() as u64)
        } else {
            Err(WriteFault::View(FAULT))
        };
        let first = if is_whole {
            Some(file.as_slice())
        } else {
            file.get(..bytes.len())
        };
        let found = (answer, Some(bytes.as_slice()));
        assert_same_at(rt, &(reading.name, fail_at), found, (expected, first));
        if is_whole {
            return;
        }
    }
    rt.panic("a call without a fault")
}

/// Dumps of files, and buffers through which they are written.
static WRITTEN: [(DumpReading, usize); 4] = [
    (SIX_READING, 1),
    (SIX_READING, 64),
    (MEMORY64_READING, 1),
    (MEMORY64_READING, 64),
];

#[test]
fn fault_of_a_view_leaves_a_first_part(rt: HostRuntime) {
    for (reading, room) in &WRITTEN {
        assert_first_parts(&rt, rt.alloc(), reading, *room);
    }
}

/// How the files are read.
const WATCHED_READING: DumpReading = DumpReading {
    name: "",
    sample: SIX_FILE,
    types: ALL,
    limits: NAMED_ROW,
    parts: 18,
};

/// A file, how often each of the first six streams of its dump is begun as it is written, and how often it is asked for
/// the size of its body, and for that of its parts: for the layout, the directory and their blocks, and for the bytes of
/// 64-bit memory behind all streams too.
struct WatchedRow {
    reading: DumpReading,
    begun: [u32; 6],
    asked: [u32; 6],
}

static WATCHED: [WatchedRow; 10] = [
    WatchedRow {
        reading: DumpReading {
            name: "six streams, two of which are empty lists",
            sample: SIX_FILE,
            ..WATCHED_READING
        },
        begun: [2, 2, 1, 2, 1, 1],
        asked: [3, 3, 3, 3, 3, 3],
    },
    WatchedRow {
        reading: DumpReading {
            name: "threads without parts",
            sample: Sample::Numbers(3, &THRICE),
            ..WATCHED_READING
        },
        begun: [1, 1, 1, 0, 0, 0],
        asked: [3, 3, 3, 0, 0, 0],
    },
    WatchedRow {
        reading: DumpReading {
            name: "a module with its name and parts",
            sample: Sample::Numbers(1, &MODULE),
            ..WATCHED_READING
        },
        begun: [2, 0, 0, 0, 0, 0],
        asked: [3, 0, 0, 0, 0, 0],
    },
    WatchedRow {
        reading: DumpReading {
            name: "ranges of memory",
            sample: Sample::Numbers(1, &OVERLAPPING),
            ..WATCHED_READING
        },
        begun: [2, 0, 0, 0, 0, 0],
        asked: [3, 0, 0, 0, 0, 0],
    },
    WatchedRow {
        reading: DumpReading {
            name: "memory without bytes",
            sample: Sample::Numbers(1, &[5, 36, 44, 2, 0x1000, 0, 4, 0, 0x2000, 0, 0, 0]),
            ..WATCHED_READING
        },
        begun: [1, 0, 0, 0, 0, 0],
        asked: [3, 0, 0, 0, 0, 0],
    },
    WatchedRow {
        reading: DumpReading {
            name: "an unloaded module and its name",
            sample: Sample::Numbers(1, &[14, 36, 44, 12, 24, 1, 0, 0, 0, 0, 0, 80, 0, 0]),
            ..WATCHED_READING
        },
        begun: [2, 0, 0, 0, 0, 0],
        asked: [3, 0, 0, 0, 0, 0],
    },
    WatchedRow {
        reading: DumpReading {
            name: "a name of a thread",
            sample: Sample::Numbers(1, &[24, 16, 44, 1, 7, 60, 0, 0]),
            ..WATCHED_READING
        },
        begun: [2, 0, 0, 0, 0, 0],
        asked: [3, 0, 0, 0, 0, 0],
    },
    WatchedRow {
        reading: DumpReading {
            name: "a region of memory",
            sample: Sample::Numbers(
                1,
                &[16, 64, 44, 16, 48, 1, 0, 0, 0, 0, 0, 0, 0, 0, 0, 0, 0, 0, 0],
            ),
            ..WATCHED_READING
        },
        begun: [1, 0, 0, 0, 0, 0],
        asked: [3, 0, 0, 0, 0, 0],
    },
    WatchedRow {
        reading: DumpReading {
            name: "a range of 64-bit memory, a byte, and no range",
            sample: Sample::Numbers(
                3,
                &[
                    9, 32, 68, 10, 1, 100, 9, 16, 104, // the directory
                    1, 0, 120, 0, 0x3000, 0, 2, 0, // one range
                    1, // the byte
                    0, 0, 124, 0, // no range
                    0x4847,
                ],
            ),
            ..WATCHED_READING
        },
        begun: [2, 1, 2, 0, 0, 0],
        asked: [4, 3, 4, 0, 0, 0],
    },
    WatchedRow {
        reading: DumpReading {
            name: "raw bytes, none and some",
            sample: Sample::Numbers(
                4,
                &[10, 5, 80, 0, 0, 0, 11, 0, 0, 12, 1, 88, 0x04030201, 5, 6],
            ),
            ..WATCHED_READING
        },
        begun: [1, 0, 1, 1, 0, 0],
        asked: [3, 3, 3, 3, 0, 0],
    },
];

/// Writes the dump of a file, and asserts how often each of its streams is begun, and its bodies and parts are asked for.
fn assert_watched(rt: &impl Abort, alloc: Global, row: &WatchedRow) {
    let dump = value_of(rt, alloc, &row.reading);
    let (answer, _, mut view) = written_with(rt, alloc, dump.view(), u64::MAX, 64);
    // Nothing is spent of a value.
    let spent = (answer.is_ok(), view.passed(), view.asked());
    let found = (spent, view.begun, view.bodies, view.parts);
    let expected = ((true, 0, 0), row.begun, row.asked, row.asked);
    assert_same_at(rt, &row.reading.name, found, expected);
}

#[test]
fn streams_are_begun_twice_at_most_and_asked_once_a_pass(rt: HostRuntime) {
    for row in &WATCHED {
        assert_watched(&rt, rt.alloc(), row);
    }
}
