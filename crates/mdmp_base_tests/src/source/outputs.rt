//! Outputs that take what they are given, and such as refuse.
use super::{OutStep, assert_out};
use crate::same::assert_same_at;
use mdmp_source::{OutFailed, PatchyOut, WriteOut};
use std::io::Write;
use std::{fs, io};

/// How many bytes an output in memory takes in all and a call, which call fails, its calls, and what it has taken then.
type TakenRow = (usize, usize, Option<u64>, &'static [OutStep], &'static [u8]);

static TAKEN: &[TakenRow] = &[
    // Writes of which one fails, and the last two come to the end of the room.
    (
        4,
        3,
        Some(1),
        &[
            OutStep::Write(b"abcdef", Ok(3)),
            OutStep::Write(b"def", Err(OutFailed)),
            OutStep::Write(b"def", Ok(1)),
            OutStep::Write(b"ef", Ok(0)),
        ],
        b"abcd",
    ),
    // A write of all bytes that stops at a refusal, and writes behind it, up to the end of the room.
    (
        10,
        2,
        Some(2),
        &[OutStep::WriteAll(b"abcdef", Err(OutFailed))],
        b"abcd",
    ),
    (
        10,
        2,
        Some(2),
        &[
            OutStep::WriteAll(b"abcdef", Err(OutFailed)),
            OutStep::Send(b"efghijkl", 6),
        ],
        b"abcdefghij",
    ),
];

#[test]
fn output_that_fails_once_takes_what_it_can(rt: HostRuntime) {
    for (room, cap, fail_at, steps, taken) in TAKEN {
        let mut out = PatchyOut::with_room(rt.alloc(), *room, *cap, *fail_at).expect(
            &rt,
            "an output",
        );
        assert_out(&rt, &mut out, *steps);
        assert_same_at(&rt, &(room, fail_at), out.bytes(), *taken);
    }
}

/// Writes that all succeed.
static SUCCEEDS: [OutStep; 3] = [
    OutStep::Write(b"xy", Ok(2)),
    OutStep::WriteAll(b"z", Ok(())),
    OutStep::Send(b"abc", 3),
];

/// Writes that are all refused.
const REFUSED: [OutStep; 3] = [
    OutStep::Write(b"xy", Err(OutFailed)),
    OutStep::Write(b"xy", Err(OutFailed)),
    OutStep::Send(b"xy", 0),
];

/// A writer that takes at most `cap` bytes a call, or fails if there is no cap, and counts what it was handed.
#[derive(Drop)]
struct CountingWriter {
    cap: Option<usize>,
    /// Its calls, and the bytes that it was handed by all of them together.
    handed: (u32, usize),
}

impl Write for CountingWriter {
    fn write(&mut self, buf: &[u8]) -> io::Result<usize> {
        self.handed.0 = self.handed.0.saturating_add(1);
        self.handed.1 = self.handed.1.saturating_add(buf.len());
        match self.cap {
            Some(cap) => Ok(buf.len().min(cap)),
            None => Err(io::Error::from(io::ErrorKind::Other)),
        }
    }

    fn flush(&mut self) -> io::Result<()> {
        Ok(())
    }
}

/// How many bytes a writer takes a call, the calls of an output over it, and what calls and bytes it is handed.
static HANDED: [(Option<usize>, &[OutStep], (u32, usize)); 2] = [
    // A writer that fails is asked once a call.
    (None, &REFUSED, (3, 6)),
    // Each call hands over all that is left: ten bytes, then six, then two.
    (Some(4), &[OutStep::Send(b"abcdefghij", 10)], (3, 18)),
];

#[test]
fn write_out_answers_as_its_writer_does(rt: HostRuntime) {
    let mut out = WriteOut::new(Vec::new(rt.alloc()));
    assert_out(&rt, &mut out, &SUCCEEDS);
    assert_same_at(
        &rt,
        &"a list",
        out.into_inner().as_slice(),
        b"xyzabc".as_slice(),
    );
    // The system opens a folder for reading, and refuses each write to it.
    let mut out = WriteOut::new(fs::open(&rt, ".").expect(&rt, "a folder"));
    assert_out(&rt, &mut out, &REFUSED);
    for (cap, steps, handed) in &HANDED {
        let mut out = WriteOut::new(CountingWriter {
            cap: *cap,
            handed: (0, 0),
        });
        assert_out(&rt, &mut out, *steps);
        assert_same_at(&rt, cap, out.into_inner().handed, *handed);
    }
}
