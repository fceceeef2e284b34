//! Outputs that gather lines in a buffer, over an output that may refuse.

use crate::same::assert_same_at;
use mdmp_print::{LINE_ROOM, LineOut, Printer};
use mdmp_source::{Out, OutFailed, PatchyOut};
use std::alloc::Global;
use std::process::Abort;

/// How many bytes the buffer has, how many its inner output takes a call, which of its calls fails, what is printed and
/// flushed and with what answers, and what is pending and what the inner output has taken then.
type LinesRow = (
    usize,
    usize,
    Option<u64>,
    &'static [LinesStep],
    &'static [u8],
    &'static [u8],
);

/// A step with an output of lines, and what it returns.
#[derive(Clone, Copy)]
enum LinesStep {
    Print(&'static [u8; 3], Result<(), OutFailed>),
    Flush(Result<(), OutFailed>),
}

/// What a step returns.
fn step_of<O: Out>(lines: &mut LineOut<'_, O>, step: LinesStep) -> Result<(), OutFailed> {
    match step {
        LinesStep::Print(text, _) => lines.print(&text),
        LinesStep::Flush(_) => lines.flush(),
    }
}

const ABC: LinesStep = LinesStep::Print(b"abc", Ok(()));

const FLUSH: LinesStep = LinesStep::Flush(Ok(()));

static LINES: &[LinesRow] = &[
    // Lines stand one behind the other as long as there is room for the longest.
    (LINE_ROOM + 8, 100, None, &[ABC; 3], b"abcabcabc", b""),
    (LINE_ROOM + 8, 100, None, &[ABC; 4], b"abc", b"abcabcabc"),
    (LINE_ROOM + 8, 100, None, &[ABC, ABC, FLUSH], b"", b"abcabc"),
    // The inner output refuses what is pending, which stays pending. The next line is printed.
    (
        LINE_ROOM,
        3,
        Some(1),
        &[
            ABC,
            LinesStep::Print(b"def", Ok(())),
            LinesStep::Print(b"ghi", Err(OutFailed)),
        ],
        b"def",
        b"abc",
    ),
    (
        LINE_ROOM,
        2,
        Some(1),
        &[
            ABC,
            LinesStep::Flush(Err(OutFailed)),
            LinesStep::Print(b"def", Ok(())),
            LinesStep::Flush(Ok(())),
        ],
        b"",
        b"abcdef",
    ),
    (
        LINE_ROOM,
        2,
        Some(1),
        &[ABC, LinesStep::Flush(Err(OutFailed))],
        b"c",
        b"ab",
    ),
    // Nothing is pending, and nothing is written.
    (LINE_ROOM, 2, Some(0), &[FLUSH], b"", b""),
];

/// Asserts what the steps return, and what is pending and taken then.
fn assert_lines(rt: &impl Abort, alloc: Global, row: &LinesRow) {
    let (room, cap, fail_at, steps, pending, taken) = row;
    if *room < LINE_ROOM {
        rt.panic("a small buffer");
    }
    let inner = PatchyOut::with_room(alloc, 100, *cap, *fail_at).expect(rt, "an output");
    let mut buffer = vec![in alloc; 0; *room].expect(rt, "a buffer");
    let mut lines = LineOut::over(&mut buffer, inner);
    for step in *steps {
        let (LinesStep::Print(_, answer) | LinesStep::Flush(answer)) = *step;
        assert_same_at(rt, room, step_of(&mut lines, *step), answer);
    }
    assert_same_at(rt, room, lines.pending(), *pending);
    assert_same_at(rt, room, lines.into_inner().bytes(), *taken);
}

#[test]
fn lines_stay_pending_where_a_write_fails(rt: HostRuntime) {
    for row in LINES {
        assert_lines(&rt, rt.alloc(), row);
    }
}
