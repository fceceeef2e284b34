//! Lines that an output has no room for.
use crate::commands::{CallWay, CommandRun, Task};
use crate::files::{File, bytes_of, first_of};
use crate::lists::{NAMED, NAMELESS};
use crate::runs::{assert_wrote, run_bytes, run_within, text_of};
use crate::same::assert_same_at;
use mdmp_engines::ToolFault;
use mdmp_test_support::{CRASH, Room};
use std::alloc::Global;
use std::process::Abort;

/// A name of 300 units: twelve times the letters from a to y.
const LONG_NAME: &[u8] = b"\x58\x02\0\0\
a\0b\0c\0d\0e\0f\0g\0h\0i\0j\0k\0l\0m\0n\0o\0p\0q\0r\0s\0t\0u\0v\0w\0x\0y\0\
a\0b\0c\0d\0e\0f\0g\0h\0i\0j\0k\0l\0m\0n\0o\0p\0q\0r\0s\0t\0u\0v\0w\0x\0y\0\
a\0b\0c\0d\0e\0f\0g\0h\0i\0j\0k\0l\0m\0n\0o\0p\0q\0r\0s\0t\0u\0v\0w\0x\0y\0\
a\0b\0c\0d\0e\0f\0g\0h\0i\0j\0k\0l\0m\0n\0o\0p\0q\0r\0s\0t\0u\0v\0w\0x\0y\0\
a\0b\0c\0d\0e\0f\0g\0h\0i\0j\0k\0l\0m\0n\0o\0p\0q\0r\0s\0t\0u\0v\0w\0x\0y\0\
a\0b\0c\0d\0e\0f\0g\0h\0i\0j\0k\0l\0m\0n\0o\0p\0q\0r\0s\0t\0u\0v\0w\0x\0y\0\
a\0b\0c\0d\0e\0f\0g\0h\0i\0j\0k\0l\0m\0n\0o\0p\0q\0r\0s\0t\0u\0v\0w\0x\0y\0\
a\0b\0c\0d\0e\0f\0g\0h\0i\0j\0k\0l\0m\0n\0o\0p\0q\0r\0s\0t\0u\0v\0w\0x\0y\0\
a\0b\0c\0d\0e\0f\0g\0h\0i\0j\0k\0l\0m\0n\0o\0p\0q\0r\0s\0t\0u\0v\0w\0x\0y\0\
a\0b\0c\0d\0e\0f\0g\0h\0i\0j\0k\0l\0m\0n\0o\0p\0q\0r\0s\0t\0u\0v\0w\0x\0y\0\
a\0b\0c\0d\0e\0f\0g\0h\0i\0j\0k\0l\0m\0n\0o\0p\0q\0r\0s\0t\0u\0v\0w\0x\0y\0\
a\0b\0c\0d\0e\0f\0g\0h\0i\0j\0k\0l\0m\0n\0o\0p\0q\0r\0s\0t\0u\0v\0w\0x\0y\0";

/// The line of the module with that name.
const LONG_LINE: &str = "unloaded 1 base 0x0000000000010000 size 4096 checksum 5 time 6 name \"\
abcdefghijklmnopqrstuvwxy\
abcdefghijklmnopqrstuvwxy\
abcdefghijklmnopqrstuvwxy\
abcdefghijklmnopqrstuvwxy\
abcdefghijklmnopqrstuvwxy\
abcdefghijklmnopqrstuvwxy\
abcdefghijklmnopqrstuvwxy\
abcdefghijklmnopqrstuvwxy\
abcdefghijklmnopqrstuvwxy\
abcdefghijklmnopqrstuvwxy\
abcdefghijklmnopqrstuvwxy\
abcdefghijklmnopqrstuvwxy\"\n";

/// A file, the longest name, the last line of its list, and how many bytes of that line outputs take.
type CutLine<'a> = (File<'a>, u32, &'a str, &'a [usize]);

static CUT: [CutLine<'static>; 6] = [
    (
        File::Numbers(2, &CRASH),
        8,
        "exception thread 7 code 0xc0000005 flags 0 record 0x0000000000000000 address 0x0000000000401000 parameters 2 0x0000000000000001 0x0000000000000010 context inside 4@288\n",
        &[70],
    ),
    (
        File::EndlessRanges,
        8,
        "range 2 start 0x0000000000003000 outside 1@36893488147419103338\n",
        &[70],
    ),
    (
        File::Numbers(1, &NAMELESS),
        8,
        "unloaded 1 base 0x0000000000010000 size 4096 checksum 5 time 6 name none\n",
        &[70],
    ),
    (
        File::NumbersThenBytes(1, &NAMED, b"\x0a\0\0\0a\0b\0c\0d\0e\0"),
        8,
        "unloaded 1 base 0x0000000000010000 size 4096 checksum 5 time 6 name long 10\n",
        &[70],
    ),
    (
        File::NumbersThenBytes(1, &NAMED, b"\x06\0\0\0a\0\\\0\x3d\xd8"),
        8,
        "unloaded 1 base 0x0000000000010000 size 4096 checksum 5 time 6 name \"a\\u005c\\ud83d\"\n",
        &[70],
    ),
    // In the words before the name, in its units, and before the end of the line.
    (
        File::NumbersThenBytes(1, &NAMED, LONG_NAME),
        600,
        LONG_LINE,
        &[0, 60, 75, 256, 257, 330, 370],
    ),
];

/// Asserts the last lines of lists, by one byte a call, and that an output that is full in one has the first bytes.
fn assert_cut(rt: &impl Abort, alloc: Global, rows: &[CutLine<'_>]) {
    for (file, name, line, cuts) in rows {
        let bytes = bytes_of(rt, alloc, file);
        let run = run_within(Task::List, CallWay::Store, (168, *name, None, None, None));
        let room = Room { all: 4000, call: 1 };
        let whole = run_bytes(rt, alloc, &bytes, &CommandRun { room, ..run });
        let before = text_of(rt, &whole.bytes)
            .strip_suffix(*line)
            .expect(rt, "the line");
        assert_same_at(
            rt,
            line,
            (whole.end.answer, before.ends_with("\n")),
            (Ok(0), true),
        );
        for cut in *cuts {
            let all = before.len().saturating_add(*cut);
            let room = Room { all, call: 1000 };
            let outcome = run_bytes(rt, alloc, &bytes, &CommandRun { room, ..run });
            let size = whole.bytes.len();
            let answer = if all < size {
                Err(ToolFault::Out)
            } else {
                Ok(0)
            };
            assert_wrote(
                rt,
                &(line, cut),
                &outcome,
                answer,
                first_of(rt, &whole.bytes, all.min(size)),
            );
        }
    }
}

#[test]
fn long_line_is_cut_where_the_output_is_full(rt: HostRuntime) {
    assert_cut(&rt, rt.alloc(), &CUT);
}
