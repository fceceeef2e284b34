//! Names, and the digits of printed numbers.
use crate::same::assert_same_at;
use crate::source::part;
use mdmp_source::{OutFailed, PatchyOut};
use mdmp_wire::{Units, UnitsRef, hex_digits, text_survives_utf16};
use std::alloc::Global;
use std::process::Abort;

/// The units that stand in these bytes.
pub fn over<'a>(rt: &impl Abort, bytes: &'a [u8]) -> UnitsRef<'a> {
    assert!(rt; bytes.len() % 2 == 0);
    UnitsRef::over(bytes)
}

/// The units of a text, which has no unit that is lost.
fn units_of(rt: &impl Abort, alloc: Global, text: &str) -> Units<Global> {
    text_survives_utf16(text);
    Units::from_str(alloc, text).expect(rt, "units")
}

#[test]
fn hexadecimal_digits_are_the_last_ones(rt: HostRuntime) {
    let mut digits = [0; 4];
    hex_digits(0x1_fa09, &mut digits);
    assert_same_at(&rt, &0x1_fa09, digits, *b"fa09");
}

/// Units, how many bytes an output takes in all and a call, which call fails, what it answers, and the text that it has then.
type EscapeRow = (
    &'static [u8],
    usize,
    usize,
    Option<u64>,
    Result<(), OutFailed>,
    &'static [u8],
);

/// A unit, and a pair of surrogates.
const PAIR: &[u8] = b"\x61\x00\x3d\xd8\x00\xde";

static ESCAPES: &[EscapeRow] = &[
    (
        b"\x22\x00\x5c\x00\x7f\x00",
        100,
        5,
        None,
        Ok(()),
        b"\"\\u005c\\u007f",
    ),
    (PAIR, 100, 5, None, Ok(()), b"a\\ud83d\\ude00"),
    (
        b"\x1f\x00\x20\x00\x7e\x00\x41\x01",
        100,
        5,
        None,
        Ok(()),
        b"\\u001f ~\\u0141",
    ),
    // An escape that is refused leaves its first part.
    (PAIR, 4, 3, None, Err(OutFailed), b"a\\ud"),
    // Each call fails in turn.
    (PAIR, 100, 1, Some(0), Err(OutFailed), b""),
    (PAIR, 100, 1, Some(1), Err(OutFailed), b"a"),
    (PAIR, 100, 1, Some(2), Err(OutFailed), b"a\\"),
    (PAIR, 100, 1, Some(3), Err(OutFailed), b"a\\u"),
    (PAIR, 100, 1, Some(4), Err(OutFailed), b"a\\ud"),
    (PAIR, 100, 1, Some(5), Err(OutFailed), b"a\\ud8"),
    (PAIR, 100, 1, Some(6), Err(OutFailed), b"a\\ud83"),
    (PAIR, 100, 1, Some(7), Err(OutFailed), b"a\\ud83d"),
    (PAIR, 100, 1, Some(8), Err(OutFailed), b"a\\ud83d\\"),
    (PAIR, 100, 1, Some(9), Err(OutFailed), b"a\\ud83d\\u"),
    (PAIR, 100, 1, Some(10), Err(OutFailed), b"a\\ud83d\\ud"),
    (PAIR, 100, 1, Some(11), Err(OutFailed), b"a\\ud83d\\ude"),
    (PAIR, 100, 1, Some(12), Err(OutFailed), b"a\\ud83d\\ude0"),
    (PAIR, 100, 1, Some(13), Ok(()), b"a\\ud83d\\ude00"),
];

#[test]
fn each_call_of_an_escape_may_fail(rt: HostRuntime) {
    for (bytes, room, cap, fail_at, answer, text) in ESCAPES {
        let mut out = PatchyOut::with_room(rt.alloc(), *room, *cap, *fail_at).expect(
            &rt,
            "an output",
        );
        let found = (over(&rt, *bytes).escape_into(&mut out), out.bytes());
        assert_same_at(&rt, &(bytes, fail_at), found, (*answer, *text));
    }
}

/// The units of a path.
const PATH: &[u8] = b"C\0:\0\x5c\0W\0i\0n\0d\0o\0w\0s\0\x5c\0s\0y\0s\0t\0e\0m\03\02\0\x5c\0";

/// Units, among them surrogates.
const SURROGATES: &[u8] = b"a\0b\0c\0d\0e\0f\0g\0\x3d\xd8\x00\xdeh\0";

/// Units at the edges of what is printed as it is.
const EDGES: &[u8] = b"\x1f\0\x20\0\x7e\0\x7f\0\x80\0\xff\0\x00\0\x22\0";

/// Units whose lower bytes are those of characters that are printed as they are, and of a backslash.
const UPPER: &[u8] = b"A\x01A\0A\x80A\x7f\x5c\x01A\x20B\0C\0";

/// Units, two indexes, and what stands in a buffer once the units between them are put behind `at `.
type PutRow = (&'static [u8], usize, usize, &'static [u8]);

static PUTS: &[PutRow] = &[
    (PATH, 0, 20, b"at C:\\u005cWindows\\u005csystem32\\u005c"),
    (PATH, 3, 10, b"at Windows"),
    (PATH, 11, 19, b"at system32"),
    (PATH, 2, 12, b"at \\u005cWindows\\u005cs"),
    (PATH, 20, 20, b"at "),
    (SURROGATES, 0, 10, b"at abcdefg\\ud83d\\ude00h"),
    (SURROGATES, 8, 10, b"at \\ude00h"),
    (EDGES, 0, 8, b"at \\u001f ~\\u007f\\u0080\\u00ff\\u0000\""),
    (UPPER, 0, 8, b"at \\u0141A\\u8041\\u7f41\\u015c\\u2041BC"),
];

#[test]
fn units_are_escaped_behind_a_text(rt: HostRuntime) {
    for (bytes, start, end, expected) in PUTS {
        let units = over(&rt, *bytes);
        assert!(rt; *start <= *end && *end <= units.len() && *end <= 30);
        let mut text = [0; 200];
        text[..3].copy_from_slice(b"at ");
        let len = units.escape_at(&mut text, 3, *start, *end);
        assert_same_at(
            &rt,
            &(bytes, start, end),
            part(&rt, &text, 0, len),
            *expected,
        );
    }
}

/// Asserts that the units are these, one by one, and that this is their text.
fn assert_units(
    rt: &impl Abort,
    alloc: Global,
    units: &UnitsRef<'_>,
    expected: &[u16],
    text: &str,
) {
    assert_same_at(
        rt,
        &text,
        (units.is_empty(), units.len()),
        (expected.is_empty(), expected.len()),
    );
    for (index, unit) in expected.iter().enumerate() {
        assert!(rt; index < units.len());
        assert_same_at(rt, &(text, index), units.get(index), *unit);
    }
    let found = units.to_utf8(alloc).expect(rt, "a text");
    assert_same_at(rt, &text, found.as_str(), text);
}

/// Bytes, the units that stand in them, and their text.
static UNITS: [(&[u8], &[u16], &str); 4] = [
    (PAIR, &[0x0061, 0xd83d, 0xde00], "a\u{1F600}"),
    // A lone surrogate becomes the replacement character.
    (&[0x3d, 0xd8], &[0xd83d], "\u{FFFD}"),
    (b"\x34\x12\x00\xdc", &[0x1234, 0xdc00], "\u{1234}\u{FFFD}"),
    (b"", &[], ""),
];

#[test]
fn units_of_bytes_and_of_a_text_succeed(rt: HostRuntime) {
    for (bytes, expected, text) in &UNITS {
        let units = over(&rt, *bytes);
        assert_units(&rt, rt.alloc(), &units, *expected, *text);
        // They are copied from memory of their own to such memory.
        assert!(rt; bytes.len() % 2 == 0);
        let own = Units::from_le(rt.alloc(), *bytes).expect(&rt, "units");
        let again = own.view().to_owned(rt.alloc()).expect(&rt, "units");
        assert_units(&rt, rt.alloc(), &again.view(), *expected, *text);
    }
    let (_, expected, text) = UNITS[0];
    let units = units_of(&rt, rt.alloc(), text);
    assert_units(&rt, rt.alloc(), &units.view(), expected, text);
}

#[test]
fn units_are_compared_and_printed(rt: HostRuntime) {
    let units = over(&rt, b"a\0\x5c\0");
    assert_same_at(&rt, &"the same", units, over(&rt, b"a\0\x5c\0"));
    for other in &[b"a\0\x5c\x01".as_slice(), b"a\0".as_slice()] {
        assert_same_at(&rt, other, units != over(&rt, *other), true);
    }
    let alloc = rt.alloc();
    let own = units.to_owned(alloc).expect(&rt, "units");
    assert_same_at(&rt, &"b", own != units_of(&rt, alloc, "b\\"), true);
    assert_same_at(&rt, &"a", own, units_of(&rt, alloc, "a\\"));
    let text = format!(in alloc; "{units:?}").expect(&rt, "a text");
    assert_same_at(&rt, &"printed", text.as_str(), "\"a\\u005c\"");
}
