//! What is told of a word that is not what is expected at its place.
use crate::commands::CommandCall;
use crate::endings::assert_each_ends;
use crate::requests::words_of;
use std::alloc::{AllocGlobal, Global};
use std::process::Abort;
use std::rt::Files;

/// Words with a bad one among them, and the line that is told of them.
const BAD: &str =
    "list|a|--window|64K => mdmp: bad command line: --window '64K': expected a decimal number, 168 to 1073741824
check|a|--window|167 => mdmp: bad command line: --window '167': expected a decimal number, 168 to 1073741824
summary|a|b|--window=1073741825 => mdmp: bad command line: --window '1073741825': expected a decimal number, 168 to 1073741824
list|a|--name|1073741825 => mdmp: bad command line: --name '1073741825': expected a decimal number, 0 to 1073741824
list|a|--name|- => mdmp: bad command line: --name '-': expected a decimal number, 0 to 1073741824
list|a|--budget| => mdmp: bad command line: --budget '': expected a decimal number, 0 to 18446744073709551615
list|a|--memory|18446744073709551616 => mdmp: bad command line: --memory '18446744073709551616': expected a decimal number, 0 to 18446744073709551615
list|a|--aside|+1 => mdmp: bad command line: --aside '+1': expected a decimal number, 0 to 18446744073709551615
hex|a|7ffe0000|1 => mdmp: bad command line: ADDRESS '7ffe0000': expected '0x' and 1 to 16 hexadecimal digits, a decimal number, or 00000000`7ffe0000
hex|a|0`7ffe000|1 => mdmp: bad command line: ADDRESS '0`7ffe000': expected '0x' and 1 to 16 hexadecimal digits, a decimal number, or 00000000`7ffe0000
hex|a|0|1048577 => mdmp: bad command line: LENGTH '1048577': expected a decimal number, 0 to 1048576
hex|a|0|0x10 => mdmp: bad command line: LENGTH '0x10': expected a decimal number, 0 to 1048576
copy|a|b|3|Threads => mdmp: bad command line: TYPE 'Threads': expected the number or the name of a stream type; did you mean threads?
copy|a|b|thread => mdmp: bad command line: TYPE 'thread': expected the number or the name of a stream type; did you mean threads?
copy|a|b|SYSTEMS => mdmp: bad command line: TYPE 'SYSTEMS': expected the number or the name of a stream type; did you mean system?
copy|a|b|modulelistStream => mdmp: bad command line: TYPE 'modulelistStream': expected the number or the name of a stream type; did you mean ModuleListStream?
copy|a|b|memory6 => mdmp: bad command line: TYPE 'memory6': expected the number or the name of a stream type
copy|a|b| => mdmp: bad command line: TYPE '': expected the number or the name of a stream type
copy|a|b|s => mdmp: bad command line: TYPE 's': expected the number or the name of a stream type
copy|a|b|threadss => mdmp: bad command line: TYPE 'threadss': expected the number or the name of a stream type
copy|a|b|4294967296 => mdmp: bad command line: TYPE '4294967296': expected the number or the name of a stream type
hex|a|x|y|--budget=u|--name=z => mdmp: bad command line: --name 'z': expected a decimal number, 0 to 1073741824
hex|a|x|y => mdmp: bad command line: ADDRESS 'x': expected '0x' and 1 to 16 hexadecimal digits, a decimal number, or 00000000`7ffe0000
copy|a|b|3|x|y => mdmp: bad command line: TYPE 'x': expected the number or the name of a stream type
hex|a|0xffffffffffffffff|2 => mdmp: bad command line
copy|a|b|1|2|3|4|5|6|7|8|9|10|11|12|13|14|15|16|17 => mdmp: bad command line";

/// Asserts that the words of a line are refused by what it tells, and open nothing.
fn assert_told<R: Files + Input + AllocGlobal + Abort>(rt: &R, alloc: Global, line: &str) {
    let (words, told) = line.split_once(" => ").expect(rt, "an arrow");
    let words = words_of(rt, alloc, words);
    let told = format!(in alloc; "{told}\n").expect(rt, "memory for a text");
    let wanted = (2, "", told.as_str());
    let ending = (CommandCall::Line(&words), wanted, None, (0, 0, 0));
    assert_each_ends(rt, alloc, &[ending]);
}

#[test]
fn bad_word_is_told_with_what_was_expected(rt: HostRuntime) {
    for line in BAD.lines() {
        assert_told(&rt, rt.alloc(), line);
    }
}
