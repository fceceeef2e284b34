//! What the words of a command line ask for.
use crate::bad_requests::{BAD, HELP, REFUSED};
use crate::limit_requests::{LIMITED, NAMED, OPTIONS, UNTRUSTED};
use crate::same::assert_same_at;
use crate::summaries::SUMMARIES;
use mdmp_lister::Limits;
use mdmp_words::{Command, Invocation, LineForm, invocation_of};
use std::alloc::Global;
use std::process::Abort;

/// How lines are printed, as a word behind the name.
fn form_words(form: LineForm) -> &'static str {
    match form {
        LineForm::Text => "",
        LineForm::Json => " json",
    }
}

/// What is to be done, as a text, with the names in brackets.
fn command_text(rt: &impl Abort, alloc: Global, file: &str, command: &Command<'_>) -> String {
    let text = match command {
        Command::Check { form, parts } => {
            let form = form_words(*form);
            let looked_at = if *parts { " parts" } else { "" };
            format!(in alloc; "check [{file}]{form}{looked_at}")
        }
        Command::List { form, pdb } => {
            let form = form_words(*form);
            let symbols = if *pdb { " pdb" } else { "" };
            format!(in alloc; "list [{file}]{form}{symbols}")
        }
        Command::Hex(span) => { format!(in alloc; "hex [{file}] {} {}", span.address, span.length) }
        Command::Copy { target, types } => {
            let mut text = format!(in alloc; "copy [{file}] [{target}]").expect(
                rt,
                "memory for a text",
            );
            for stream_type in types.types() {
                write!(text, " {stream_type}").expect(rt, "memory for a type");
            }
            return text;
        }
    };
    text.expect(rt, "memory for a text")
}

/// A text, and its limits: the window, the longest name, and what may be read, held, and read of CodeView records.
fn text_within(rt: &impl Abort, alloc: Global, command: &str, limits: Limits) -> String {
    let text = format!(in alloc;
        "{command} within {} {} {:?} {:?} {:?}",
        limits.window, limits.name, limits.budget, limits.memory, limits.aside
    );
    text.expect(rt, "memory for a text")
}

/// Summaries as a text, with each name in brackets.
fn summaries_text(
    rt: &impl Abort,
    alloc: Global,
    files: &[&str],
    limits: Limits,
    form: LineForm,
) -> String {
    let mut text = String::from_str(alloc, "summary").expect(rt, "memory for a text");
    for file in files {
        write!(text, " [{file}]").expect(rt, "memory for a name");
    }
    text.push_str(form_words(form))
        .expect(rt, "memory for a form");
    text_within(rt, alloc, text.as_str(), limits)
}

/// What words come to, as a text: a command, or why there is none.
fn asked_by<'a>(rt: &impl Abort, alloc: Global, words: &'a [&'a str]) -> String {
    let text = match invocation_of(alloc, words) {
        Invocation::Run {
            file,
            limits,
            command,
        } => {
            let command = command_text(rt, alloc, file, &command);
            return text_within(rt, alloc, command.as_str(), limits);
        }
        Invocation::Summarize {
            files,
            limits,
            form,
        } => return summaries_text(rt, alloc, &files, limits, form),
        Invocation::Help(_) => "help",
        Invocation::Refused(_) => "refused",
        Invocation::BadWord(_) => "bad",
        Invocation::InvalidValue => "together",
        Invocation::Memory => "memory",
    };
    String::from_str(alloc, text).expect(rt, "memory for a text")
}

/// The limits where no words set them.
const USUAL: &str = " within 65536 4096 Some(18446744073709551615) None None";

/// The limits for the dumps of strangers, where no words set them.
const STRANGERS: &str = " within 65536 4096 Some(67108864) Some(67108864) Some(67108864)";

/// The words of a line, with bars between them.
pub fn words_of<'a>(rt: &impl Abort, alloc: Global, line: &'a str) -> Vec<&'a str> {
    let mut words = Vec::new(alloc);
    for word in line.split('|') {
        words.push(word).expect(rt, "memory for words");
    }
    words
}

/// Asserts what words come to. What is asked for names its limits by a word, or has them written out.
fn assert_words(rt: &impl Abort, alloc: Global, words: &[&str], asked: &str) {
    let found = asked_by(rt, alloc, words);
    let (command, limits) = if let Some((command, _)) = asked.split_once(" usual") {
        (command, USUAL)
    } else if let Some((command, _)) = asked.split_once(" strangers") {
        (command, STRANGERS)
    } else {
        (asked, "")
    };
    let wanted = format!(in alloc; "{command}{limits}").expect(rt, "memory for a text");
    assert_same_at(rt, &words, found.as_str(), wanted.as_str());
}

/// Asserts what the words of each line come to. A line has words with bars between them, an arrow, and what they ask for. It is
/// a text, since a list of many texts is dear for the prover.
fn assert_asked(rt: &impl Abort, alloc: Global, lines: &str) {
    for line in lines.lines() {
        let (words, asked) = line.split_once(" => ").expect(rt, "an arrow");
        let words = words_of(rt, alloc, words);
        assert_words(rt, alloc, &words, asked);
    }
}

/// Commands, and what is done with names, which are kept as they are.
const COMMANDS: &str = "check|a.dmp => check [a.dmp] usual
list|a.dmp => list [a.dmp] usual
list|a.dmp|--pdb => list [a.dmp] pdb usual
list|--pdb|a.dmp => list [a.dmp] pdb usual
list|--json|a.dmp => list [a.dmp] json usual
list|a.dmp|--pdb|--json => list [a.dmp] json pdb usual
check|a.dmp|--json => check [a.dmp] json usual
check|--|--json => check [--json] usual
check|a.dmp|--parts => check [a.dmp] parts usual
check|--parts|--json|a.dmp => check [a.dmp] json parts usual
check|--|--parts => check [--parts] usual
hex|a.dmp|0x10|5 => hex [a.dmp] 16 5 usual
copy|a|b|3 => copy [a] [b] 3 usual
copy|a|b|17|0|17 => copy [a] [b] 17 0 17 usual
list| a b  => list [ a b ] usual
list|- => list [-] usual
list|list => list [list] usual
list|help => list [help] usual
list|--|--pdb => list [--pdb] usual";

/// Addresses and lengths, at their ends and past them.
const SPANS: &str = "hex|a|00000000`7ffe0300|1 => hex [a] 2147353344 1 usual
hex|a|0x7ff6`12345678|1 => hex [a] 140694844102264 1 usual
hex|a|0`00000000|1 => hex [a] 0 1 usual
hex|a|`7ffe0300|1 => bad
hex|a|0000000`7ffe030|1 => bad
hex|a|000000000`7ffe0300|1 => bad
hex|a|0`0`7ffe0300|1 => bad
hex|a|00000000000000000000001|1 => hex [a] 1 1 usual
hex|a|0xfFfFfFfFfFfFfFfF|1 => hex [a] 18446744073709551615 1 usual
hex|a|0xffffffffffffffff|2 => together
hex|a|18446744073709551615|0 => hex [a] 18446744073709551615 0 usual
hex|a|18446744073709551616|0 => bad
hex|a|18446744073708503040|1048576 => hex [a] 18446744073708503040 1048576 usual
hex|a|18446744073708503041|1048576 => together
hex|a|0|1048576 => hex [a] 0 1048576 usual
hex|a|0|1048577 => bad
hex|a|0|0x10 => bad
hex|a|0| => bad
hex|a|+5|1 => bad
hex|a|0x+1|1 => bad
hex|a|0x|1 => bad
hex|a|0x00000000000000001|1 => bad
hex|a|0XFF|1 => bad
hex|a|5 |1 => bad
hex|a| 5|1 => bad
hex|a||1 => bad
hex|a|1_0|1 => bad
hex|a|-5|1 => refused";

/// Types of a copy, by their numbers and names.
const TYPES: &str = "copy|a|b|threads|exception|7 => copy [a] [b] 3 6 7 usual
copy|a|b|threads|modules|memory|exception|system|memory64|unloaded|regions|threadnames => copy [a] [b] 3 4 5 6 7 9 14 16 24 usual
copy|a|b|UnusedStream|ThreadListStream|ModuleListStream|MemoryListStream|ExceptionStream|SystemInfoStream|Memory64ListStream|CommentStreamA|CommentStreamW|UnloadedModuleListStream|MiscInfoStream|MemoryInfoListStream|ThreadNamesStream => copy [a] [b] 0 3 4 5 6 7 9 10 11 14 15 16 24 usual
copy|a|b|thread => bad
copy|a|b|Threads => bad
copy|a|b|threads  => bad
copy|a|b|3|threads3 => bad
copy|a|b|4294967295 => copy [a] [b] 4294967295 usual
copy|a|b|4294967296 => bad
copy|a|b|0x3 => bad
copy|a|b|3|+4 => bad
copy|a|b|3| => bad
copy|a|b|3|3  => bad
copy|a|b|-3 => refused
copy|a|b => refused
copy|a|b|1|2|3|4|5|6|7|8|9|10|11|12|13|14|15|016 => copy [a] [b] 1 2 3 4 5 6 7 8 9 10 11 12 13 14 15 16 usual
copy|a|b|1|2|3|4|5|6|7|8|9|10|11|12|13|14|15|16|17 => together";

/// The lines of all tests.
static LINES: [&str; 11] = [
    COMMANDS, SPANS, TYPES, LIMITED, OPTIONS, NAMED, UNTRUSTED, SUMMARIES, BAD, REFUSED, HELP,
];

#[test]
fn invocation_of_succeeds_or_tells_why(rt: HostRuntime) {
    assert_words(&rt, rt.alloc(), &[], "refused");
    for lines in &LINES {
        assert_asked(&rt, rt.alloc(), *lines);
    }
}
