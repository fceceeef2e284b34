//! What a command line asks for.
use crate::bad_word::BadWord;
use crate::number_words::Span;
use mdmp_lister::{Limits, TypeSet};
use mdmp_print::LineForm;

/// What a command line asks for.
#[derive(Drop)]
pub enum Invocation<'a> {
    /// A command, and the file that it reads.
    Run {
        /// The name of the file.
        file: &'a str,
        /// The limits within which it is read.
        limits: Limits,
        /// What is done with the file.
        command: Command<'a>,
    },
    /// The summaries of some files, one after the other.
    Summarize {
        /// The names of the files, in their order.
        files: Vec<&'a str>,
        /// The limits within which each is read.
        limits: Limits,
        /// How the summaries are printed.
        form: LineForm,
    },
    /// Help or the version: this text.
    Help(String),
    /// Nothing, since the words are no command line. This text says why.
    Refused(String),
    /// Nothing, since this word is not what is expected at its place.
    BadWord(BadWord<'a>),
    /// Nothing, since words that are good alone are not so together: a span of addresses that passes the last one, or
    /// too many types.
    InvalidValue,
    /// Nothing that is known, since memory ran out while the words were read.
    Memory,
}

/// What is done with a file.
#[derive(Drop)]
pub enum Command<'a> {
    /// It is printed of each entry whether it is good.
    Check {
        /// How the lines are printed.
        form: LineForm,
        /// Whether parts of records that lie outside the file are printed too, and make their entry bad.
        parts: bool,
    },
    /// What the file holds is printed.
    List {
        /// How the lines are printed.
        form: LineForm,
        /// Whether the symbol file of each module is printed too.
        pdb: bool,
    },
    /// The bytes at these addresses are printed.
    Hex(Span),
    /// The streams of some types are copied.
    Copy {
        /// The name of the file that is written.
        target: &'a str,
        /// The types of the streams.
        types: TypeSet,
    },
}
