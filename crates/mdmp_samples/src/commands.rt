//! Command lines that are run, by functions that have no contract: their callers know nothing of what a
//! command did, so that their own proofs stay short.

use mdmp_source::{Out, WriteOut};
use mdmp_tool::run_words;

/// The exit status of a command that prints to this output, and tells of a fault on standard error.
fn status_to<O: Out>(rt: &HostRuntime, words: &[&str], out: &mut O) -> u8 {
    let mut err = WriteOut::new(rt.stderr());
    run_words(rt, rt.alloc(), words, out, &mut err)
}

/// The exit status of a command that prints to standard output.
pub fn status_of(rt: &HostRuntime, words: &[&str]) -> u8 {
    status_to(rt, words, &mut WriteOut::new(rt.stdout()))
}

/// The exit status of a command, and what it prints.
pub fn printed_by(rt: &HostRuntime, words: &[&str]) -> (u8, Vec<u8>) {
    let mut out = WriteOut::new(Vec::new(rt.alloc()));
    let status = status_to(rt, words, &mut out);
    (status, out.into_inner())
}
