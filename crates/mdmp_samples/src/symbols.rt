//! Texts that are too long to print, and the symbol files that the modules of a dump name.

use crate::commands::printed_by;
use crate::digest::summary_of;
use std::io::Write;

/// Prints the lines of symbol files among those of `list --pdb`, and behind them the exit status, the
/// length and the SHA-256 of its whole text.
pub fn tell_symbols(rt: &HostRuntime, dump: &str) -> Option<()> {
    tell_text(rt, dump, "list --pdb", &["list", dump, "--pdb"])
}

/// Prints of what a command prints the lines of symbol files, of which objects have none, and the exit
/// status, the length and the SHA-256.
pub fn tell_text(rt: &HostRuntime, dump: &str, named: &str, words: &[&str]) -> Option<()> {
    let (status, text) = printed_by(rt, words);
    tell_pdb_lines(rt, &text)?;
    let summary = summary_of(rt.alloc(), &text)?;
    writeln!(rt.stdout(), "{dump}: {named} ends with {status}, {summary}").ok()
}

/// Prints the lines of a text that tell symbol files.
fn tell_pdb_lines(rt: &HostRuntime, text: &[u8]) -> Option<()> {
    for line in str::from_utf8(text).ok()?.lines() {
        if line.starts_with("pdb ") {
            writeln!(rt.stdout(), "{line}").ok()?;
        }
    }
    Some(())
}
