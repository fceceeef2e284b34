//! Whether the entries of a dump are good.

use crate::commands::status_of;
use std::io::Write;

/// Prints what `check` prints of a dump, and behind it the exit status.
pub fn tell_check(rt: &HostRuntime, dump: &str) -> Option<()> {
    let status = status_of(rt, &["check", dump]);
    writeln!(rt.stdout(), "{dump}: check ends with {status}").ok()
}
