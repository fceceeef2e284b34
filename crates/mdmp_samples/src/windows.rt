//! The list of a dump, by small windows and by the greatest.

use crate::commands::printed_by;
use std::io::Write;

/// Prints that `list` prints of a dump by small windows, and by the greatest, what it prints by the usual one.
pub fn tell_windows(rt: &HostRuntime, dump: &str) -> Option<()> {
    let usual = printed_by(rt, &["list", dump]);
    for window in &["168", "169", "255", "1073741824"] {
        if printed_by(rt, &["list", dump, "--window", window]) != usual {
            return None;
        }
    }
    writeln!(
        rt.stdout(),
        "{dump}: the same list by windows of 168, 169, 255 and 1073741824 bytes"
    )
    .ok()
}
