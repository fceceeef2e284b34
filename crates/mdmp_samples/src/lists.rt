//! The list of a dump.

use crate::commands::status_of;
use crate::opening::lister_of;
use mdmp_lister::StopAt;
use std::io::Write;

/// Prints what `list` prints of a dump.
pub fn list(rt: &HostRuntime, dump: &str) -> Option<()> {
    (status_of(rt, &["list", dump]) == 0).then_some(())
}

/// Prints how many items a dump has, or gives none where it can't be listed to its end.
pub fn tell_items(rt: &HostRuntime, dump: &str) -> Option<()> {
    let mut lister = lister_of(rt, dump)?;
    let mut items = StopAt::new(u64::MAX);
    lister.list_into(&mut items).ok()?;
    let items = items.calls();
    writeln!(rt.stdout(), "{dump}: {items} items").ok()
}
