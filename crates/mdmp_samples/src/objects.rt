//! The lines of a dump as objects of JSON.

use crate::symbols::tell_text;

/// Prints of the objects that are listed of a dump, and of those of its entries, the exit status, the
/// length and the SHA-256 of all of them. tests/json_objects compares each with its line of text.
pub fn tell_objects(rt: &HostRuntime, dump: &str) -> Option<()> {
    tell_text(
        rt,
        dump,
        "list --json --pdb",
        &["list", dump, "--json", "--pdb"],
    )?;
    tell_text(rt, dump, "check --json", &["check", dump, "--json"])
}
