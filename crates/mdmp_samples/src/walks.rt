//! The entries of a dump, each gone to.

use crate::opening::{DumpLister, DumpWalker, lister_of, walker_of};
use std::io::Write;

/// Prints that each entry of a dump, gone to from the last one back, gives what the list has of it.
pub fn tell_walk(rt: &HostRuntime, dump: &str) -> Option<()> {
    let mut walker = walker_of(rt, dump)?;
    let entries = walker.header().number_of_streams;
    for number in (0..entries).rev() {
        compare_entry(rt, dump, &mut walker, number)?;
    }
    writeln!(
        rt.stdout(),
        "{dump}: each of {entries} entries as listed, from the last one back"
    )
    .ok()
}

/// Goes to an entry, and compares what is given of it, and the item behind it or the end, with what a lister
/// gives that leaves out the entries before. None where they differ.
fn compare_entry(rt: &HostRuntime, dump: &str, walker: &mut DumpWalker, number: u32) -> Option<()> {
    seek(walker, number)?;
    let mut lister = lister_of(rt, dump)?;
    skip_entries(&mut lister, number)?;
    for _ in 0..u64::MAX {
        if !compare_next(&mut lister, walker, number)? {
            return Some(());
        }
    }
    None
}

/// Goes to an entry, or gives none where there is no such entry.
fn seek(walker: &mut DumpWalker, number: u32) -> Option<()> {
    if walker.header().number_of_streams <= number {
        return None;
    }
    walker.seek_entry(number as usize);
    Some(())
}

fn skip_entries(lister: &mut DumpLister, entries: u32) -> Option<()> {
    for _ in 0..entries {
        let _ = lister.next().ok()?;
        lister.skip_entry();
    }
    Some(())
}

/// Compares what both give next, and tells whether it is an item of this entry. None where they differ.
fn compare_next(lister: &mut DumpLister, walker: &mut DumpWalker, number: u32) -> Option<bool> {
    let walked = walker.next().ok()?;
    if walked != lister.next().ok()? {
        return None;
    }
    match walked {
        Some(item) => Some(item.entry() == number),
        None => Some(false),
    }
}
