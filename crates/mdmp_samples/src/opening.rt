//! A dump that is opened or read, by functions that have no contract: each makes one call that has a long
//! one, which their callers then know nothing of, so that their own proofs stay short.

use mdmp_dump::{Dump, FileView, read_dump};
use mdmp_lister::{Choice, Limits, Lister, Walker};
use mdmp_source::{FileStore, Source, Store};
use std::alloc::Global;
use std::fs::File;

/// A lister of a dump.
pub type DumpLister = Lister<FileStore<File>, Global>;

/// A walker over a dump.
pub type DumpWalker = Walker<FileStore<File>, Global>;

fn source_of(rt: &HostRuntime, dump: &str) -> Option<Source<FileStore<File>>> {
    Some(Source::new(FileStore::open(rt, dump).ok()?))
}

/// A lister of all entries of a dump.
pub fn lister_of(rt: &HostRuntime, dump: &str) -> Option<DumpLister> {
    let source = source_of(rt, dump)?;
    Lister::open(rt.alloc(), source, Limits::default(), Choice::All).ok()
}

/// A walker over all entries of a dump.
pub fn walker_of(rt: &HostRuntime, dump: &str) -> Option<DumpWalker> {
    let source = source_of(rt, dump)?;
    Walker::open(rt.alloc(), source, Limits::default(), Choice::All).ok()
}

/// A view of the chosen entries of a dump, by the least window.
pub fn view_of(
    rt: &HostRuntime,
    dump: &str,
    choice: Choice,
) -> Option<FileView<FileStore<File>, Global>> {
    let source = source_of(rt, dump)?;
    let limits = Limits::new(Limits::LEAST_WINDOW, Limits::default().name)?;
    FileView::open(rt.alloc(), source, limits, choice).ok()
}

/// The value of the chosen entries of a dump.
pub fn value_of(rt: &HostRuntime, dump: &str, choice: Choice) -> Option<Dump<Global>> {
    value_in(rt.alloc(), source_of(rt, dump)?, choice)
}

/// The value of the chosen entries of a source.
pub fn value_in<S: Store + Drop>(
    alloc: Global,
    source: Source<S>,
    choice: Choice,
) -> Option<Dump<Global>> {
    read_dump(alloc, source, Limits::default(), choice, u64::MAX).ok()
}
