//! A file read into a value, through two windows.

use crate::census::Census;
use crate::lists::ListEnd;
use crate::windows::TwoWindows;
use mdmp_dump::{Dump, ReadFault, read_dump};
use mdmp_lister::{Choice, Limits, ListFault};
use mdmp_source::{MemoryStore, Source};
use std::alloc::Global;

/// The value of a file, or why it gives none. Both windows and the end of its list have to agree.
pub fn read_file(
    alloc: Global,
    file: &[u8],
    windows: TwoWindows,
    end: ListEnd,
    census: &mut Census,
) -> Result<Dump<Global>, ReadFault> {
    let one = value_of(alloc, file, windows.one);
    let other = value_of(alloc, file, windows.other);
    match (one, other) {
        (Ok(one), Ok(other)) => {
            census.agree(one == other, "the windows read other values");
            census.agree(end == ListEnd::Whole, "what is not listed is read");
            Ok(one)
        },
        (Err(one), Err(other)) => {
            census.agree(one == other, "the windows read other faults");
            census.agree(
                can_follow(one, end),
                "the list ends otherwise than the value",
            );
            Err(one)
        },
        (Ok(_), Err(fault)) | (Err(fault), Ok(_)) => {
            census.keep_trouble("one window reads no value");
            Err(fault)
        },
    }
}

/// The value of a file, or why it gives none.
pub fn value_of(alloc: Global, file: &[u8], limits: Limits) -> Result<Dump<Global>, ReadFault> {
    let source = Source::new(MemoryStore::new(file));
    read_dump(alloc, source, limits, Choice::All, u64::MAX)
}

/// Whether a file whose list ends so may give no value for this reason.
fn can_follow(fault: ReadFault, end: ListEnd) -> bool {
    match fault {
        ReadFault::Opening(fault) => end == ListEnd::Refused(fault),
        ReadFault::List(fault) => end == ListEnd::At(fault),
        ReadFault::PartOutside { entry, index, .. } | ReadFault::NameTooLong { entry, index, .. } =>
            comes_before(entry, index, end),
        ReadFault::PartsTooLarge { .. } | ReadFault::Memory | ReadFault::Source(_) => false,
    }
}

/// Whether a record stands before the end of a list.
fn comes_before(entry: u32, index: u64, end: ListEnd) -> bool {
    match end {
        ListEnd::Refused(_) => false,
        ListEnd::At(fault) => stands_before(entry, index, fault),
        ListEnd::Whole => true,
    }
}

/// Whether a record stands before a fault: one of a name stands in the place of its record.
fn stands_before(entry: u32, index: u64, fault: ListFault) -> bool {
    if entry != fault.entry {
        return entry < fault.entry;
    }
    match fault.index {
        Some(at) => index < at,
        None => false,
    }
}
