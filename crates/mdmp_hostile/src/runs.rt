//! One file, run through.

use crate::budgets::check_budgets;
use crate::census::{Census, Counted, NO_LIMIT, OUT_OF_MEMORY};
use crate::chance::Chance;
use crate::copies::copy_file;
use crate::damage::damage;
use crate::good_file::make_good_file;
use crate::lists::{FileListed, ListEnd, list_file};
use crate::values::read_file;
use crate::verdicts::check_file;
use crate::windows::TwoWindows;
use mdmp_dump::{Dump, PartName, ReadFault};
use mdmp_lister::{FaultKind, OpenFault};
use std::alloc::Global;

/// The seed of all files.
const SEED: u64 = 0x6d64_6d70;

/// Makes the file of a number, of which each second one is damaged, and runs through it.
pub fn run_number(alloc: Global, number: u64, windows: TwoWindows, census: &mut Census) {
    let mut chance = Chance::new(SEED, number);
    let mut draft = make_good_file(alloc, &mut chance);
    let is_damaged = number % 2 == 1;
    if is_damaged {
        damage(&mut draft, &mut chance);
    }
    if draft.lacks_memory {
        return census.keep_trouble(OUT_OF_MEMORY);
    }
    census.count(Counted::Files);
    census.add(Counted::Bytes, draft.bytes.len() as u64);
    if is_damaged {
        census.count(Counted::Damaged);
    }
    let listed = run_file(alloc, &draft.bytes, windows, census);
    census.agree(
        is_damaged || listed.end == ListEnd::Whole && listed.items == draft.item_count(),
        "a good file is listed otherwise than it was made",
    );
}

/// Makes all calls over a file, and compares what they answer.
fn run_file(alloc: Global, file: &[u8], windows: TwoWindows, census: &mut Census) -> FileListed {
    let listed = list_file(alloc, file, windows, census);
    let mut uncounted = Census::new();
    let swapped = list_file(alloc, file, windows.swapped(), &mut uncounted);
    if let Some(what) = uncounted.trouble {
        census.keep_trouble(what);
    }
    census.agree(
        listed.end == swapped.end && listed.items == swapped.items,
        "the windows the other way about list otherwise",
    );
    if census.trouble.is_some() {
        return listed;
    }
    count_end(census, &listed);
    check_budgets(alloc, file, windows.one, &listed, census);
    check_file(alloc, file, windows, listed.end, census);
    let value = read_file(alloc, file, windows, listed.end, census);
    count_value(census, &value);
    copy_file(alloc, file, windows, value, census);
    listed
}

/// Counts how a list ends.
fn count_end(census: &mut Census, listed: &FileListed) {
    census.add(Counted::Items, listed.items);
    match listed.end {
        ListEnd::Refused(fault) => count_refusal(census, fault),
        ListEnd::At(fault) => {
            census.count(Counted::Opened);
            count_fault(census, fault.kind);
        },
        ListEnd::Whole => {
            census.count(Counted::Opened);
            census.count(Counted::Whole);
        },
    }
}

/// Counts why a file is refused.
pub fn count_refusal(census: &mut Census, fault: OpenFault) {
    match fault {
        OpenFault::TooShort { .. } => census.count(Counted::TooShort),
        OpenFault::BadSignature => census.count(Counted::BadSignature),
        OpenFault::BadVersion { .. } => census.count(Counted::BadVersion),
        OpenFault::DirectoryOutside { .. } => census.count(Counted::DirectoryOutside),
        OpenFault::TooManyRanges { .. } => census.count(Counted::TooManyRanges),
        OpenFault::Budget { .. } | OpenFault::MemoryLimit { .. } => census.keep_trouble(NO_LIMIT),
        OpenFault::Source(_) | OpenFault::Memory => {},
    }
}

fn count_fault(census: &mut Census, kind: FaultKind) {
    match kind {
        FaultKind::StreamOutside => census.count(Counted::StreamOutside),
        FaultKind::ShortStream => census.count(Counted::ShortStream),
        FaultKind::BadHeaderSize => census.count(Counted::BadHeaderSize),
        FaultKind::BadEntrySize => census.count(Counted::BadEntrySize),
        FaultKind::BadCount => census.count(Counted::BadCount),
        FaultKind::NameLengthOutside => census.count(Counted::NameLengthOutside),
        FaultKind::NameOdd => census.count(Counted::NameOdd),
        FaultKind::NameUnitsOutside => census.count(Counted::NameUnitsOutside),
        FaultKind::Budget => census.keep_trouble(NO_LIMIT),
        FaultKind::Source(_) => {},
    }
}

/// Counts a value that was read, or the reasons that lists do not have.
fn count_value(census: &mut Census, value: &Result<Dump<Global>, ReadFault>) {
    match value {
        Ok(_) => census.count(Counted::Values),
        Err(ReadFault::PartOutside { part, .. }) => count_part(census, *part),
        Err(ReadFault::NameTooLong { .. }) => census.count(Counted::NameTooLong),
        Err(_) => {},
    }
}

fn count_part(census: &mut Census, part: PartName) {
    match part {
        PartName::Stack => census.count(Counted::StackOutside),
        PartName::Context => census.count(Counted::ContextOutside),
        PartName::CodeView => census.count(Counted::CodeViewOutside),
        PartName::Misc => census.count(Counted::MiscOutside),
        PartName::Memory => census.count(Counted::MemoryOutside),
    }
}
