//! Streams, as they stand in a file.

use crate::chance::Chance;
use crate::draft::{Belongs, Draft, DraftEntry};
use crate::pool::{DraftNames, stretch};
use crate::records::{ListedRecord, push_exception, push_system};
use mdmp_lister::StreamKind;
use mdmp_source::Location;

/// Appends a stream of any type into a file, and gives its entry.
pub fn push_stream(draft: &mut Draft, names: &DraftNames, chance: &mut Chance) -> DraftEntry {
    draft.push_gap(chance);
    match chance.below(13) {
        0 => unused(chance),
        1 => push_list(draft, names, chance, 3, ListedRecord::Thread),
        2 | 3 => push_list(draft, names, chance, 4, ListedRecord::Module),
        4 => push_list(draft, names, chance, 5, ListedRecord::Range),
        5 => push_single(draft, names, chance, 6),
        6 => push_single(draft, names, chance, 7),
        7 => push_wide_ranges(draft, chance),
        8 | 9 => push_strided_list(draft, names, chance, ListedRecord::Unloaded),
        10 => push_strided_list(draft, names, chance, ListedRecord::MemoryInfo),
        11 => push_list(draft, names, chance, 24, ListedRecord::ThreadName),
        _ => opaque(draft, chance),
    }
}

/// An unused entry, whose location says nothing.
fn unused(chance: &mut Chance) -> DraftEntry {
    DraftEntry {
        stream_type: 0,
        location: Location {
            size: chance.word(),
            rva: chance.word(),
        },
        records: 0,
    }
}

/// An entry of a type whose records are not known, or of a user's: any bytes, or none anywhere.
fn opaque(draft: &Draft, chance: &mut Chance) -> DraftEntry {
    let stream_type = opaque_type(chance);
    let location = if chance.once_in(6) {
        Location {
            size: 0,
            rva: chance.word(),
        }
    } else {
        stretch(draft, chance, 200)
    };
    DraftEntry {
        stream_type,
        location,
        records: 0,
    }
}

/// A type whose records are not known: mostly a comment's.
fn opaque_type(chance: &mut Chance) -> u32 {
    let stream_type = match chance.below(4) {
        0 => chance.below(0xffff).saturating_add(1),
        1 => chance.word() | 0x10000,
        _ => chance.below(3).saturating_add(10),
    };
    match StreamKind::of_type(stream_type) {
        Some(_) => 10,
        None => stream_type,
    }
}

/// A list of type 3, 4, 5 or 24: behind its count, or behind four bytes more.
fn push_list(
    draft: &mut Draft,
    names: &DraftNames,
    chance: &mut Chance,
    stream_type: u32,
    record: ListedRecord,
) -> DraftEntry {
    let rva = draft.end();
    let count = chance.below(6);
    draft.push_number(Belongs::Head, count);
    let padded = chance.once_in(3);
    if padded {
        draft.push_noise(chance, 4);
    }
    for _ in 0..count {
        record.push(draft, names, chance);
    }
    if !padded {
        push_slack(draft, chance);
    }
    entry_from(draft, stream_type, rva, count)
}

/// Type 6 or 7: one record.
fn push_single(
    draft: &mut Draft,
    names: &DraftNames,
    chance: &mut Chance,
    stream_type: u32,
) -> DraftEntry {
    let rva = draft.end();
    if stream_type == 6 {
        push_exception(draft, chance);
    } else {
        push_system(draft, names, chance);
    }
    push_slack(draft, chance);
    entry_from(draft, stream_type, rva, 1)
}

/// Type 9: ranges whose bytes stand behind each other, anywhere in the file so far.
fn push_wide_ranges(draft: &mut Draft, chance: &mut Chance) -> DraftEntry {
    let rva = draft.end();
    let count = chance.below(6);
    let base = chance.below(rva);
    let mut left = rva.saturating_sub(base);
    draft.push_wide_number(Belongs::Head, u64::from(count));
    draft.push_wide_number(Belongs::Head, u64::from(base));
    for _ in 0..count {
        let size = chance.below(left.saturating_add(1).min(80));
        left = left.saturating_sub(size);
        draft.push_noise(chance, 8);
        draft.push_wide_number(Belongs::Record, u64::from(size));
    }
    push_slack(draft, chance);
    entry_from(draft, 9, rva, count)
}

/// Type 14 or 16: records that may be larger than they are known, behind a head that may be.
fn push_strided_list(
    draft: &mut Draft,
    names: &DraftNames,
    chance: &mut Chance,
    record: ListedRecord,
) -> DraftEntry {
    let rva = draft.end();
    let wide = matches!(record, ListedRecord::MemoryInfo);
    let count = chance.below(6);
    let more_head = any_growth(chance);
    let more_record = any_growth(chance);
    let head_size: u32 = if wide { 16 } else { 12 };
    draft.push_number(Belongs::Head, head_size.saturating_add(more_head));
    draft.push_number(Belongs::Head, stride_of(record, count, more_record, chance));
    if wide {
        draft.push_wide_number(Belongs::Head, u64::from(count));
    } else {
        draft.push_number(Belongs::Head, count);
    }
    draft.push_noise(chance, more_head);
    for _ in 0..count {
        record.push(draft, names, chance);
        draft.push_noise(chance, more_record);
    }
    push_slack(draft, chance);
    entry_from(draft, if wide { 16 } else { 14 }, rva, count)
}

/// How far the records stand apart. Where there is none, any number will do.
fn stride_of(record: ListedRecord, count: u32, more: u32, chance: &mut Chance) -> u32 {
    if count == 0 {
        chance.below(100)
    } else {
        record.size().saturating_add(more)
    }
}

/// By how much a head or a record is larger than it is known: mostly by nothing.
fn any_growth(chance: &mut Chance) -> u32 {
    if chance.once_in(3) {
        chance.below(21)
    } else {
        0
    }
}

/// Appends bytes behind the records that are not looked at: any number but four, which would be padding.
fn push_slack(draft: &mut Draft, chance: &mut Chance) {
    let slack = match chance.below(6) {
        0 => chance.below(4),
        1 => chance.below(60).saturating_add(5),
        _ => 0,
    };
    draft.push_noise(chance, slack)
}

/// The entry of a stream that stands from here to the end of the file so far.
fn entry_from(draft: &Draft, stream_type: u32, rva: u32, records: u32) -> DraftEntry {
    DraftEntry {
        stream_type,
        location: Location {
            size: draft.end().saturating_sub(rva),
            rva,
        },
        records,
    }
}
