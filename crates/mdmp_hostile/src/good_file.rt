//! Files without a fault.

use crate::chance::Chance;
use crate::draft::{Belongs, Draft, DraftEntry};
use crate::pool::DraftNames;
use crate::streams::push_stream;
use std::alloc::Global;

/// A file of any streams, whose directory stands behind the header or behind all else.
pub fn make_good_file(alloc: Global, chance: &mut Chance) -> Draft {
    let mut draft = Draft::new(alloc);
    let count = chance.below(13);
    push_header(&mut draft, chance, count);
    let in_front = chance.once_in(2);
    let mut place = 0;
    if in_front {
        place = push_directory(&mut draft, chance, count);
    }
    let names = DraftNames::push(&mut draft, chance);
    for _ in 0..count {
        let entry = any_entry(&mut draft, &names, chance);
        draft.add_entry(entry);
    }
    if !in_front {
        place = push_directory(&mut draft, chance, count);
    }
    if chance.once_in(2) {
        draft.entries.reverse();
    }
    set_directory(&mut draft, place);
    draft
}

/// Appends a header, whose directory stands anywhere.
fn push_header(draft: &mut Draft, chance: &mut Chance, count: u32) {
    draft.push_number(Belongs::Header, 0x504d_444d);
    let version = u32::from(chance.unit()) << 16 | 0xa793;
    draft.push_number(Belongs::Header, version);
    draft.push_number(Belongs::Header, count);
    draft.push_number(Belongs::Header, chance.word());
    draft.push_noise(chance, 16);
}

/// Appends a directory of so many entries, any bytes as yet, and gives its place.
fn push_directory(draft: &mut Draft, chance: &mut Chance, count: u32) -> usize {
    draft.push_gap(chance);
    let place = draft.bytes.len();
    for _ in 0..count.saturating_mul(3) {
        draft.push_number(Belongs::Directory, 0);
    }
    place
}

/// The entry of a new stream, or at times one that another entry names too.
fn any_entry(draft: &mut Draft, names: &DraftNames, chance: &mut Chance) -> DraftEntry {
    if chance.once_in(6) {
        if let Some(entry) = draft.entries.get(chance.index(draft.entries.len())) {
            return *entry;
        }
    }
    push_stream(draft, names, chance)
}

/// Writes the entries over what stands at a place, and the place into the header. With no entry it is
/// not looked at, and stays anywhere.
fn set_directory(draft: &mut Draft, place: usize) {
    let mut at = place;
    for k in 0..draft.entries.len() {
        if let Some(entry) = draft.entries.get(k) {
            let entry = *entry;
            set_entry(draft, at, entry);
        }
        at = at.saturating_add(12);
    }
    if !draft.entries.is_empty() {
        draft.set(12, 4, place as u64);
    }
}

fn set_entry(draft: &mut Draft, at: usize, entry: DraftEntry) {
    let location = entry.location;
    draft.set(at, 4, u64::from(entry.stream_type));
    draft.set(at.saturating_add(4), 4, u64::from(location.size));
    draft.set(at.saturating_add(8), 4, u64::from(location.rva));
}
