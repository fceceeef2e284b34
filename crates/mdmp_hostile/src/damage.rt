//! Damage to files: numbers that break readers, bytes that are missing, and bytes that are anything.

use crate::chance::Chance;
use crate::draft::{Belongs, Draft, DraftNumber};

/// Numbers at the edges of their fields, and counts whose records pass 2^32 or 2^64 bytes.
static EDGES: [u64; 16] = [
    0,
    1,
    2,
    3,
    0x7fff_ffff,
    0x8000_0000,
    0xffff_fffe,
    0xffff_ffff,
    0x0555_5556,
    0x025e_d098,
    0x1000_0000,
    0x0aaa_aaab,
    0x0555_5555_5555_5556,
    0x1000_0000_0000_0000,
    0x7fff_ffff_ffff_ffff,
    0xffff_ffff_ffff_ffff,
];

/// Damages a file in one of some ways.
pub fn damage(draft: &mut Draft, chance: &mut Chance) {
    match chance.below(20) {
        0 => become_noise(draft, chance),
        1 | 2 => cut(draft, chance),
        3 | 4 => strike(draft, chance),
        _ => {
            for _ in 0..chance.below(3).saturating_add(1) {
                turn_number(draft, chance);
            }
        },
    }
}

/// Any bytes in place of all, at times behind a header of a directory that stands behind it.
fn become_noise(draft: &mut Draft, chance: &mut Chance) {
    draft.bytes.clear();
    if chance.once_in(2) {
        draft.push_bytes(b"MDMP\x93\xa7");
        draft.push_noise(chance, 2);
        draft.push_words(&[chance.below(4), 32]);
    }
    let size = chance.below(300);
    draft.push_noise(chance, size);
}

/// Drops bytes at the end.
fn cut(draft: &mut Draft, chance: &mut Chance) {
    let size = chance.index(draft.bytes.len());
    draft.bytes.truncate(size);
}

/// Any bytes in place of a few.
fn strike(draft: &mut Draft, chance: &mut Chance) {
    for _ in 0..chance.below(12).saturating_add(1) {
        let at = chance.index(draft.bytes.len());
        let byte = chance.byte();
        if let Some(place) = draft.bytes.get_mut(at) {
            *place = byte;
        }
    }
}

/// Turns a number into one that breaks readers.
fn turn_number(draft: &mut Draft, chance: &mut Chance) {
    let belongs = match chance.below(12) {
        0 => Belongs::Header,
        1..4 => Belongs::Directory,
        4..7 => Belongs::Head,
        7..10 => Belongs::Record,
        _ => Belongs::Name,
    };
    let Some(number) = any_number(draft, chance, belongs) else {
        return;
    };
    let value = breaking_value(draft, chance, number);
    draft.set(number.at, number.width, value);
}

/// One of the numbers that belong to these, or none where there is none.
fn any_number(draft: &Draft, chance: &mut Chance, belongs: Belongs) -> Option<DraftNumber> {
    let mut count: u32 = 0;
    let mut chosen = None;
    for number in &draft.numbers {
        if number.belongs == belongs {
            count = count.saturating_add(1);
            // Each of those so far is the chosen one as often.
            if chance.once_in(count) {
                chosen = Some(*number);
            }
        }
    }
    chosen
}

/// A number that breaks readers, in place of this one.
fn breaking_value(draft: &Draft, chance: &mut Chance, number: DraftNumber) -> u64 {
    let size = u64::from(draft.end());
    match chance.below(10) {
        0 => size,
        1 => size.wrapping_add(1),
        2 => size.wrapping_sub(1),
        3 => size.wrapping_sub(u64::from(chance.below(64))),
        4 => u64::from(chance.below(draft.end())),
        5 => place_of_a_number(draft, chance),
        6 => value_at(draft, number).wrapping_add(1),
        7 => value_at(draft, number).wrapping_sub(1),
        _ => any_edge(chance),
    }
}

fn any_edge(chance: &mut Chance) -> u64 {
    match EDGES.get(chance.index(EDGES.len())) {
        Some(edge) => *edge,
        None => 0,
    }
}

/// Where some number of the file stands.
fn place_of_a_number(draft: &Draft, chance: &mut Chance) -> u64 {
    match draft.numbers.get(chance.index(draft.numbers.len())) {
        Some(number) => number.at as u64,
        None => 0,
    }
}

/// The number that stands there.
fn value_at(draft: &Draft, number: DraftNumber) -> u64 {
    let mut bytes = [0; 8];
    for k in 0..number.width.min(8) {
        if let Some(byte) = draft.bytes.get(number.at.saturating_add(k)) {
            bytes[k] = *byte;
        }
    }
    u64::from_le_bytes(bytes)
}
