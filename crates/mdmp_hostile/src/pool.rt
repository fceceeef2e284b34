//! Names and parts that the records of a file share.

use crate::chance::Chance;
use crate::draft::{Belongs, Draft};
use mdmp_source::Location;

/// The longest name that is read, in bytes.
pub const NAME_LIMIT: u32 = 64;

/// Where the names of a file stand, of which there are at most four.
#[derive(Clone, Copy)]
pub struct DraftNames {
    rvas: [u32; 4],
    count: usize,
}

impl DraftNames {
    /// Appends some names into a file.
    pub fn push(draft: &mut Draft, chance: &mut Chance) -> Self {
        let mut rvas = [0; 4];
        let count = chance.index(5);
        for k in 0..count {
            draft.push_gap(chance);
            if let Some(rva) = rvas.get_mut(k) {
                *rva = draft.end();
            }
            push_name(draft, chance);
        }
        DraftNames { rvas, count }
    }

    /// Where one of them stands, or 0 for none.
    pub fn any(&self, chance: &mut Chance) -> u32 {
        if chance.once_in(5) {
            return 0;
        }
        match self.rvas.get(chance.index(self.count)) {
            Some(rva) => *rva,
            None => 0,
        }
    }
}

/// Appends a name of any units.
fn push_name(draft: &mut Draft, chance: &mut Chance) {
    let units = unit_count(chance);
    draft.push_number(Belongs::Name, units.saturating_mul(2));
    for _ in 0..units {
        draft.push_bytes(&chance.unit().to_le_bytes());
    }
    draft.push_bytes(&[0, 0]);
}

/// How many units a name has: mostly as many as are read, at times none, the most, or too many.
fn unit_count(chance: &mut Chance) -> u32 {
    match chance.below(60) {
        0..6 => 0,
        6..12 => NAME_LIMIT / 2,
        12 => chance.below(NAME_LIMIT).saturating_add(NAME_LIMIT / 2 + 1),
        _ => chance.below(NAME_LIMIT / 2),
    }
}

/// A part of a record: empty, absent, or any bytes of the file so far, which other parts may have too.
pub fn any_part(draft: &Draft, chance: &mut Chance) -> Location {
    match chance.below(8) {
        0 => Location {
            size: 0,
            rva: chance.word(),
        },
        1 => Location {
            size: chance.word(),
            rva: 0,
        },
        _ => stretch(draft, chance, 80),
    }
}

/// Some bytes of the file so far, fewer than so many.
pub fn stretch(draft: &Draft, chance: &mut Chance, most: u32) -> Location {
    let rva = chance.below(draft.end());
    let left = draft.end().saturating_sub(rva);
    Location {
        size: chance.below(left.saturating_add(1).min(most)),
        rva,
    }
}
