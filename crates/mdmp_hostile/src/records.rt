//! Records, as they stand in a file. Of their fields those that locate something are numbers that a
//! reader goes by, and the others are any bytes.

use crate::chance::Chance;
use crate::draft::{Belongs, Draft};
use crate::pool::{DraftNames, any_part};

/// A record that lists have.
#[derive(Clone, Copy)]
pub enum ListedRecord {
    /// `MINIDUMP_THREAD`.
    Thread,
    /// `MINIDUMP_MODULE`.
    Module,
    /// `MINIDUMP_MEMORY_DESCRIPTOR`.
    Range,
    /// `MINIDUMP_UNLOADED_MODULE`.
    Unloaded,
    /// `MINIDUMP_MEMORY_INFO`.
    MemoryInfo,
    /// `MINIDUMP_THREAD_NAME`.
    ThreadName,
}

impl ListedRecord {
    /// How many bytes it has.
    pub fn size(self) -> u32 {
        match self {
            ListedRecord::Thread | ListedRecord::MemoryInfo => 48,
            ListedRecord::Module => 108,
            ListedRecord::Range => 16,
            ListedRecord::Unloaded => 24,
            ListedRecord::ThreadName => 12,
        }
    }

    /// Appends one into a file.
    pub fn push(self, draft: &mut Draft, names: &DraftNames, chance: &mut Chance) {
        match self {
            ListedRecord::Thread => push_thread(draft, chance),
            ListedRecord::Module => push_module(draft, names, chance),
            ListedRecord::Range => push_range(draft, chance),
            ListedRecord::Unloaded => push_unloaded(draft, names, chance),
            ListedRecord::MemoryInfo => draft.push_noise(chance, 48),
            ListedRecord::ThreadName => push_thread_name(draft, names, chance),
        }
    }
}

fn push_thread(draft: &mut Draft, chance: &mut Chance) {
    draft.push_noise(chance, 32);
    push_part(draft, chance);
    push_part(draft, chance)
}

fn push_module(draft: &mut Draft, names: &DraftNames, chance: &mut Chance) {
    draft.push_noise(chance, 20);
    draft.push_number(Belongs::Record, names.any(chance));
    draft.push_noise(chance, 52);
    push_part(draft, chance);
    push_part(draft, chance);
    draft.push_noise(chance, 16)
}

fn push_range(draft: &mut Draft, chance: &mut Chance) {
    draft.push_noise(chance, 8);
    push_part(draft, chance)
}

fn push_unloaded(draft: &mut Draft, names: &DraftNames, chance: &mut Chance) {
    draft.push_noise(chance, 20);
    draft.push_number(Belongs::Record, names.any(chance))
}

fn push_thread_name(draft: &mut Draft, names: &DraftNames, chance: &mut Chance) {
    draft.push_noise(chance, 4);
    draft.push_wide_number(Belongs::Record, u64::from(names.any(chance)))
}

/// Appends a `MINIDUMP_EXCEPTION_STREAM`.
pub fn push_exception(draft: &mut Draft, chance: &mut Chance) {
    draft.push_noise(chance, 32);
    draft.push_number(Belongs::Record, chance.below(20));
    draft.push_noise(chance, 124);
    push_part(draft, chance)
}

/// Appends a `MINIDUMP_SYSTEM_INFO`.
pub fn push_system(draft: &mut Draft, names: &DraftNames, chance: &mut Chance) {
    draft.push_noise(chance, 24);
    draft.push_number(Belongs::Record, names.any(chance));
    draft.push_noise(chance, 28)
}

fn push_part(draft: &mut Draft, chance: &mut Chance) {
    let part = any_part(draft, chance);
    draft.push_number(Belongs::Record, part.size);
    draft.push_number(Belongs::Record, part.rva);
}
