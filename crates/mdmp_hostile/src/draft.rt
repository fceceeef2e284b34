//! A file in the making.

use crate::chance::Chance;
use mdmp_source::Location;
use std::alloc::Global;

/// What a number of a file belongs to.
#[derive(Clone, Copy, PartialEq, Eq)]
pub enum Belongs {
    /// The header.
    Header,
    /// An entry of the directory.
    Directory,
    /// What stands before the records of a list.
    Head,
    /// A record.
    Record,
    /// A name: its length.
    Name,
}

/// A number that a reader goes by, and where it stands.
#[derive(Clone, Copy)]
pub struct DraftNumber {
    /// What it belongs to.
    pub belongs: Belongs,
    /// Its offset from the start of the file.
    pub at: usize,
    /// How many bytes it has, at most 8.
    pub width: usize,
}

/// An entry of the directory, and how many records its stream has.
#[derive(Clone, Copy)]
pub struct DraftEntry {
    /// `StreamType`.
    pub stream_type: u32,
    /// `Location`.
    pub location: Location,
    /// How many records are listed of it.
    pub records: u32,
}

/// A file in the making: its bytes, which of them are numbers that a reader goes by, and its entries.
#[derive(Drop)]
pub struct Draft {
    /// Its bytes so far.
    pub bytes: Vec<u8>,
    /// Its numbers so far.
    pub numbers: Vec<DraftNumber>,
    /// Its entries so far.
    pub entries: Vec<DraftEntry>,
    /// Whether memory was wanting for any of these, so that it is not as it was to be.
    pub lacks_memory: bool,
}

impl Draft {
    /// A file of no bytes.
    pub fn new(alloc: Global) -> Self {
        Draft {
            bytes: Vec::new(alloc),
            numbers: Vec::new(alloc),
            entries: Vec::new(alloc),
            lacks_memory: false,
        }
    }

    /// The offset behind its last byte.
    pub fn end(&self) -> u32 {
        u32::try_from(self.bytes.len()).unwrap_or(u32::MAX)
    }

    /// Appends bytes.
    pub fn push_bytes(&mut self, bytes: &[u8]) {
        if self.bytes.extend_from_slice(bytes).is_err() {
            self.lacks_memory = true;
        }
    }

    /// Appends a number of four bytes.
    pub fn push_word(&mut self, value: u32) {
        self.push_bytes(&value.to_le_bytes());
    }

    /// Appends numbers of four bytes.
    pub fn push_words(&mut self, values: &[u32]) {
        for value in values {
            self.push_word(*value);
        }
    }

    /// Appends a number of four bytes that a reader goes by.
    pub fn push_number(&mut self, belongs: Belongs, value: u32) {
        self.mark(belongs, 4);
        self.push_word(value);
    }

    /// Appends a number of eight bytes that a reader goes by.
    pub fn push_wide_number(&mut self, belongs: Belongs, value: u64) {
        self.mark(belongs, 8);
        self.push_bytes(&value.to_le_bytes());
    }

    /// Appends any bytes.
    pub fn push_noise(&mut self, chance: &mut Chance, size: u32) {
        for _ in 0..size {
            self.push_bytes(&[chance.byte()]);
        }
    }

    /// Appends bytes so that what follows begins at a multiple of 4, or does not.
    pub fn push_gap(&mut self, chance: &mut Chance) {
        let gap = if chance.once_in(2) {
            3 - (self.end().wrapping_sub(1) & 3)
        } else {
            chance.below(4)
        };
        self.push_noise(chance, gap);
    }

    /// Adds an entry, which is not written yet.
    pub fn add_entry(&mut self, entry: DraftEntry) {
        if self.entries.push(entry).is_err() {
            self.lacks_memory = true;
        }
    }

    /// How many entries and records a list of it has.
    pub fn item_count(&self) -> u64 {
        let mut items: u64 = 0;
        for entry in &self.entries {
            items = items.saturating_add(u64::from(entry.records).saturating_add(1));
        }
        items
    }

    /// Writes a number of so many bytes, at most 8, over what stands there.
    pub fn set(&mut self, at: usize, width: usize, value: u64) {
        let new = value.to_le_bytes();
        for k in 0..width.min(8) {
            if let Some(byte) = self.bytes.get_mut(at.saturating_add(k)) {
                *byte = new[k];
            }
        }
    }

    /// Keeps where the next number stands.
    fn mark(&mut self, belongs: Belongs, width: usize) {
        let at = self.bytes.len();
        let number = DraftNumber { belongs, at, width };
        if self.numbers.push(number).is_err() {
            self.lacks_memory = true;
        }
    }
}
