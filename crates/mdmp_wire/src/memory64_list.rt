//! The head of a list of ranges of memory whose bytes follow each other.

use crate::record::{Record, get_at, put_at};

/// The head of a list of ranges of memory whose bytes follow each other: the first 16 bytes of `MINIDUMP_MEMORY64_LIST`.
#[derive(Clone, Copy, Debug, PartialEq, Eq)]
pub struct Memory64List {
    /// `NumberOfMemoryRanges`.
    pub number_of_memory_ranges: u64,
    /// `BaseRva`, where the bytes of the first range stand: an offset from the start of the file.
    pub base_rva: u64,
}

impl Record for Memory64List {
    ghost use Rattle.mdmp_wire.specs.Memory64List.{memory64_list_at, memory64_list_bytes, memory64_list_size, memory64_list_at-part};

    ghost SIZE = { memory64_list_size };

    const SIZE: usize = 16;

    ghost at = { memory64_list_at };

    ghost bytes_of = { memory64_list_bytes };

    ghost part = { memory64_list_at-part };

    fn read(bytes: &[u8]) -> Self {
        Memory64List {
            number_of_memory_ranges: get_at(bytes, 0),
            base_rva: get_at(bytes, 8),
        }
    }

    fn write(&self, out: &mut [u8]) {
        put_at(out, 0, &self.number_of_memory_ranges);
        put_at(out, 8, &self.base_rva);
    }
}
