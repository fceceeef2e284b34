//! The head of a list of regions of memory.

use crate::record::{Record, get_at, put_at};

/// The head of a list of regions of memory: the first 16 bytes of `MINIDUMP_MEMORY_INFO_LIST`.
#[derive(Clone, Copy, Debug, PartialEq, Eq)]
pub struct MemoryInfoList {
    /// `SizeOfHeader`, in bytes: the records begin so far behind the start of the stream.
    pub size_of_header: u32,
    /// `SizeOfEntry`, in bytes: each record begins so far behind the one before it.
    pub size_of_entry: u32,
    /// `NumberOfEntries`.
    pub number_of_entries: u64,
}

impl Record for MemoryInfoList {
    ghost use Rattle.mdmp_wire.specs.MemoryInfoList.{memory_info_list_at, memory_info_list_bytes, memory_info_list_size, memory_info_list_at-part};

    ghost SIZE = { memory_info_list_size };

    const SIZE: usize = 16;

    ghost at = { memory_info_list_at };

    ghost bytes_of = { memory_info_list_bytes };

    ghost part = { memory_info_list_at-part };

    fn read(bytes: &[u8]) -> Self {
        MemoryInfoList {
            size_of_header: get_at(bytes, 0),
            size_of_entry: get_at(bytes, 4),
            number_of_entries: get_at(bytes, 8),
        }
    }

    fn write(&self, out: &mut [u8]) {
        put_at(out, 0, &self.size_of_header);
        put_at(out, 4, &self.size_of_entry);
        put_at(out, 8, &self.number_of_entries);
    }
}
