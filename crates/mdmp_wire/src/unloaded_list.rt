//! The head of a list of unloaded modules.

use crate::record::{Record, get_at, put_at};

/// The head of a list of unloaded modules: the first 12 bytes of `MINIDUMP_UNLOADED_MODULE_LIST`.
#[derive(Clone, Copy, Debug, PartialEq, Eq)]
pub struct UnloadedList {
    /// `SizeOfHeader`, in bytes: the records begin so far behind the start of the stream.
    pub size_of_header: u32,
    /// `SizeOfEntry`, in bytes: each record begins so far behind the one before it.
    pub size_of_entry: u32,
    /// `NumberOfEntries`.
    pub number_of_entries: u32,
}

impl Record for UnloadedList {
    ghost use Rattle.mdmp_wire.specs.UnloadedList.{unloaded_list_at, unloaded_list_bytes, unloaded_list_size, unloaded_list_at-part};

    ghost SIZE = { unloaded_list_size };

    const SIZE: usize = 12;

    ghost at = { unloaded_list_at };

    ghost bytes_of = { unloaded_list_bytes };

    ghost part = { unloaded_list_at-part };

    fn read(bytes: &[u8]) -> Self {
        UnloadedList {
            size_of_header: get_at(bytes, 0),
            size_of_entry: get_at(bytes, 4),
            number_of_entries: get_at(bytes, 8),
        }
    }

    fn write(&self, out: &mut [u8]) {
        put_at(out, 0, &self.size_of_header);
        put_at(out, 4, &self.size_of_entry);
        put_at(out, 8, &self.number_of_entries);
    }
}
