//! A module that the dumped process had unloaded.

use crate::record::{Record, get_at, put_at};

/// A module that the dumped process had unloaded: `MINIDUMP_UNLOADED_MODULE`, 24 bytes.
#[derive(Clone, Copy, Debug, PartialEq, Eq)]
pub struct UnloadedRecord {
    /// `BaseOfImage`, an address of the dumped process.
    pub base_of_image: u64,
    /// `SizeOfImage`, in bytes.
    pub size_of_image: u32,
    /// `CheckSum`.
    pub checksum: u32,
    /// `TimeDateStamp`, in seconds since 1970.
    pub time_date_stamp: u32,
    /// `ModuleNameRva`, an offset from the start of the file; 0 where it has no name.
    pub module_name_rva: u32,
}

impl Record for UnloadedRecord {
    ghost use Rattle.mdmp_wire.specs.Unloaded.{unloaded_at, unloaded_bytes, unloaded_size, unloaded_at-part};

    ghost SIZE = { unloaded_size };

    const SIZE: usize = 24;

    ghost at = { unloaded_at };

    ghost bytes_of = { unloaded_bytes };

    ghost part = { unloaded_at-part };

    fn read(bytes: &[u8]) -> Self {
        UnloadedRecord {
            base_of_image: get_at(bytes, 0),
            size_of_image: get_at(bytes, 8),
            checksum: get_at(bytes, 12),
            time_date_stamp: get_at(bytes, 16),
            module_name_rva: get_at(bytes, 20),
        }
    }

    fn write(&self, out: &mut [u8]) {
        put_at(out, 0, &self.base_of_image);
        put_at(out, 8, &self.size_of_image);
        put_at(out, 12, &self.checksum);
        put_at(out, 16, &self.time_date_stamp);
        put_at(out, 20, &self.module_name_rva);
    }
}
