//! A range of the dumped process's memory whose bytes follow those of the ranges before it.

use crate::record::{Record, get_at, put_at};

/// A range of the dumped process's memory whose bytes follow those of the ranges before it:
/// `MINIDUMP_MEMORY_DESCRIPTOR64`, 16 bytes.
#[derive(Clone, Copy, Debug, PartialEq, Eq)]
pub struct Descriptor64 {
    /// `StartOfMemoryRange`, an address of the dumped process.
    pub start_of_memory_range: u64,
    /// `DataSize`, in bytes.
    pub data_size: u64,
}

impl Record for Descriptor64 {
    ghost use Rattle.mdmp_wire.specs.Descriptor64.{descriptor64_at, descriptor64_bytes, descriptor64_size, descriptor64_at-part};

    ghost SIZE = { descriptor64_size };

    const SIZE: usize = 16;

    ghost at = { descriptor64_at };

    ghost bytes_of = { descriptor64_bytes };

    ghost part = { descriptor64_at-part };

    fn read(bytes: &[u8]) -> Self {
        Descriptor64 {
            start_of_memory_range: get_at(bytes, 0),
            data_size: get_at(bytes, 8),
        }
    }

    fn write(&self, out: &mut [u8]) {
        put_at(out, 0, &self.start_of_memory_range);
        put_at(out, 8, &self.data_size);
    }
}
