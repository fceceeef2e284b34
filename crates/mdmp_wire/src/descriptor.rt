//! A range of the dumped process's memory, and where its bytes stand.

use crate::record::{Record, get_at, put_at};
use mdmp_source::Location;

/// A range of the dumped process's memory, and where its bytes stand: `MINIDUMP_MEMORY_DESCRIPTOR`,
/// 16 bytes.
#[derive(Clone, Copy, Debug, PartialEq, Eq)]
pub struct Descriptor {
    /// `StartOfMemoryRange`, an address of the dumped process.
    pub start_of_memory_range: u64,
    /// `Memory`, of its bytes.
    pub memory: Location,
}

impl Record for Descriptor {
    ghost use Rattle.mdmp_wire.specs.Descriptor.{descriptor_at, descriptor_bytes, descriptor_size, descriptor_at-part};

    ghost SIZE = { descriptor_size };

    const SIZE: usize = 16;

    ghost at = { descriptor_at };

    ghost bytes_of = { descriptor_bytes };

    ghost part = { descriptor_at-part };

    fn read(bytes: &[u8]) -> Self {
        Descriptor {
            start_of_memory_range: get_at(bytes, 0),
            memory: get_at(bytes, 8),
        }
    }

    fn write(&self, out: &mut [u8]) {
        put_at(out, 0, &self.start_of_memory_range);
        put_at(out, 8, &self.memory);
    }
}
