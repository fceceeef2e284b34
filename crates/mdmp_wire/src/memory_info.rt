//! A region of the dumped process's memory.

use crate::record::{Record, get_at, put_at};

/// A region of the dumped process's memory: `MINIDUMP_MEMORY_INFO`, 48 bytes.
#[derive(Clone, Copy, Debug, PartialEq, Eq)]
pub struct MemoryInfoRecord {
    /// `BaseAddress`, an address of the dumped process.
    pub base_address: u64,
    /// `AllocationBase`, an address of the dumped process.
    pub allocation_base: u64,
    /// `AllocationProtect`, the protection at first.
    pub allocation_protect: u32,
    /// `RegionSize`, in bytes.
    pub region_size: u64,
    /// `State`.
    pub state: u32,
    /// `Protect`.
    pub protect: u32,
    /// `Type`.
    pub memory_type: u32,
}

impl Record for MemoryInfoRecord {
    ghost use Rattle.mdmp_wire.specs.MemoryInfo.{memory_info_at, memory_info_bytes, memory_info_size, memory_info_at-part};

    ghost SIZE = { memory_info_size };

    const SIZE: usize = 48;

    ghost at = { memory_info_at };

    ghost bytes_of = { memory_info_bytes };

    ghost part = { memory_info_at-part };

    fn read(bytes: &[u8]) -> Self {
        MemoryInfoRecord {
            base_address: get_at(bytes, 0),
            allocation_base: get_at(bytes, 8),
            allocation_protect: get_at(bytes, 16),
            region_size: get_at(bytes, 24),
            state: get_at(bytes, 32),
            protect: get_at(bytes, 36),
            memory_type: get_at(bytes, 40),
        }
    }

    fn write(&self, out: &mut [u8]) {
        put_at(out, 0, &self.base_address);
        put_at(out, 8, &self.allocation_base);
        put_at(out, 16, &self.allocation_protect);
        put_at(out, 20, &0u32);
        put_at(out, 24, &self.region_size);
        put_at(out, 32, &self.state);
        put_at(out, 36, &self.protect);
        put_at(out, 40, &self.memory_type);
        put_at(out, 44, &0u32);
    }
}
