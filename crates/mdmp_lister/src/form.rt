//! What stands before the records of a stream.
ghost use Rattle.std.specs.Prelude.{◌≡◌, ◌≤◌};
ghost use Rattle.mdmp_lister.specs.Format.Shape.{head_cost, head_size};

use mdmp_wire::{Memory64List, MemoryInfoList, Record, UnloadedList};

/// What stands before the records of a stream, and so where they stand.
#[derive(Clone, Copy, Debug, PartialEq, Eq)]
pub enum Form {
    /// Their count, of 32 bits, and padding where the stream has exactly 4 bytes more than it needs.
    Counted,
    /// Nothing: the stream is one record.
    Single,
    /// Their count, of 64 bits, and where the bytes of the ranges begin: `MINIDUMP_MEMORY64_LIST`.
    Ranges64,
    /// Its own size, that of a record, and their count, of 32 bits: `MINIDUMP_UNLOADED_MODULE_LIST`.
    Sized32,
    /// The same with a count of 64 bits: `MINIDUMP_MEMORY_INFO_LIST`.
    Sized64,
}

impl Form {
    /// How many bytes stand before the records, at least.
    pub fn head_cost(self) -> u32
        ensures value { result ≡ head_cost self }
        ensures bound { result ≤ 16 }
    {
        let size = match self {
            Form::Counted => <u32 as Record>::SIZE,
            Form::Single => 0,
            Form::Ranges64 => Memory64List::SIZE,
            Form::Sized32 => UnloadedList::SIZE,
            Form::Sized64 => MemoryInfoList::SIZE,
        };
        size as u32
    }

    /// How many bytes a stream has at least, whose records have so many each: those of its head, or
    /// of its one record.
    pub(crate) fn head_size(self, record_size: u32) -> u32
        ensures { result ≡ head_size self record_size }
    {
        match self {
            Form::Single => record_size,
            _ => self.head_cost(),
        }
    }
}
