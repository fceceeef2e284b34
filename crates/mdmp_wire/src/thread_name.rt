//! The name of a thread.

use crate::record::{Record, get_at, put_at};

/// The name of a thread: `MINIDUMP_THREAD_NAME`, 12 bytes. It is packed, so that its 64-bit field is
/// not aligned.
#[derive(Clone, Copy, Debug, PartialEq, Eq)]
pub struct ThreadNameRecord {
    /// `ThreadId`.
    pub thread_id: u32,
    /// `RvaOfThreadName`, an offset of 64 bits from the start of the file; 0 where it has no name.
    pub rva_of_thread_name: u64,
}

impl Record for ThreadNameRecord {
    ghost use Rattle.mdmp_wire.specs.ThreadName.{thread_name_at, thread_name_bytes, thread_name_size, thread_name_at-part};

    ghost SIZE = { thread_name_size };

    const SIZE: usize = 12;

    ghost at = { thread_name_at };

    ghost bytes_of = { thread_name_bytes };

    ghost part = { thread_name_at-part };

    fn read(bytes: &[u8]) -> Self {
        ThreadNameRecord {
            thread_id: get_at(bytes, 0),
            rva_of_thread_name: get_at(bytes, 4),
        }
    }

    fn write(&self, out: &mut [u8]) {
        put_at(out, 0, &self.thread_id);
        put_at(out, 4, &self.rva_of_thread_name);
    }
}
