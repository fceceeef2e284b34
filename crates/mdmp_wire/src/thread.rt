//! A thread of the dumped process.

use crate::descriptor::Descriptor;
use crate::record::{Record, get_at, put_at};
use mdmp_source::Location;

/// A thread of the dumped process: `MINIDUMP_THREAD`, 48 bytes.
#[derive(Clone, Copy, Debug, PartialEq, Eq)]
pub struct ThreadRecord {
    /// `ThreadId`.
    pub thread_id: u32,
    /// `SuspendCount`.
    pub suspend_count: u32,
    /// `PriorityClass`.
    pub priority_class: u32,
    /// `Priority`.
    pub priority: u32,
    /// `Teb`, an address of the dumped process.
    pub teb: u64,
    /// `Stack`.
    pub stack: Descriptor,
    /// `ThreadContext`, of the registers, which are not read.
    pub thread_context: Location,
}

impl Record for ThreadRecord {
    ghost use Rattle.mdmp_wire.specs.Thread.{thread_at, thread_bytes, thread_size, thread_at-part};

    ghost SIZE = { thread_size };

    const SIZE: usize = 48;

    ghost at = { thread_at };

    ghost bytes_of = { thread_bytes };

    ghost part = { thread_at-part };

    fn read(bytes: &[u8]) -> Self {
        ThreadRecord {
            thread_id: get_at(bytes, 0),
            suspend_count: get_at(bytes, 4),
            priority_class: get_at(bytes, 8),
            priority: get_at(bytes, 12),
            teb: get_at(bytes, 16),
            stack: get_at(bytes, 24),
            thread_context: get_at(bytes, 40),
        }
    }

    fn write(&self, out: &mut [u8]) {
        put_at(out, 0, &self.thread_id);
        put_at(out, 4, &self.suspend_count);
        put_at(out, 8, &self.priority_class);
        put_at(out, 12, &self.priority);
        put_at(out, 16, &self.teb);
        put_at(out, 24, &self.stack);
        put_at(out, 40, &self.thread_context);
    }
}
