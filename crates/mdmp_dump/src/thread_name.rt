//! The name of a thread of a dump.
//! Made by bindings/generate from bindings/kinds.toml.
ghost use Rattle.mdmp_lister.specs.declared.kind.StreamKind.TheVariants as kinds;
ghost use Rattle.mdmp_dump.specs.ThreadName.{IsThreadName, thread_name_seen};

use crate::given::{Given, name_size, unit_bytes};
use crate::record_parts::RecordParts;
use crate::row::Row;
use crate::view::{Fields, PartSize};
use mdmp_wire::{AnyRecord, ThreadNameRecord, Units};
use std::alloc::Allocator;

/// The name of a thread: `MINIDUMP_THREAD_NAME`.
#[derive(Drop)]
#[derive_where(Debug, PartialEq, Eq)]
pub struct ThreadName<A: Allocator> {
    /// `ThreadId`.
    pub thread_id: u32,
    /// The name at its `RvaOfThreadName`; none where that is 0.
    pub name: Option<Units<A>>,
}

impl<A: Allocator + Copy> Row<A> for ThreadName<A> {
    ghost kind = { kinds.ThreadNames };

    ghost IsAt = { λ file at k. IsThreadName file };

    fn of(wire: AnyRecord, parts: &mut RecordParts<A>) -> Option<Self> {
        let AnyRecord::ThreadName(thread) = wire else {
            return None;
        };
        Some(ThreadName {
            thread_id: thread.thread_id,
            name: parts.name.take(),
        })
    }
}

impl<A: Allocator> Given for ThreadName<A> {
    ghost see = { thread_name_seen };

    fn fields(&self) -> Fields {
        Fields {
            wire: AnyRecord::ThreadName(ThreadNameRecord {
                thread_id: self.thread_id,
                rva_of_thread_name: 0,
            }),
            parts: [name_size(&self.name), PartSize::NoPart, PartSize::NoPart],
        }
    }

    fn part(&self, which: usize) -> &[u8] {
        match which {
            0 => unit_bytes(&self.name),
            _ => &[],
        }
    }
}
