//! A thread of a dump.
//! Made by bindings/generate from bindings/kinds.toml.
ghost use Rattle.mdmp_lister.specs.declared.kind.StreamKind.TheVariants as kinds;
ghost use Rattle.mdmp_dump.specs.Thread.{IsThread, thread_seen};

use crate::given::{Given, bytes_of, nowhere, size_of};
use crate::part::Part;
use crate::record_parts::{RecordParts, take_part};
use crate::row::Row;
use crate::view::{Fields, PartSize};
use mdmp_wire::{AnyRecord, Descriptor, ThreadRecord};
use std::alloc::Allocator;

/// A thread of the dumped process: `MINIDUMP_THREAD`.
#[derive(Drop)]
#[derive_where(Debug, PartialEq, Eq)]
pub struct Thread<A: Allocator> {
    /// `ThreadId`.
    pub thread_id: u32,
    /// `SuspendCount`.
    pub suspend_count: u32,
    /// `PriorityClass`.
    pub priority_class: u32,
    /// `Priority`.
    pub priority: u32,
    /// `Teb`, an address of the dumped process.
    pub teb: u64,
    /// `StartOfMemoryRange` of its `Stack`, an address of the dumped process.
    pub stack_start: u64,
    /// The bytes of its `Stack`.
    pub stack: Part<A>,
    /// The registers, its `ThreadContext`.
    pub context: Part<A>,
}

impl<A: Allocator + Copy> Row<A> for Thread<A> {
    ghost kind = { kinds.Threads };

    ghost IsAt = { λ file at k. IsThread file };

    fn of(wire: AnyRecord, parts: &mut RecordParts<A>) -> Option<Self> {
        let AnyRecord::Thread(thread) = wire else {
            return None;
        };
        Some(Thread {
            thread_id: thread.thread_id,
            suspend_count: thread.suspend_count,
            priority_class: thread.priority_class,
            priority: thread.priority,
            teb: thread.teb,
            stack_start: thread.stack.start_of_memory_range,
            stack: take_part(&mut parts.first, parts.alloc),
            context: take_part(&mut parts.second, parts.alloc),
        })
    }
}

impl<A: Allocator> Given for Thread<A> {
    ghost see = { thread_seen };

    fn fields(&self) -> Fields {
        Fields {
            wire: AnyRecord::Thread(ThreadRecord {
                thread_id: self.thread_id,
                suspend_count: self.suspend_count,
                priority_class: self.priority_class,
                priority: self.priority,
                teb: self.teb,
                stack: Descriptor {
                    start_of_memory_range: self.stack_start,
                    memory: nowhere(),
                },
                thread_context: nowhere(),
            }),
            parts: [
                size_of(&self.stack),
                size_of(&self.context),
                PartSize::NoPart,
            ],
        }
    }

    fn part(&self, which: usize) -> &[u8] {
        match which {
            0 => bytes_of(&self.stack),
            1 => bytes_of(&self.context),
            _ => &[],
        }
    }
}
