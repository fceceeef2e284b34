//! A range of memory of a dump.
//! Made by bindings/generate from bindings/kinds.toml.
ghost use Rattle.mdmp_lister.specs.declared.kind.StreamKind.TheVariants as kinds;
ghost use Rattle.mdmp_dump.specs.Memory.{IsMemory, memory_seen};

use crate::given::{Given, bytes_of, nowhere, size_of};
use crate::part::Part;
use crate::record_parts::{RecordParts, take_part};
use crate::row::Row;
use crate::view::{Fields, PartSize};
use mdmp_wire::{AnyRecord, Descriptor};
use std::alloc::Allocator;

/// A range of the dumped process's memory: `MINIDUMP_MEMORY_DESCRIPTOR`.
#[derive(Drop)]
#[derive_where(Debug, PartialEq, Eq)]
pub struct MemoryRange<A: Allocator> {
    /// `StartOfMemoryRange`, an address of the dumped process.
    pub start: u64,
    /// Its bytes, `Memory`.
    pub bytes: Part<A>,
}

impl<A: Allocator + Copy> Row<A> for MemoryRange<A> {
    ghost kind = { kinds.Memory };

    ghost IsAt = { λ file at k. IsMemory file };

    fn of(wire: AnyRecord, parts: &mut RecordParts<A>) -> Option<Self> {
        let AnyRecord::Memory(range) = wire else {
            return None;
        };
        Some(MemoryRange {
            start: range.start_of_memory_range,
            bytes: take_part(&mut parts.first, parts.alloc),
        })
    }
}

impl<A: Allocator> Given for MemoryRange<A> {
    ghost see = { memory_seen };

    fn fields(&self) -> Fields {
        Fields {
            wire: AnyRecord::Memory(Descriptor {
                start_of_memory_range: self.start,
                memory: nowhere(),
            }),
            parts: [size_of(&self.bytes), PartSize::NoPart, PartSize::NoPart],
        }
    }

    fn part(&self, which: usize) -> &[u8] {
        match which {
            0 => bytes_of(&self.bytes),
            _ => &[],
        }
    }
}
