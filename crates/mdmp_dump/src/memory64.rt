//! A range of a 64-bit memory list of a dump.
ghost use Rattle.mdmp_lister.specs.declared.kind.StreamKind.TheVariants as kinds;
ghost use Rattle.mdmp_dump.specs.Memory64.{IsMemory64, memory64_seen};

use crate::bytes::Bytes;
use crate::given::Given;
use crate::part::Part;
use crate::record_parts::{RecordParts, take_part};
use crate::row::Row;
use crate::view::{Fields, PartSize};
use mdmp_wire::{AnyRecord, Descriptor64};
use std::alloc::Allocator;

/// A range of the dumped process's memory, which is never absent: `MINIDUMP_MEMORY_DESCRIPTOR64`.
#[derive(Drop)]
#[derive_where(Debug, PartialEq, Eq)]
pub struct Memory64Range<A: Allocator> {
    /// `StartOfMemoryRange`, an address of the dumped process.
    pub start: u64,
    /// Its bytes, `DataSize` of them.
    pub bytes: Bytes<A>,
}

impl<A: Allocator + Copy> Row<A> for Memory64Range<A> {
    ghost kind = { kinds.Memory64 };

    ghost IsAt = { λ file. IsMemory64 file };

    fn of(wire: AnyRecord, parts: &mut RecordParts<A>) -> Option<Self> {
        let AnyRecord::Memory64(range) = wire else {
            return None;
        };
        let Part::Bytes(bytes) = take_part(&mut parts.first, parts.alloc) else {
            return None;
        };
        Some(Memory64Range {
            start: range.start_of_memory_range,
            bytes,
        })
    }
}

impl<A: Allocator> Given for Memory64Range<A> {
    ghost see = { memory64_seen };

    fn fields(&self) -> Fields {
        let size = self.bytes.as_slice().len() as u64;
        Fields {
            wire: AnyRecord::Memory64(Descriptor64 {
                start_of_memory_range: self.start,
                data_size: size,
            }),
            parts: [PartSize::Size(size), PartSize::NoPart, PartSize::NoPart],
        }
    }

    fn part(&self, which: usize) -> &[u8] {
        match which {
            0 => self.bytes.as_slice(),
            _ => &[],
        }
    }
}
