//! A region of memory of a dump, which is the record itself.
//! Made by bindings/generate from bindings/kinds.toml.
ghost use Rattle.std.specs.Prelude.{◌≡◌};
ghost use Rattle.mdmp_lister.specs.declared.kind.StreamKind.TheVariants as kinds;
ghost use Rattle.mdmp_wire.specs.MemoryInfo.{memory_info_at};
ghost use Rattle.mdmp_dump.specs.MemoryInfo.{memory_info_seen};

use crate::given::Given;
use crate::record_parts::RecordParts;
use crate::row::Row;
use crate::view::{Fields, PartSize};
use mdmp_wire::{AnyRecord, MemoryInfoRecord};
use std::alloc::Allocator;

impl<A: Allocator + Copy> Row<A> for MemoryInfoRecord {
    ghost kind = { kinds.MemoryInfo };

    ghost IsAt = { λ file at k o row. memory_info_at file o ≡ row };

    fn of(wire: AnyRecord, parts: &mut RecordParts<A>) -> Option<Self> {
        let AnyRecord::MemoryInfo(region) = wire else {
            return None;
        };
        Some(region)
    }
}

impl Given for MemoryInfoRecord {
    ghost see = { memory_info_seen };

    fn fields(&self) -> Fields {
        Fields {
            wire: AnyRecord::MemoryInfo(*self),
            parts: [PartSize::NoPart, PartSize::NoPart, PartSize::NoPart],
        }
    }

    fn part(&self, _which: usize) -> &[u8] {
        &[]
    }
}
