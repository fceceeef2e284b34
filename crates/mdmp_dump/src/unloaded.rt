//! An unloaded module of a dump.
//! Made by bindings/generate from bindings/kinds.toml.
ghost use Rattle.mdmp_lister.specs.declared.kind.StreamKind.TheVariants as kinds;
ghost use Rattle.mdmp_dump.specs.Unloaded.{IsUnloaded, unloaded_seen};

use crate::given::{Given, name_size, unit_bytes};
use crate::record_parts::RecordParts;
use crate::row::Row;
use crate::view::{Fields, PartSize};
use mdmp_wire::{AnyRecord, Units, UnloadedRecord};
use std::alloc::Allocator;

/// A module that the dumped process had unloaded: `MINIDUMP_UNLOADED_MODULE`.
#[derive(Drop)]
#[derive_where(Debug, PartialEq, Eq)]
pub struct Unloaded<A: Allocator> {
    /// `BaseOfImage`, an address of the dumped process.
    pub base_of_image: u64,
    /// `SizeOfImage`, in bytes.
    pub size_of_image: u32,
    /// `CheckSum`.
    pub checksum: u32,
    /// `TimeDateStamp`, in seconds since 1970.
    pub time_date_stamp: u32,
    /// The name at its `ModuleNameRva`; none where that is 0.
    pub name: Option<Units<A>>,
}

impl<A: Allocator + Copy> Row<A> for Unloaded<A> {
    ghost kind = { kinds.Unloaded };

    ghost IsAt = { λ file at k. IsUnloaded file };

    fn of(wire: AnyRecord, parts: &mut RecordParts<A>) -> Option<Self> {
        let AnyRecord::Unloaded(module) = wire else {
            return None;
        };
        Some(Unloaded {
            base_of_image: module.base_of_image,
            size_of_image: module.size_of_image,
            checksum: module.checksum,
            time_date_stamp: module.time_date_stamp,
            name: parts.name.take(),
        })
    }
}

impl<A: Allocator> Given for Unloaded<A> {
    ghost see = { unloaded_seen };

    fn fields(&self) -> Fields {
        Fields {
            wire: AnyRecord::Unloaded(UnloadedRecord {
                base_of_image: self.base_of_image,
                size_of_image: self.size_of_image,
                checksum: self.checksum,
                time_date_stamp: self.time_date_stamp,
                module_name_rva: 0,
            }),
            parts: [name_size(&self.name), PartSize::NoPart, PartSize::NoPart],
        }
    }

    fn part(&self, which: usize) -> &[u8] {
        match which {
            0 => unit_bytes(&self.name),
            _ => &[],
        }
    }
}
