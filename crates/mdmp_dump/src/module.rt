//! A module of a dump.
//! Made by bindings/generate from bindings/kinds.toml.
ghost use Rattle.mdmp_lister.specs.declared.kind.StreamKind.TheVariants as kinds;
ghost use Rattle.mdmp_dump.specs.Module.{IsModule, module_seen};

use crate::given::{Given, bytes_of, name_size, nowhere, size_of, unit_bytes};
use crate::part::Part;
use crate::record_parts::{RecordParts, take_part};
use crate::row::Row;
use crate::view::Fields;
use mdmp_wire::{AnyRecord, ModuleRecord, Units, VersionInfo};
use std::alloc::Allocator;

/// A module of the dumped process: `MINIDUMP_MODULE`.
#[derive(Drop)]
#[derive_where(Debug, PartialEq, Eq)]
pub struct Module<A: Allocator> {
    /// `BaseOfImage`, an address of the dumped process.
    pub base_of_image: u64,
    /// `SizeOfImage`, in bytes.
    pub size_of_image: u32,
    /// `CheckSum`.
    pub checksum: u32,
    /// `TimeDateStamp`, in seconds since 1970.
    pub time_date_stamp: u32,
    /// The name at its `ModuleNameRva`; none where that is 0.
    pub name: Option<Units<A>>,
    /// `VersionInfo`.
    pub version_info: VersionInfo,
    /// Its CodeView record, `CvRecord`.
    pub codeview: Part<A>,
    /// Its miscellaneous debug record, `MiscRecord`.
    pub misc: Part<A>,
    /// `Reserved0`, which is kept.
    pub reserved0: u64,
    /// `Reserved1`, which is kept.
    pub reserved1: u64,
}

impl<A: Allocator + Copy> Row<A> for Module<A> {
    ghost kind = { kinds.Modules };

    ghost IsAt = { λ file at k. IsModule file };

    fn of(wire: AnyRecord, parts: &mut RecordParts<A>) -> Option<Self> {
        let AnyRecord::Module(module) = wire else {
            return None;
        };
        Some(Module {
            base_of_image: module.base_of_image,
            size_of_image: module.size_of_image,
            checksum: module.checksum,
            time_date_stamp: module.time_date_stamp,
            name: parts.name.take(),
            version_info: module.version_info,
            codeview: take_part(&mut parts.second, parts.alloc),
            misc: take_part(&mut parts.third, parts.alloc),
            reserved0: module.reserved0,
            reserved1: module.reserved1,
        })
    }
}

impl<A: Allocator> Given for Module<A> {
    ghost see = { module_seen };

    fn fields(&self) -> Fields {
        Fields {
            wire: AnyRecord::Module(ModuleRecord {
                base_of_image: self.base_of_image,
                size_of_image: self.size_of_image,
                checksum: self.checksum,
                time_date_stamp: self.time_date_stamp,
                module_name_rva: 0,
                version_info: self.version_info,
                cv_record: nowhere(),
                misc_record: nowhere(),
                reserved0: self.reserved0,
                reserved1: self.reserved1,
            }),
            parts: [
                name_size(&self.name),
                size_of(&self.codeview),
                size_of(&self.misc),
            ],
        }
    }

    fn part(&self, which: usize) -> &[u8] {
        match which {
            0 => unit_bytes(&self.name),
            1 => bytes_of(&self.codeview),
            2 => bytes_of(&self.misc),
            _ => &[],
        }
    }
}
