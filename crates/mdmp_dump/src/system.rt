//! The system of a dump.
//! Made by bindings/generate from bindings/kinds.toml.
ghost use Rattle.mdmp_lister.specs.declared.kind.StreamKind.TheVariants as kinds;
ghost use Rattle.mdmp_dump.specs.System.{IsSystem, system_seen};

use crate::given::{Given, name_size, unit_bytes};
use crate::record_parts::RecordParts;
use crate::row::Row;
use crate::view::{Fields, PartSize};
use mdmp_wire::{AnyRecord, SystemRecord, Units};
use std::alloc::Allocator;

/// The system that the dumped process ran on: `MINIDUMP_SYSTEM_INFO`.
#[derive(Drop)]
#[derive_where(Debug, PartialEq, Eq)]
pub struct System<A: Allocator> {
    /// `ProcessorArchitecture`.
    pub processor_architecture: u16,
    /// `ProcessorLevel`.
    pub processor_level: u16,
    /// `ProcessorRevision`.
    pub processor_revision: u16,
    /// `NumberOfProcessors`.
    pub number_of_processors: u8,
    /// `ProductType`.
    pub product_type: u8,
    /// `MajorVersion`.
    pub major_version: u32,
    /// `MinorVersion`.
    pub minor_version: u32,
    /// `BuildNumber`.
    pub build_number: u32,
    /// `PlatformId`.
    pub platform_id: u32,
    /// The name at its `CSDVersionRva`, of the service pack; none where that is 0.
    pub name: Option<Units<A>>,
    /// `SuiteMask`.
    pub suite_mask: u16,
    /// `Reserved2`, which is kept.
    pub reserved2: u16,
    /// `Cpu`, whose 24 bytes are kept as they are.
    pub cpu: [u8; 24],
}

impl<A: Allocator + Copy> Row<A> for System<A> {
    ghost kind = { kinds.System };

    ghost IsAt = { λ file at k. IsSystem file };

    fn of(wire: AnyRecord, parts: &mut RecordParts<A>) -> Option<Self> {
        let AnyRecord::System(system) = wire else {
            return None;
        };
        let cpu = system.cpu;
        Some(System {
            processor_architecture: system.processor_architecture,
            processor_level: system.processor_level,
            processor_revision: system.processor_revision,
            number_of_processors: system.number_of_processors,
            product_type: system.product_type,
            major_version: system.major_version,
            minor_version: system.minor_version,
            build_number: system.build_number,
            platform_id: system.platform_id,
            name: parts.name.take(),
            suite_mask: system.suite_mask,
            reserved2: system.reserved2,
            cpu,
        })
    }
}

impl<A: Allocator> Given for System<A> {
    ghost see = { system_seen };

    fn fields(&self) -> Fields {
        Fields {
            wire: AnyRecord::System(SystemRecord {
                processor_architecture: self.processor_architecture,
                processor_level: self.processor_level,
                processor_revision: self.processor_revision,
                number_of_processors: self.number_of_processors,
                product_type: self.product_type,
                major_version: self.major_version,
                minor_version: self.minor_version,
                build_number: self.build_number,
                platform_id: self.platform_id,
                csd_version_rva: 0,
                suite_mask: self.suite_mask,
                reserved2: self.reserved2,
                cpu: self.cpu,
            }),
            parts: [name_size(&self.name), PartSize::NoPart, PartSize::NoPart],
        }
    }

    fn part(&self, which: usize) -> &[u8] {
        match which {
            0 => unit_bytes(&self.name),
            _ => &[],
        }
    }
}
