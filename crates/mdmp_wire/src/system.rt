//! The system that the dumped process ran on.

use crate::record::{Record, get_at, put_at};

/// The system that the dumped process ran on: `MINIDUMP_SYSTEM_INFO`, 56 bytes.
#[derive(Clone, Copy, Debug, PartialEq, Eq)]
pub struct SystemRecord {
    /// `ProcessorArchitecture`.
    pub processor_architecture: u16,
    /// `ProcessorLevel`.
    pub processor_level: u16,
    /// `ProcessorRevision`.
    pub processor_revision: u16,
    /// `NumberOfProcessors`.
    pub number_of_processors: u8,
    /// `ProductType`.
    pub product_type: u8,
    /// `MajorVersion`.
    pub major_version: u32,
    /// `MinorVersion`.
    pub minor_version: u32,
    /// `BuildNumber`.
    pub build_number: u32,
    /// `PlatformId`.
    pub platform_id: u32,
    /// `CSDVersionRva`, of the name of the service pack, an offset from the start of the file; 0
    /// where it has none.
    pub csd_version_rva: u32,
    /// `SuiteMask`.
    pub suite_mask: u16,
    /// `Reserved2`, which is kept.
    pub reserved2: u16,
    /// `Cpu`, whose 24 bytes are kept as they are.
    pub cpu: [u8; 24],
}

impl Record for SystemRecord {
    ghost use Rattle.mdmp_wire.specs.System.{system_at, system_bytes, system_size, system_at-part};

    ghost SIZE = { system_size };

    const SIZE: usize = 56;

    ghost at = { system_at };

    ghost bytes_of = { system_bytes };

    ghost part = { system_at-part };

    fn read(bytes: &[u8]) -> Self {
        SystemRecord {
            processor_architecture: get_at(bytes, 0),
            processor_level: get_at(bytes, 2),
            processor_revision: get_at(bytes, 4),
            number_of_processors: get_at(bytes, 6),
            product_type: get_at(bytes, 7),
            major_version: get_at(bytes, 8),
            minor_version: get_at(bytes, 12),
            build_number: get_at(bytes, 16),
            platform_id: get_at(bytes, 20),
            csd_version_rva: get_at(bytes, 24),
            suite_mask: get_at(bytes, 28),
            reserved2: get_at(bytes, 30),
            cpu: get_at(bytes, 32),
        }
    }

    fn write(&self, out: &mut [u8]) {
        put_at(out, 0, &self.processor_architecture);
        put_at(out, 2, &self.processor_level);
        put_at(out, 4, &self.processor_revision);
        put_at(out, 6, &self.number_of_processors);
        put_at(out, 7, &self.product_type);
        put_at(out, 8, &self.major_version);
        put_at(out, 12, &self.minor_version);
        put_at(out, 16, &self.build_number);
        put_at(out, 20, &self.platform_id);
        put_at(out, 24, &self.csd_version_rva);
        put_at(out, 28, &self.suite_mask);
        put_at(out, 30, &self.reserved2);
        put_at(out, 32, &self.cpu);
    }
}
