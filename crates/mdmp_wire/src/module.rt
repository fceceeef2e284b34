//! A module of the dumped process.

use crate::record::{Record, get_at, put_at};
use crate::version::VersionInfo;
use mdmp_source::Location;

/// A module of the dumped process: `MINIDUMP_MODULE`, 108 bytes.
#[derive(Clone, Copy, Debug, PartialEq, Eq)]
pub struct ModuleRecord {
    /// `BaseOfImage`, an address of the dumped process.
    pub base_of_image: u64,
    /// `SizeOfImage`, in bytes.
    pub size_of_image: u32,
    /// `CheckSum`.
    pub checksum: u32,
    /// `TimeDateStamp`, in seconds since 1970.
    pub time_date_stamp: u32,
    /// `ModuleNameRva`, an offset from the start of the file; 0 where it has no name.
    pub module_name_rva: u32,
    /// `VersionInfo`.
    pub version_info: VersionInfo,
    /// `CvRecord`, of its CodeView record.
    pub cv_record: Location,
    /// `MiscRecord`, of its miscellaneous debug record.
    pub misc_record: Location,
    /// `Reserved0`, which is kept.
    pub reserved0: u64,
    /// `Reserved1`, which is kept.
    pub reserved1: u64,
}

impl Record for ModuleRecord {
    ghost use Rattle.mdmp_wire.specs.Module.{module_at, module_bytes, module_size, module_at-part};

    ghost SIZE = { module_size };

    const SIZE: usize = 108;

    ghost at = { module_at };

    ghost bytes_of = { module_bytes };

    ghost part = { module_at-part };

    fn read(bytes: &[u8]) -> Self {
        ModuleRecord {
            base_of_image: get_at(bytes, 0),
            size_of_image: get_at(bytes, 8),
            checksum: get_at(bytes, 12),
            time_date_stamp: get_at(bytes, 16),
            module_name_rva: get_at(bytes, 20),
            version_info: get_at(bytes, 24),
            cv_record: get_at(bytes, 76),
            misc_record: get_at(bytes, 84),
            reserved0: get_at(bytes, 92),
            reserved1: get_at(bytes, 100),
        }
    }

    fn write(&self, out: &mut [u8]) {
        put_at(out, 0, &self.base_of_image);
        put_at(out, 8, &self.size_of_image);
        put_at(out, 12, &self.checksum);
        put_at(out, 16, &self.time_date_stamp);
        put_at(out, 20, &self.module_name_rva);
        put_at(out, 24, &self.version_info);
        put_at(out, 76, &self.cv_record);
        put_at(out, 84, &self.misc_record);
        put_at(out, 92, &self.reserved0);
        put_at(out, 100, &self.reserved1);
    }
}
