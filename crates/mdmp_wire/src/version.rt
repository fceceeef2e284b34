//! The version of a module.

use crate::record::{Record, get_at, put_at};

/// The version of a module: `VS_FIXEDFILEINFO` of verrsrc.h, 52 bytes.
#[derive(Clone, Copy, Debug, PartialEq, Eq)]
pub struct VersionInfo {
    /// `dwSignature`.
    pub signature: u32,
    /// `dwStrucVersion`.
    pub structure_version: u32,
    /// `dwFileVersionMS`, the first two of the file version's four numbers.
    pub file_version_ms: u32,
    /// `dwFileVersionLS`, the last two.
    pub file_version_ls: u32,
    /// `dwProductVersionMS`.
    pub product_version_ms: u32,
    /// `dwProductVersionLS`.
    pub product_version_ls: u32,
    /// `dwFileFlagsMask`.
    pub file_flags_mask: u32,
    /// `dwFileFlags`.
    pub file_flags: u32,
    /// `dwFileOS`.
    pub file_os: u32,
    /// `dwFileType`.
    pub file_type: u32,
    /// `dwFileSubtype`.
    pub file_subtype: u32,
    /// `dwFileDateMS`.
    pub file_date_ms: u32,
    /// `dwFileDateLS`.
    pub file_date_ls: u32,
}

impl Record for VersionInfo {
    ghost use Rattle.mdmp_wire.specs.Version.{version_at, version_bytes, version_at-part};

    ghost SIZE = { 52 };

    const SIZE: usize = 52;

    ghost at = { version_at };

    ghost bytes_of = { version_bytes };

    ghost part = { version_at-part };

    fn read(bytes: &[u8]) -> Self {
        VersionInfo {
            signature: get_at(bytes, 0),
            structure_version: get_at(bytes, 4),
            file_version_ms: get_at(bytes, 8),
            file_version_ls: get_at(bytes, 12),
            product_version_ms: get_at(bytes, 16),
            product_version_ls: get_at(bytes, 20),
            file_flags_mask: get_at(bytes, 24),
            file_flags: get_at(bytes, 28),
            file_os: get_at(bytes, 32),
            file_type: get_at(bytes, 36),
            file_subtype: get_at(bytes, 40),
            file_date_ms: get_at(bytes, 44),
            file_date_ls: get_at(bytes, 48),
        }
    }

    fn write(&self, out: &mut [u8]) {
        put_at(out, 0, &self.signature);
        put_at(out, 4, &self.structure_version);
        put_at(out, 8, &self.file_version_ms);
        put_at(out, 12, &self.file_version_ls);
        put_at(out, 16, &self.product_version_ms);
        put_at(out, 20, &self.product_version_ls);
        put_at(out, 24, &self.file_flags_mask);
        put_at(out, 28, &self.file_flags);
        put_at(out, 32, &self.file_os);
        put_at(out, 36, &self.file_type);
        put_at(out, 40, &self.file_subtype);
        put_at(out, 44, &self.file_date_ms);
        put_at(out, 48, &self.file_date_ls);
    }
}
