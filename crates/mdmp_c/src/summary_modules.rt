//! Modules and the system of a summary, as plain structures.
ghost use Rattle.std.specs.Prelude.{◌≡◌};
ghost use Rattle.mdmp_c.specs.SummaryModules.{place_in_module_row, name_place_at, program_row, summary_module, summary_system, summary_system_row};

use crate::parts::{NamePlace, PartPlace, name_place, part_place};
use mdmp_lister::name_at;
use mdmp_summary::PlaceInModule;
use mdmp_wire::{ModuleRecord, SystemRecord};
use std::mem::size_of;

/// A module of a summary, `MINIDUMP_MODULE`, without its number.
#[repr(C)]
#[derive(Clone, Copy)]
pub struct SummaryModuleRow {
    /// `BaseOfImage`, an address of the dumped process.
    pub base_of_image: u64,
    /// The name at `ModuleNameRva`.
    pub name: NamePlace,
    /// `SizeOfImage`, in bytes.
    pub size_of_image: u32,
    /// `CheckSum`.
    pub checksum: u32,
    /// `TimeDateStamp`, in seconds since 1970.
    pub time_date_stamp: u32,
    /// `VersionInfo.dwFileVersionMS`, the first two of the file version's four numbers.
    pub file_version_ms: u32,
    /// `VersionInfo.dwFileVersionLS`, the last two.
    pub file_version_ls: u32,
    /// `VersionInfo.dwProductVersionMS`.
    pub product_version_ms: u32,
    /// `VersionInfo.dwProductVersionLS`.
    pub product_version_ls: u32,
    /// `CvRecord`, of its CodeView record.
    pub codeview: PartPlace,
    /// 0.
    pub reserved: u32,
}

const _: () = prove!(size_of::<SummaryModuleRow>() == 72);

/// A module, and an address at its base or above it.
#[repr(C)]
#[derive(Clone, Copy)]
pub struct PlaceInModuleRow {
    /// The module.
    pub module: SummaryModuleRow,
    /// How many bytes the address is above `BaseOfImage`.
    pub offset: u64,
}

const _: () = prove!(size_of::<PlaceInModuleRow>() == 80);

/// The system of a summary, `MINIDUMP_SYSTEM_INFO`.
#[repr(C)]
#[derive(Clone, Copy)]
pub struct SummarySystemRow {
    /// The name at `CSDVersionRva`, of the service pack.
    pub csd_version: NamePlace,
    /// `ProcessorArchitecture`.
    pub processor_architecture: u32,
    /// `ProcessorLevel`.
    pub processor_level: u32,
    /// `ProcessorRevision`.
    pub processor_revision: u32,
    /// `NumberOfProcessors`.
    pub number_of_processors: u32,
    /// `ProductType`.
    pub product_type: u32,
    /// `MajorVersion`.
    pub major_version: u32,
    /// `MinorVersion`.
    pub minor_version: u32,
    /// `BuildNumber`.
    pub build_number: u32,
    /// `PlatformId`.
    pub platform_id: u32,
    /// `SuiteMask`.
    pub suite_mask: u32,
    /// `Cpu`.
    pub cpu: [u8; 24],
    /// Zeros.
    pub reserved: [u32; 2],
}

const _: () = prove!(size_of::<SummarySystemRow>() == 88);

/// No name.
pub(crate) const NO_NAME: NamePlace = NamePlace {
    rva: 0,
    size: 0,
    state: 0,
};

const NO_MODULE: SummaryModuleRow = SummaryModuleRow {
    base_of_image: 0,
    name: NO_NAME,
    size_of_image: 0,
    checksum: 0,
    time_date_stamp: 0,
    file_version_ms: 0,
    file_version_ls: 0,
    product_version_ms: 0,
    product_version_ls: 0,
    codeview: PartPlace {
        size: 0,
        rva: 0,
        extent: 0,
        reserved: 0,
    },
    reserved: 0,
};

const NO_SYSTEM: SummarySystemRow = SummarySystemRow {
    csd_version: NO_NAME,
    processor_architecture: 0,
    processor_level: 0,
    processor_revision: 0,
    number_of_processors: 0,
    product_type: 0,
    major_version: 0,
    minor_version: 0,
    build_number: 0,
    platform_id: 0,
    suite_mask: 0,
    cpu: [0; 24],
    reserved: [0; 2],
};

/// The place of the name at an RVA of a file. A record whose name has an error is never told of.
pub(crate) fn name_place_at(file: &[u8], rva: u64, limit: u32) -> NamePlace
    ensures { result ≡ name_place_at file.now rva limit }
{
    match name_at(file, rva, limit) {
        Ok(name) => name_place(rva, &name),
        Err(_) => NamePlace {
            rva,
            size: 0,
            state: 0,
        },
    }
}

/// A module of a file, of whose name at most `limit` bytes are read.
fn summary_module(file: &[u8], limit: u32, fields: &ModuleRecord) -> SummaryModuleRow
    ensures { result ≡ summary_module file.now limit fields.now }
{
    SummaryModuleRow {
        base_of_image: fields.base_of_image,
        name: name_place_at(file, u64::from(fields.module_name_rva), limit),
        size_of_image: fields.size_of_image,
        checksum: fields.checksum,
        time_date_stamp: fields.time_date_stamp,
        file_version_ms: fields.version_info.file_version_ms,
        file_version_ls: fields.version_info.file_version_ls,
        product_version_ms: fields.version_info.product_version_ms,
        product_version_ls: fields.version_info.product_version_ls,
        codeview: part_place(
            fields.cv_record,
            fields.cv_record.classify(file.len() as u64),
        ),
        reserved: 0,
    }
}

/// A module, or zeros if there is none.
pub(crate) fn program_row(
    file: &[u8],
    limit: u32,
    program: &Option<ModuleRecord>,
) -> SummaryModuleRow
    ensures { result ≡ program_row file.now limit program.now }
{
    match program {
        Some(fields) => summary_module(file, limit, fields),
        None => NO_MODULE,
    }
}

/// A place in a module, or zeros if there is none.
pub(crate) fn place_in_module_row(
    file: &[u8],
    limit: u32,
    place: &Option<PlaceInModule>,
) -> PlaceInModuleRow
    ensures { result ≡ place_in_module_row file.now limit place.now }
{
    match place {
        Some(place) => PlaceInModuleRow {
            module: summary_module(file, limit, &place.fields),
            offset: place.offset,
        },
        None => PlaceInModuleRow {
            module: NO_MODULE,
            offset: 0,
        },
    }
}

/// A system of a file.
fn summary_system(file: &[u8], limit: u32, fields: &SystemRecord) -> SummarySystemRow
    ensures { result ≡ summary_system file.now limit fields.now }
{
    SummarySystemRow {
        csd_version: name_place_at(file, u64::from(fields.csd_version_rva), limit),
        processor_architecture: u32::from(fields.processor_architecture),
        processor_level: u32::from(fields.processor_level),
        processor_revision: u32::from(fields.processor_revision),
        number_of_processors: u32::from(fields.number_of_processors),
        product_type: u32::from(fields.product_type),
        major_version: fields.major_version,
        minor_version: fields.minor_version,
        build_number: fields.build_number,
        platform_id: fields.platform_id,
        suite_mask: u32::from(fields.suite_mask),
        cpu: fields.cpu,
        reserved: [0; 2],
    }
}

/// A system, or zeros if there is none.
pub(crate) fn summary_system_row(
    file: &[u8],
    limit: u32,
    system: &Option<SystemRecord>,
) -> SummarySystemRow
    ensures { result ≡ summary_system_row file.now limit system.now }
{
    match system {
        Some(fields) => summary_system(file, limit, fields),
        None => NO_SYSTEM,
    }
}
