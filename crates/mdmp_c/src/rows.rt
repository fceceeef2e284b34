//! Records as plain structures, of which a call gives an array. Made by bindings/generate from bindings/interface.toml.
ghost use Rattle.std.specs.Prelude.{◌≡◌};
ghost use Rattle.mdmp_c.specs.Rows.{exception_fields};

use crate::parts::{NamePlace, PartPlace, extent_number, name_place, part_place};
use mdmp_lister::{ExceptionItem, Item};
use std::mem::size_of;

/// A record of one kind as a plain structure.
pub(crate) trait PlainRow: Copy {
    ghost use Rattle.std.specs.Prelude.{◌≡◌, Option};
    ghost use Rattle.mdmp_lister.specs.declared.item.Item.{Item};
    ghost use Rattle.mdmp_lister.specs.Format.Item.{plain};

    // The row of an item, of the kinds that have one.
    ghost row_of: { Item → Option Self };

    /// The row of an item, or none where it is of another kind.
    fn of(item: &Item<'_>) -> Option<Self>
        ensures { result ≡ row_of (plain item.now) };
}

/// A thread: `MINIDUMP_THREAD`.
#[repr(C)]
#[derive(Clone, Copy)]
pub struct ThreadRow {
    /// The number of the record in its stream, from 0.
    pub index: u64,
    /// `Teb`, an address of the dumped process.
    pub teb: u64,
    /// `Stack.StartOfMemoryRange`, an address of the dumped process.
    pub stack_start: u64,
    /// The number of the directory entry, from 0.
    pub entry: u32,
    /// `ThreadId`.
    pub thread_id: u32,
    /// `SuspendCount`.
    pub suspend_count: u32,
    /// `PriorityClass`.
    pub priority_class: u32,
    /// `Priority`.
    pub priority: u32,
    /// `Stack.Memory`.
    pub stack: PartPlace,
    /// `ThreadContext`, the registers.
    pub context: PartPlace,
    /// Zeros.
    pub reserved: [u32; 3],
}

const _: () = prove!(size_of::<ThreadRow>() == 88);

impl PlainRow for ThreadRow {
    ghost use Rattle.mdmp_c.specs.Rows.{thread_row};

    ghost row_of = { thread_row };

    fn of(item: &Item<'_>) -> Option<Self> {
        let Item::Thread(item) = item else {
            return None;
        };
        Some(ThreadRow {
            index: item.index,
            teb: item.fields.teb,
            stack_start: item.fields.stack.start_of_memory_range,
            entry: item.entry,
            thread_id: item.fields.thread_id,
            suspend_count: item.fields.suspend_count,
            priority_class: item.fields.priority_class,
            priority: item.fields.priority,
            stack: part_place(item.fields.stack.memory, item.stack),
            context: part_place(item.fields.thread_context, item.context),
            reserved: [0; 3],
        })
    }
}

/// A module: `MINIDUMP_MODULE`.
#[repr(C)]
#[derive(Clone, Copy)]
pub struct ModuleRow {
    /// The number of the record in its stream, from 0.
    pub index: u64,
    /// `BaseOfImage`, an address of the dumped process.
    pub base_of_image: u64,
    /// The number of the directory entry, from 0.
    pub entry: u32,
    /// `SizeOfImage`, in bytes.
    pub size_of_image: u32,
    /// `CheckSum`.
    pub checksum: u32,
    /// `TimeDateStamp`, in seconds since 1970.
    pub time_date_stamp: u32,
    /// `VersionInfo.dwFileVersionMS`: the first two of the four numbers of the version.
    pub file_version_ms: u32,
    /// `VersionInfo.dwFileVersionLS`: the last two numbers.
    pub file_version_ls: u32,
    /// `VersionInfo.dwProductVersionMS`.
    pub product_version_ms: u32,
    /// `VersionInfo.dwProductVersionLS`.
    pub product_version_ls: u32,
    /// The name at `ModuleNameRva`.
    pub name: NamePlace,
    /// `CvRecord`: `mdmp_symbols` reads the record that is there.
    pub codeview: PartPlace,
    /// `MiscRecord`.
    pub misc: PartPlace,
    /// Zeros.
    pub reserved: [u32; 2],
}

const _: () = prove!(size_of::<ModuleRow>() == 104);

impl PlainRow for ModuleRow {
    ghost use Rattle.mdmp_c.specs.Rows.{module_row};

    ghost row_of = { module_row };

    fn of(item: &Item<'_>) -> Option<Self> {
        let Item::Module(item) = item else {
            return None;
        };
        Some(ModuleRow {
            index: item.index,
            base_of_image: item.fields.base_of_image,
            entry: item.entry,
            size_of_image: item.fields.size_of_image,
            checksum: item.fields.checksum,
            time_date_stamp: item.fields.time_date_stamp,
            file_version_ms: item.fields.version_info.file_version_ms,
            file_version_ls: item.fields.version_info.file_version_ls,
            product_version_ms: item.fields.version_info.product_version_ms,
            product_version_ls: item.fields.version_info.product_version_ls,
            name: name_place(u64::from(item.fields.module_name_rva), &item.name),
            codeview: part_place(item.fields.cv_record, item.codeview),
            misc: part_place(item.fields.misc_record, item.misc),
            reserved: [0; 2],
        })
    }
}

/// An unloaded module: `MINIDUMP_UNLOADED_MODULE`.
#[repr(C)]
#[derive(Clone, Copy)]
pub struct UnloadedRow {
    /// The number of the record in its stream, from 0.
    pub index: u64,
    /// `BaseOfImage`, an address of the dumped process.
    pub base_of_image: u64,
    /// The number of the directory entry, from 0.
    pub entry: u32,
    /// `SizeOfImage`, in bytes.
    pub size_of_image: u32,
    /// `CheckSum`.
    pub checksum: u32,
    /// `TimeDateStamp`, in seconds since 1970.
    pub time_date_stamp: u32,
    /// The name at `ModuleNameRva`.
    pub name: NamePlace,
    /// Zeros.
    pub reserved: [u32; 2],
}

const _: () = prove!(size_of::<UnloadedRow>() == 56);

impl PlainRow for UnloadedRow {
    ghost use Rattle.mdmp_c.specs.Rows.{unloaded_row};

    ghost row_of = { unloaded_row };

    fn of(item: &Item<'_>) -> Option<Self> {
        let Item::Unloaded(item) = item else {
            return None;
        };
        Some(UnloadedRow {
            index: item.index,
            base_of_image: item.fields.base_of_image,
            entry: item.entry,
            size_of_image: item.fields.size_of_image,
            checksum: item.fields.checksum,
            time_date_stamp: item.fields.time_date_stamp,
            name: name_place(u64::from(item.fields.module_name_rva), &item.name),
            reserved: [0; 2],
        })
    }
}

/// An exception: `MINIDUMP_EXCEPTION_STREAM`.
#[repr(C)]
#[derive(Clone, Copy)]
pub struct ExceptionRow {
    /// The number of the record in its stream: 0.
    pub index: u64,
    /// `ExceptionRecord`, an address of the dumped process.
    pub exception_record: u64,
    /// `ExceptionAddress`, an address of the dumped process.
    pub exception_address: u64,
    /// `ExceptionInformation`.
    pub information: [u64; 15],
    /// The number of the directory entry, from 0.
    pub entry: u32,
    /// `ThreadId`.
    pub thread_id: u32,
    /// `ExceptionCode`.
    pub exception_code: u32,
    /// `ExceptionFlags`.
    pub exception_flags: u32,
    /// `NumberParameters`: how many elements of information are used; may be over 15.
    pub number_parameters: u32,
    /// `ThreadContext`, the registers.
    pub context: PartPlace,
    /// Zeros.
    pub reserved: [u32; 3],
}

const _: () = prove!(size_of::<ExceptionRow>() == 192);

/// The row of this item.
pub(crate) fn exception_fields(item: &ExceptionItem) -> ExceptionRow
    ensures { result ≡ exception_fields item.now }
{
    ExceptionRow {
        index: item.index,
        exception_record: item.fields.exception_record,
        exception_address: item.fields.exception_address,
        information: item.fields.exception_information,
        entry: item.entry,
        thread_id: item.fields.thread_id,
        exception_code: item.fields.exception_code,
        exception_flags: item.fields.exception_flags,
        number_parameters: item.fields.number_parameters,
        context: part_place(item.fields.thread_context, item.context),
        reserved: [0; 3],
    }
}

impl PlainRow for ExceptionRow {
    ghost use Rattle.mdmp_c.specs.Rows.{exception_row};

    ghost row_of = { exception_row };

    fn of(item: &Item<'_>) -> Option<Self> {
        let Item::Exception(item) = item else {
            return None;
        };
        Some(exception_fields(item))
    }
}

/// The system: `MINIDUMP_SYSTEM_INFO`.
#[repr(C)]
#[derive(Clone, Copy)]
pub struct SystemRow {
    /// The number of the record in its stream: 0.
    pub index: u64,
    /// The name at `CSDVersionRva`: the service pack.
    pub csd_version: NamePlace,
    /// The number of the directory entry, from 0.
    pub entry: u32,
    /// `ProcessorArchitecture`: 0 is x86, 9 is x64, 12 is ARM64.
    pub processor_architecture: u32,
    /// `ProcessorLevel`.
    pub processor_level: u32,
    /// `ProcessorRevision`.
    pub processor_revision: u32,
    /// `NumberOfProcessors`.
    pub number_of_processors: u32,
    /// `ProductType`.
    pub product_type: u32,
    /// `MajorVersion`.
    pub major_version: u32,
    /// `MinorVersion`.
    pub minor_version: u32,
    /// `BuildNumber`.
    pub build_number: u32,
    /// `PlatformId`.
    pub platform_id: u32,
    /// `SuiteMask`.
    pub suite_mask: u32,
    /// `Cpu`.
    pub cpu: [u8; 24],
    /// Zeros.
    pub reserved: [u32; 3],
}

const _: () = prove!(size_of::<SystemRow>() == 104);

impl PlainRow for SystemRow {
    ghost use Rattle.mdmp_c.specs.Rows.{system_row};

    ghost row_of = { system_row };

    fn of(item: &Item<'_>) -> Option<Self> {
        let Item::System(item) = item else {
            return None;
        };
        Some(SystemRow {
            index: item.index,
            csd_version: name_place(u64::from(item.fields.csd_version_rva), &item.name),
            entry: item.entry,
            processor_architecture: u32::from(item.fields.processor_architecture),
            processor_level: u32::from(item.fields.processor_level),
            processor_revision: u32::from(item.fields.processor_revision),
            number_of_processors: u32::from(item.fields.number_of_processors),
            product_type: u32::from(item.fields.product_type),
            major_version: item.fields.major_version,
            minor_version: item.fields.minor_version,
            build_number: item.fields.build_number,
            platform_id: item.fields.platform_id,
            suite_mask: u32::from(item.fields.suite_mask),
            cpu: item.fields.cpu,
            reserved: [0; 3],
        })
    }
}

/// A region of memory: `MINIDUMP_MEMORY_INFO`.
#[repr(C)]
#[derive(Clone, Copy)]
pub struct RegionRow {
    /// The number of the record in its stream, from 0.
    pub index: u64,
    /// `BaseAddress`, an address of the dumped process.
    pub base_address: u64,
    /// `AllocationBase`, an address of the dumped process.
    pub allocation_base: u64,
    /// `RegionSize`, in bytes.
    pub region_size: u64,
    /// The number of the directory entry, from 0.
    pub entry: u32,
    /// `AllocationProtect`.
    pub allocation_protect: u32,
    /// `State`.
    pub state: u32,
    /// `Protect`.
    pub protect: u32,
    /// `Type`.
    pub memory_type: u32,
    /// Zeros.
    pub reserved: [u32; 3],
}

const _: () = prove!(size_of::<RegionRow>() == 64);

impl PlainRow for RegionRow {
    ghost use Rattle.mdmp_c.specs.Rows.{region_row};

    ghost row_of = { region_row };

    fn of(item: &Item<'_>) -> Option<Self> {
        let Item::MemoryInfo(item) = item else {
            return None;
        };
        Some(RegionRow {
            index: item.index,
            base_address: item.fields.base_address,
            allocation_base: item.fields.allocation_base,
            region_size: item.fields.region_size,
            entry: item.entry,
            allocation_protect: item.fields.allocation_protect,
            state: item.fields.state,
            protect: item.fields.protect,
            memory_type: item.fields.memory_type,
            reserved: [0; 3],
        })
    }
}

/// The name of a thread: `MINIDUMP_THREAD_NAME`.
#[repr(C)]
#[derive(Clone, Copy)]
pub struct ThreadNameRow {
    /// The number of the record in its stream, from 0.
    pub index: u64,
    /// The number of the directory entry, from 0.
    pub entry: u32,
    /// `ThreadId`.
    pub thread_id: u32,
    /// The name at `RvaOfThreadName`, an offset of 64 bits.
    pub name: NamePlace,
    /// Zeros.
    pub reserved: [u32; 2],
}

const _: () = prove!(size_of::<ThreadNameRow>() == 40);

impl PlainRow for ThreadNameRow {
    ghost use Rattle.mdmp_c.specs.Rows.{thread_name_row};

    ghost row_of = { thread_name_row };

    fn of(item: &Item<'_>) -> Option<Self> {
        let Item::ThreadName(item) = item else {
            return None;
        };
        Some(ThreadNameRow {
            index: item.index,
            entry: item.entry,
            thread_id: item.fields.thread_id,
            name: name_place(item.fields.rva_of_thread_name, &item.name),
            reserved: [0; 2],
        })
    }
}

/// A range of memory: `MINIDUMP_MEMORY_DESCRIPTOR` or `MINIDUMP_MEMORY_DESCRIPTOR64`.
#[repr(C)]
#[derive(Clone, Copy)]
pub struct RangeRow {
    /// The number of the record in its stream, from 0.
    pub index: u64,
    /// `StartOfMemoryRange`, an address of the dumped process.
    pub start: u64,
    /// `DataSize`, in bytes.
    pub size: u64,
    /// The offset of its bytes from the start of the file: the lower 64 bits.
    pub offset: u64,
    /// The upper 64 bits of offset; 0 if the bytes are inside the file.
    pub offset_high: u64,
    /// The number of the directory entry, from 0.
    pub entry: u32,
    /// Whether its bytes are in the file.
    pub extent: u32,
    /// Zeros.
    pub reserved: [u32; 2],
}

const _: () = prove!(size_of::<RangeRow>() == 56);

impl PlainRow for RangeRow {
    ghost use Rattle.mdmp_c.specs.Rows.{range_row};

    ghost row_of = { range_row };

    fn of(item: &Item<'_>) -> Option<Self> {
        let Item::Range(item) = item else {
            return None;
        };
        Some(RangeRow {
            index: item.index,
            start: item.start,
            size: item.size,
            offset: (item.offset % (1 << 64)) as u64,
            offset_high: (item.offset / (1 << 64)) as u64,
            entry: item.entry,
            extent: extent_number(item.extent),
            reserved: [0; 2],
        })
    }
}
