//! Types of streams. Made by bindings/generate from bindings/names.toml.
ghost use Rattle.std.specs.Prelude.{◌≡◌, ◌≤◌, IfSome, length};
ghost use Rattle.std.specs.Option.{option_map};
ghost use Rattle.mdmp_names.specs.StreamTypes.{stream_name};

use crate::table::name_in;

/// A number, and its name.
static STREAM_TYPES: [(u32, &str); 53] = [
    (0, "UnusedStream"),
    (1, "ReservedStream0"),
    (2, "ReservedStream1"),
    (3, "ThreadListStream"),
    (4, "ModuleListStream"),
    (5, "MemoryListStream"),
    (6, "ExceptionStream"),
    (7, "SystemInfoStream"),
    (8, "ThreadExListStream"),
    (9, "Memory64ListStream"),
    (10, "CommentStreamA"),
    (11, "CommentStreamW"),
    (12, "HandleDataStream"),
    (13, "FunctionTableStream"),
    (14, "UnloadedModuleListStream"),
    (15, "MiscInfoStream"),
    (16, "MemoryInfoListStream"),
    (17, "ThreadInfoListStream"),
    (18, "HandleOperationListStream"),
    (19, "TokenStream"),
    (20, "JavaScriptDataStream"),
    (21, "SystemMemoryInfoStream"),
    (22, "ProcessVmCountersStream"),
    (23, "IptTraceStream"),
    (24, "ThreadNamesStream"),
    (0x8000, "ceStreamNull"),
    (0x8001, "ceStreamSystemInfo"),
    (0x8002, "ceStreamException"),
    (0x8003, "ceStreamModuleList"),
    (0x8004, "ceStreamProcessList"),
    (0x8005, "ceStreamThreadList"),
    (0x8006, "ceStreamThreadContextList"),
    (0x8007, "ceStreamThreadCallStackList"),
    (0x8008, "ceStreamMemoryVirtualList"),
    (0x8009, "ceStreamMemoryPhysicalList"),
    (0x800A, "ceStreamBucketParameters"),
    (0x800B, "ceStreamProcessModuleMap"),
    (0x800C, "ceStreamDiagnosisList"),
    (0xFFFF, "LastReservedStream"),
    (0x43500001, "MD_CRASHPAD_INFO_STREAM"),
    (0x47670001, "MD_BREAKPAD_INFO_STREAM"),
    (0x47670002, "MD_ASSERTION_INFO_STREAM"),
    (0x47670003, "MD_LINUX_CPU_INFO"),
    (0x47670004, "MD_LINUX_PROC_STATUS"),
    (0x47670005, "MD_LINUX_LSB_RELEASE"),
    (0x47670006, "MD_LINUX_CMD_LINE"),
    (0x47670007, "MD_LINUX_ENVIRON"),
    (0x47670008, "MD_LINUX_AUXV"),
    (0x47670009, "MD_LINUX_MAPS"),
    (0x4767000A, "MD_LINUX_DSO_DEBUG"),
    (0x4767000B, "LinuxProcStat"),
    (0x4767000C, "LinuxProcUptime"),
    (0x4767000D, "LinuxProcFD"),
];

/// The name of a type of streams.
pub fn stream_name(number: u32) -> Option<&'static str>
    ensures named { option_map (λ name. name.now) result ≡ stream_name number }
    ensures short { IfSome result (λ name. length name.now ≤ 64) }
{
    name_in(&STREAM_TYPES, number)
}
