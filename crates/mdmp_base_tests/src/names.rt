//! Names of numbers. Each table's first and last rows, and numbers beside them, are read off the headers.
use crate::same::assert_same_at;
use mdmp_names::{architecture_words, exception_name, flags_name, platform_words, stream_name};

/// Numbers that have a name.
enum NumberOfHeaders {
    /// A platform, and the code of an exception.
    Exception(u32, u32),
    /// A platform, a processor, the code of an exception, and its flags.
    Flags(u32, u16, u32, u32),
    /// A platform.
    Platform(u32),
    /// A processor.
    Architecture(u16),
    /// The type of a stream.
    Stream(u32),
}

/// Numbers, and their name.
static NAMES: [(NumberOfHeaders, Option<&str>); 44] = [
    (
        NumberOfHeaders::Exception(2, 0x0000_0080),
        Some("STATUS_ABANDONED_WAIT_0"),
    ),
    (
        NumberOfHeaders::Exception(2, 0xC000_0005),
        Some("STATUS_ACCESS_VIOLATION"),
    ),
    (
        NumberOfHeaders::Exception(0, 0xE06D_7363),
        Some("EXCEPTION_MSVC"),
    ),
    (
        NumberOfHeaders::Exception(3, 0xC000_0006),
        Some("STATUS_IN_PAGE_ERROR"),
    ),
    (NumberOfHeaders::Exception(2, 11), None),
    (NumberOfHeaders::Exception(0x8201, 1), Some("SIGHUP")),
    (NumberOfHeaders::Exception(0x8201, 11), Some("SIGSEGV")),
    (NumberOfHeaders::Exception(0x8203, 31), Some("SIGSYS")),
    (
        NumberOfHeaders::Exception(0x8201, 0xFFFF_FFFF),
        Some("MD_EXCEPTION_CODE_LIN_DUMP_REQUESTED"),
    ),
    (NumberOfHeaders::Exception(0x8201, 32), None),
    (
        NumberOfHeaders::Exception(0x8101, 1),
        Some("EXC_BAD_ACCESS"),
    ),
    (
        NumberOfHeaders::Exception(0x8102, 13),
        Some("EXC_CORPSE_NOTIFY"),
    ),
    (NumberOfHeaders::Exception(0x8202, 11), None),
    (NumberOfHeaders::Exception(4, 0xC000_0005), None),
    (
        NumberOfHeaders::Flags(0x8201, 9, 11, 1),
        Some("SEGV_MAPERR"),
    ),
    (
        NumberOfHeaders::Flags(0x8201, 9, 11, 2),
        Some("SEGV_ACCERR"),
    ),
    (
        NumberOfHeaders::Flags(0x8201, 9, 6, 0xFFFF_FFFA),
        Some("SI_TKILL"),
    ),
    (NumberOfHeaders::Flags(0x8201, 9, 11, 0), None),
    (NumberOfHeaders::Flags(0x8201, 9, 11, 77), None),
    (
        NumberOfHeaders::Flags(0x8101, 9, 1, 13),
        Some("EXC_I386_GPFLT"),
    ),
    (NumberOfHeaders::Flags(0x8101, 12, 1, 13), None),
    (
        NumberOfHeaders::Flags(0x8101, 12, 6, 1),
        Some("EXC_ARM_BREAKPOINT"),
    ),
    (
        NumberOfHeaders::Flags(0x8102, 0x8003, 1, 1),
        Some("KERN_INVALID_ADDRESS"),
    ),
    (NumberOfHeaders::Flags(2, 9, 0xC000_0005, 1), None),
    (NumberOfHeaders::Platform(2), Some("Windows")),
    (NumberOfHeaders::Platform(0x8201), Some("Linux")),
    (NumberOfHeaders::Platform(0x8206), Some("Fuchsia")),
    (NumberOfHeaders::Platform(0x8207), None),
    (NumberOfHeaders::Architecture(0), Some("x86")),
    (NumberOfHeaders::Architecture(9), Some("x64")),
    (
        NumberOfHeaders::Architecture(0xFFFF),
        Some("unknown processor"),
    ),
    (NumberOfHeaders::Architecture(15), None),
    (NumberOfHeaders::Stream(0), Some("UnusedStream")),
    (NumberOfHeaders::Stream(3), Some("ThreadListStream")),
    (NumberOfHeaders::Stream(24), Some("ThreadNamesStream")),
    (NumberOfHeaders::Stream(25), None),
    (
        NumberOfHeaders::Stream(0x8006),
        Some("ceStreamThreadContextList"),
    ),
    (
        NumberOfHeaders::Stream(0x8007),
        Some("ceStreamThreadCallStackList"),
    ),
    (NumberOfHeaders::Stream(0xFFF0), None),
    (NumberOfHeaders::Stream(0xFFFF), Some("LastReservedStream")),
    (
        NumberOfHeaders::Stream(0x4350_0001),
        Some("MD_CRASHPAD_INFO_STREAM"),
    ),
    (
        NumberOfHeaders::Stream(0x4767_0001),
        Some("MD_BREAKPAD_INFO_STREAM"),
    ),
    (NumberOfHeaders::Stream(0x4767_000D), Some("LinuxProcFD")),
    (NumberOfHeaders::Stream(0x4767_000E), None),
];

#[test]
fn numbers_have_the_names_of_their_headers(rt: HostRuntime) {
    for (named, name) in &NAMES {
        let (numbers, found) = match named {
            NumberOfHeaders::Exception(platform, code) => (
                [*platform, *code, 0],
                exception_name(*platform, *code),
            ),
            NumberOfHeaders::Flags(platform, architecture, code, flags) => (
                [*platform, *code, *flags],
                flags_name(*platform, *architecture, *code, *flags),
            ),
            NumberOfHeaders::Platform(platform) => ([*platform, 0, 0], platform_words(*platform)),
            NumberOfHeaders::Architecture(architecture) => {
                (
                    [u32::from(*architecture), 0, 0],
                    architecture_words(*architecture),
                )
            }
            NumberOfHeaders::Stream(number) => ([*number, 0, 0], stream_name(*number)),
        };
        assert_same_at(&rt, &numbers, found, *name);
    }
}
