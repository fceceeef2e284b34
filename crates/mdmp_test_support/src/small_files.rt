//! Small files. Those of 32-bit numbers stand behind a header that names a directory at 32, from there
//! on.

/// A system, whose name is that of its service pack.
pub const SYSTEM: [u8; 136] =
    *b"MDMP\x93\xa7\0\0\x01\0\0\0\x20\0\0\0\0\0\0\0\0\0\0\0\0\0\0\0\0\0\0\0\
\x07\0\0\0\x38\0\0\0\x2c\0\0\0\
\x09\0\x06\0\x03\0\x04\x01\x06\0\0\0\x01\0\0\0\xb1\x1d\0\0\x02\0\0\0\x64\0\0\0\0\x01\0\0\
\0\0\0\0\0\0\0\0\0\0\0\0\0\0\0\0\0\0\0\0\0\0\0\0\
\x1c\0\0\0S\0e\0r\0v\0i\0c\0e\0 \0P\0a\0c\0k\0 \x001\0\0\0\0\0";

/// Two ranges of 64-bit memory, the second outside the file.
pub const MEMORY64: [u8; 98] =
    *b"MDMP\x93\xa7\0\0\x01\0\0\0\x20\0\0\0\0\0\0\0\0\0\0\0\0\0\0\0\0\0\0\0\
\x09\0\0\0\x30\0\0\0\x2c\0\0\0\
\x02\0\0\0\0\0\0\0\x5c\0\0\0\0\0\0\0\
\0\x10\0\0\0\0\0\0\x04\0\0\0\0\0\0\0\
\0\x20\0\0\0\0\0\0\x04\0\0\0\0\0\0\0ABCDEF";

/// A system, a module whose name lies outside, and a comment that does.
pub const FAULTY: [u32; 51] = [
    7, 56, 68, 4, 112, 124, 10, 5, 236, // the directory
    0, 0, 0, 0, 0, 0, 0, 0, 0, 0, 0, 0, 0, 0, // the system
    1, 0, 0, 0, 0, 0, 4294967295, 0, 0, 0, 0, 0, 0, 0, 0, 0, 0, 0, 0, 0, 0, 0, 0, 0, 0, 0, 0, 0,
];

/// Three entries that name one list of one thread.
pub const THRICE: [u32; 22] = [
    3, 52, 68, 3, 52, 68, 3, 52, 68, // the directory
    1, 7, 0, 0, 0, 0, 0, 0, 0, 0, 0, 0, 0, // one thread
];

/// A memory list of two ranges that overlap, and behind it `ABCD` of the first and `wxyz` of the
/// second.
pub const OVERLAPPING: [u32; 14] = [
    5, 36, 44, 2, 0x1000, 0, 4, 80, 0x1002, 0, 4, 84, 0x44434241, 0x7a797877,
];

/// A thread without its stack, and behind the list the one byte of its context, at 96.
pub const ABSENT_STACK: [u32; 17] = [
    3, 52, 44, 1, 7, 0, 0, 0, 0, 0, 28672, 0, 256, 0, 1, 96, 0xaa,
];

/// A thread with its stack and its context, and an exception with its context: parts of 14 bytes in
/// all.
pub const CRASH: [u32; 65] = [
    3, 52, 56, 6, 168, 120, // the directory
    1, 7, 0, 32, 0, 0x5000, 0, 0x7000, 0, 4, 108, 6, 112, // the thread
    0x4b415453, 0x04030201, 0x0605, // its stack and its context
    7, 0, 0xc0000005, 0, 0, 0, 0x401000, 0, 2, 0, 1, 0, 16, 0, // the exception
    0, 0, 0, 0, 0, 0, 0, 0, 0, 0, 0, 0, 0, 0, 0, 0, 0, 0, 0, 0, 0, 0, 0, 0, 0, 0, 4, 288,
    0xddccbbaa,
];

/// A system with its name, the thread and the exception of `CRASH`, no modules, no ranges of memory,
/// and a stream of four bytes. The stack stands at 248.
pub const SIX: [u32; 103] = [
    7, 56, 104, 3, 52, 196, 4, 4, 260, 6, 168, 264, 5, 4, 436, 12, 4, 440, // the directory
    0x00060009, 0x01040003, 6, 1, 7601, 2, 160, 0x0100, 0, 0, 0, 0, 0, 0, // the system
    28, 0x00650053, 0x00760072, 0x00630069, 0x00200065, 0x00610050, 0x006b0063, 0x00310020, 0, 1,
    7, 0, 32, 0, 0x5000, 0, 0x7000, 0, 4, 248, 6, 252, // the thread
    0x4b415453, 0x04030201, 0x0605, // its stack and its context
    0, // no modules
    7, 0, 0xc0000005, 0, 0, 0, 0x401000, 0, 2, 0, 1, 0, 16, 0, // the exception
    0, 0, 0, 0, 0, 0, 0, 0, 0, 0, 0, 0, 0, 0, 0, 0, 0, 0, 0, 0, 0, 0, 0, 0, 0, 0, 4, 432,
    0xddccbbaa, 0, // its context, and no ranges
    0x04030201,
];

/// A module with a name, a CodeView record and a miscellaneous one behind it.
pub const MODULE: [u32; 34] = [
    4, 112, 44, 1, // the directory, and the count
    1, 2, 3, 4, 5, 156, 6, 7, 8, 9, 10, 11, 12, 13, 14, 15, 16, 17, 18, // up to the version
    4, 164, 2, 166, 19, 0, 0, 20, // the module's parts
    4, 0x00620061, 0x53445352, // its name, and its parts' bytes
];

/// A comment of five bytes, and three that are not of it.
pub const COMMENT: [u32; 5] = [10, 5, 44, 0x04030201, 5];

/// The name `abcd` of thread 7, which stands at 60.
pub const THREAD_NAME: [u32; 10] = [24, 16, 44, 1, 7, 60, 0, 8, 0x00620061, 0x00640063];

/// The same name, whose place of 64 bits is past each file.
pub const FAR_NAME: [u32; 10] = [
    24,
    16,
    44,
    1,
    7,
    0xffff_fffc,
    0xffff_ffff,
    8,
    0x00620061,
    0x00640063,
];

/// An unloaded module whose name stands at 80, behind these numbers.
pub const UNLOADED: [u32; 12] = [14, 36, 44, 12, 24, 1, 0, 0, 0, 0, 0, 80];
