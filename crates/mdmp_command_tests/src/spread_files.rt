//! Small dumps whose parts stand so far from one another in a file of the system that no block of it holds
//! two of them.
use std::fs::File;
use std::io::{Seek, SeekFrom, Write};
use std::process::Abort;
use std::rt::Files;

/// Bytes, and their offset.
pub type FilePart = (u64, &'static [u8]);

/// The header of a file of one stream, with its directory at 20,000.
const HEADER: FilePart = (
    0,
    b"MDMP\x93\xa7\0\0\x01\0\0\0\x20\x4e\0\0\0\0\0\0\0\0\0\0\0\0\0\0\0\0\0\0",
);

/// The directory: a system at 40,000.
const DIRECTORY: FilePart = (20_000, b"\x07\0\0\0\x38\0\0\0\x40\x9c\0\0");

/// A system, its record at 40,000 and its name at 60,000.
pub static SPREAD_SYSTEM: [FilePart; 4] = [
    HEADER,
    DIRECTORY,
    (
        40_000,
        b"\x09\0\x06\0\x03\0\x04\x01\x06\0\0\0\x01\0\0\0\xb1\x1d\0\0\x02\0\0\0\x60\xea\0\0\0\x01\0\0\
\0\0\0\0\0\0\0\0\0\0\0\0\0\0\0\0\0\0\0\0\0\0\0\0",
    ),
    (60_000, NAME),
];

/// The same, where the length of the name stands at 40,508, at the end of the block that begins with the record,
/// and its text behind that.
pub static SPREAD_NAME: [FilePart; 4] = [
    HEADER,
    DIRECTORY,
    (
        40_000,
        b"\x09\0\x06\0\x03\0\x04\x01\x06\0\0\0\x01\0\0\0\xb1\x1d\0\0\x02\0\0\0\x3c\x9e\0\0\0\x01\0\0\
\0\0\0\0\0\0\0\0\0\0\0\0\0\0\0\0\0\0\0\0\0\0\0\0",
    ),
    (40_508, NAME),
];

/// What `list` prints of both.
pub const SPREAD_TEXT: &str =
    "dump version 0x0000 streams 1 directory 20000 checksum 0 time 0 flags 0x0000000000000000
stream 0 type 7 size 56 rva 40000
system architecture 9 level 6 revision 3 processors 4 product 1 version 6.1.7601 platform 2 suite 256 csd \"Service Pack 1\"\n";

/// The name of both, behind its length.
const NAME: &[u8] = b"\x1c\0\0\0S\0e\0r\0v\0i\0c\0e\0 \0P\0a\0c\0k\0 \x001\0\0\0";

/// One range of 64-bit memory, at 40,000, whose bytes stand at 100,000, and a memory list of no ranges, at 60,000.
pub static SPREAD_MEMORY: [FilePart; 5] = [
    (
        0,
        b"MDMP\x93\xa7\0\0\x02\0\0\0\x20\x4e\0\0\0\0\0\0\0\0\0\0\0\0\0\0\0\0\0\0",
    ),
    (
        20_000,
        b"\x09\0\0\0\x20\0\0\0\x40\x9c\0\0\x05\0\0\0\x04\0\0\0\x60\xea\0\0",
    ),
    (
        40_000,
        b"\x01\0\0\0\0\0\0\0\xa0\x86\x01\0\0\0\0\0\0\x10\0\0\0\0\0\0\x04\0\0\0\0\0\0\0",
    ),
    (60_000, b"\0\0\0\0"),
    (100_000, b"ABCD"),
];

/// Writes a file of these parts, with zeros between them.
pub fn write_spread(rt: &(impl Files + Abort), name: &str, parts: &[FilePart]) {
    let mut file = File::create(rt, name).expect(rt, "a file");
    for (at, bytes) in parts {
        write_part(rt, &mut file, *at, *bytes);
    }
}

/// Writes bytes at the offset `at`.
fn write_part<F: Seek + Write>(rt: &impl Abort, file: &mut F, at: u64, bytes: &[u8]) {
    file.seek(SeekFrom::Start(at)).expect(rt, "a seek");
    file.write_all(bytes).expect(rt, "a write");
}
