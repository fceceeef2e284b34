//! Files of many entries, of a long stream, and of a large part or an empty one.
use crate::files::{entry, header_of};
use std::alloc::{AllocError, Global};

/// A file whose entries all name one stream, which follows the directory.
#[derive(Clone, Copy)]
pub struct OneStream<'a> {
    pub entries: u32,
    pub stream_type: u32,
    /// How many bytes of the file the entries say that the stream has.
    pub size: u32,
    /// The first bytes of the stream, four a number.
    pub first: &'a [u32],
    /// How many zeros follow these in the file.
    pub zeros: u32,
}

/// 5,000 unused entries.
pub const MANY_ENTRIES: OneStream<'static> = OneStream {
    entries: 5000,
    stream_type: 0,
    size: 0,
    first: &[],
    zeros: 0,
};

/// 5,000 entries that name a memory list of two ranges without bytes.
pub const MANY_RANGES: OneStream<'static> = OneStream {
    entries: 5000,
    stream_type: 5,
    size: 36,
    first: &[2],
    zeros: 32,
};

/// A list of 10,000 threads, of 480,004 bytes.
pub const MANY_THREADS: OneStream<'static> = OneStream {
    entries: 1,
    stream_type: 3,
    size: 480_004,
    first: &[10_000],
    zeros: 480_000,
};

/// How many bytes a large part has: 17 MiB.
pub const LARGE: u32 = 17 << 20;

/// A memory list of one range of 17 MiB at 0x1000.
pub const LARGE_PART: OneStream<'static> = OneStream {
    entries: 1,
    stream_type: 5,
    size: 20,
    first: &[1, 0x1000, 0, LARGE, 64],
    zeros: LARGE,
};

/// A memory list of one range without bytes.
pub const EMPTY_PART: OneStream<'static> = OneStream {
    entries: 1,
    stream_type: 5,
    size: 20,
    first: &[1, 0x1000, 0, 0, 64],
    zeros: 0,
};

/// A comment of 2 MiB.
pub const LONG_COMMENT: OneStream<'static> = OneStream {
    entries: 1,
    stream_type: 10,
    size: 1 << 21,
    first: &[],
    zeros: 1 << 21,
};

/// A comment without bytes.
pub const EMPTY_COMMENT: OneStream<'static> = OneStream {
    entries: 1,
    stream_type: 10,
    size: 0,
    first: &[],
    zeros: 0,
};

/// A module whose name has 70,000 bytes.
pub const LONG_NAME: OneStream<'static> = OneStream {
    entries: 1,
    stream_type: 4,
    size: 112,
    first: &[
        1, 0x1000, 0, 16, 0, 0, 156, 0, 0, 0, 0, 0, 0, 0, 0, 0, 0, 0, 0, 0, 0, 0, 0, 0, 0, 0, 0, 0,
        70_000,
    ],
    zeros: 70_000,
};

/// The bytes of such a file.
pub fn one_stream_file(alloc: Global, file: OneStream<'_>) -> Result<Vec<u8>, AllocError> {
    let rva = file.entries.saturating_mul(12).saturating_add(32);
    let mut bytes = Vec::new(alloc);
    bytes.extend_from_slice(&header_of(file.entries, 32))?;
    for _ in 0..file.entries {
        bytes.extend_from_slice(&entry(file.stream_type, file.size, rva))?;
    }
    for number in file.first {
        bytes.extend_from_slice(&number.to_le_bytes())?;
    }
    let size = bytes.len().saturating_add(file.zeros as usize);
    bytes.resize(size, 0)?;
    Ok(bytes)
}
