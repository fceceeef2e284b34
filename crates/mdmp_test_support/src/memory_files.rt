//! Files that hold memory of a process.
use crate::files::file_of_numbers;
use std::alloc::{AllocError, Global};

/// A file of 2,097,216 bytes with a memory list of one range of 2 MiB at 0x1000, whose bytes are the
/// numbers from 0 on, four bytes each. It stands as it would be written.
pub fn large_file(alloc: Global) -> Result<Vec<u8>, AllocError> {
    let head = [5, 20, 44, 1, 0x1000, 0, 2_097_152, 64];
    let mut bytes = file_of_numbers(alloc, 1, &head)?;
    for number in 0..524_288u32 {
        bytes.extend_from_slice(&number.to_le_bytes())?;
    }
    Ok(bytes)
}

/// A range of four bytes in a memory list: where it begins, and where they stand.
#[derive(Clone, Copy)]
pub struct FourByteRange {
    pub start: u32,
    pub rva: u32,
}

/// `ABCD`, at 0x1000.
pub const ABCD_RANGE: FourByteRange = FourByteRange {
    start: 0x1000,
    rva: 80,
};

/// `wxyz`, at 0x1002.
pub const WXYZ_RANGE: FourByteRange = FourByteRange {
    start: 0x1002,
    rva: 84,
};

/// A file of 88 bytes with a memory list of two ranges that says it has this many.
pub fn memory_file(
    alloc: Global,
    count: u32,
    first: FourByteRange,
    second: FourByteRange,
) -> Result<Vec<u8>, AllocError> {
    let words = [
        5,
        36,
        44,
        count,
        first.start,
        0,
        4,
        first.rva,
        second.start,
        0,
        4,
        second.rva,
        0x4443_4241,
        0x7a79_7877,
    ];
    file_of_numbers(alloc, 1, &words)
}

/// A file with a 64-bit list of one range, of sixteen bytes at 0xfffffffffffffff8.
pub fn last_file(alloc: Global) -> Result<Vec<u8>, AllocError> {
    let words = [
        9,
        32,
        44,
        1,
        0,
        76,
        0, // one range, whose bytes begin at 76
        0xffff_fff8,
        0xffff_ffff,
        16,
        0,
        0x0302_0100,
        0x0706_0504,
        0x0b0a_0908,
        0x0f0e_0d0c,
    ];
    file_of_numbers(alloc, 1, &words)
}

/// A file with a list of one thread that is a byte too short for it.
pub fn short_threads_file(alloc: Global) -> Result<Vec<u8>, AllocError> {
    let mut words = [0; 16];
    words[..4].copy_from_slice(&[3, 51, 44, 1]);
    file_of_numbers(alloc, 1, &words)
}

/// A file with a 64-bit list of three ranges, of which two have the greatest size.
pub fn endless_ranges_file(alloc: Global) -> Result<Vec<u8>, AllocError> {
    let most = u32::MAX;
    let words = [
        9, 64, 44, 3, 0, 108, 0, // three ranges, whose bytes begin at 108
        0x1000, 0, most, most, 0x2000, 0, most, most, 0x3000, 0, 1, 0,
    ];
    file_of_numbers(alloc, 1, &words)
}

/// A range of a memory list: where it begins, how many bytes it has, and where they stand.
#[derive(Clone, Copy)]
pub struct ListedRange {
    pub start: u64,
    pub size: u32,
    pub rva: u32,
}

/// A range without bytes.
pub const NO_RANGE: ListedRange = ListedRange {
    start: 0,
    size: 0,
    rva: 0,
};

/// A file with a memory list of two ranges, and these bytes from 80 on.
pub fn two_ranges_file(
    alloc: Global,
    ranges: &[ListedRange; 2],
    bytes: &[u8],
) -> Result<Vec<u8>, AllocError> {
    let mut file = file_of_numbers(alloc, 1, &[5, 36, 44, 2])?;
    for range in ranges {
        file.extend_from_slice(&range.start.to_le_bytes())?;
        file.extend_from_slice(&range.size.to_le_bytes())?;
        file.extend_from_slice(&range.rva.to_le_bytes())?;
    }
    file.extend_from_slice(bytes)?;
    Ok(file)
}
