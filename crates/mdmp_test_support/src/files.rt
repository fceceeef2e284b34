//! Files made of their parts.
use crate::small_files::FAULTY;
use std::alloc::{AllocError, Global};

/// The bytes of a header with version 0x0000a793 and zeros beside these two fields.
pub fn header_of(streams: u32, directory: u32) -> [u8; 32] {
    let mut bytes = *b"MDMP\x93\xa7\0\0\0\0\0\0\0\0\0\0\0\0\0\0\0\0\0\0\0\0\0\0\0\0\0\0";
    bytes[8..12].copy_from_slice(&streams.to_le_bytes());
    bytes[12..16].copy_from_slice(&directory.to_le_bytes());
    bytes
}

/// The bytes of an entry of the directory.
pub fn entry(stream_type: u32, size: u32, rva: u32) -> [u8; 12] {
    let mut bytes = [0; 12];
    bytes[..4].copy_from_slice(&stream_type.to_le_bytes());
    bytes[4..8].copy_from_slice(&size.to_le_bytes());
    bytes[8..].copy_from_slice(&rva.to_le_bytes());
    bytes
}

/// A file made of these parts and as many zeros as it takes to have `size` bytes.
pub fn file_of_parts(alloc: Global, parts: &[&[u8]], size: usize) -> Result<Vec<u8>, AllocError> {
    let mut bytes = Vec::new(alloc);
    for part in parts {
        bytes.extend_from_slice(*part)?;
    }
    bytes.resize(size, 0)?;
    Ok(bytes)
}

/// A file of a header, the directory behind it, and all else as numbers of four bytes.
pub fn file_of_numbers(
    alloc: Global,
    streams: u32,
    numbers: &[u32],
) -> Result<Vec<u8>, AllocError> {
    let mut bytes = Vec::new(alloc);
    bytes.extend_from_slice(&header_of(streams, 32))?;
    for number in numbers {
        push_number(&mut bytes, *number)?;
    }
    Ok(bytes)
}

fn push_number(bytes: &mut Vec<u8>, number: u32) -> Result<(), AllocError> {
    bytes.extend_from_slice(&number.to_le_bytes())
}

/// The file whose numbers are `FAULTY`.
pub fn faulty_file(alloc: Global) -> Result<Vec<u8>, AllocError> {
    file_of_numbers(alloc, 3, &FAULTY)
}

/// A file of 16,836 bytes with a list of 100 threads that each of its 1,000 entries names.
pub fn thousand_entries_file(alloc: Global) -> Result<Vec<u8>, AllocError> {
    let mut bytes = Vec::new(alloc);
    bytes.extend_from_slice(&header_of(1000, 32))?;
    for _ in 0..1000u32 {
        bytes.extend_from_slice(&entry(3, 4804, 12_032))?;
    }
    push_number(&mut bytes, 100)?;
    bytes.resize(16_836, 0)?;
    Ok(bytes)
}
