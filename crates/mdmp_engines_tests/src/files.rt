//! The files of the tests, and what is written.
use mdmp_test_support::{
    FourByteRange, ListedRange, endless_ranges_file, entry, file_of_numbers, header_of, large_file,
    last_file, memory_file, module_file, short_threads_file, two_ranges_file,
};
use std::alloc::{AllocError, Global};
use std::process::Abort;

/// A file, or what is written, by what it is made of.
#[derive(Clone, Copy)]
pub enum File<'a> {
    /// These bytes.
    Bytes(&'a [u8]),
    /// The first bytes of these.
    First(&'a [u8], usize),
    /// This text.
    Text(&'a str),
    /// A header that counts so many streams, and behind it these numbers of four bytes, from the directory
    /// on.
    Numbers(u32, &'a [u32]),
    /// The first bytes of such a file.
    FirstOfNumbers(&'a [u32], usize),
    /// The same, and these bytes behind it.
    NumbersThenBytes(u32, &'a [u32], &'a [u8]),
    /// The file of `memory_file`.
    Memory(u32, FourByteRange, FourByteRange),
    /// The file of `module_file`.
    Module(u32, &'a [u8]),
    /// The file of `two_ranges_file`.
    TwoRanges(&'a [ListedRange; 2], &'a [u8]),
    /// The file of `last_file`.
    Last,
    /// The file of `short_threads_file`.
    ShortThreads,
    /// The file of `endless_ranges_file`.
    EndlessRanges,
    /// The file of `large_file`.
    Large,
    /// So many unused entries, each of another size.
    Unused(u32),
    /// So many entries of zeros.
    Zeros(u32),
    /// 1,100 entries that name one comment of 4,000,000 bytes.
    Crowded,
}

/// A header without streams, whose directory would stand at 0xffff_ffff.
pub const EMPTY: &[u8; 32] =
    b"MDMP\x93\xa7\0\0\0\0\0\0\xff\xff\xff\xff\0\0\0\0\0\0\0\0\0\0\0\0\0\0\0\0";

/// A file of entries of this type and size, or each of the size of its number, and zeros up to `size` bytes.
fn entries_file(alloc: Global, count: u32, entries: Entries) -> Result<Vec<u8>, AllocError> {
    let mut file = header_of(count, 32).to_vec(alloc)?;
    for number in 0..count {
        let bytes = match entries {
            Entries::Zeros => [0; 12],
            Entries::Unused => entry(0, number, 32),
            Entries::Comment => entry(10, 4_000_000, 13232),
        };
        file.extend_from_slice(&bytes)?;
    }
    if matches!(entries, Entries::Comment) {
        file.resize(4_013_232, 0)?;
    }
    Ok(file)
}

/// What entries name: nothing, or one comment behind them.
#[derive(Clone, Copy)]
enum Entries {
    Zeros,
    Unused,
    Comment,
}

/// The first bytes, of this number.
pub fn first_of<'a>(rt: &impl Abort, bytes: &'a [u8], size: usize) -> &'a [u8] {
    bytes.get(..size).expect(rt, "so many bytes")
}

/// A file of numbers, and bytes behind them.
fn numbers_then_bytes(
    alloc: Global,
    streams: u32,
    numbers: &[u32],
    bytes: &[u8],
) -> Result<Vec<u8>, AllocError> {
    let mut file = file_of_numbers(alloc, streams, numbers)?;
    file.extend_from_slice(bytes)?;
    Ok(file)
}

/// The first bytes of a file of numbers.
fn first_of_numbers(alloc: Global, numbers: &[u32], size: usize) -> Result<Vec<u8>, AllocError> {
    let mut file = file_of_numbers(alloc, 1, numbers)?;
    file.resize(size, 0)?;
    Ok(file)
}

fn made(rt: &impl Abort, alloc: Global, file: &File<'_>) -> Result<Vec<u8>, AllocError> {
    match file {
        File::Bytes(bytes) => bytes.to_vec(alloc),
        File::First(bytes, size) => first_of(rt, *bytes, *size).to_vec(alloc),
        File::Text(text) => text.as_bytes().to_vec(alloc),
        File::Numbers(streams, numbers) => file_of_numbers(alloc, *streams, *numbers),
        File::FirstOfNumbers(numbers, size) => first_of_numbers(alloc, *numbers, *size),
        File::NumbersThenBytes(streams, numbers, bytes) => {
            numbers_then_bytes(alloc, *streams, *numbers, *bytes)
        }
        File::Memory(count, first, second) => memory_file(alloc, *count, *first, *second),
        File::Module(size, record) => module_file(alloc, *size, *record),
        File::TwoRanges(ranges, bytes) => two_ranges_file(alloc, *ranges, *bytes),
        File::Last => last_file(alloc),
        File::ShortThreads => short_threads_file(alloc),
        File::EndlessRanges => endless_ranges_file(alloc),
        File::Large => large_file(alloc),
        File::Unused(count) => entries_file(alloc, *count, Entries::Unused),
        File::Zeros(count) => entries_file(alloc, *count, Entries::Zeros),
        File::Crowded => entries_file(alloc, 1100, Entries::Comment),
    }
}

/// The bytes of a file.
pub fn bytes_of(rt: &impl Abort, alloc: Global, file: &File<'_>) -> Vec<u8> {
    made(rt, alloc, file).expect(rt, "memory for a file")
}
