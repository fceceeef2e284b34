//! Files of numbers and of bytes, as rows tell them.
use mdmp_test_support::{UNLOADED, file_of_numbers, thousand_entries_file};
use std::alloc::Global;
use std::process::Abort;

/// Three unused entries, and a memory list of two ranges without bytes.
pub const FOUR: [u32; 21] = [
    0, 0, 0, 0, 0, 0, 0, 0, 0, 5, 36, 80, // the directory
    2, 0x1000, 0, 0, 116, 0x2000, 0, 0, 116,
];

/// What a file has.
#[derive(Clone, Copy)]
pub enum FileOf {
    /// These bytes.
    Bytes(&'static [u8]),
    /// The first of these bytes, so many.
    First(usize, &'static [u8]),
    /// So many entries, and these numbers.
    Numbers(u32, &'static [u32]),
    /// So many entries, and then so many numbers in all: these and zeros, but for those that are given with their places.
    Padded(u32, usize, &'static [u32], &'static [(usize, u32)]),
    /// An unloaded module whose name is said to stand here, and these bytes at 80.
    Named(u32, &'static [u8]),
    /// A list of 100 threads that 1000 entries name: 16,836 bytes.
    Thousand,
}

/// A file with so many entries and these numbers.
pub fn file_of(rt: &impl Abort, alloc: Global, entries: u32, numbers: &[u32]) -> Vec<u8> {
    file_of_numbers(alloc, entries, numbers).expect(rt, "memory for a file")
}

/// A file with these bytes.
fn copied(rt: &impl Abort, alloc: Global, bytes: &[u8]) -> Vec<u8> {
    let mut file = Vec::new(alloc);
    file.extend_from_slice(bytes).expect(rt, "memory");
    file
}

/// A file with so many entries and numbers: these and zeros, but for those that are given with their places.
fn padded(
    rt: &impl Abort,
    alloc: Global,
    entries: u32,
    len: usize,
    first: &[u32],
    others: &[(usize, u32)],
) -> Vec<u8> {
    let mut numbers = Vec::new(alloc);
    numbers.extend_from_slice(first).expect(rt, "memory");
    numbers.resize(len, 0).expect(rt, "memory");
    for (place, number) in others {
        assert!(rt; *place < numbers.len());
        numbers[*place] = *number;
    }
    file_of(rt, alloc, entries, &numbers)
}

/// A file with an unloaded module whose name is said to stand at `rva`, and these bytes at 80.
fn named(rt: &impl Abort, alloc: Global, rva: u32, bytes: &[u8]) -> Vec<u8> {
    let mut numbers = UNLOADED;
    numbers[11] = rva;
    let mut file = file_of(rt, alloc, 1, &numbers);
    file.extend_from_slice(bytes).expect(rt, "memory");
    file
}

/// A file as a row tells it.
pub fn made(rt: &impl Abort, alloc: Global, file: &FileOf) -> Vec<u8> {
    match file {
        FileOf::Bytes(bytes) => copied(rt, alloc, bytes),
        FileOf::First(size, bytes) => copied(rt, alloc, first_bytes(rt, bytes, *size)),
        FileOf::Numbers(entries, numbers) => file_of(rt, alloc, *entries, numbers),
        FileOf::Padded(entries, len, first, others) => {
            padded(rt, alloc, *entries, *len, first, others)
        }
        FileOf::Named(rva, bytes) => named(rt, alloc, *rva, bytes),
        FileOf::Thousand => thousand_entries_file(alloc).expect(rt, "memory for a file"),
    }
}

/// The first bytes of a file, as many as this.
pub fn first_bytes<'a>(rt: &impl Abort, file: &'a [u8], size: usize) -> &'a [u8] {
    file.get(..size).expect(rt, "so many bytes")
}

/// A file of 16,384 entries that name one memory list of so many ranges without bytes.
pub fn crowded(rt: &impl Abort, alloc: Global, ranges: u16) -> Vec<u8> {
    let size = 4 + 16 * u32::from(ranges);
    let mut numbers = Vec::new(alloc);
    for _ in 0..16384 {
        let entry = [5, size, 196640];
        numbers.extend_from_slice(&entry).expect(rt, "memory");
    }
    let len = numbers.len().saturating_add(size as usize / 4);
    numbers.push(u32::from(ranges)).expect(rt, "memory");
    numbers.resize(len, 0).expect(rt, "memory");
    file_of(rt, alloc, 16384, &numbers)
}
