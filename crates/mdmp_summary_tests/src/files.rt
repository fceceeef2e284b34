//! Small files of a crash.
use mdmp_test_support::{entry, file_of_parts, header_of};
use std::alloc::Global;
use std::process::Abort;

/// What differs in the files of these tests.
#[derive(Drop)]
pub struct Made {
    pub platform: u32,
    pub architecture: u16,
    /// The code of the first exception, of thread 6, which has no context. Its address is 5.
    pub first_code: u32,
    /// The code of the second, of thread 7. Its address is 16, and the instruction pointer is 0x5010.
    pub code: u32,
    pub module_base: u64,
    pub module_size: u32,
}

/// A crash of Linux on x64, in a module.
pub const LINUX: Made = Made {
    platform: 0x8201,
    architecture: 9,
    first_code: 19,
    code: 11,
    module_base: 0x5000,
    module_size: 0x100,
};

/// How many bytes the file of a crash has.
pub const CRASH_SIZE: usize = 868;

/// A system.
fn system(platform: u32, architecture: u16) -> [u8; 56] {
    let mut bytes = [0; 56];
    bytes[..2].copy_from_slice(&architecture.to_le_bytes());
    bytes[20..24].copy_from_slice(&platform.to_le_bytes());
    bytes
}

/// An exception of a thread, with its context at an offset.
fn exception(thread: u32, code: u32, address: u64, size: u32, rva: u32) -> [u8; 168] {
    let mut bytes = [0; 168];
    bytes[..4].copy_from_slice(&thread.to_le_bytes());
    bytes[8..12].copy_from_slice(&code.to_le_bytes());
    bytes[24..32].copy_from_slice(&address.to_le_bytes());
    bytes[160..164].copy_from_slice(&size.to_le_bytes());
    bytes[164..].copy_from_slice(&rva.to_le_bytes());
    bytes
}

/// An entry that lies outside, two exceptions, a module, the system, and the context of the second exception.
pub fn crash_file(rt: &impl Abort, alloc: Global, made: &Made) -> Vec<u8> {
    let mut modules = [0; 112];
    modules[0] = 1;
    modules[4..12].copy_from_slice(&made.module_base.to_le_bytes());
    modules[12..16].copy_from_slice(&made.module_size.to_le_bytes());
    // The instruction pointer is 0x5010, on x86, ARM, x64 and ARM64 alike.
    let mut context = [0; 272];
    for at in [64, 184, 248, 264] {
        context[at] = 0x10;
        context[at + 1] = 0x50;
    }
    let parts: [&[u8]; 11] = [
        &header_of(5, 32),
        &entry(3, 4, 4096),
        &entry(6, 168, 92),
        &entry(6, 168, 260),
        &entry(4, 112, 428),
        &entry(7, 56, 540),
        &exception(6, made.first_code, 5, 0, 0),
        &exception(7, made.code, 16, 272, 596),
        &modules,
        &system(made.platform, made.architecture),
        &context,
    ];
    file_of_parts(alloc, &parts, CRASH_SIZE).expect(rt, "a file")
}

/// An exception with this code in each of 25 entries, and a system of Linux.
pub fn threads_file(rt: &impl Abort, alloc: Global, code: u32) -> Vec<u8> {
    let header = header_of(26, 32);
    let stopped = entry(6, 168, 344);
    let of_system = entry(7, 56, 512);
    let exception = exception(6, code, 5, 0, 0);
    let system = system(0x8201, 9);
    let mut parts: [&[u8]; 29] = [&stopped; 29];
    parts[0] = &header;
    parts[26] = &of_system;
    parts[27] = &exception;
    parts[28] = &system;
    file_of_parts(alloc, &parts, 568).expect(rt, "a file")
}
