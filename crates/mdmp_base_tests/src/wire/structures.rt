//! Heads, places, the system and an exception, read and written.
use super::fields::{COUNTED, assert_fields};
use mdmp_source::Location;
use mdmp_wire::{
    Descriptor, Descriptor64, Entry, ExceptionRecord, Header, Memory64List, MemoryInfoList,
    SystemRecord, UnloadedList,
};

const HEADER: Header = Header {
    signature: 0x03020100,
    version: 0x07060504,
    number_of_streams: 0x0b0a0908,
    stream_directory_rva: 0x0f0e0d0c,
    checksum: 0x13121110,
    time_date_stamp: 0x17161514,
    flags: 0x1f1e1d1c1b1a1918,
};

const ENTRY: Entry = Entry {
    stream_type: 0x03020100,
    location: Location {
        size: 0x07060504,
        rva: 0x0b0a0908,
    },
};

const LOCATION: Location = Location {
    size: 0x03020100,
    rva: 0x07060504,
};

const DESCRIPTOR: Descriptor = Descriptor {
    start_of_memory_range: 0x0706050403020100,
    memory: Location {
        size: 0x0b0a0908,
        rva: 0x0f0e0d0c,
    },
};

const DESCRIPTOR64: Descriptor64 = Descriptor64 {
    start_of_memory_range: 0x0706050403020100,
    data_size: 0x0f0e0d0c0b0a0908,
};

const SYSTEM: SystemRecord = SystemRecord {
    processor_architecture: 0x0100,
    processor_level: 0x0302,
    processor_revision: 0x0504,
    number_of_processors: 0x06,
    product_type: 0x07,
    major_version: 0x0b0a0908,
    minor_version: 0x0f0e0d0c,
    build_number: 0x13121110,
    platform_id: 0x17161514,
    csd_version_rva: 0x1b1a1918,
    suite_mask: 0x1d1c,
    reserved2: 0x1f1e,
    cpu: [
        0x20, 0x21, 0x22, 0x23, 0x24, 0x25, 0x26, 0x27, 0x28, 0x29, 0x2a, 0x2b, 0x2c, 0x2d, 0x2e,
        0x2f, 0x30, 0x31, 0x32, 0x33, 0x34, 0x35, 0x36, 0x37,
    ],
};

const EXCEPTION: ExceptionRecord = ExceptionRecord {
    thread_id: 0x03020100,
    exception_code: 0x0b0a0908,
    exception_flags: 0x0f0e0d0c,
    exception_record: 0x1716151413121110,
    exception_address: 0x1f1e1d1c1b1a1918,
    number_parameters: 0x23222120,
    exception_information: [
        0x2f2e2d2c2b2a2928,
        0x3736353433323130,
        0x3f3e3d3c3b3a3938,
        0x4746454443424140,
        0x4f4e4d4c4b4a4948,
        0x5756555453525150,
        0x5f5e5d5c5b5a5958,
        0x6766656463626160,
        0x6f6e6d6c6b6a6968,
        0x7776757473727170,
        0x7f7e7d7c7b7a7978,
        0x8786858483828180,
        0x8f8e8d8c8b8a8988,
        0x9796959493929190,
        0x9f9e9d9c9b9a9998,
    ],
    thread_context: Location {
        size: 0xa3a2a1a0,
        rva: 0xa7a6a5a4,
    },
};

/// An exception whose bits are all set.
const EXCEPTION_OF_ONES: ExceptionRecord = ExceptionRecord {
    thread_id: u32::MAX,
    exception_code: u32::MAX,
    exception_flags: u32::MAX,
    exception_record: u64::MAX,
    exception_address: u64::MAX,
    number_parameters: u32::MAX,
    exception_information: [u64::MAX; 15],
    thread_context: Location {
        size: u32::MAX,
        rva: u32::MAX,
    },
};

const UNLOADED_LIST: UnloadedList = UnloadedList {
    size_of_header: 0x03020100,
    size_of_entry: 0x07060504,
    number_of_entries: 0x0b0a0908,
};

const MEMORY_INFO_LIST: MemoryInfoList = MemoryInfoList {
    size_of_header: 0x03020100,
    size_of_entry: 0x07060504,
    number_of_entries: 0x0f0e0d0c0b0a0908,
};

const MEMORY64_LIST: Memory64List = Memory64List {
    number_of_memory_ranges: 0x0706050403020100,
    base_rva: 0x0f0e0d0c0b0a0908,
};

#[test]
fn structures_have_their_fields_at_their_offsets(rt: HostRuntime) {
    assert_fields(&rt, &COUNTED, 32, &[], HEADER);
    assert_fields(&rt, &COUNTED, 12, &[], ENTRY);
    assert_fields(&rt, &COUNTED, 8, &[], LOCATION);
    assert_fields(&rt, &COUNTED, 16, &[], DESCRIPTOR);
    assert_fields(&rt, &COUNTED, 16, &[], DESCRIPTOR64);
    assert_fields(&rt, &COUNTED, 56, &[], SYSTEM);
    assert_fields(&rt, &COUNTED, 168, &[4, 36], EXCEPTION);
    assert_fields(&rt, &COUNTED, 12, &[], UNLOADED_LIST);
    assert_fields(&rt, &COUNTED, 16, &[], MEMORY_INFO_LIST);
    assert_fields(&rt, &COUNTED, 16, &[], MEMORY64_LIST);
    // Alignment is ignored, and written as zeros.
    assert_fields(&rt, &[0xff; 168], 168, &[4, 36], EXCEPTION_OF_ONES);
}
