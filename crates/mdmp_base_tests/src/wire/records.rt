//! The records of the lists, read and written.
use super::fields::{COUNTED, assert_fields};
use mdmp_source::Location;
use mdmp_wire::{
    Descriptor, MemoryInfoRecord, ModuleRecord, ThreadNameRecord, ThreadRecord, UnloadedRecord,
    VersionInfo,
};

const THREAD: ThreadRecord = ThreadRecord {
    thread_id: 0x03020100,
    suspend_count: 0x07060504,
    priority_class: 0x0b0a0908,
    priority: 0x0f0e0d0c,
    teb: 0x1716151413121110,
    stack: Descriptor {
        start_of_memory_range: 0x1f1e1d1c1b1a1918,
        memory: Location {
            size: 0x23222120,
            rva: 0x27262524,
        },
    },
    thread_context: Location {
        size: 0x2b2a2928,
        rva: 0x2f2e2d2c,
    },
};

const VERSION_INFO: VersionInfo = VersionInfo {
    signature: 0x03020100,
    structure_version: 0x07060504,
    file_version_ms: 0x0b0a0908,
    file_version_ls: 0x0f0e0d0c,
    product_version_ms: 0x13121110,
    product_version_ls: 0x17161514,
    file_flags_mask: 0x1b1a1918,
    file_flags: 0x1f1e1d1c,
    file_os: 0x23222120,
    file_type: 0x27262524,
    file_subtype: 0x2b2a2928,
    file_date_ms: 0x2f2e2d2c,
    file_date_ls: 0x33323130,
};

const MODULE: ModuleRecord = ModuleRecord {
    base_of_image: 0x0706050403020100,
    size_of_image: 0x0b0a0908,
    checksum: 0x0f0e0d0c,
    time_date_stamp: 0x13121110,
    module_name_rva: 0x17161514,
    version_info: VersionInfo {
        signature: 0x1b1a1918,
        structure_version: 0x1f1e1d1c,
        file_version_ms: 0x23222120,
        file_version_ls: 0x27262524,
        product_version_ms: 0x2b2a2928,
        product_version_ls: 0x2f2e2d2c,
        file_flags_mask: 0x33323130,
        file_flags: 0x37363534,
        file_os: 0x3b3a3938,
        file_type: 0x3f3e3d3c,
        file_subtype: 0x43424140,
        file_date_ms: 0x47464544,
        file_date_ls: 0x4b4a4948,
    },
    cv_record: Location {
        size: 0x4f4e4d4c,
        rva: 0x53525150,
    },
    misc_record: Location {
        size: 0x57565554,
        rva: 0x5b5a5958,
    },
    reserved0: 0x636261605f5e5d5c,
    reserved1: 0x6b6a696867666564,
};

const UNLOADED: UnloadedRecord = UnloadedRecord {
    base_of_image: 0x0706050403020100,
    size_of_image: 0x0b0a0908,
    checksum: 0x0f0e0d0c,
    time_date_stamp: 0x13121110,
    module_name_rva: 0x17161514,
};

const THREAD_NAME: ThreadNameRecord = ThreadNameRecord {
    thread_id: 0x03020100,
    rva_of_thread_name: 0x0b0a090807060504,
};

const MEMORY_INFO: MemoryInfoRecord = MemoryInfoRecord {
    base_address: 0x0706050403020100,
    allocation_base: 0x0f0e0d0c0b0a0908,
    allocation_protect: 0x13121110,
    region_size: 0x1f1e1d1c1b1a1918,
    state: 0x23222120,
    protect: 0x27262524,
    memory_type: 0x2b2a2928,
};

#[test]
fn records_have_their_fields_at_their_offsets(rt: HostRuntime) {
    assert_fields(&rt, &COUNTED, 48, &[], THREAD);
    assert_fields(&rt, &COUNTED, 52, &[], VERSION_INFO);
    assert_fields(&rt, &COUNTED, 108, &[], MODULE);
    assert_fields(&rt, &COUNTED, 24, &[], UNLOADED);
    assert_fields(&rt, &COUNTED, 12, &[], THREAD_NAME);
    assert_fields(&rt, &COUNTED, 48, &[20, 44], MEMORY_INFO);
}
