//! What a record of any kind points at.
use crate::same::assert_same_at;
use mdmp_source::Location;
use mdmp_wire::{
    AnyRecord, Descriptor, Descriptor64, ModuleRecord, PartName, Slot, SystemRecord,
    ThreadNameRecord, ThreadRecord, VersionInfo,
};

/// A place of nothing.
const NOWHERE: Location = Location { size: 0, rva: 0 };

/// A range of nothing.
const NO_RANGE: Descriptor = Descriptor {
    start_of_memory_range: 0,
    memory: NOWHERE,
};

/// A range of nothing in the list of 64-bit memory.
const NO_RANGE_64: Descriptor64 = Descriptor64 {
    start_of_memory_range: 0,
    data_size: 0,
};

/// A module whose fields are zeros.
const NO_MODULE: ModuleRecord = ModuleRecord {
    base_of_image: 0,
    size_of_image: 0,
    checksum: 0,
    time_date_stamp: 0,
    module_name_rva: 0,
    version_info: VersionInfo {
        signature: 0,
        structure_version: 0,
        file_version_ms: 0,
        file_version_ls: 0,
        product_version_ms: 0,
        product_version_ls: 0,
        file_flags_mask: 0,
        file_flags: 0,
        file_os: 0,
        file_type: 0,
        file_subtype: 0,
        file_date_ms: 0,
        file_date_ls: 0,
    },
    cv_record: NOWHERE,
    misc_record: NOWHERE,
    reserved0: 0,
    reserved1: 0,
};

/// A system whose fields are zeros.
const NO_SYSTEM: SystemRecord = SystemRecord {
    processor_architecture: 0,
    processor_level: 0,
    processor_revision: 0,
    number_of_processors: 0,
    product_type: 0,
    major_version: 0,
    minor_version: 0,
    build_number: 0,
    platform_id: 0,
    csd_version_rva: 0,
    suite_mask: 0,
    reserved2: 0,
    cpu: [0; 24],
};

/// A thread whose fields are zeros.
const NO_THREAD: ThreadRecord = ThreadRecord {
    thread_id: 0,
    suspend_count: 0,
    priority_class: 0,
    priority: 0,
    teb: 0,
    stack: NO_RANGE,
    thread_context: NOWHERE,
};

/// The place of a stack, or of a CodeView record.
const FIRST: Location = Location { size: 1, rva: 2 };

/// The place of registers, or of a miscellaneous record.
const SECOND: Location = Location { size: 3, rva: 4 };

/// A thread with its stack and its registers.
const THREAD: ThreadRecord = ThreadRecord {
    stack: Descriptor {
        start_of_memory_range: 0,
        memory: FIRST,
    },
    thread_context: SECOND,
    ..NO_THREAD
};

/// A module with its name and its records.
const MODULE: ModuleRecord = ModuleRecord {
    module_name_rva: 7,
    cv_record: FIRST,
    misc_record: SECOND,
    ..NO_MODULE
};

/// A system with its name.
const SYSTEM: SystemRecord = SystemRecord {
    csd_version_rva: 8,
    ..NO_SYSTEM
};

/// A name of a thread.
const THREAD_NAME: ThreadNameRecord = ThreadNameRecord {
    thread_id: 9,
    rva_of_thread_name: u64::MAX,
};

/// A range of five bytes in the list of 64-bit memory.
const FIVE_BYTES: Descriptor64 = Descriptor64 {
    start_of_memory_range: 0,
    data_size: 5,
};

/// A record, where its name stands, its slots, in the order of its fields, and the record with no place in it.
static RECORDS: [(AnyRecord, Option<u64>, &[Slot], AnyRecord); 7] = [
    (
        AnyRecord::Thread(THREAD),
        None,
        &[
            Slot::Part(PartName::Stack, FIRST),
            Slot::Part(PartName::Context, SECOND),
            Slot::Empty,
        ],
        AnyRecord::Thread(NO_THREAD),
    ),
    (
        AnyRecord::Module(MODULE),
        Some(7),
        &[
            Slot::Name(7),
            Slot::Part(PartName::CodeView, FIRST),
            Slot::Part(PartName::Misc, SECOND),
        ],
        AnyRecord::Module(NO_MODULE),
    ),
    (
        AnyRecord::System(SYSTEM),
        Some(8),
        &[Slot::Name(8), Slot::Empty, Slot::Empty],
        AnyRecord::System(NO_SYSTEM),
    ),
    (
        AnyRecord::ThreadName(THREAD_NAME),
        Some(u64::MAX),
        &[Slot::Name(u64::MAX), Slot::Empty, Slot::Empty],
        AnyRecord::ThreadName(ThreadNameRecord {
            thread_id: 9,
            rva_of_thread_name: 0,
        }),
    ),
    (
        AnyRecord::Memory(NO_RANGE),
        None,
        &[
            Slot::Part(PartName::Memory, NOWHERE),
            Slot::Empty,
            Slot::Empty,
        ],
        AnyRecord::Memory(NO_RANGE),
    ),
    (
        AnyRecord::Memory64(NO_RANGE_64),
        None,
        &[Slot::Behind(0), Slot::Empty, Slot::Empty],
        AnyRecord::Memory64(NO_RANGE_64),
    ),
    (
        AnyRecord::Memory64(FIVE_BYTES),
        None,
        &[Slot::Behind(5), Slot::Empty, Slot::Empty],
        AnyRecord::Memory64(FIVE_BYTES),
    ),
];

#[test]
fn slots_of_a_record_are_in_the_order_of_its_fields(rt: HostRuntime) {
    for (record, name, slots, bare) in &RECORDS {
        let own = record.slots();
        let found = (record.name_rva(), own.as_slice(), record.bare());
        assert_same_at(&rt, record, found, (*name, *slots, *bare));
    }
}

/// A record, other slots for it, and the record with them.
const PUT: [(AnyRecord, [Slot; 3], AnyRecord); 4] = [
    (
        AnyRecord::Module(NO_MODULE),
        [
            Slot::Name(7),
            Slot::Part(PartName::CodeView, FIRST),
            Slot::Part(PartName::Misc, SECOND),
        ],
        AnyRecord::Module(MODULE),
    ),
    (
        AnyRecord::System(NO_SYSTEM),
        [Slot::Name(8), Slot::Empty, Slot::Empty],
        AnyRecord::System(SYSTEM),
    ),
    (
        AnyRecord::Memory(NO_RANGE),
        [
            Slot::Part(PartName::Memory, FIRST),
            Slot::Empty,
            Slot::Empty,
        ],
        AnyRecord::Memory(Descriptor {
            start_of_memory_range: 0,
            memory: FIRST,
        }),
    ),
    (
        AnyRecord::Memory64(NO_RANGE_64),
        [Slot::Behind(5), Slot::Empty, Slot::Empty],
        AnyRecord::Memory64(FIVE_BYTES),
    ),
];

#[test]
fn slots_are_put_into_a_record(rt: HostRuntime) {
    let records = PUT;
    for (record, slots, put) in &records {
        assert_same_at(&rt, record, record.with_slots(*slots), *put);
    }
}

#[test]
fn record_is_written_at_the_front(rt: HostRuntime) {
    let mut buffer = [0xff; 170];
    let size = AnyRecord::Memory64(FIVE_BYTES).write(&mut buffer);
    let written = b"\0\0\0\0\0\0\0\0\x05\0\0\0\0\0\0\0".as_slice();
    assert_same_at(&rt, &size, &buffer[..size], written);
    let size = AnyRecord::ThreadName(THREAD_NAME).write(&mut buffer);
    let written = b"\x09\0\0\0\xff\xff\xff\xff\xff\xff\xff\xff".as_slice();
    assert_same_at(&rt, &size, &buffer[..size], written);
}
