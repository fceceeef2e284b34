//! Modules, and unloaded modules.
use super::Vector;
use crate::files::{ALL, DumpReading, NAMED_ROW, Sample};
use mdmp_test_support::MODULE;

/// Modules, and unloaded modules, with and without names.
pub static MODULES: [Vector; 4] = [
    Vector {
        reading: DumpReading {
            name: "a module with its name and parts",
            sample: Sample::Numbers(1, &MODULE),
            types: ALL,
            limits: NAMED_ROW,
            parts: 6,
        },
        value: "Dump { version_high: 0, checksum: 0, time: 0, flags: 0, streams: [Modules([Module { base_of_image: \
8589934593, size_of_image: 3, checksum: 4, time_date_stamp: 5, name: Some(\"ab\"), version_info: \
VersionInfo { signature: 6, structure_version: 7, file_version_ms: 8, file_version_ls: 9, \
product_version_ms: 10, product_version_ls: 11, file_flags_mask: 12, file_flags: 13, file_os: 14, \
file_type: 15, file_subtype: 16, file_date_ms: 17, file_date_ls: 18 }, codeview: Bytes([82, 83, 68, \
83]), misc: Bytes([68, 83]), reserved0: 19, reserved1: 85899345920 }])] }",
        written: Sample::Numbers(
            1,
            &[
                4, 112, 44, 1, // the directory, and the count
                1, 2, 3, 4, 5, 156, 6, 7, 8, 9, 10, 11, 12, 13, 14, 15, 16, 17, 18, // up to the version
                4, 168, 2, 172, 19, 0, 0, 20, // the module's parts
                4, 0x00620061, 0, 0x53445352, 0x5344, // its name, with zeros behind it, and its parts' bytes
            ],
        ),
    },
    Vector {
        reading: DumpReading {
            name: "an unloaded module with its name",
            sample: Sample::Named(b"\x04\0\0\0a\0b\0"),
            types: ALL,
            limits: NAMED_ROW,
            parts: 0,
        },
        value: "Dump { version_high: 0, checksum: 0, time: 0, flags: 0, streams: [Unloaded([Unloaded { \
base_of_image: 0, size_of_image: 0, checksum: 0, time_date_stamp: 0, name: Some(\"ab\") }])] }",
        written: Sample::Numbers(
            1,
            &[14, 36, 44, 12, 24, 1, 0, 0, 0, 0, 0, 80, 4, 0x00620061, 0],
        ),
    },
    Vector {
        reading: DumpReading {
            name: "unloaded modules without a name, with one of no units, and with one",
            sample: Sample::Numbers(
                1,
                &[
                    14, 84, 44, 12, 24, 3, // the directory, and the head
                    0, 0, 0, 0, 0, 0, 0, 0, 0, 0, 0, 136, 0, 0, 0, 0, 0, 128, // the modules
                    4, 0x00620061, 0, // their names
                ],
            ),
            types: ALL,
            limits: NAMED_ROW,
            parts: 0,
        },
        value: "Dump { version_high: 0, checksum: 0, time: 0, flags: 0, streams: [Unloaded([Unloaded { \
base_of_image: 0, size_of_image: 0, checksum: 0, time_date_stamp: 0, name: None }, Unloaded { \
base_of_image: 0, size_of_image: 0, checksum: 0, time_date_stamp: 0, name: Some(\"\") }, Unloaded { \
base_of_image: 0, size_of_image: 0, checksum: 0, time_date_stamp: 0, name: Some(\"ab\") }])] }",
        written: Sample::Numbers(
            1,
            &[
                14, 84, 44, 12, 24, 3, // the directory, and the head
                0, 0, 0, 0, 0, 0, 0, 0, 0, 0, 0, 128, 0, 0, 0, 0, 0, 136, // the modules
                0, 0, 4, 0x00620061, 0, // their names
            ],
        ),
    },
    Vector {
        reading: DumpReading {
            name: "an unloaded module, with an escape in its name",
            sample: Sample::Numbers(
                1,
                &[
                    14, 36, 44, 12, 24, 1, 0x1000, 0, 0x200, 1, 2, 80, 4, 0x005c0061,
                ],
            ),
            types: ALL,
            limits: NAMED_ROW,
            parts: 0,
        },
        value: "Dump { version_high: 0, checksum: 0, time: 0, flags: 0, streams: [Unloaded([Unloaded { \
base_of_image: 4096, size_of_image: 512, checksum: 1, time_date_stamp: 2, name: Some(\"a\\u005c\") \
}])] }",
        written: Sample::Numbers(
            1,
            &[
                14, 36, 44, 12, 24, 1, 0x1000, 0, 0x200, 1, 2, 80, 4, 0x005c0061, 0,
            ],
        ),
    },
];
