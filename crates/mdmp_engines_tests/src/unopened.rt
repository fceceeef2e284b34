//! Files that are refused before anything is taken of a heap.
use crate::commands::Task;
use crate::files::File;
use crate::growths::{GrownRow, UNBOUNDED, assert_rows};
use crate::runs::EACH_WAY;
use mdmp_engines::{OpenFault, ToolFault};

const BAD_SIGNATURE: &[u8; 32] =
    b"PMDM\x93\xa7\0\0\0\0\0\0\xff\xff\xff\xff\0\0\0\0\0\0\0\0\0\0\0\0\0\0\0\0";

const BAD_VERSION: &[u8; 32] =
    b"MDMP\x94\xa7\0\0\0\0\0\0\xff\xff\xff\xff\0\0\0\0\0\0\0\0\0\0\0\0\0\0\0\0";

const BAD_BOTH: &[u8; 32] =
    b"PMDM\x94\xa7\0\0\0\0\0\0\xff\xff\xff\xff\0\0\0\0\0\0\0\0\0\0\0\0\0\0\0\0";

/// A list of a file that is not opened.
const UNOPENED: GrownRow<'static> = GrownRow {
    task: Task::List,
    ways: &EACH_WAY,
    within: (168, 0, None, None, None),
    growths: 0,
    ..UNBOUNDED
};

/// Files that are refused before any growth. Of the last but one the directory lacks a byte.
static REFUSED: [GrownRow<'static>; 6] = [
    GrownRow {
        file: File::Bytes(&[0; 31]),
        answer: Err(ToolFault::Opening(OpenFault::TooShort { size: 31 })),
        ..UNOPENED
    },
    GrownRow {
        file: File::Bytes(BAD_SIGNATURE),
        answer: Err(ToolFault::Opening(OpenFault::BadSignature)),
        ..UNOPENED
    },
    GrownRow {
        file: File::Bytes(BAD_VERSION),
        answer: Err(ToolFault::Opening(OpenFault::BadVersion { low: 0xa794 })),
        ..UNOPENED
    },
    GrownRow {
        file: File::Bytes(BAD_BOTH),
        answer: Err(ToolFault::Opening(OpenFault::BadSignature)),
        ..UNOPENED
    },
    GrownRow {
        file: File::NumbersThenBytes(1, &[0, 0], &[0, 0, 0]),
        answer: Err(ToolFault::Opening(OpenFault::DirectoryOutside {
            offset: 32,
            size: 12,
        })),
        ..UNOPENED
    },
    GrownRow {
        file: File::Numbers(0xffff_ffff, &[0, 0, 0]),
        answer: Err(ToolFault::Opening(OpenFault::DirectoryOutside {
            offset: 32,
            size: 51539607540,
        })),
        ..UNOPENED
    },
];

#[test]
fn refused_file_takes_no_memory(rt: HostRuntime) {
    assert_rows(&rt, rt.alloc(), &REFUSED);
}
