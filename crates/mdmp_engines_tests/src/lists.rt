//! What `list` prints of files.
use crate::commands::{CallWay, Task};
use crate::files::{EMPTY, File};
use crate::list_ends::MODULES;
use crate::runs::{run_file, run_within, text_of};
use crate::same::assert_same_at;
use mdmp_test_support::{
    ABCD_RANGE, CODEVIEW_RECORD, CRASH, MEMORY64, MODULE_FILE_TEXT, SYSTEM, SYSTEM_TEXT,
    THREAD_NAME, THRICE, UNLOADED, WXYZ_RANGE,
};
use std::alloc::Global;
use std::process::Abort;

/// A header whose version has a high half.
const OF_A_PRODUCER: &[u8; 32] =
    b"MDMP\x93\xa7\xaa\x12\0\0\0\0\0\0\0\0\0\0\0\0\0\0\0\0\0\0\0\0\0\0\0\0";

/// What is printed of `SYSTEM` where its name is too long.
const SYSTEM_LONG: &str =
    "dump version 0x0000 streams 1 directory 32 checksum 0 time 0 flags 0x0000000000000000
stream 0 type 7 size 56 rva 44
system architecture 9 level 6 revision 3 processors 4 product 1 version 6.1.7601 platform 2 suite 256 csd long 28\n";

/// A region.
const REGION: [u32; 19] = [
    16, 64, 44, 16, 48, 1, 0, // the directory, and the head of the list
    0x10000, 0, 0x8000, 0, 4, 0, 4096, 0, 8192, 2, 131072, 0,
];

/// Two regions whose numbers have many digits, with zeros among them.
const LONG_NUMBERS: [u32; 31] = [
    16,
    112,
    44,
    16,
    48,
    2,
    0, // the directory, and the head of the list
    0x89ab_cdef,
    0x0123_4567,
    0xffff_ffff,
    0xffff_ffff,
    4294967295,
    0,
    0xffff_ffff,
    0xffff_ffff,
    99,
    100,
    1005,
    0, // the first region
    0x00ab_0900,
    0x1000_0000,
    0,
    0,
    10_000,
    0,
    0x6fc1_0005,
    0x0023_86f2,
    99_999_999,
    100_000_000,
    1_000_007,
    0, // the second
];

/// A file of two unloaded modules, of which the second has no name.
pub const NAMELESS: [u32; 18] = [
    14, 60, 44, 12, 24, 2, 0, 0, 0, 0, 0, 0, 0x10000, 0, 4096, 5, 6, 0,
];

/// The same, but the second has a name behind these numbers.
pub const NAMED: [u32; 18] = [
    14, 60, 44, 12, 24, 2, 0, 0, 0, 0, 0, 0, 0x10000, 0, 4096, 5, 6, 104,
];

/// A file, the longest name, and its list.
type ListRow<'a> = (File<'a>, u32, &'a str);

/// Headers, and names.
static LISTED: [ListRow<'static>; 12] = [
    (
        File::Bytes(EMPTY),
        0,
        "dump version 0x0000 streams 0 directory 4294967295 checksum 0 time 0 flags 0x0000000000000000\n",
    ),
    // The high half of the version is the producer's.
    (
        File::Bytes(OF_A_PRODUCER),
        0,
        "dump version 0x12aa streams 0 directory 0 checksum 0 time 0 flags 0x0000000000000000\n",
    ),
    (File::Bytes(&SYSTEM), 4096, SYSTEM_TEXT),
    // A name needs no zero behind it.
    (File::First(&SYSTEM, 132), 4096, SYSTEM_TEXT),
    // A name over the limit is its length.
    (File::Bytes(&SYSTEM), 0, SYSTEM_LONG),
    (
        File::NumbersThenBytes(1, &UNLOADED, b"\0\0\0\0"),
        8,
        "dump version 0x0000 streams 1 directory 32 checksum 0 time 0 flags 0x0000000000000000
stream 0 type 14 size 36 rva 44
unloaded 0 base 0x0000000000000000 size 0 checksum 0 time 0 name \"\"\n",
    ),
    (
        File::NumbersThenBytes(1, &UNLOADED, b"\x08\0\0\0a\0b\0c\0d\0"),
        8,
        "dump version 0x0000 streams 1 directory 32 checksum 0 time 0 flags 0x0000000000000000
stream 0 type 14 size 36 rva 44
unloaded 0 base 0x0000000000000000 size 0 checksum 0 time 0 name \"abcd\"\n",
    ),
    (
        File::NumbersThenBytes(1, &UNLOADED, b"\x0a\0\0\0a\0b\0c\0d\0e\0"),
        8,
        "dump version 0x0000 streams 1 directory 32 checksum 0 time 0 flags 0x0000000000000000
stream 0 type 14 size 36 rva 44
unloaded 0 base 0x0000000000000000 size 0 checksum 0 time 0 name long 10\n",
    ),
    (
        File::Numbers(1, &[14, 36, 44, 12, 24, 1, 0, 0, 0, 0, 0, 0]),
        8,
        "dump version 0x0000 streams 1 directory 32 checksum 0 time 0 flags 0x0000000000000000
stream 0 type 14 size 36 rva 44
unloaded 0 base 0x0000000000000000 size 0 checksum 0 time 0 name none\n",
    ),
    // The name of a thread stands at 64 bits.
    (
        File::Numbers(1, &THREAD_NAME),
        8,
        "dump version 0x0000 streams 1 directory 32 checksum 0 time 0 flags 0x0000000000000000
stream 0 type 24 size 16 rva 44
threadname 0 id 7 name \"abcd\"\n",
    ),
    (
        File::Numbers(1, &[24, 20, 44, 1, 9, 7, 64, 0, 8, 0x00620061, 0x00640063]),
        8,
        "dump version 0x0000 streams 1 directory 32 checksum 0 time 0 flags 0x0000000000000000
stream 0 type 24 size 20 rva 44
threadname 0 id 7 name \"abcd\"\n",
    ),
    (
        File::Numbers(1, &[24, 16, 44, 1, 7, 0, 0, 8, 0x00620061, 0x00640063]),
        8,
        "dump version 0x0000 streams 1 directory 32 checksum 0 time 0 flags 0x0000000000000000
stream 0 type 24 size 16 rva 44
threadname 0 id 7 name none\n",
    ),
];

/// Records.
static RECORDS: [ListRow<'static>; 9] = [
    // Ranges of a memory list, of a 64-bit list one behind the other, and past any file.
    (
        File::Memory(2, ABCD_RANGE, WXYZ_RANGE),
        0,
        "dump version 0x0000 streams 1 directory 32 checksum 0 time 0 flags 0x0000000000000000
stream 0 type 5 size 36 rva 44
range 0 start 0x0000000000001000 inside 4@80
range 1 start 0x0000000000001002 inside 4@84\n",
    ),
    (
        File::Bytes(&MEMORY64),
        0,
        "dump version 0x0000 streams 1 directory 32 checksum 0 time 0 flags 0x0000000000000000
stream 0 type 9 size 48 rva 44
range 0 start 0x0000000000001000 inside 4@92
range 1 start 0x0000000000002000 outside 4@96\n",
    ),
    (
        File::EndlessRanges,
        0,
        "dump version 0x0000 streams 1 directory 32 checksum 0 time 0 flags 0x0000000000000000
stream 0 type 9 size 64 rva 44
range 0 start 0x0000000000001000 outside 18446744073709551615@108
range 1 start 0x0000000000002000 outside 18446744073709551615@18446744073709551723
range 2 start 0x0000000000003000 outside 1@36893488147419103338\n",
    ),
    (
        File::Numbers(3, &THRICE),
        0,
        "dump version 0x0000 streams 3 directory 32 checksum 0 time 0 flags 0x0000000000000000
stream 0 type 3 size 52 rva 68
thread 0 id 7 suspend 0 class 0 priority 0 teb 0x0000000000000000 stack 0x0000000000000000 empty context empty
stream 1 type 3 size 52 rva 68
thread 0 id 7 suspend 0 class 0 priority 0 teb 0x0000000000000000 stack 0x0000000000000000 empty context empty
stream 2 type 3 size 52 rva 68
thread 0 id 7 suspend 0 class 0 priority 0 teb 0x0000000000000000 stack 0x0000000000000000 empty context empty\n",
    ),
    (
        File::Numbers(1, &MODULES),
        0,
        "dump version 0x0000 streams 1 directory 32 checksum 0 time 0 flags 0x0000000000000000
stream 0 type 4 size 328 rva 44
module 0 base 0x0000000000000000 size 0 checksum 0 time 0 version 0.0.0.0 cv empty misc empty name none
module 1 base 0x0000000000000000 size 0 checksum 0 time 0 version 0.0.0.0 cv empty misc empty name none
module 2 base 0x0000000000000000 size 0 checksum 0 time 0 version 0.0.0.0 cv empty misc empty name none\n",
    ),
    (
        File::Numbers(2, &CRASH),
        0,
        "dump version 0x0000 streams 2 directory 32 checksum 0 time 0 flags 0x0000000000000000
stream 0 type 3 size 52 rva 56
thread 0 id 7 suspend 0 class 32 priority 0 teb 0x0000000000005000 stack 0x0000000000007000 inside 4@108 context inside 6@112
stream 1 type 6 size 168 rva 120
exception thread 7 code 0xc0000005 flags 0 record 0x0000000000000000 address 0x0000000000401000 parameters 2 0x0000000000000001 0x0000000000000010 context inside 4@288\n",
    ),
    (
        File::Numbers(1, &REGION),
        0,
        "dump version 0x0000 streams 1 directory 32 checksum 0 time 0 flags 0x0000000000000000
stream 0 type 16 size 64 rva 44
region 0 base 0x0000000000010000 allocation 0x0000000000008000 initial 4 size 4096 state 8192 protect 2 type 131072\n",
    ),
    (
        File::Numbers(1, &LONG_NUMBERS),
        0,
        "dump version 0x0000 streams 1 directory 32 checksum 0 time 0 flags 0x0000000000000000
stream 0 type 16 size 112 rva 44
region 0 base 0x0123456789abcdef allocation 0xffffffffffffffff initial 4294967295 size 18446744073709551615 state 99 protect 100 type 1005
region 1 base 0x1000000000ab0900 allocation 0x0000000000000000 initial 10000 size 10000000000000005 state 99999999 protect 100000000 type 1000007\n",
    ),
    (File::Module(30, CODEVIEW_RECORD), 4096, MODULE_FILE_TEXT),
];

/// Asserts the lists of files.
fn assert_listed(rt: &impl Abort, alloc: Global, rows: &[ListRow<'_>]) {
    for (file, name, text) in rows {
        let run = run_within(Task::List, CallWay::Store, (168, *name, None, None, None));
        let outcome = run_file(rt, alloc, file, &run);
        assert_same_at(rt, text, text_of(rt, &outcome.bytes), *text);
        assert_same_at(rt, text, outcome.end.answer, Ok(0));
    }
}

#[test]
fn run_list_succeeds(rt: HostRuntime) {
    assert_listed(&rt, rt.alloc(), &LISTED);
}

#[test]
fn records_are_listed(rt: HostRuntime) {
    assert_listed(&rt, rt.alloc(), &RECORDS);
}
