//! The last lines of a list: one of each kind of record.
use crate::commands::{CallWay, Task};
use crate::files::File;
use crate::runs::{run_file, run_within, text_of};
use crate::same::assert_same_at;
use mdmp_test_support::{ABSENT_STACK, CODEVIEW_RECORD};
use std::alloc::Global;
use std::process::Abort;

/// Three modules of zeros.
pub const MODULES: [u32; 85] = [
    4, 328, 44, 3, // the directory, and the count
    0, 0, 0, 0, 0, 0, 0, 0, 0, 0, 0, 0, 0, 0, 0, 0, 0, 0, 0, 0, 0, 0, 0, 0, 0, 0, 0, //
    0, 0, 0, 0, 0, 0, 0, 0, 0, 0, 0, 0, 0, 0, 0, 0, 0, 0, 0, 0, 0, 0, 0, 0, 0, 0, 0, //
    0, 0, 0, 0, 0, 0, 0, 0, 0, 0, 0, 0, 0, 0, 0, 0, 0, 0, 0, 0, 0, 0, 0, 0, 0, 0, 0,
];

/// A module whose file has another version than its product.
const VERSIONS: [u32; 31] = [
    4, 112, 44, 1, // the directory, and the count
    0x40000000, 1, 4096, 0, 0, 0, 0, 0, // up to the versions
    0xa_0000, 0x4a610001, // the file's
    0x6_0001, 0x7_0002, // the product's
    0, 0, 0, 0, 0, 0, 0, 0, 0, 0, 0, 0, 0, 0, 0,
];

/// An entry with another number in each field.
const STREAM: [u32; 6] = [0, 0, 0, 2, 3, 4];

/// Two threads. The context of the second is cut by the end of the file.
const THREADS: [u32; 28] = [
    3, 100, 44, 2, // the directory, and the count
    0, 0, 0, 0, 0, 0, 0, 0, 0, 0, 0, 0, // the first thread
    2, 3, 4, 5, 6, 0, 7, 0, 8, 9, 10, 140, // the second
];

/// Two regions.
const REGIONS: [u32; 31] = [
    16, 112, 44, 16, 48, 2, 0, // the directory, and the head of the list
    0, 0, 0, 0, 0, 0, 0, 0, 0, 0, 0, 0, // the first region
    2, 0, 3, 0, 4, 0, 5, 0, 6, 7, 8, 0, // the second
];

/// An exception that says it has 4294967295 values. Its context has no bytes, and stands at 6.
const EXCEPTION: [u32; 45] = [
    6, 168, 44, // the directory
    1, 0, 2, 3, 4, 0, 5, 0, 4294967295, 0, // up to the values
    255, 0, 255, 0, 255, 0, 255, 0, 255, 0, // five of them
    255, 0, 255, 0, 255, 0, 255, 0, 255, 0, //
    255, 0, 255, 0, 255, 0, 255, 0, 255, 0, //
    0, 6,
];

/// A system with a name of fourteen bytes, and two more.
const NUMBERED_SYSTEM: [u32; 22] = [
    7,
    56,
    44, // the directory
    0x2_0001,
    0x504_0003,
    6,
    7,
    8,
    9,
    100,
    0xc_000a,
    0x0d0d_0d0d, // up to the name's place
    0x0d0d_0d0d,
    0x0d0d_0d0d,
    0x0d0d_0d0d,
    0x0d0d_0d0d,
    0x0d0d_0d0d, // what is not printed
    14,
    0,
    0,
    0,
    0,
];

/// A record of another kind.
const OTHER: &[u8; 30] =
    b"NSDS\x33\x22\x11\x00\x55\x44\x77\x66\x88\x99\xaa\xbb\xcc\xdd\xee\xff\x01\0\0\0a.pdb\0";

/// A record whose name has bytes that are not printed as they are.
const ESCAPED: &[u8; 30] =
    b"RSDS\x33\x22\x11\x00\x55\x44\x77\x66\x88\x99\xaa\xbb\xcc\xdd\xee\xff\x01\0\0\0\xc3\x9f\\\" \0";

/// A file, what is listed, the longest name, and with what its list ends.
type EndRow<'a> = (File<'a>, Task<'a>, u32, &'a str);

static ENDS: [EndRow<'static>; 11] = [
    // A stack without bytes in the file, and a context that is one byte behind the list.
    (
        File::FirstOfNumbers(&ABSENT_STACK, 97),
        Task::List,
        0,
        "\nthread 0 id 7 suspend 0 class 0 priority 0 teb 0x0000000000000000 stack 0x0000000000007000 absent 256 context inside 1@96\n",
    ),
    (
        File::FirstOfNumbers(&ABSENT_STACK, 96),
        Task::List,
        0,
        "\nthread 0 id 7 suspend 0 class 0 priority 0 teb 0x0000000000000000 stack 0x0000000000007000 absent 256 context outside 1@96\n",
    ),
    (
        File::Numbers(1, &VERSIONS),
        Task::List,
        0,
        "\nmodule 0 base 0x0000000140000000 size 4096 checksum 0 time 0 version 10.0.19041.1 cv empty misc empty name none\n",
    ),
    // Each field in its place.
    (
        File::Numbers(2, &STREAM),
        Task::List,
        8,
        "\nstream 1 type 2 size 3 rva 4\n",
    ),
    (
        File::Numbers(1, &THREADS),
        Task::List,
        8,
        "\nthread 1 id 2 suspend 3 class 4 priority 5 teb 0x0000000000000006 stack 0x0000000000000007 inside 8@9 context outside 10@140\n",
    ),
    (
        File::Numbers(1, &NUMBERED_SYSTEM),
        Task::List,
        8,
        "\nsystem architecture 1 level 2 revision 3 processors 4 product 5 version 6.7.8 platform 9 suite 10 csd long 14\n",
    ),
    (
        File::Numbers(1, &REGIONS),
        Task::List,
        8,
        "\nregion 1 base 0x0000000000000002 allocation 0x0000000000000003 initial 4 size 5 state 6 protect 7 type 8\n",
    ),
    // An exception has at most fifteen values: three times five.
    (
        File::Numbers(1, &EXCEPTION),
        Task::List,
        0,
        "\
        \nexception thread 1 code 0x00000002 flags 3 record 0x0000000000000004 address 0x0000000000000005 parameters 4294967295 \
        0x00000000000000ff 0x00000000000000ff 0x00000000000000ff 0x00000000000000ff 0x00000000000000ff \
        0x00000000000000ff 0x00000000000000ff 0x00000000000000ff 0x00000000000000ff 0x00000000000000ff \
        0x00000000000000ff 0x00000000000000ff 0x00000000000000ff 0x00000000000000ff 0x00000000000000ff \
        context empty\n",
    ),
    // An unused entry is listed unseen.
    (
        File::Numbers(1, &[0, 0, 0]),
        Task::List,
        0,
        "dump version 0x0000 streams 1 directory 32 checksum 0 time 0 flags 0x0000000000000000\nstream 0 type 0 size 0 rva 0\n",
    ),
    (
        File::Numbers(1, &[0, 7, 0xffff_ffff]),
        Task::List,
        0,
        "dump version 0x0000 streams 1 directory 32 checksum 0 time 0 flags 0x0000000000000000\nstream 0 type 0 size 7 rva 4294967295\n",
    ),
    (
        File::Unused(30),
        Task::List,
        0,
        "\nstream 29 type 0 size 29 rva 32\n",
    ),
];

/// Records of CodeView.
static SYMBOLS: [EndRow<'static>; 9] = [
    // A record outside the file, or of no bytes, has no line.
    (
        File::Module(31, CODEVIEW_RECORD),
        Task::Symbols,
        9,
        "cv outside 31@156 misc empty name none\n",
    ),
    (
        File::Module(0, CODEVIEW_RECORD),
        Task::Symbols,
        9,
        "cv empty misc empty name none\n",
    ),
    // Records of each kind, and cut.
    (
        File::Module(30, CODEVIEW_RECORD),
        Task::Symbols,
        3,
        " misc empty name none\npdb 00112233-4455-6677-8899-aabbccddeeff age 1 name \"a.p\" cut\n",
    ),
    (
        File::Module(30, CODEVIEW_RECORD),
        Task::Symbols,
        0,
        " misc empty name none\npdb 00112233-4455-6677-8899-aabbccddeeff age 1 name \"\" cut\n",
    ),
    (
        File::Module(29, CODEVIEW_RECORD),
        Task::Symbols,
        4096,
        " misc empty name none\npdb 00112233-4455-6677-8899-aabbccddeeff age 1 name \"a.pdb\" cut\n",
    ),
    (
        File::Module(24, CODEVIEW_RECORD),
        Task::Symbols,
        4096,
        " misc empty name none\npdb 00112233-4455-6677-8899-aabbccddeeff age 1 name \"\" cut\n",
    ),
    (
        File::Module(23, CODEVIEW_RECORD),
        Task::Symbols,
        4096,
        " misc empty name none\npdb short 23\n",
    ),
    (
        File::Module(30, OTHER),
        Task::Symbols,
        4096,
        " misc empty name none\npdb other 4e534453 size 30\n",
    ),
    (
        File::Module(30, ESCAPED),
        Task::Symbols,
        4096,
        " misc empty name none\npdb 00112233-4455-6677-8899-aabbccddeeff age 1 name \"\\xc3\\x9f\\x5c\" \"\n",
    ),
];

/// Asserts with what the lists of files end.
fn assert_ends(rt: &impl Abort, alloc: Global, rows: &[EndRow<'_>]) {
    for (file, task, name, end) in rows {
        let run = run_within(*task, CallWay::Store, (168, *name, None, None, None));
        let outcome = run_file(rt, alloc, file, &run);
        let text = text_of(rt, &outcome.bytes);
        let found = (outcome.end.answer, text.ends_with(*end));
        assert_same_at(rt, &text, found, (Ok(0), true));
    }
}

#[test]
fn items_have_a_line(rt: HostRuntime) {
    assert_ends(&rt, rt.alloc(), &ENDS);
}

#[test]
fn records_of_each_kind_have_a_line(rt: HostRuntime) {
    assert_ends(&rt, rt.alloc(), &SYMBOLS);
}
