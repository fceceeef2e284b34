//! The items of whole files, of each kind of record.
use crate::files::FileOf;
use crate::given::{ABCD, Named, What, module, named_item, nameless, range, stream, thread};
use crate::opening::fault;
use crate::playing::assert_scripts;
use crate::script::{
    APART_1000, BY_LEAST, BY_SHORT, BY_WALKER, Call, ITEMS_APART, ITEMS_OF_MEMORY64,
    ITEMS_OF_THRICE, Script,
};
use mdmp_lister::FaultKind;
use mdmp_source::Extent;
use mdmp_test_support::{MEMORY64, THREAD_NAME, THRICE};
use mdmp_wire::MemoryInfoRecord;

static LISTS: [Script<'static>; 5] = [
    Script {
        shows: "a list that three entries name is listed thrice",
        file: FileOf::Numbers(3, &THRICE),
        calls: &ITEMS_OF_THRICE,
        ..BY_LEAST
    },
    Script {
        shows: "a walker gives what a lister gives",
        file: FileOf::Numbers(3, &THRICE),
        calls: &ITEMS_OF_THRICE,
        ..BY_WALKER
    },
    Script {
        shows: "modules of 108 bytes stand one behind the other",
        file: FileOf::Padded(1, 85, &[4, 328, 44, 3, 1], &[(31, 2), (58, 3)]),
        calls: &[
            Call::Gives(stream!(0, 4, 328, 44)),
            Call::Gives(module!(0, 1)),
            Call::Gives(module!(1, 2)),
            Call::Gives(module!(2, 3)),
            Call::Ends,
        ],
        ..BY_LEAST
    },
    Script {
        shows: "records stand as far apart as their list says",
        file: APART_1000,
        calls: &ITEMS_APART,
        ..BY_LEAST
    },
    Script {
        shows: "an exception is listed, and a thread behind it",
        // Its context is four bytes at 56.
        file: FileOf::Padded(
            2,
            61,
            &[6, 168, 56, 3, 52, 224, 7, 0, 3221225477],
            &[(46, 4), (47, 56), (48, 1), (49, 7)],
        ),
        calls: &[
            Call::Gives(stream!(0, 6, 168, 56)),
            Call::Gives(nameless!(
                0,
                0,
                What::Exception {
                    thread: 7,
                    code: 3221225477,
                    context: Extent::Inside,
                }
            )),
            Call::Gives(stream!(1, 3, 52, 224)),
            Call::Gives(thread!(1, 7)),
            Call::Ends,
        ],
        ..BY_LEAST
    },
];

#[test]
fn records_are_listed_where_they_stand(rt: HostRuntime) {
    assert_scripts(&rt, rt.alloc(), &LISTS);
}

static RANGES: [Script<'static>; 6] = [
    Script {
        shows: "ranges of a list stand one behind the other",
        file: FileOf::Bytes(&MEMORY64),
        calls: &ITEMS_OF_MEMORY64,
        ..BY_LEAST
    },
    Script {
        shows: "offsets of ranges may pass any file",
        file: FileOf::Numbers(
            1,
            &[
                9,
                64,
                44,
                3,
                0,
                108,
                0, // three ranges, whose bytes begin at 108
                4096,
                0,
                u32::MAX,
                u32::MAX,
                8192,
                0,
                u32::MAX,
                u32::MAX,
                12288,
                0,
                1,
                0,
            ],
        ),
        calls: &[
            Call::Gives(stream!(0, 9, 64, 44)),
            Call::Gives(range!(0, 4096, u64::MAX, Extent::Outside, 108)),
            Call::Gives(range!(1, 8192, u64::MAX, Extent::Outside, 18446744073709551723)),
            Call::Gives(range!(2, 12288, 1, Extent::Outside, 36893488147419103338)),
            Call::Ends,
        ],
        ..BY_LEAST
    },
    Script {
        shows: "of two ranges at the end of a file of 80 bytes the second passes it",
        file: FileOf::Numbers(1, &[5, 36, 44, 2, 4096, 0, 4, 76, 8192, 0, 4, 77]),
        calls: &[
            Call::Gives(stream!(0, 5, 36, 44)),
            Call::Gives(range!(0, 4096, 4, Extent::Inside, 76)),
            Call::Gives(range!(1, 8192, 4, Extent::Outside, 77)),
            Call::Ends,
        ],
        ..BY_LEAST
    },
    Script {
        shows: "a region is listed with its numbers",
        file: FileOf::Numbers(
            1,
            &[
                16, 64, 44, 16, 48, 1, 0, // one region
                4096, 0, 4096, 0, 4, 0, 8192, 0, 4096, 4, 131072, 0,
            ],
        ),
        calls: &[
            Call::Gives(stream!(0, 16, 64, 44)),
            Call::Gives(nameless!(
                0,
                0,
                What::MemoryInfo(MemoryInfoRecord {
                    base_address: 4096,
                    allocation_base: 4096,
                    allocation_protect: 4,
                    region_size: 8192,
                    state: 4096,
                    protect: 4,
                    memory_type: 131072,
                })
            )),
            Call::Ends,
        ],
        ..BY_LEAST
    },
    Script {
        shows: "an unused entry is listed as it stands",
        file: FileOf::Numbers(1, &[0, 7, 4294967295]),
        calls: &[Call::Gives(stream!(0, 0, 7, 4294967295)), Call::Ends],
        ..BY_LEAST
    },
    Script {
        shows: "so is an entry behind it, of a type that has no records",
        file: FileOf::Numbers(2, &[0, 7, 4294967295, 10, 4, 32]),
        calls: &[
            Call::Gives(stream!(0, 0, 7, 4294967295)),
            Call::Gives(stream!(1, 10, 4, 32)),
            Call::Ends,
        ],
        ..BY_LEAST
    },
];

#[test]
fn ranges_regions_and_unused_entries_are_listed_with_their_numbers(rt: HostRuntime) {
    assert_scripts(&rt, rt.alloc(), &RANGES);
}

/// What is given behind the Stream item of names of threads in so many bytes, if at most eight bytes of a name are
/// read.
macro_rules! thread_names {
    ($shows:expr, $size:expr, $file:expr, $($call:expr),+) => {
        Script {
            shows: $shows,
            file: $file,
            calls: &[Call::Gives(stream!(0, 24, $size, 44)), $($call),+],
            ..BY_SHORT
        }
    };
}

/// The first name of a thread.
macro_rules! thread_name {
    ($name:expr) => {
        Call::Gives(named_item!(0, 0, What::ThreadName { id: 7 }, $name))
    };
}

/// The fault of a name whose length is not at this place.
macro_rules! name_outside {
    ($offset:expr) => {
        Call::Fails(fault!(Some(0), FaultKind::NameLengthOutside, $offset, 4))
    };
}

static THREAD_NAMES: [Script<'static>; 5] = [
    thread_names!(
        "a name behind the count",
        16,
        FileOf::Numbers(1, &THREAD_NAME),
        thread_name!(ABCD),
        Call::Ends
    ),
    thread_names!(
        "a name behind the count and four bytes more",
        20,
        FileOf::Numbers(1, &[24, 20, 44, 1, 9, 7, 64, 0, 8, 0x00620061, 0x00640063]),
        thread_name!(ABCD),
        Call::Ends
    ),
    thread_names!(
        "an RVA of 64 bits that is 0",
        16,
        FileOf::Padded(1, 10, &THREAD_NAME, &[(5, 0)]),
        thread_name!(Named::None),
        Call::Ends
    ),
    thread_names!(
        "an RVA past the file, whose sum with 4 is 2^64",
        16,
        FileOf::Padded(1, 10, &THREAD_NAME, &[(5, 0xffff_fffc), (6, 0xffff_ffff)]),
        name_outside!(18446744073709551612)
    ),
    thread_names!(
        "an RVA past the file by its upper half",
        16,
        FileOf::Padded(1, 10, &THREAD_NAME, &[(5, 60), (6, 1)]),
        name_outside!(4294967356)
    ),
];

#[test]
fn name_of_a_thread_is_listed_or_its_fault_is(rt: HostRuntime) {
    assert_scripts(&rt, rt.alloc(), &THREAD_NAMES);
}
