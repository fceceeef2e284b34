//! Whole files, listed: which entries, names, and parts of a thread.
use crate::files::FileOf;
use crate::given::{
    ABCD, EMPTY_NAME, Named, SERVICE_PACK, What, nameless, stream, system, thread, unloaded,
};
use crate::opening::fault;
use crate::playing::assert_scripts;
use crate::script::{BY_LEAST, BY_NAMED, BY_SHORT, Call, Script};
use mdmp_lister::FaultKind;
use mdmp_source::Extent;
use mdmp_test_support::{FAULTY, SYSTEM};

/// The Stream item of `SYSTEM`.
const SYSTEM_BEGINS: Call = Call::Gives(stream!(0, 7, 56, 44));

/// A system with its name.
const ITEMS_OF_SYSTEM: [Call; 3] = [
    SYSTEM_BEGINS,
    Call::Gives(system!(4, 7601, SERVICE_PACK)),
    Call::Ends,
];

static LISTINGS: [Script<'static>; 7] = [
    Script {
        shows: "types that are not chosen are not listed",
        file: FileOf::Bytes(&SYSTEM),
        types: &[3],
        calls: &[Call::Ends],
        ..BY_NAMED
    },
    Script {
        shows: "what is not chosen is not looked at",
        file: FileOf::Numbers(3, &FAULTY),
        types: &[7],
        calls: &[
            Call::Gives(stream!(0, 7, 56, 68)),
            Call::Gives(system!(0, 0, Named::None)),
            Call::Ends,
        ],
        ..BY_LEAST
    },
    Script {
        shows: "a system is listed with its name",
        file: FileOf::First(136, &SYSTEM),
        calls: &ITEMS_OF_SYSTEM,
        ..BY_NAMED
    },
    Script {
        shows: "nothing behind the name is needed",
        file: FileOf::First(132, &SYSTEM),
        calls: &ITEMS_OF_SYSTEM,
        ..BY_NAMED
    },
    Script {
        shows: "a name whose units are cut ends the listing",
        file: FileOf::First(131, &SYSTEM),
        calls: &[
            SYSTEM_BEGINS,
            Call::Fails(fault!(Some(0), FaultKind::NameUnitsOutside, 104, 28)),
        ],
        ..BY_NAMED
    },
    Script {
        shows: "a name whose length is cut ends the listing",
        file: FileOf::First(103, &SYSTEM),
        calls: &[
            SYSTEM_BEGINS,
            Call::Fails(fault!(Some(0), FaultKind::NameLengthOutside, 100, 4)),
        ],
        ..BY_NAMED
    },
    Script {
        shows: "a record that is cut ends the listing",
        file: FileOf::First(99, &SYSTEM),
        calls: &[
            SYSTEM_BEGINS,
            Call::Fails(fault!(None, FaultKind::StreamOutside, 44, 56)),
        ],
        ..BY_NAMED
    },
];

#[test]
fn chosen_entries_are_listed_up_to_what_is_cut(rt: HostRuntime) {
    assert_scripts(&rt, rt.alloc(), &LISTINGS);
}

/// What a lister gives of an unloaded module whose name is said to stand at `rva` and does at 80: its name or a
/// fault.
macro_rules! module_name {
    ($shows:expr, $rva:expr, $bytes:expr, gives $name:expr) => {
        Script {
            shows: $shows,
            file: FileOf::Named($rva, $bytes),
            calls: &[
                Call::Gives(stream!(0, 14, 36, 44)),
                Call::Gives(unloaded!(0, 0, $name)),
                Call::Ends,
            ],
            ..BY_SHORT
        }
    };
    ($shows:expr, $rva:expr, $bytes:expr, fails $fault:expr) => {
        Script {
            shows: $shows,
            file: FileOf::Named($rva, $bytes),
            calls: &[Call::Gives(stream!(0, 14, 36, 44)), Call::Fails($fault)],
            ..BY_SHORT
        }
    };
}

static NAMES: [Script<'static>; 7] = [
    module_name!("no name", 0, b"", gives Named::None),
    module_name!("a name of no units", 80, b"\0\0\0\0", gives EMPTY_NAME),
    module_name!("a name is lent", 80, b"\x08\0\0\0a\0b\0c\0d\0", gives ABCD),
    module_name!("a name is long", 80, b"\x0a\0\0\0a\0b\0c\0d\0e\0", gives Named::Long(10)),
    module_name!(
        "an odd length",
        80,
        b"\x07\0\0\0a\0b\0c\0d",
        fails fault!(Some(0), FaultKind::NameOdd, 80, 7)
    ),
    module_name!(
        "units that are cut",
        80,
        b"\x0a\0\0\0a\0b\0c\0d\0",
        fails fault!(Some(0), FaultKind::NameUnitsOutside, 84, 10)
    ),
    module_name!(
        "a length that is cut",
        80,
        b"\x08\0\0",
        fails fault!(Some(0), FaultKind::NameLengthOutside, 80, 4)
    ),
];

#[test]
fn name_is_none_or_lent_or_long_or_ends_the_listing(rt: HostRuntime) {
    assert_scripts(&rt, rt.alloc(), &NAMES);
}

/// The context of a thread whose stack has no bytes in the file.
macro_rules! thread_context {
    ($shows:expr, $numbers:expr, $context:expr) => {
        Script {
            shows: $shows,
            file: FileOf::Numbers(1, $numbers),
            calls: &[
                Call::Gives(stream!(0, 3, 52, 44)),
                Call::Gives(nameless!(
                    0,
                    0,
                    What::Thread {
                        id: 7,
                        stack: Extent::Absent,
                        context: $context,
                    }
                )),
                Call::Ends,
            ],
            ..BY_LEAST
        }
    };
}

/// The thread with this id that a list of one thread of so many bytes gives, with a 7 at this place.
macro_rules! padded_thread {
    ($size:expr, $place:expr, $id:expr) => {
        Script {
            shows: "a padded list is listed",
            file: FileOf::Padded(1, 18, &[3, $size, 44, 1], &[($place, 7)]),
            calls: &[
                Call::Gives(stream!(0, 3, $size, 44)),
                Call::Gives(thread!(0, $id)),
                Call::Ends,
            ],
            ..BY_LEAST
        }
    };
}

static THREADS: [Script<'static>; 6] = [
    thread_context!(
        "the context is the four bytes behind the list",
        &[
            3, 52, 44, 1, 7, 0, 0, 0, 0, 0, 28672, 0, 256, 0, 4, 96, 0xaa
        ],
        Extent::Inside
    ),
    thread_context!(
        "the context is cut off",
        &[3, 52, 44, 1, 7, 0, 0, 0, 0, 0, 28672, 0, 256, 0, 4, 96],
        Extent::Outside
    ),
    // One thread: behind its count, or four bytes further on.
    padded_thread!(52, 4, 7),
    padded_thread!(56, 5, 7),
    padded_thread!(60, 4, 7),
    padded_thread!(56, 4, 0),
];

#[test]
fn thread_is_listed_with_its_parts_where_its_list_says(rt: HostRuntime) {
    assert_scripts(&rt, rt.alloc(), &THREADS);
}
