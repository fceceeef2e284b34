//! Bytes of the file that are read beside the listing.
use crate::files::FileOf;
use crate::given::{range, stream};
use crate::playing::assert_scripts;
use crate::script::{BY_LEAST, Call, Script};
use mdmp_source::{Extent, SourceFault};
use mdmp_test_support::{MEMORY64, OVERLAPPING};

/// What a lister answers while a part of the first range fails: calls 0 to 3 read header, entry, count and stream.
macro_rules! part_fails {
    ($fail_at:expr, $at:expr) => {
        Script {
            shows: "a fault of the store in a part changes no item",
            file: FileOf::Numbers(1, &OVERLAPPING),
            caps: &[4096, 4096, 4096, 4096, 1, 2, 4096],
            fail_at: Some($fail_at),
            calls: &[
                Call::Gives(stream!(0, 5, 36, 44)),
                Call::Gives(range!(0, 0x1000, 4, Extent::Inside, 80)),
                Call::PartFails(80, 4, SourceFault::Failed { at: $at }),
                Call::HasNumbers(88, 4),
                Call::HasRoom(1, 1),
                Call::Gives(range!(1, 0x1002, 4, Extent::Inside, 84)),
                Call::HasPart(80, b"ABCDwxyz"),
                Call::Ends,
                Call::HasRoom(2, 0),
                Call::HasNumbers(88, 12),
            ],
            ..BY_LEAST
        }
    };
}

static PARTS: [Script<'static>; 5] = [
    Script {
        shows: "a part is read between items and counted aside",
        file: FileOf::Bytes(&MEMORY64),
        calls: &[
            Call::HasNumbers(98, 0),
            Call::HasPart(92, b"ABCDEF"),
            Call::HasNumbers(98, 6),
            Call::Gives(stream!(0, 9, 48, 44)),
            Call::HasPart(0, b"MDMP"),
            Call::Gives(range!(0, 0x1000, 4, Extent::Inside, 92)),
            Call::HasPart(97, b"F"),
            Call::HasPart(98, b""),
            Call::Gives(range!(1, 0x2000, 4, Extent::Outside, 96)),
            Call::Ends,
            Call::HasPart(44, &[2, 0, 0, 0, 0, 0, 0, 0, 0x5c, 0, 0, 0, 0, 0, 0, 0]),
            Call::Ends,
            Call::HasNumbers(98, 27),
        ],
        ..BY_LEAST
    },
    Script {
        shows: "the size tells what lies inside",
        file: FileOf::Bytes(&MEMORY64),
        calls: &[
            Call::PartOutside(98, 1),
            Call::PartOutside(97, 2),
            Call::PartOutside(u64::MAX, 1),
            Call::HasPart(u64::MAX, b""),
            Call::HasNumbers(98, 0),
        ],
        ..BY_LEAST
    },
    part_fails!(4, 80),
    part_fails!(5, 81),
    part_fails!(6, 83),
];

#[test]
fn parts_are_read_between_items(rt: HostRuntime) {
    assert_scripts(&rt, rt.alloc(), &PARTS);
}
