//! Tests of place.
use crate::same::assert_same_at;
use mdmp_source::{Extent, Location, inside};

/// A location, the size of a file, and the class of the one in the other.
static CLASSES: [(Location, u64, Extent); 4] = [
    (
        Location {
            size: 0,
            rva: 0xffff_ffff,
        },
        12,
        Extent::Empty,
    ),
    (Location { size: 4, rva: 0 }, 12, Extent::Absent),
    (Location { size: 4, rva: 8 }, 12, Extent::Inside),
    (Location { size: 4, rva: 8 }, 11, Extent::Outside),
];

#[test]
fn places_do_not_wrap_and_locations_have_one_class(rt: HostRuntime) {
    let past = inside(u64::MAX, 2, u64::MAX);
    let nothing = inside(9, 0, 3);
    let last = inside(4294967295, 1, 4294967296);
    assert_same_at(&rt, &"places", [past, nothing, last], [false, true, true]);
    for (part, file_size, class) in &CLASSES {
        assert_same_at(&rt, part, part.classify(*file_size), *class);
    }
}
