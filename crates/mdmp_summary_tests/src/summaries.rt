//! Summaries of small files.
use crate::files::{Made, crash_file, threads_file};
use crate::same::assert_same_at;
use crate::summing::summary_in;
use mdmp_summary::{Crash, PlaceInModule};

/// The base of a module, and the offset of an address.
fn place(at: Option<PlaceInModule>) -> Option<(u64, u64)> {
    match at {
        Some(place) => Some((place.fields.base_of_image, place.offset)),
        None => None,
    }
}

/// The thread, the address that ran, the module that holds it, and the one that is near.
type ToldCrash = (u32, u64, Option<(u64, u64)>, Option<(u64, u64)>);

fn told(crash: Option<Crash>) -> Option<ToldCrash> {
    match crash {
        Some(x) => Some((
            x.exception.fields.thread_id,
            x.address,
            place(x.holder),
            place(x.near),
        )),
        None => None,
    }
}

/// A crash like `LINUX` of this platform and architecture, with these codes, and a module of this base and size.
macro_rules! made {
    ($platform:expr, $architecture:expr, $first_code:expr, $code:expr, $base:expr, $size:expr) => {
        Made {
            platform: $platform,
            architecture: $architecture,
            first_code: $first_code,
            code: $code,
            module_base: $base,
            module_size: $size,
        }
    };
}

/// The module that is near.
const NEAR: Option<(u64, u64)> = Some((0, 0x5010));

/// Crashes behind a bad entry, and what is told of each.
static CRASHES: [(Made, Option<ToldCrash>); 12] = [
    // A module holds the address that ran, or is near, or is behind it.
    (
        made!(0x8201, 9, 19, 11, 0x5000, 0x100),
        Some((7, 0x5010, Some((0x5000, 0x10)), None)),
    ),
    (
        made!(0x8201, 9, 19, 11, 0x5000, 0x10),
        Some((7, 0x5010, None, Some((0x5000, 0x10)))),
    ),
    (
        made!(0x8201, 9, 19, 11, 0x5011, 0x10),
        Some((7, 0x5010, None, None)),
    ),
    // The address that ran goes by the platform and the architecture.
    (
        made!(0x8201, 9, 19, 11, 0, 0x100),
        Some((7, 0x5010, None, NEAR)),
    ),
    (
        made!(0x8201, 12, 17, 11, 0, 0x100),
        Some((7, 0x5010, None, NEAR)),
    ),
    (
        made!(0x8203, 5, 28, 7, 0, 0x100),
        Some((7, 0x5010, None, NEAR)),
    ),
    (
        made!(0x8201, 0, 0xffffffff, 6, 0, 0x100),
        Some((7, 0x5010, None, NEAR)),
    ),
    (
        made!(0x8201, 1, 23, 24, 0, 0x100),
        Some((7, 16, Some((0, 16)), None)),
    ),
    (made!(0x8203, 9, 28, 23, 0, 0x100), None),
    (
        made!(0x8101, 12, 1, 1, 0, 0x100),
        Some((6, 5, Some((0, 5)), None)),
    ),
    (
        made!(2, 9, 0x80000003, 0xc0000005, 0, 0x100),
        Some((7, 16, Some((0, 16)), None)),
    ),
    (
        made!(2, 0, 0x80000004, 0x80000003, 0, 0x100),
        Some((6, 5, Some((0, 5)), None)),
    ),
];

#[test]
fn summary_succeeds_after_a_bad_entry(rt: HostRuntime) {
    for (made, expected) in &CRASHES {
        let file = crash_file(&rt, rt.alloc(), made);
        let summary = summary_in(&rt, rt.alloc(), &file);
        let at = (made.platform, made.architecture, made.code);
        let module = (made.module_base, made.module_size);
        assert_same_at(&rt, &(at, module), told(summary.crash), *expected);
    }
}

#[test]
fn stopped_threads_are_no_crash(rt: HostRuntime) {
    for (code, expected) in [(19, None), (11, Some((6, 5, None, None)))] {
        let file = threads_file(&rt, rt.alloc(), code);
        let summary = summary_in(&rt, rt.alloc(), &file);
        let found = (told(summary.crash), summary.counts.exceptions);
        assert_same_at(&rt, &code, found, (expected, 25));
    }
}
