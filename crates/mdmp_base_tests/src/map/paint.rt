//! Ranges that are painted onto a block of addresses.
use crate::same::assert_same_at;
use mdmp_map::{Paint, PaintedRun, Range};

/// A run: where its first byte stands in the file, its first place in the block, and one behind its last.
macro_rules! run {
    ($offset:expr, $first:expr, $end:expr) => {
        Some(PaintedRun {
            offset: $offset,
            first: $first,
            end: $end,
        })
    };
}

#[test]
fn each_address_is_painted_once(rt: HostRuntime) {
    let mut paint = Paint::over(0x1000, 16);
    let middle = range!(0x1004, 4, 100);
    let found = [paint.paint(&middle, 0), paint.paint(&middle, 8)];
    assert_same_at(&rt, &"middle", found, [run!(100, 4, 8), None]);
    let around = range!(0xff0, 0x40, 200);
    let found = (paint.paint(&around, 0), paint.is_full());
    assert_same_at(&rt, &"before", found, (run!(216, 0, 4), false));
    let found = [paint.paint(&around, 4), paint.paint(&around, 16)];
    assert_same_at(
        &rt,
        &"behind",
        (found, paint.is_full()),
        ([run!(224, 8, 16), None], true),
    );
}

/// Ranges that end where the block begins or before it, or begin where it ends or behind it: starts and lengths.
static ELSEWHERE: [(u64, u64); 6] = [
    (0xff0, 0x10),
    (0xfef, 0x10),
    (0, 1),
    (0x1010, 1),
    (0x1011, 1),
    (u64::MAX, 8),
];

#[test]
fn addresses_end_and_ranges_elsewhere_paint_nothing(rt: HostRuntime) {
    let mut paint = Paint::over(0xffff_ffff_ffff_fffc, 8);
    let last = range!(0xffff_ffff_ffff_fffe, 8, 100);
    let found = [paint.paint(&last, 0), paint.paint(&last, 4)];
    assert_same_at(
        &rt,
        &"last",
        (found, paint.is_full()),
        ([run!(100, 2, 4), None], false),
    );
    let mut paint = Paint::over(0x1000, 16);
    for (start, length) in &ELSEWHERE {
        let range = range!(*start, *length, 0);
        assert_same_at(&rt, &range, paint.paint(&range, 0), None);
    }
}
