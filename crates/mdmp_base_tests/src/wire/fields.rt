//! Records of known bytes, read and written.
use crate::same::assert_same_at;
use crate::source::part;
use mdmp_wire::{Record, get_at, put_at};
use std::fmt::Debug;
use std::process::Abort;

/// The bytes 0, 1, 2 and so on, as many as the longest structure has.
pub static COUNTED: [u8; 168] = [
    0, 1, 2, 3, 4, 5, 6, 7, 8, 9, 10, 11, 12, 13, 14, 15, 16, 17, 18, 19, 20, 21, 22, 23, 24, 25,
    26, 27, 28, 29, 30, 31, 32, 33, 34, 35, 36, 37, 38, 39, 40, 41, 42, 43, 44, 45, 46, 47, 48, 49,
    50, 51, 52, 53, 54, 55, 56, 57, 58, 59, 60, 61, 62, 63, 64, 65, 66, 67, 68, 69, 70, 71, 72, 73,
    74, 75, 76, 77, 78, 79, 80, 81, 82, 83, 84, 85, 86, 87, 88, 89, 90, 91, 92, 93, 94, 95, 96, 97,
    98, 99, 100, 101, 102, 103, 104, 105, 106, 107, 108, 109, 110, 111, 112, 113, 114, 115, 116,
    117, 118, 119, 120, 121, 122, 123, 124, 125, 126, 127, 128, 129, 130, 131, 132, 133, 134, 135,
    136, 137, 138, 139, 140, 141, 142, 143, 144, 145, 146, 147, 148, 149, 150, 151, 152, 153, 154,
    155, 156, 157, 158, 159, 160, 161, 162, 163, 164, 165, 166, 167,
];

/// Asserts that the first bytes are read as `expected` and written as they are, with zeros for the four at each
/// offset in `alignment`.
pub fn assert_fields<R: Record + PartialEq + Debug>(
    rt: &impl Abort,
    bytes: &[u8; 168],
    size: usize,
    alignment: &[usize],
    expected: R,
) {
    assert!(rt; size == R::SIZE);
    assert!(rt; size <= 168);
    let record = R::read(&bytes[..size]);
    let mut out = [0x55; 168];
    record.write(&mut out[..size]);
    let mut zeroed = *bytes;
    for &at in alignment {
        assert!(rt; at <= 164);
        zeroed[at..at + 4].fill(0);
    }
    assert_same_at(
        rt,
        &size,
        part(rt, &out, 0, size),
        part(rt, &zeroed, 0, size),
    );
    assert_same_at(rt, &size, record, expected);
}

#[test]
fn record_at_an_offset_leaves_what_is_beside_it(rt: HostRuntime) {
    let mut out = [0x55; 8];
    put_at(&mut out, 2, &0x1234u16);
    let number: u32 = get_at(&out, 1);
    let bytes = [0x55, 0x55, 0x34, 0x12, 0x55, 0x55, 0x55, 0x55];
    assert_same_at(&rt, &2, (out, number), (bytes, 0x5512_3455));
}
