//! Runs of units that are printed as they are, several units at a time.
ghost use Rattle.std.specs.Prelude.{◌≡◌, ◌≤◌, ◌+◌, ◌*◌, ◌++◌, length, take, drop};
ghost use Rattle.std.specs.List.{prefix_len};
ghost use Rattle.mdmp_wire.specs.Escape.{escaped, is_plain};
ghost use Rattle.mdmp_wire.specs.Units.{units_of};

use crate::escape::{BACKSLASH, FIRST_PLAIN, LAST_PLAIN};
use std::simd::prelude::*;

/// How many units are looked at together.
pub(crate) const LANES: usize = 8;

/// The units from an index on.
#[inline(always)]
pub(crate) fn units_at(bytes: &[u8], index: usize) -> u16x8
    requires { 2 * (index + 8) ≤ length bytes.now }
    ensures { result ≡ take 8 (drop index (units_of bytes.now)) }
{
    u16x8::from_le_bytes(u8x16::from_slice(&bytes[2 * index..]))
}

/// Puts those units that stand before the first one that is not printed as it is behind the text of
/// this length, and answers how many they are. What stands behind them in the text is anything.
#[inline(always)]
pub(crate) fn put_run(text: &mut [u8], len: usize, units: u16x8) -> usize
    requires lanes { length units ≡ 8 }
    requires room { len + 8 ≤ length text.old }
    ensures run { result ≡ prefix_len is_plain units }
    ensures within { result ≤ 8 }
    ensures text { take (len + result) text.new ≡ take len text.old ++ escaped (take result units) }
    ensures same { length text.new ≡ length text.old }
{
    (units & u16x8::splat(0x7f))
        .cast::<u8>()
        .copy_to_slice(&mut text[len..]);
    plain_run(units)
}

/// How many units stand before the first one that is not printed as it is.
#[inline(always)]
fn plain_run(units: u16x8) -> usize
    requires { length units ≡ 8 }
    ensures { result ≡ prefix_len is_plain units }
{
    let others = units.simd_lt(u16x8::splat(FIRST_PLAIN))
        | units.simd_gt(u16x8::splat(LAST_PLAIN))
        | units.simd_eq(u16x8::splat(BACKSLASH));
    let mask = others.to_bitmask();
    if mask == 0 {
        LANES
    } else {
        mask.trailing_zeros() as usize
    }
}
