//! Units of UTF-16 in memory of their own.
ghost use Rattle.std.specs.Prelude.{◌≡◌, ◌%◌, length};

use std::alloc::Allocator;

/// Units of UTF-16, two bytes each.
#[derive(Drop)]
pub(crate) struct KeptUnits<A: Allocator> {
    pub(crate) bytes: Vec<u8, A>,
    ghost even: { length bytes.items % 2 ≡ 0 },
}
