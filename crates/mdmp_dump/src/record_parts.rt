//! The name and the parts of a record, as they were read.
ghost use Rattle.std.specs.Prelude.{◌≡◌};

use crate::bytes::Bytes;
use crate::part::Part;
use mdmp_wire::Units;
use std::alloc::Allocator;
use std::mem;

/// The name of a record, and the part behind each of its slots: an empty one, where the slot is of none.
#[derive(Drop)]
pub(crate) struct RecordParts<A: Allocator + Copy> {
    pub(crate) alloc: A,
    pub(crate) name: Option<Units<A>>,
    pub(crate) first: Part<A>,
    pub(crate) second: Part<A>,
    pub(crate) third: Part<A>,
}

/// A part of no bytes.
pub(crate) fn empty_part<A: Allocator>(alloc: A) -> Part<A> {
    Part::Bytes(Bytes::new(Vec::new(alloc)))
}

/// Takes a part, in whose place an empty one stays.
pub(crate) fn take_part<A: Allocator>(part: &mut Part<A>, alloc: A) -> Part<A>
    ensures { result ≡ part.old }
{
    mem::replace(part, empty_part(alloc))
}
