//! A value that a record is read into.
ghost use Rattle.std.specs.Prelude.{ℕ, List, MatchOption};
ghost use Rattle.mdmp_lister.specs.declared.kind.StreamKind.{StreamKind};
ghost use Rattle.mdmp_dump.specs.RecordParts.{IsReadAt};

use crate::record_parts::RecordParts;
use mdmp_wire::AnyRecord;
use std::alloc::Allocator;

/// Which record of the file something is of.
#[derive(Clone, Copy)]
pub(crate) struct RecordPlace {
    /// The number of the entry in the directory.
    pub(crate) entry: u32,
    /// The index of the record in its stream.
    pub(crate) index: u64,
}

/// A value that a record of one kind of stream is read into.
pub(crate) trait Row<A: Allocator + Copy>: Drop + Sized {
    // The kind of the streams that have such records.
    ghost kind: { StreamKind };

    // The value is that of the record with an index that stands at an offset of a file, of the stream at another.
    ghost IsAt: { List ℕ → ℕ → ℕ → ℕ → Self → Type 0 };

    /// The value of a record of this kind, which takes its name and its parts; none of one of another kind.
    fn of(wire: AnyRecord, parts: &mut RecordParts<A>) -> Option<Self>
        ensures { (file : List ℕ) (at k o : ℕ) → IsReadAt kind file at k o wire parts.old → MatchOption result ⊥ (IsAt file at k o) };
}
