//! Why a file gives no dump.

use mdmp_lister::{ListFault, OpenFault};
use mdmp_source::SourceFault;
pub use mdmp_wire::PartName;

/// Why a file gives no dump: the first reason in the order of its listing. Of one record the name
/// comes first, and then its parts in the order of its fields.
#[derive(Clone, Copy, Debug, PartialEq, Eq)]
pub enum ReadFault {
    /// The file can't be listed at all.
    Opening(OpenFault),
    /// Its listing ends at this fault.
    List(ListFault),
    /// A part is not inside the file.
    PartOutside {
        /// The number of the entry in the directory, from 0.
        entry: u32,
        /// The index of the record in its stream, from 0.
        index: u64,
        /// Which part of the record it is.
        part: PartName,
        /// Where its bytes should stand, an offset from the start of the file.
        offset: u128,
        /// How many bytes it has.
        size: u64,
    },
    /// A name has more bytes than the limit on names.
    NameTooLong {
        /// The number of the entry in the directory, from 0.
        entry: u32,
        /// The index of the record in its stream, from 0.
        index: u64,
        /// How many bytes the name has.
        length: u32,
    },
    /// With a part of this record, or with the bytes of this stream whose records are not known,
    /// the parts have more bytes than the limit on them.
    PartsTooLarge {
        /// The number of the entry in the directory, from 0.
        entry: u32,
        /// The index of the record in its stream, from 0; 0 for the bytes of a whole stream.
        index: u64,
    },
    /// The allocator refused memory.
    Memory,
    /// The bytes of a part or of a stream were not obtained.
    Source(SourceFault),
}
