//! An item that was read: what [`Walker::next_step`](crate::Walker::next_step) and
//! [`Lister::next_read`](crate::Lister::next_read) give.

use crate::fetching::NameRead;
use crate::item::StreamItem;
use crate::name::Name;
use mdmp_wire::AnyRecord;

/// A record that was read, of any kind. The units of its name stand at the front of a buffer.
#[derive(Clone, Copy, Debug, PartialEq, Eq)]
pub struct RecordRead {
    /// The number of the entry in the directory.
    pub entry: u32,
    /// The index of the record in its stream.
    pub index: u64,
    /// The record as it stands in the file.
    pub fields: AnyRecord,
    /// Where the bytes of a range of a 64-bit memory list stand.
    pub offset: u128,
    /// Its name; none of a kind without names.
    pub name: NameRead,
}

/// An item that was read.
#[derive(Clone, Copy, Debug, PartialEq, Eq)]
pub enum Step {
    Stream(StreamItem),
    Record(RecordRead),
}

/// An item that was read, whose name is lent.
#[derive(Debug, Drop, PartialEq, Eq)]
pub enum ItemRead<'a> {
    Stream(StreamItem),
    Record(RecordRead, Name<'a>),
}
