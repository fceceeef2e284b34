//! An entry of the directory.

use crate::record::{Record, get_at, put_at};
use mdmp_source::Location;

/// An entry of the directory: `MINIDUMP_DIRECTORY`, 12 bytes.
#[derive(Clone, Copy, Debug, PartialEq, Eq)]
pub struct Entry {
    /// `StreamType`, 0 where the entry is unused.
    pub stream_type: u32,
    /// `Location`, of the whole stream.
    pub location: Location,
}

impl Record for Entry {
    ghost use Rattle.mdmp_wire.specs.Entry.{entry_at, entry_bytes, entry_size, entry_at-part};

    ghost SIZE = { entry_size };

    const SIZE: usize = 12;

    ghost at = { entry_at };

    ghost bytes_of = { entry_bytes };

    ghost part = { entry_at-part };

    fn read(bytes: &[u8]) -> Self {
        Entry {
            stream_type: get_at(bytes, 0),
            location: get_at(bytes, 4),
        }
    }

    fn write(&self, out: &mut [u8]) {
        put_at(out, 0, &self.stream_type);
        put_at(out, 4, &self.location);
    }
}
