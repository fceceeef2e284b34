//! Where a part of a file is said to stand: `MINIDUMP_LOCATION_DESCRIPTOR`, 8 bytes. The type is
//! mdmp_source's, which classes it.

use crate::record::{Record, get_at, put_at};
use mdmp_source::Location;

impl Record for Location {
    ghost use Rattle.mdmp_wire.specs.Location.{location_at, location_bytes, location_at-part};

    ghost SIZE = { 8 };

    const SIZE: usize = 8;

    ghost at = { location_at };

    ghost bytes_of = { location_bytes };

    ghost part = { location_at-part };

    fn read(bytes: &[u8]) -> Self {
        Location {
            size: get_at(bytes, 0),
            rva: get_at(bytes, 4),
        }
    }

    fn write(&self, out: &mut [u8]) {
        put_at(out, 0, &self.size);
        put_at(out, 4, &self.rva);
    }
}
