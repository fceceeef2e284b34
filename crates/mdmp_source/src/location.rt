//! Where a part of a file is said to stand.
ghost use Rattle.std.specs.Prelude.{◌≡◌};

use crate::range::inside;

/// Where a part of a file is said to stand: `MINIDUMP_LOCATION_DESCRIPTOR`.
#[derive(Clone, Copy, Debug, PartialEq, Eq)]
pub struct Location {
    /// `DataSize`, in bytes.
    pub size: u32,
    /// `Rva`, an offset from the start of the file.
    pub rva: u32,
}

/// What a location names.
#[derive(Clone, Copy, Debug, PartialEq, Eq)]
pub enum Extent {
    /// No bytes, whatever the offset says.
    Empty,
    /// Bytes that the producer of the file did not keep: their offset is 0.
    Absent,
    /// Bytes of the file.
    Inside,
    /// Bytes of which at least one lies behind the end of the file.
    Outside,
}

impl Location {
    ghost use Rattle.mdmp_source.specs.Extent.{extent_of};

    /// What it names in a file of `size` bytes: the first [`Extent`] that fits. Nothing is refused.
    pub fn classify(self, size: u64) -> Extent
        ensures { result ≡ extent_of self size }
    {
        if self.size == 0 {
            Extent::Empty
        } else if self.rva == 0 {
            Extent::Absent
        } else if inside(u64::from(self.rva), u64::from(self.size), size) {
            Extent::Inside
        } else {
            Extent::Outside
        }
    }
}
