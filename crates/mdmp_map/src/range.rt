//! A range of memory.
use std::mem::size_of;

/// A range of memory of the dumped process, and where its bytes stand in the file.
#[derive(Clone, Copy, Debug, PartialEq, Eq)]
pub struct Range {
    /// Its first address, of the dumped process: `StartOfMemoryRange`.
    pub start: u64,
    /// How many bytes it has, at least one. Addresses end at 2^64 - 1, so it may have fewer of them.
    pub length: u64,
    /// Where the byte of its first address stands, an offset from the start of the file.
    pub offset: u64,
}

// What a map takes for each range.
const _: () = prove!(size_of::<Range>() == 24);

impl Range {
    ghost use Rattle.std.specs.Prelude.{◌≡◌};
    ghost use Rattle.mdmp_map.specs.Ranges.{holds, range_end};

    /// One behind its last byte, as if addresses did not end.
    pub fn end(&self) -> u128
        ensures { result ≡ range_end self.now }
    {
        u128::from(self.start) + u128::from(self.length)
    }

    /// Whether the range holds an address.
    pub fn holds(&self, address: u64) -> bool
        ensures { result ≡ holds address self.now }
    {
        // Both tests are made, so that a search has one branch for each range, which is seldom taken.
        (self.start <= address) & (address.wrapping_sub(self.start) < self.length)
    }
}
