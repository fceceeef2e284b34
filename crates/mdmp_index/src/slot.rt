//! A slot of an index.
ghost use Rattle.std.specs.Prelude.{◌≡◌};

use std::mem::size_of;

/// Addresses that follow each other, all of which have one range as the first that holds them.
#[repr(C)]
#[derive(Clone, Copy, Debug, PartialEq, Eq)]
pub struct IndexSlot {
    /// The first of them, an address of the dumped process.
    pub start: u64,
    /// How many there are.
    pub length: u64,
    /// Where the byte of the first address is, an offset from the start of the file.
    pub offset: u64,
    /// The number of that range in listing order, from 0 on.
    pub owner: u64,
}

// What an index takes for each slot.
const _: () = prove!(size_of::<IndexSlot>() == 32);

impl IndexSlot {
    ghost use Rattle.std.specs.Prelude.{◌≡◌};
    ghost use Rattle.mdmp_index.specs.Slots.{covers, slot_end};

    /// The address after its last one.
    pub fn end(&self) -> u128
        ensures { result ≡ slot_end self.now }
    {
        u128::from(self.start) + u128::from(self.length)
    }

    /// Whether it holds an address.
    pub fn holds(&self, address: u64) -> bool
        ensures { result ≡ covers address self.now }
    {
        self.start <= address && address - self.start < self.length
    }
}
