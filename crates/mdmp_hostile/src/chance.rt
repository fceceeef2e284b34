//! Numbers by chance.

use rand_core::Rng;
use rand_pcg::Pcg32;

/// Numbers by chance, the same ones whenever the program runs.
#[derive(Drop)]
pub struct Chance {
    words: Pcg32,
}

impl Chance {
    /// Those of a seed and a number: of another number they are others.
    pub fn new(seed: u64, number: u64) -> Self {
        Chance {
            words: Pcg32::new(seed, number),
        }
    }

    /// Any number of 32 bits.
    pub fn word(&mut self) -> u32 {
        self.words.next_u32()
    }

    /// Any number of 64 bits.
    pub fn long(&mut self) -> u64 {
        self.words.next_u64()
    }

    /// Any number of 16 bits.
    pub fn unit(&mut self) -> u16 {
        (self.word() & 0xffff) as u16
    }

    /// Any byte.
    pub fn byte(&mut self) -> u8 {
        (self.word() & 0xff) as u8
    }

    /// A number below this one; 0 below 0.
    pub fn below(&mut self, end: u32) -> u32 {
        if end == 0 { 0 } else { self.word() % end }
    }

    /// An index below this length, which is at most 2^32; 0 below 0.
    pub fn index(&mut self, length: usize) -> usize {
        self.below(u32::try_from(length).unwrap_or(u32::MAX)) as usize
    }

    /// Whether it is so once in this many times.
    pub fn once_in(&mut self, times: u32) -> bool {
        self.below(times) == 0
    }
}
