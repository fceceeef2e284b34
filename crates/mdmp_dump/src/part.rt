//! The part of a record.
ghost use Rattle.std.specs.Prelude.{ℕ, ◌<◌};

use crate::bytes::Bytes;
use std::alloc::Allocator;
use std::marker::Model;

/// A size over 0, in bytes.
#[derive(Clone, Copy, Debug, PartialEq, Eq)]
pub struct PositiveSize {
    size: u32,
}

impl Model for PositiveSize {
    ghost Value = { ℕ };

    ghost view = { λ s. s.size };

    ghost invariant = { λ s. 0 < s.size };

    ghost inverse = { λ n. record { size = n } };
}

impl PositiveSize {
    ghost use Rattle.std.specs.Prelude.{◌≡◌, ◌<◌, ◌↔◌, IsSome, IfSome};

    /// This size, or none where it is 0.
    pub fn new(size: u32) -> Option<PositiveSize>
        ensures valid { IsSome result ↔ (0 < size) }
        ensures value { IfSome result (λ positive. positive ≡ size) }
    {
        if size == 0 {
            None
        } else {
            Some(PositiveSize { size })
        }
    }

    /// The size.
    pub fn get(&self) -> u32
        ensures value { result ≡ self.now }
        ensures positive { 0 < result }
    {
        self.size
    }
}

/// A part of a record, which a location names in a file: `MINIDUMP_LOCATION_DESCRIPTOR`.
#[derive(Drop)]
#[derive_where(Debug, PartialEq, Eq)]
pub enum Part<A: Allocator> {
    /// Its bytes; none where it is empty.
    Bytes(Bytes<A>),
    /// Its size alone: the producer of the dump did not keep the bytes.
    Absent(PositiveSize),
}
