//! Standard input, read into memory.
ghost use Rattle.std.specs.Prelude.{IfErr, IfOk};
ghost use Rattle.mdmp_disk.specs.Input.{IsInput, MayRefuseInput, unsure};

use std::alloc::Allocator;
use std::io::{ErrorKind, Read};

/// Standard input was not read to its end.
#[derive(Clone, Copy, Debug, PartialEq, Eq)]
pub enum InputRefused {
    /// Reading failed. The byte at `at` is the first that was not obtained.
    Failed { at: u64 },
    /// There are more bytes than the most that are wanted. The first of them that is too many was read.
    TooLong,
    /// There was no memory for the bytes.
    Memory,
}

/// Reads all that a reader gives, of at most so many bytes. One byte more is read if there is one.
pub(crate) fn read_all<R: Read + Drop, A: Allocator>(
    reader: R,
    alloc: A,
    most: u64,
) -> Result<Vec<u8, A>, InputRefused>
    ensures read { IfOk result (λ bytes. IsInput (unsure (R.remaining reader)) most bytes.items) }
    ensures refused { IfErr result (MayRefuseInput (unsure (R.remaining reader)) most) }
{
    let limit = most.saturating_add(1);
    let mut bytes = Vec::new(alloc);
    match reader.take(limit).read_to_end(&mut bytes) {
        Ok(_) if (bytes.len() as u64) < limit => Ok(bytes),
        Ok(_) if most < limit => Err(InputRefused::TooLong),
        // No memory has 2^64 bytes.
        Ok(_) => Err(InputRefused::Memory),
        Err(error) => match error.kind() {
            ErrorKind::OutOfMemory => Err(InputRefused::Memory),
            _ => Err(InputRefused::Failed {
                at: bytes.len() as u64,
            }),
        },
    }
}
