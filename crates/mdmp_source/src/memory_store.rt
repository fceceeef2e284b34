//! A file in memory.
ghost use Rattle.std.specs.Prelude.{◌≡◌, ◌-◌, length, take, min};
ghost use Rattle.mdmp_source.specs.Range.{bytes_at};
ghost use Rattle.mdmp_source.specs.Store.{AreBytes};

use crate::proof_hints::know_bytes;
use crate::store::{Store, StoreCounts, StoreFailed};

/// A file in memory, which the store borrows. It never fails, and a call gives all bytes that it is asked for
/// and that are there.
#[derive(Drop)]
pub struct MemoryStore<'a> {
    bytes: &'a [u8],
    counts: StoreCounts,
    ghost are_bytes: { AreBytes bytes.now },
}

impl<'a> MemoryStore<'a> {
    ghost use Rattle.mdmp_source.specs.Store.{IsNew};
    ghost use Rattle.std.specs.Prelude.{Some, true};

    /// A good store, whose content is these bytes.
    pub fn new(bytes: &'a [u8]) -> Self
        ensures { IsNew (⟦<MemoryStore<'a> as Store>⟧.state result) (Some bytes.now) true }
    {
        know_bytes(bytes);
        MemoryStore {
            bytes,
            counts: StoreCounts::new(),
        }
    }
}

impl Store for MemoryStore<'_> {
    ghost use Rattle.std.specs.Prelude.{Some, true, length};

    ghost state = { λ s. record {
      content = Some s.bytes.now;
      size = length s.bytes.now;
      is_reliable = true;
      least = length s.bytes.now;
      counts = s.counts;
    } };

    fn size(&self) -> u64 {
        self.bytes.len() as u64
    }

    fn read_at(&mut self, at: u64, out: &mut [u8]) -> Result<usize, StoreFailed> {
        let answer = Ok(copy_at(self.bytes, at, out));
        self.counts.count(&answer, at, out.len());
        answer
    }
}

/// Copies the bytes at `at` into the front of `out`, as many as there are and as fit, and answers
/// how many.
pub(crate) fn copy_at(bytes: &[u8], at: u64, out: &mut [u8]) -> usize
    ensures count { result ≡ min (length out.new) (length bytes.now - at) }
    ensures copied { take result out.new ≡ bytes_at bytes.now at result }
{
    let size = bytes.len() as u64;
    if at >= size {
        return 0;
    }
    let start = at as usize;
    let count = out.len().min(bytes.len() - start);
    out[..count].copy_from_slice(&bytes[start..start + count]);
    count
}
