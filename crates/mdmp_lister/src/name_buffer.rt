//! The buffer for a name.
ghost use Rattle.std.specs.Prelude.{◌≡◌, ◌≤◌, max, vec_capacity, vec_len};

use crate::fault::FetchFault;
use crate::fetching::{fetch_front, fetch_front_aside};
use crate::meter::Meter;
use mdmp_source::{SourceFault, Store};
use std::alloc::{AllocError, Allocator};
use std::marker::Model;

/// A buffer for the units of a name, or for the end of a CodeView record. The memory for the longest is
/// taken once, and what no name has needed of it is never touched.
#[derive(Drop)]
pub(crate) struct NameBuffer<A: Allocator> {
    /// As many bytes as the longest had that was read. It has room for the limit, and no more.
    bytes: Vec<u8, A>,
}

impl<A: Allocator> Model for NameBuffer<A> {
    ghost use Rattle.std.specs.Prelude.{vec_capacity};
    ghost use Rattle.mdmp_lister.specs.NameBuffer.{NameBufferState};

    ghost Value = { NameBufferState };

    ghost view = { λ record { bytes = bytes }. record { items = bytes.items; limit = vec_capacity bytes } };
}

impl<A: Allocator> NameBuffer<A> {
    ghost use Rattle.std.specs.Prelude.{◌≡◌, ◌≤◌, [], IfOk, length, max, take};
    ghost use Rattle.mdmp_source.specs.Count.{raised};
    ghost use Rattle.mdmp_source.specs.Range.{IsInside, bytes_at};
    ghost use Rattle.mdmp_lister.specs.Fetching.{Reads, ReadsBeside};
    ghost use Rattle.mdmp_lister.specs.Meter.{Books, TriesFetch};

    /// A buffer for at most that many bytes. The memory for them is taken here, and no later call takes any.
    pub(crate) fn with_limit(alloc: A, limit: usize) -> Result<Self, AllocError>
        ensures { IfOk result (λ b. b ≡ record { items = []; limit = limit }) }
    {
        Ok(NameBuffer {
            bytes: Vec::with_capacity(alloc, limit)?,
        })
    }

    /// How many bytes it has room for.
    pub(crate) fn limit(&self) -> usize
        ensures { result ≡ self.now.limit }
    {
        self.bytes.capacity()
    }

    /// What was read last, at the front, and behind it the end of what was read before, if that was longer.
    pub(crate) fn bytes(&self) -> &[u8]
        ensures { result.now ≡ self.now.items }
    {
        &self.bytes
    }

    /// Fetches `count` bytes at `at` into the front. No memory behind them is touched.
    pub(crate) fn fetch<S: Store>(
        &mut self,
        meter: &mut Meter<S>,
        at: u64,
        count: usize,
    ) -> Result<(), FetchFault>
        requires room { count ≤ self.old.limit }
        requires inside { IsInside at count meter.old.source.size }
        ensures limit { self.new.limit ≡ self.old.limit }
        ensures holds { count ≤ length self.new.items }
        ensures grows { length self.new.items ≤ max (length self.old.items) count }
        ensures reads { Reads count (Books 1 count) (λ file _. take count self.new.items ≡ bytes_at file at count) result meter.old meter.new }
        ensures tries { TriesFetch at count result meter.old meter.new }
    {
        lengthen(&mut self.bytes, count);
        fetch_front(meter, at, &mut self.bytes, count)
    }

    /// The same aside from the listing.
    pub(crate) fn fetch_aside<S: Store>(
        &mut self,
        meter: &mut Meter<S>,
        at: u64,
        count: usize,
    ) -> Result<(), SourceFault>
        requires room { count ≤ self.old.limit }
        requires inside { IsInside at count meter.old.source.size }
        ensures limit { self.new.limit ≡ self.old.limit }
        ensures holds { count ≤ length self.new.items }
        ensures grows { length self.new.items ≤ max (length self.old.items) count }
        ensures reads { ReadsBeside 1 count (λ file _. take count self.new.items ≡ bytes_at file at count) result meter.old meter.new }
        ensures counted { meter.new.aside.bytes ≡ raised meter.old.aside.bytes count }
    {
        lengthen(&mut self.bytes, count);
        fetch_front_aside(meter, at, &mut self.bytes, count)
    }
}

/// Has the buffer hold at least that many bytes, for which it has memory.
fn lengthen<A: Allocator>(buffer: &mut Vec<u8, A>, len: usize)
    requires { len ≤ vec_capacity buffer.old }
    ensures len { vec_len buffer.new ≡ max (vec_len buffer.old) len }
    ensures capacity { vec_capacity buffer.new ≡ vec_capacity buffer.old }
{
    'bytes: while buffer.len() < len {
        buffer.push_reserved(0);
    }
}
