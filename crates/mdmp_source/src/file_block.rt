//! A block of a file, which small reads are answered from.
ghost use Rattle.std.specs.Prelude.{◌≡◌, ◌≤◌, ◌↔◌, [], IsTrue, take, vec_capacity, vec_len};
ghost use Rattle.mdmp_source.specs.FileBlock.{FileBlockState, GivesHeld, Holds, IsBlockFilled, IsFollowed, IsReach, used_by, used_of};

use crate::calls::AskedFile;
use crate::memory_store::copy_at;
use crate::placed_file::PlacedFile;
use crate::store::StoreFailed;
use crate::window::lengthen;
use std::alloc::Allocator;
use std::marker::Model;

/// How many bytes a read into the block asks for at a new place, if no more are wanted.
pub(crate) const NEW_PLACE: usize = 512;

/// How many bytes of the block a call uses beside those that it is given.
pub(crate) const CALL_USE: usize = 256;

/// The bytes of a file that its last read into a block gave, and their place.
///
/// How many bytes a read into the block asks for, its reach, grows with use. At a new place it is 512 bytes. If
/// reads follow each other and use half of the block, the reach doubles, up to the block's size. So a few bytes far
/// from all others cost 512, and many bytes in a row cost few reads.
// If the reach grew without use, lists that are a block apart would cost a whole block for each head. A call counts for
// more bytes than it is given, since lengths of names are read in a row too, without the names.
#[derive(Drop)]
pub(crate) struct FileBlock<A: Allocator> {
    /// As many bytes as a read ever asked for: a small file touches little of the block's memory.
    buffer: Vec<u8, A>,
    /// How many bytes are held, from the front of the buffer on.
    len: usize,
    /// The offset of the first of them.
    at: u64,
    /// How many bytes the last read into the block asked for.
    reach: usize,
    /// How many bytes it gave, modulo 2^64.
    given: usize,
    /// How many calls it gave them to, modulo 2^32.
    // Two counts of one width would be added to together, by six instructions for each call in place of two.
    calls: u32,
}

impl<A: Allocator> Model for FileBlock<A> {
    ghost Value = { FileBlockState };

    ghost view = { λ b. record {
      at = b.at;
      bytes = take b.len b.buffer.items;
      room = vec_capacity b.buffer;
      touched = vec_len b.buffer;
      reach = b.reach;
      given = b.given;
      calls = b.calls;
    } };

    ghost invariant = { λ b. (b.len ≤ vec_len b.buffer) × (b.reach ≤ vec_capacity b.buffer) };
}

impl<A: Allocator> FileBlock<A> {
    /// A block that holds nothing. Its memory is that of `buffer`, which is empty: no call takes any more, and
    /// each writes to no more of it than a read asks for (`touched`).
    pub(crate) fn over(buffer: Vec<u8, A>) -> Self
        requires { vec_len buffer ≡ 0 }
        ensures { result ≡ record {
          at = 0;
          bytes = [];
          room = vec_capacity buffer;
          touched = 0;
          reach = 0;
          given = 0;
          calls = 0;
        } }
    {
        FileBlock {
            buffer,
            len: 0,
            at: 0,
            reach: 0,
            given: 0,
            calls: 0,
        }
    }

    /// How many bytes a read may give.
    pub(crate) fn room(&self) -> usize
        ensures { result ≡ self.now.room }
    {
        self.buffer.capacity()
    }

    /// Drops what is held.
    pub(crate) fn clear(&mut self)
        ensures { self.new ≡ record self.old { bytes = [] } }
    {
        self.len = 0;
    }

    /// Whether the byte at this offset is held.
    pub(crate) fn holds(&self, at: u64) -> bool
        ensures { IsTrue result ↔ Holds self.now at }
    {
        at >= self.at && at - self.at < self.len as u64
    }

    /// How many bytes of the block its calls used.
    fn used(&self) -> u128
        ensures { result ≡ used_of self.now }
    {
        self.given as u128 + self.calls as u128 * CALL_USE as u128
    }

    /// Whether a read at this offset follows the block: half of the block was used, and the offset is behind the
    /// block's end by less than the block's length.
    fn is_followed(&self, at: u64) -> bool
        ensures { IsTrue result ↔ IsFollowed self.now at }
    {
        let len = self.len as u64;
        at >= self.at
            && at - self.at >= len
            && at - self.at - len < len
            && self.used() >= self.len as u128 / 2
    }

    /// How many bytes a read into the block at this offset asks for, if so many are wanted.
    fn reach_at(&self, at: u64, wanted: usize) -> usize
        ensures reach { IsReach self.now at wanted result }
        ensures fits { result ≤ self.now.room }
    {
        let room = self.buffer.capacity();
        if self.is_followed(at) {
            return room.min(wanted.max(2 * self.reach));
        }
        room.min(wanted.max(NEW_PLACE))
    }

    /// Reads some of the bytes at `at` into the block, of which so many are wanted. If that fails, the block
    /// holds nothing.
    pub(crate) fn fill<F: AskedFile>(
        &mut self,
        file: &mut PlacedFile<F>,
        at: u64,
        wanted: usize,
    ) -> Result<(), StoreFailed>
        ensures { IsBlockFilled F.may_seek F.may_read file.old at wanted result self.old self.new file.new }
    {
        let reach = self.reach_at(at, wanted);
        self.reach = reach;
        self.at = at;
        self.len = 0;
        self.given = 0;
        self.calls = 0;
        lengthen(&mut self.buffer, reach);
        self.len = file.read_at(at, &mut self.buffer[0..reach])?;
        Ok(())
    }

    /// Copies the held bytes at `at` into the front of `out`, as many as there are and as fit.
    pub(crate) fn give(&mut self, at: u64, out: &mut [u8]) -> usize
        requires { self.old.at ≤ at }
        ensures given { GivesHeld self.old at result out.new }
        ensures used { self.new ≡ used_by result self.old }
    {
        let count = copy_at(&self.buffer[..self.len], at - self.at, out);
        self.given = self.given.wrapping_add(count);
        self.calls = self.calls.wrapping_add(1);
        count
    }
}
