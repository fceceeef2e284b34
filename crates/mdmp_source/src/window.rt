//! A window that slides over a stretch of a file.
ghost use Rattle.std.specs.Prelude.{◌≡◌, ◌≤◌, ◌+◌, [], ℕ, List, IfErr, IfOk, IsOk, OnErr, OnOk, drop, length, max, min, take, vec_capacity, vec_len};
ghost use Rattle.mdmp_source.specs.Source.{CountsBytes, FailsOnce, FetchesAtMost, IsToldAmong};
ghost use Rattle.mdmp_source.specs.Store.{IsGood};
ghost use Rattle.mdmp_source.specs.Window.{IsFilled, WindowState, behind_of, next_len_of, touched_after};

use crate::fault::SourceFault;
use crate::source::Source;
use crate::store::Store;
use std::alloc::{AllocError, Allocator};
use std::marker::Model;

/// A buffer that slides over a stretch of a file: it holds the bytes from a place on, drops those
/// at its front as they are consumed, and has others appended by `fill`. Places and ends are offsets
/// from the start of the file, and all lengths are in bytes.
///
/// `consume` copies nothing. A `fill` that fetches moves what is left to the front of the buffer: so
/// where the window is filled only once it holds less than a record, each byte is fetched once, and
/// a fill moves less than a record.
// A ring would move no byte, and would lend what it holds in two parts, so that records could not be
// read in place.
#[derive(Drop)]
pub struct Window<A: Allocator> {
    /// As many bytes as were ever held or wanted at once: a short file touches little of a great window.
    buffer: Vec<u8, A>,
    /// Where in the buffer the bytes held begin.
    first: usize,
    /// How many bytes are held.
    len: usize,
    place: u64,
    end: u64,
}

impl<A: Allocator> Model for Window<A> {
    ghost Value = { WindowState };

    ghost view = { λ w. record {
      place = w.place;
      end = w.end;
      room = vec_capacity w.buffer;
      touched = vec_len w.buffer;
      held = take w.len (drop w.first w.buffer.items);
    } };

    ghost invariant = { λ w. (w.first + w.len ≤ vec_len w.buffer) × (w.place + w.len ≤ w.end) };
}

impl<A: Allocator> Window<A> {
    /// A window of the empty stretch at 0, with room for that many bytes. The memory for them is
    /// taken here, and no later call takes any.
    pub fn with_room(alloc: A, room: usize) -> Result<Self, AllocError>
        ensures { IfOk result (λ w. w ≡ record { place = 0; end = 0; room = room; touched = 0; held = [] }) }
    {
        Ok(Window {
            buffer: Vec::with_capacity(alloc, room)?,
            first: 0,
            len: 0,
            place: 0,
            end: 0,
        })
    }

    /// Drops what is held, and begins the stretch from the offset `at` up to `end`. Nothing is
    /// fetched.
    pub fn start(&mut self, at: u64, end: u64)
        requires { at ≤ end }
        ensures { self.new ≡ record self.old { place = at; end = end; held = [] } }
    {
        self.first = 0;
        self.len = 0;
        self.place = at;
        self.end = end;
    }

    /// The offset of the first byte held, or of the next one where none is held.
    pub fn place(&self) -> u64
        ensures value { result ≡ self.now.place }
        ensures fits { result + length self.now.held ≤ self.now.end }
    {
        self.place
    }

    /// The offset behind the last byte of the stretch.
    pub fn end(&self) -> u64
        ensures { result ≡ self.now.end }
    {
        self.end
    }

    /// How many bytes can be held: the capacity of the buffer.
    pub fn room(&self) -> usize
        ensures value { result ≡ self.now.room }
        ensures fits { length self.now.held ≤ result }
    {
        self.buffer.capacity()
    }

    /// The bytes held, which are those of the file from the place on.
    pub fn bytes(&self) -> &[u8]
        ensures { result.now ≡ self.now.held }
    {
        &self.buffer[self.first..self.first + self.len]
    }

    /// How many bytes the next `fill` fetches: the free room, or what is left up to the end where
    /// that is less.
    pub fn next_len(&self) -> usize
        ensures { result ≡ next_len_of self.now }
    {
        let left = self.end - self.place - self.len as u64;
        (self.room() - self.len).min(left as usize)
    }

    /// Drops the first `count` bytes that are held, and moves the place behind them.
    pub fn consume(&mut self, count: usize)
        requires { count ≤ length self.old.held }
        ensures { self.new ≡ record self.old {
          place = self.old.place + count;
          held = drop count self.old.held;
        } }
    {
        self.first += count;
        self.len -= count;
        self.place += count as u64;
    }

    /// Appends the bytes that come next, as many as `next_len` tells, by one fetch, and by none
    /// where those are none. Its memory is written to as far as it then holds bytes. After a fault the
    /// window holds what it held before.
    pub fn fill<S: Store>(&mut self, source: &mut Source<S>) -> Result<(), SourceFault>
        requires { self.old.end ≤ source.old.size }

        ensures filled { OnOk result (IsFilled source.old.store.content self.old self.new) }
        ensures err { OnErr result (self.new ≡ touched_after self.old) }
        ensures good { (file : List ℕ) → IsGood source.old.store file → IsOk result }

        // Each fault has its cause in this call, and says which byte was not obtained.
        ensures told { IfErr result (λ fault. IsToldAmong (behind_of self.old) (next_len_of self.old) fault source.old source.new) }
        ensures once { FailsOnce result source.old.store.counts source.new.store.counts }

        ensures fetches { FetchesAtMost (next_len_of self.old) source.old source.new }
        ensures counts { CountsBytes (min 1 (next_len_of self.old)) (next_len_of self.old) source.old source.new }
    {
        let count = self.next_len();
        if count == 0 {
            return Ok(());
        }
        let at = self.place + self.len as u64;
        move_to_front(&mut self.buffer, self.first, self.len);
        self.first = 0;
        lengthen(&mut self.buffer, self.len + count);
        source.fetch(at, &mut self.buffer[self.len..self.len + count])?;
        self.len += count;
        Ok(())
    }
}

/// Moves the `len` bytes at `first` to the front.
fn move_to_front<A: Allocator>(buffer: &mut Vec<u8, A>, first: usize, len: usize)
    requires { first + len ≤ vec_len buffer.old }
    ensures held { take len buffer.new.items ≡ take len (drop first buffer.old.items) }
    ensures len { vec_len buffer.new ≡ vec_len buffer.old }
    ensures capacity { vec_capacity buffer.new ≡ vec_capacity buffer.old }
{
    buffer.copy_within(first..first + len, 0);
}

/// Has the buffer hold at least that many bytes, for which it has memory.
// `Vec::resize` says that the capacity does not shrink, and not that it stays.
pub(crate) fn lengthen<A: Allocator>(buffer: &mut Vec<u8, A>, len: usize)
    requires { len ≤ vec_capacity buffer.old }
    ensures kept { (n : ℕ) → n ≤ vec_len buffer.old → take n buffer.new.items ≡ take n buffer.old.items }
    ensures len { vec_len buffer.new ≡ max (vec_len buffer.old) len }
    ensures capacity { vec_capacity buffer.new ≡ vec_capacity buffer.old }
{
    while buffer.len() < len {
        buffer.push_reserved(0);
    }
}
