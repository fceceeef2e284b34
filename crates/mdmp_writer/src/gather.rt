//! The caller's buffer, in which small pieces of a text are gathered.
ghost use Rattle.std.specs.Prelude.{◌≡◌, ◌≤◌, ◌<◌, ◌+◌, ◌-◌, ◌++◌, ℕ, List, [], length, take, drop, get_or, min, nat_lt, false, IsTrue, Some, IfErr, IfOk, OnOk, MatchResult};
ghost use Rattle.mdmp_source.specs.Output.{refused_if};
ghost use Rattle.mdmp_wire.specs.AnyRecord.{any_bytes, any_size, greatest_size};
ghost use Rattle.mdmp_writer.specs.Gather.{gathered, HoldsMore, Gathers, Writes};
ghost use Rattle.mdmp_writer.specs.Cause.{StopsAtOutput};

use crate::fault::WriteFault;
use mdmp_dump::{DumpView, ViewFault};
use mdmp_source::{Out, send};
use mdmp_wire::AnyRecord;
use std::marker::Model;

/// How many bytes the longest record has.
const LONGEST: usize = 168;

/// What a writer holds back until the caller's buffer is full, so that a text of many small pieces
/// reaches the output by few calls.
///
/// What an output refused is still held, and `flush` can be called again.
#[derive(Drop)]
pub(crate) struct Gather<'b> {
    buffer: &'b mut [u8],
    held: usize,
}

impl<'b> Model for Gather<'b> {
    ghost use Rattle.std.specs.Prelude.{◌≤◌, ◌<◌, List, ℕ, length, take};

    ghost Value = { List ℕ };

    ghost view = { λ g. take g.held g.buffer.now };

    ghost invariant = { λ g. (0 < length g.buffer.now) × (g.held ≤ length g.buffer.now) };
}

impl<'b> Gather<'b> {
    /// Nothing is held.
    pub(crate) fn new(buffer: &'b mut [u8]) -> Self
        requires { 0 < length buffer.old }
        ensures { result ≡ [] }
    {
        Gather { buffer, held: 0 }
    }

    /// Sends what is held to the output. Where that refuses, what it did not take is still held.
    pub(crate) fn flush<O: Out>(&mut self, out: &mut O) -> Result<(), WriteFault>
        ensures puts { Gathers (gathered (O.state out.old) self.old) [] (gathered (O.state out.new) self.new) }
        ensures empties { OnOk result (self.new ≡ []) }
        ensures cause { StopsAtOutput result (O.state out.old) (O.state out.new) }
    {
        self.held = send_front(out, self.buffer, self.held);
        if self.held == 0 {
            Ok(())
        } else {
            Err(WriteFault::Out)
        }
    }

    /// Puts bytes behind those that are held.
    pub(crate) fn write<O: Out>(&mut self, out: &mut O, bytes: &[u8]) -> Result<(), WriteFault>
        ensures writes { Writes result (gathered (O.state out.old) self.old) bytes.now (gathered (O.state out.new) self.new) }
        ensures cause { StopsAtOutput result (O.state out.old) (O.state out.new) }
    {
        let mut at = self.hold(bytes);
        while at < bytes.len() {
            self.flush(out)?;
            at += self.hold(&bytes[at..]);
        }
        Ok(())
    }

    /// Puts a record behind those that are held, if there is room for the longest, and answers whether
    /// there was.
    pub(crate) fn hold_record(&mut self, row: &AnyRecord) -> bool
        ensures held { IsTrue result → self.new ≡ self.old ++ any_bytes row.now }
        ensures size { IsTrue result → length (any_bytes row.now) ≡ any_size row.now }
        ensures same { result ≡ false → self.new ≡ self.old }
    {
        if self.buffer.len() - self.held < LONGEST {
            return false;
        }
        self.held += write_behind(self.buffer, self.held, row);
        true
    }

    /// Holds the first of some bytes, as many as there is room for, and answers how many.
    fn hold(&mut self, bytes: &[u8]) -> usize
        ensures bound { result ≤ length bytes.now }
        ensures some { self.old ≡ [] → 0 < length bytes.now → 0 < result }
        ensures held { self.new ≡ self.old ++ take result bytes.now }
    {
        let count = copy_behind(self.buffer, self.held, bytes);
        self.held += count;
        count
    }

    /// Fetches bytes of a part from a place on into the buffer, at most so many and as many as there
    /// is room for, and answers how many.
    pub(crate) fn fetch<V: DumpView>(
        &mut self,
        view: &mut V,
        which: usize,
        at: u64,
        most: u64,
    ) -> Result<u64, ViewFault>
        requires { at + most ≤ (V.cursor view.old).sizes which }
        ensures shape { V.shape view.new ≡ V.shape view.old }
        ensures bound { IfOk result (λ k. (k ≤ most) × (self.old ≡ [] → 0 < most → 0 < k) × (V.cursor view.new ≡ V.cursor view.old)) }
        ensures held { MatchResult result
            (λ k. (parts : List (List ℕ)) → (V.cursor view.old).parts ≡ Some parts
            → self.new ≡ self.old ++ take k (drop at (get_or parts which [])))
            (λ _. self.new ≡ self.old) }
        ensures more { IfOk result (λ k. HoldsMore k self.old self.new) }
        ensures reliable { IsTrue (V.shape view.old).is_reliable → IfErr result (λ _. ⊥) }
        ensures passed { (V.spent view.new).passed ≤ (V.spent view.old).passed }
        ensures asked { MatchResult result (λ k. (V.spent view.new).asked ≤ (V.spent view.old).asked + k) (λ _. (V.spent view.new).asked ≤ (V.spent view.old).asked + most) }
        ensures told { IfErr result (λ fault. (V.spent view.new).fault ≡ Some fault) }
        ensures moves { V.Moves view.old view.new }
    {
        let count = most.min((self.buffer.len() - self.held) as u64);
        if count == 0 {
            return Ok(0);
        }
        fetch_behind(view, which, at, self.buffer, self.held, count as usize)?;
        self.held += count as usize;
        Ok(count)
    }
}

/// Sends the first `held` bytes to the output, up to its first refusal, moves what is left to the
/// front, and answers how many these are.
fn send_front<O: Out>(out: &mut O, buffer: &mut [u8], held: usize) -> usize
    requires { held ≤ length buffer.old }
    ensures len { length buffer.new ≡ length buffer.old }
    ensures bound { result ≤ held }
    ensures puts { Gathers (gathered (O.state out.old) (take held buffer.old)) [] (gathered (O.state out.new) (take result buffer.new)) }
    ensures failures { (O.state out.new).failures ≡ refused_if (nat_lt 0 result) (O.state out.old).failures }
{
    let sent = send(out, &buffer[..held]);
    move_front(buffer, sent, held);
    held - sent
}

/// Moves the bytes from `start` up to `end` to the front.
fn move_front(buffer: &mut [u8], start: usize, end: usize)
    requires start { start ≤ end }
    requires end { end ≤ length buffer.old }
    ensures len { length buffer.new ≡ length buffer.old }
    ensures bytes { take (end - start) buffer.new ≡ drop start (take end buffer.old) }
{
    buffer.copy_within(start..end, 0);
}

/// Copies the first of some bytes behind the first `held`, as many as there is room for, and answers
/// how many.
fn copy_behind(buffer: &mut [u8], held: usize, bytes: &[u8]) -> usize
    requires { held ≤ length buffer.old }
    ensures len { length buffer.new ≡ length buffer.old }
    ensures count { result ≡ min (length bytes.now) (length buffer.old - held) }
    ensures bytes { take (held + result) buffer.new ≡ take held buffer.old ++ take result bytes.now }
{
    let count = bytes.len().min(buffer.len() - held);
    buffer[held..held + count].copy_from_slice(&bytes[..count]);
    count
}

/// Writes a record behind the first `held` bytes, and answers how many it has.
fn write_behind(buffer: &mut [u8], held: usize, row: &AnyRecord) -> usize
    requires { held + greatest_size ≤ length buffer.old }
    ensures len { length buffer.new ≡ length buffer.old }
    ensures within { held + result ≤ length buffer.old }
    ensures bytes { take (held + result) buffer.new ≡ take held buffer.old ++ any_bytes row.now }
    ensures size { length (any_bytes row.now) ≡ any_size row.now }
{
    row.write(&mut buffer[held..held + LONGEST])
}

/// Fetches bytes of a part from a place on, so many, behind the first `held`.
fn fetch_behind<V: DumpView>(
    view: &mut V,
    which: usize,
    at: u64,
    buffer: &mut [u8],
    held: usize,
    count: usize,
) -> Result<(), ViewFault>
    requires room { held + count ≤ length buffer.old }
    requires within { at + count ≤ (V.cursor view.old).sizes which }
    ensures shape { V.shape view.new ≡ V.shape view.old }
    ensures held { (length buffer.new ≡ length buffer.old) × (take held buffer.new ≡ take held buffer.old) }
    ensures gives { OnOk result ((V.cursor view.new ≡ V.cursor view.old)
        × ((parts : List (List ℕ)) → (V.cursor view.old).parts ≡ Some parts
        → take (held + count) buffer.new ≡ take held buffer.old ++ take count (drop at (get_or parts which [])))) }
    ensures reliable { IsTrue (V.shape view.old).is_reliable → IfErr result (λ _. ⊥) }
    ensures passed { (V.spent view.new).passed ≤ (V.spent view.old).passed }
    ensures asked { (V.spent view.new).asked ≤ (V.spent view.old).asked + count }
    ensures told { IfErr result (λ fault. (V.spent view.new).fault ≡ Some fault) }
    ensures moves { V.Moves view.old view.new }
{
    view.part(which, at, &mut buffer[held..held + count])
}
