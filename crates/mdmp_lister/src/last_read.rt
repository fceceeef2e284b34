//! What a walk read last, and what is read beside its listing.
ghost use Rattle.std.specs.Prelude.{◌≡◌, ◌≤◌, IfErr, length, take};
ghost use Rattle.mdmp_source.specs.Range.{IsInside, bytes_at};
ghost use Rattle.mdmp_source.specs.Source.{IsToldAmong};
ghost use Rattle.mdmp_lister.specs.Fetching.{ReadsBeside};
ghost use Rattle.mdmp_lister.specs.HeldStep.{AnswerHasItsBytes, HasItsBytes, TellsRange, answer_told, step_told};
ghost use Rattle.mdmp_lister.specs.ItemRead.{IsLentOf};
ghost use Rattle.mdmp_lister.specs.Step.{IsItemOf, IsNameHeld};
ghost use Rattle.mdmp_lister.specs.Walk.{IsSound};

use crate::codeview::{CodeViewBytes, CodeViewRead, read_codeview};
use crate::fault::ListFault;
use crate::held_step::{HeldStep, held_range, item_read, record_item, step_of};
use crate::item::{Item, RangeItem};
use crate::step::{ItemRead, Step};
use crate::walk::Walk;
use mdmp_source::{Location, SourceFault, Store};
use std::alloc::Allocator;

impl<S: Store + Drop, A: Allocator + Copy> Walk<S, A> {
    ghost use Rattle.mdmp_lister.specs.Walk.Requests.{CodeViewFetched};

    /// An answer that was given last, with the step that it tells.
    pub(crate) fn told(
        &self,
        answer: Result<Option<HeldStep>, ListFault>,
    ) -> Result<Option<Step>, ListFault>
        requires { AnswerHasItsBytes self.now.window.held answer }
        ensures { result ≡ answer_told self.now.window.held answer }
    {
        match answer {
            Ok(None) => Ok(None),
            Ok(Some(held)) => Ok(Some(step_of(&held, self.window.bytes()))),
            Err(fault) => Err(fault),
        }
    }

    /// The item that was read last, its name lent.
    #[inline(always)]
    pub(crate) fn item(&self, held: &HeldStep) -> Item<'_>
        requires whole { HasItsBytes self.now.window.held held.now }
        requires name { IsNameHeld (length self.now.name.items) (step_told self.now.window.held held.now) }
        ensures { IsItemOf self.now.meter.source.size self.now.name.items (step_told self.now.window.held held.now) result }
    {
        match held {
            HeldStep::Stream(stream) => Item::Stream(*stream),
            HeldStep::Record(record) => record_item(
                record,
                self.window.bytes(),
                self.name.bytes(),
                self.meter.size(),
            ),
        }
    }

    /// The same as it was read.
    pub(crate) fn item_read(&self, held: &HeldStep) -> ItemRead<'_>
        requires whole { HasItsBytes self.now.window.held held.now }
        requires name { IsNameHeld (length self.now.name.items) (step_told self.now.window.held held.now) }
        ensures { IsLentOf self.now.name.items (step_told self.now.window.held held.now) result }
    {
        item_read(held, self.window.bytes(), self.name.bytes())
    }

    /// The range that was read last, where the item is one.
    #[inline(always)]
    pub(crate) fn range(&self, held: &HeldStep) -> Option<RangeItem>
        requires { HasItsBytes self.now.window.held held.now }
        ensures { TellsRange self.now.meter.source.size (step_told self.now.window.held held.now) result }
    {
        held_range(held, self.window.bytes(), self.meter.size())
    }

    /// Fetches what a CodeView record tells, the bytes behind its first 24 into the front of the buffer of
    /// names.
    pub(crate) fn fetch_codeview(&mut self, location: Location) -> Result<CodeViewRead, SourceFault>
        requires sound { IsSound self.old }
        requires inside { IsInside location.rva location.size self.old.meter.source.size }
        ensures { CodeViewFetched location self.old result self.new }
    {
        read_codeview(&mut self.meter, location, &mut self.name)
    }

    /// The bytes of a CodeView record that were fetched, those behind the first 24 lent.
    pub(crate) fn codeview(&self, read: CodeViewRead) -> CodeViewBytes<'_>
        requires { read.rest ≤ length self.now.name.items }
        ensures head { result.head ≡ read.head }
        ensures rest { result.rest.now ≡ take read.rest self.now.name.items }
        ensures size { result.size ≡ read.size }
    {
        let CodeViewRead { head, rest, size } = read;
        CodeViewBytes {
            head,
            rest: &self.name.bytes()[..rest],
            size,
        }
    }

    /// Fetches bytes of the file, which lie inside it, aside from the listing.
    pub(crate) fn read_part(&mut self, at: u64, out: &mut [u8]) -> Result<(), SourceFault>
        requires { IsInside at (length out.old) self.old.meter.source.size }
        ensures same { self.new ≡ record self.old { meter = self.new.meter } }
        ensures reads { ReadsBeside 1 (length out.new) (λ file _. out.new ≡ bytes_at file at (length out.new)) result self.old.meter self.new.meter }
        ensures told { IfErr result (λ fault. IsToldAmong at (length out.new) fault self.old.meter.source self.new.meter.source) }
    {
        self.meter.fetch_aside(at, out)
    }
}
