//! The walker.
ghost use Rattle.std.specs.Prelude.{◌≡◌, ◌≤◌, ◌<◌, ◌+◌, ℕ, List, None, Some, IfOk, IfErr, IfSome, IsTrue, OnOk, length, slice_get, false, MatchResult};
ghost use Rattle.std.specs.Borrow.{sem};
ghost use Rattle.std.specs.Io.BufRead.{Rests};
ghost use Rattle.mdmp_source.specs.Range.{IsInside, bytes_at};
ghost use Rattle.mdmp_source.specs.Source.{IsToldAmong};
ghost use Rattle.mdmp_source.specs.Store.{IsGood, IsOfBytes, IsSizeOf};
ghost use Rattle.mdmp_wire.specs.Header.{header_at};
ghost use Rattle.mdmp_lister.specs.Calls.{TellsListsLacking};
ghost use Rattle.mdmp_lister.specs.Costs.{begun_at};
ghost use Rattle.mdmp_lister.specs.Counts.{AreHeld, AreOfFile, numbers_of};
ghost use Rattle.mdmp_lister.specs.Fault.{IsAnsweredFor, IsOfStore, TellsNoChange};
ghost use Rattle.mdmp_lister.specs.Format.Kind.{HasNoNames, kind_of};
ghost use Rattle.mdmp_lister.specs.Format.Listing.{entry_of, is_chosen};
ghost use Rattle.mdmp_lister.specs.Format.Refusal.{directory_refusal};
ghost use Rattle.mdmp_lister.specs.HeldStep.{AnswerHasItsBytes, answer_told};
ghost use Rattle.mdmp_lister.specs.Meter.{IsBooked, counts_of};
ghost use Rattle.mdmp_lister.specs.Opening.{IsDirectoryRefusal};
ghost use Rattle.mdmp_lister.specs.Refused.{IsRefusedWalker};
ghost use Rattle.mdmp_lister.specs.Stage.{StaysUnchanged, stop_after};
ghost use Rattle.mdmp_lister.specs.Step.{IsStepOf};
ghost use Rattle.mdmp_lister.specs.Walk.{IsSound};
ghost use Rattle.mdmp_lister.specs.Walk.Positions.{AnsweredFrom, IsPositioned, IsWalked, mark_by, position_by};

use crate::calls::AskedAllocator;
use crate::choice::Choice;
use crate::counts::Counts;
use crate::fault::{ListFault, OpenFault};
use crate::held_step::HeldStep;
use crate::item::Item;
use crate::limits::Limits;
use crate::meter::MeterCounts;
use crate::opening::OpenRefused;
use crate::position::Position;
use crate::stage::Stage;
use crate::step::Step;
use crate::walk::Walk;
use mdmp_source::{Source, SourceFault, Store};
use mdmp_wire::{Entry, Header};
use std::alloc::Allocator;
use std::marker::Model;

/// Lists a file, one item at a time, and goes to any entry of its directory.
///
/// It is a [`Lister`](crate::Lister) that keeps no ranges of memory: it holds a window, the directory and
/// a name, and takes no memory once it is opened. Its items are those of the listing, in order, up to the
/// first fault; behind [`Walker::seek_entry`] those of the entry that was sought, chosen or not, and then
/// of the chosen ones behind it.
#[derive(Drop)]
pub struct Walker<S: Store + Drop, A: Allocator + Copy> {
    walk: Walk<S, A>,
    position: Position,
    /// What was counted when the Stream item was given last; before the first one, as the file was opened.
    mark: MeterCounts,
}

impl<S: Store + Drop, A: Allocator + Copy> Model for Walker<S, A> {
    ghost use Rattle.std.specs.Option.{option_map};
    ghost use Rattle.std.specs.Prelude.{[], vec_capacity, vec_len};
    ghost use Rattle.mdmp_lister.specs.Meter.{counts_of};
    ghost use Rattle.mdmp_lister.specs.Walker.{WalkerState};
    ghost use Rattle.mdmp_lister.specs.Walk.{held_beside};
    ghost use Rattle.mdmp_lister.specs.Walk.Positions.{IsWalked, left_in, records_at_position, standing_in, stop_in, unread_in, work_in};

    ghost Value = { WalkerState };

    // Each part is named, so that a list of any other one would be counted too.
    ghost view = { λ record { walk = walk; position = position; mark = mark }. record {
      list = record {
        source = walk.meter.source;
        counts = counts_of walk.meter;
        header = walk.header;
        entries = walk.entries.items;
        choice = walk.choice;
        limit = walk.name.limit;
        rooms = record { entries = vec_capacity walk.entries; window = walk.window.room; ranges = 0; held = held_beside 0 walk };
        passed = walk.next;
        current = walk.current;
        ranges = [];
        left = option_map (left_in position walk) walk.meter.source.store.content;
        stop = stop_in position walk.stage;
        unread = unread_in position walk;
        standing = standing_in position walk.stage;
        records = records_at_position position walk.stage;
        work = work_in position walk;
      };
      position = position;
      mark = mark;
    } };

    ghost invariant = { λ w. IsWalked w.position w.mark w.walk };
}

impl<S: Store + Drop, A: Allocator + Copy> Walker<S, A> {
    ghost use Rattle.mdmp_lister.specs.contracts.walker.Walker.{the_row};
    ghost use Rattle.mdmp_lister.specs.Memory.{IsWalkRefusal, walk_fault};
    ghost use Rattle.mdmp_lister.specs.Lister.{Gives, IsRefusedIn, KeepsGiven, ReadsAside, SkipsEntry, is_for_good};
    ghost use Rattle.mdmp_lister.specs.Walker.{CountsRecords, GivesEntry, IsNewWalker, IsSought, PassesStep, StepLeaves, WalkerLeaves, is_begun, is_failed, is_sought, records_answer};

    /// Opens a file. Its header is read; memory is taken for the directory, the window and a name; the
    /// directory is read. No later call takes any.
    ///
    /// A refusal hands the source back: the fault of the header or of the place of the directory, want
    /// of memory, that the store failed, behind which nothing more is fetched, or that a fetch would
    /// have passed the budget, which is not made. What was fetched by then is within the budget. A limit
    /// of memory is tested before any is taken: `MemoryLimit` tells how much would be held.
    pub fn open(
        alloc: A,
        source: Source<S>,
        limits: Limits,
        choice: Choice,
    ) -> Result<Walker<S, A>, OpenRefused<S>>
    where
        A: AskedAllocator,
        ensures opens { (file : List ℕ) → source.store.content ≡ Some file
            → MatchResult result (λ _. directory_refusal file ≡ None) (λ refused. IsDirectoryRefusal file refused.fault) }
        ensures within { (file : List ℕ) → source.store.content ≡ Some file
            → MatchResult result (λ _. walk_fault limits file ≡ None) (λ refused. IsWalkRefusal limits file refused.fault) }
        ensures short { source.size < 32 → MatchResult result (λ _. ⊥) (λ refused. refused.fault ≡ OpenFault.TooShort source.size) }
        ensures new { IfOk result (IsNewWalker source choice limits) }
        ensures refused { IfErr result (λ refused. IsRefusedWalker limits source refused.fault refused.source) }
        ensures lacks { IfErr result (λ refused. TellsListsLacking A.may_lack alloc limits choice source.store.content refused.fault) }
    {
        let walk = Walk::open(alloc, source, limits, choice)?;
        let mark = walk.meter.counts();
        Ok(Walker {
            walk,
            position: Position::Within,
            mark,
        })
    }

    /// The header of the file.
    pub fn header(&self) -> Header
        ensures value { result ≡ self.now.list.header }
        ensures entries { length self.now.list.entries ≡ result.number_of_streams }
        ensures of_file { (file : List ℕ) → self.now.list.source.store.content ≡ Some file → result ≡ header_at file 0 }
    {
        self.walk.header
    }

    /// The number of bytes in the file, as its source tells it. [`Walker::read_part`] reads any that
    /// end there or before.
    pub fn size(&self) -> u64
        ensures value { result ≡ self.now.list.source.size }
        ensures content { IsSizeOf self.now.list.source.store.content result }
        ensures bytes { IsOfBytes self.now.list.source.store.content }
    {
        self.walk.meter.size()
    }

    /// Entry `number` of the directory, counted from 0. The header tells how many there are.
    pub fn entry(&self, number: usize) -> Entry
        requires { number < length self.now.list.entries }
        ensures value { slice_get self.now.list.entries number ≡ Some result }
        ensures of_file { (file : List ℕ) → self.now.list.source.store.content ≡ Some file → result ≡ entry_of file number }
    {
        self.walk.entries[number]
    }

    /// Whether the choice has the type of entry `number`, counted from 0.
    pub fn is_chosen(&self, number: usize) -> bool
        requires { number < length self.now.list.entries }
        ensures { (entry : Entry) → slice_get self.now.list.entries number ≡ Some entry → result ≡ is_chosen self.now.list.choice entry.stream_type }
    {
        self.walk.choice.has(self.entry(number).stream_type)
    }

    /// The numbers that bound what it holds, what it has fetched, and in how many calls; it keeps no
    /// ranges. It takes nothing and changes nothing.
    pub fn counts(&self) -> Counts
        ensures value { result ≡ numbers_of self.now.list }
        ensures of_file { (file : List ℕ) → self.now.list.source.store.content ≡ Some file → AreOfFile file self.now.list.choice result }
        ensures held { AreHeld self.now.list result }
    {
        self.walk.counts(0)
    }

    /// The next item, whose name is lent until the next call, or none behind the last one. A fault
    /// of the file is answered again until its entry is skipped or another is sought, a fault of the
    /// store or of the budget for good.
    pub fn next(&mut self) -> Result<Option<Item<'_>>, ListFault>
        ensures gives { (left : _) → self.old.list.left ≡ Some left → Gives left result }
        ensures* leaves { sem 𝓛 (Rests (the_row S.row A.row S.Store A.Allocator) self.entry (WalkerLeaves self.old result)) }
        ensures sought { (number : ℕ) → self.old.position ≡ Position.Sought number → GivesEntry number self.old.list.entries result }
        ensures repeats { (stop : _) → self.old.list.stop ≡ Some stop → stop_after result ≡ Some stop }
        ensures good { (file : List ℕ) → IsGood self.old.list.source.store file → IfErr result (λ fault. IsOfStore fault.kind → ⊥) }
    {
        match advance_from(&mut self.walk, &mut self.position, &mut self.mark) {
            Ok(None) => Ok(None),
            Ok(Some(held)) => Ok(Some(self.walk.item(&held))),
            Err(fault) => Err(fault),
        }
    }

    /// What `next` would give, as it was read: of a record its fields as they stand in the file, of a name
    /// how many bytes it has. It lends nothing.
    pub fn next_step(&mut self) -> Result<Option<Step>, ListFault>
        ensures leaves { StepLeaves self.old result self.new }
        ensures repeats { (stop : _) → self.old.list.stop ≡ Some stop → stop_after result ≡ Some stop }
        ensures good { (file : List ℕ) → IsGood self.old.list.source.store file → IfErr result (λ fault. IsOfStore fault.kind → ⊥) }
        ensures refused { IfErr result (λ fault. IsRefusedIn fault self.new.list) }
        ensures kind { IfOk result (λ given. IfSome given (IsStepOf (kind_of self.new.list.current.stream_type))) }
    {
        let answer = advance_from(&mut self.walk, &mut self.position, &mut self.mark);
        self.walk.told(answer)
    }

    /// Does what `next_step` does, and drops the step: whether there was one. It decodes no record.
    pub fn pass_step(&mut self) -> Result<bool, ListFault>
        ensures { PassesStep self.old result self.new }
    {
        match advance_from(&mut self.walk, &mut self.position, &mut self.mark) {
            Ok(Some(_)) => Ok(true),
            Ok(None) => Ok(false),
            Err(fault) => Err(fault),
        }
    }

    /// Whether a Stream item was given last: no other call but `records`, and those that only read
    /// beside the listing, came behind it.
    pub fn is_begun(&self) -> bool
        ensures { result ≡ is_begun self.now }
    {
        match self.position {
            Position::Begun => true,
            Position::Sought(_) | Position::Within => false,
        }
    }

    /// How many records the stream has whose Stream item was given last, or the fault that `next` will
    /// answer: none of an unused entry, and of a type whose records are not known. What it fetches
    /// `next` does not fetch again.
    ///
    /// The Stream item was given last: see [`Walker::is_begun`].
    pub fn records(&mut self) -> Result<u64, ListFault>
        requires { IsTrue (is_begun self.old) }
        ensures of_file { (file : List ℕ) → self.old.list.source.store.content ≡ Some file → IsAnsweredFor (records_answer file self.old) result }
        ensures counts { CountsRecords self.old result self.new }
    {
        self.walk.count_records()
    }

    /// Drops what is left of the entry whose Stream item was given last. Before the first one, behind
    /// the end, after a fault of the store or of the budget and where an entry is sought it changes
    /// nothing that will be given.
    pub fn skip_entry(&mut self)
        ensures skips { is_for_good self.old.list.stop ≡ false → is_sought self.old ≡ false
            → SkipsEntry self.old.list self.new.list }
        ensures stays { IsTrue (is_for_good self.old.list.stop) → self.new.list ≡ self.old.list }
        ensures sought { IsTrue (is_sought self.old) → self.new ≡ self.old }
        ensures position { (is_sought self.new ≡ is_sought self.old) × (is_begun self.new ≡ false) }
        ensures unbegun { self.old.list.passed ≡ 0 → self.new.list ≡ self.old.list }
        ensures keeps { KeepsGiven self.old.list self.new.list }
        ensures mark { self.new.mark ≡ self.old.mark }
    {
        match self.position {
            Position::Sought(_) => {}
            Position::Begun => {
                self.position = Position::Within;
                self.walk.skip_entry();
            }
            Position::Within => self.walk.skip_entry(),
        }
    }

    /// Goes to entry `number`, counted from 0, by no fetch: the next item is its Stream item, whether it
    /// is chosen or not. After a fault of the store or of the budget it changes nothing.
    pub fn seek_entry(&mut self, number: usize)
        requires { number < length self.old.list.entries }
        ensures { IsSought number self.old self.new }
    {
        match self.walk.stage {
            Stage::Failed(_) => {}
            _ => self.position = Position::Sought(number),
        }
    }

    /// Lifts the budget: what is fetched for the listing from now on has none. After a fault of the store
    /// or of the budget it changes nothing.
    pub fn lift_budget(&mut self)
        ensures lifts { is_failed self.old.list.stop ≡ false
            → self.new ≡ record self.old { list = record self.old.list { counts = record self.old.list.counts { budget = None; asked = self.old.list.counts.fetched } } } }
        ensures stays { IsTrue (is_failed self.old.list.stop) → self.new ≡ self.old }
        ensures within { self.old.list.counts.fetched ≤ self.old.list.counts.asked }
    {
        let _counts = self.walk.meter.counts();
        match self.walk.stage {
            Stage::Failed(_) => {},
            _ => self.walk.meter.lift_budget(),
        }
    }

    /// Fills `out` with the bytes of the file from the offset `at` on, which lie inside it (see
    /// [`Walker::size`]). After a fault of the store `out` may hold anything, and what is listed stays
    /// as it was.
    pub fn read_part(&mut self, at: u64, out: &mut [u8]) -> Result<(), SourceFault>
        requires { IsInside at (length out.old) self.old.list.source.size }
        ensures bytes { (file : List ℕ) → self.old.list.source.store.content ≡ Some file → OnOk result (out.new ≡ bytes_at file at (length out.new)) }
        ensures reads { ReadsAside 1 (length out.new) result self.old.list self.new.list }
        ensures told { IfErr result (λ fault. IsToldAmong at (length out.new) fault self.old.list.source self.new.list.source) }
        ensures same { self.new ≡ record self.old { list = self.new.list } }
    {
        self.walk.read_part(at, out)
    }

    /// Hands the source back.
    pub fn into_source(self) -> Source<S>
        ensures value { result ≡ self.list.source }
        ensures booked { IsBooked result self.list.counts }
    {
        let Walker { walk, .. } = self;
        walk.meter.into_source()
    }
}

/// Gives the next step of a walk, or the Stream item of the entry that is sought, and tells where the
/// walker then stands. What is counted as a Stream item is given is kept.
fn advance_from<S: Store + Drop, A: Allocator + Copy>(
    walk: &mut Walk<S, A>,
    position: &mut Position,
    mark: &mut MeterCounts,
) -> Result<Option<HeldStep>, ListFault>
    requires { IsWalked position.old mark.old walk.old }
    ensures answered { AnsweredFrom position.old walk.old (answer_told walk.new.window.held result) walk.new }
    ensures whole { AnswerHasItsBytes walk.new.window.held result }
    ensures walked { IsWalked position.new mark.new walk.new }
    ensures position { position.new ≡ position_by (begun_at (answer_told walk.new.window.held result)) }
    ensures mark { mark.new ≡ mark_by (begun_at (answer_told walk.new.window.held result)) (counts_of walk.new.meter) mark.old }
    ensures unchanged { IfErr (answer_told walk.new.window.held result) (λ fault. TellsNoChange fault.kind) }
    ensures nameless { HasNoNames (kind_of walk.old.current.stream_type) → walk.new.meter.names ≡ walk.old.meter.names }
{
    let answer = answer_from(walk, *position);
    if let Ok(Some(HeldStep::Stream(_))) = answer {
        *position = Position::Begun;
        *mark = walk.meter.counts();
    } else {
        *position = Position::Within;
    }
    answer
}

/// The next step of a walk, or the Stream item of the entry that is sought.
fn answer_from<S: Store + Drop, A: Allocator + Copy>(
    walk: &mut Walk<S, A>,
    position: Position,
) -> Result<Option<HeldStep>, ListFault>
    requires sound { IsSound walk.old }
    requires position { IsPositioned position walk.old }
    requires unchanged { StaysUnchanged walk.old.stage }
    ensures answered { AnsweredFrom position walk.old (answer_told walk.new.window.held result) walk.new }
    ensures whole { AnswerHasItsBytes walk.new.window.held result }
    ensures unchanged { StaysUnchanged walk.new.stage }
    ensures nameless { HasNoNames (kind_of walk.old.current.stream_type) → walk.new.meter.names ≡ walk.old.meter.names }
{
    match position {
        Position::Sought(number) => Ok(Some(walk.begin_entry(number))),
        Position::Begun | Position::Within => walk.advance(),
    }
}
