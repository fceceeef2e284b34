//! A walk over the streams of a file, a record at a time.
ghost use Rattle.std.specs.Prelude.{◌≡◌, ◌≤◌, ◌<◌, ◌+◌, ◌^◌, ℕ, List, IfErr, IfOk, MatchResult, length, slice_get, None, Some, OnOk, true};
ghost use Rattle.mdmp_source.specs.Count.{raised};
ghost use Rattle.mdmp_source.specs.Range.{IsInside, bytes_at};
ghost use Rattle.mdmp_source.specs.Store.{IsOfBytes, IsSizeOf};
ghost use Rattle.mdmp_lister.specs.Format.Refusal.{directory_refusal};
ghost use Rattle.mdmp_dump.specs.EntryWalk.{Begins, GivesNext, IsOpenedWalk, PassesNext, WalkReadsAside, chosen_entry};
ghost use Rattle.mdmp_lister.specs.declared.kind.StreamKind.TheVariants.{MemoryInfo};
ghost use Rattle.mdmp_lister.specs.Format.Kind.{kind_of};
ghost use Rattle.mdmp_lister.specs.Format.Listing.{entry_of};
ghost use Rattle.mdmp_lister.specs.Lister.{IsSameLister};
ghost use Rattle.mdmp_dump.specs.Walking.{IsKept, IsPlace, IsPlaceOf, chosen_of, records_to_give, state_of};
ghost use Rattle.mdmp_dump.specs.FileRefusal.{view_refusal};
ghost use Rattle.mdmp_lister.specs.Meter.{KeepsTo};
ghost use Rattle.mdmp_dump.specs.Opened.{HandsSourceBack, RefusesView};
ghost use Rattle.mdmp_dump.specs.Opening.{IsNameless, copy_fault, copy_held};
ghost use Rattle.mdmp_lister.specs.Memory.{is_within};
ghost use Rattle.mdmp_dump.specs.Reading.{IsWanting};
ghost use Rattle.mdmp_dump.specs.Refusal.{refusal_of};

use crate::fault::ReadFault;
use crate::found_record::{FoundRecord, found_record};
use crate::given::nowhere;
use crate::read::refusal;
use mdmp_lister::{Choice, Limits, OpenFault, Step, Walker};
use mdmp_source::{Source, SourceFault, Store};
use mdmp_wire::{Entry, Header};
use std::alloc::Allocator;
use std::marker::Model;

/// A file gives no dump, and its source is handed back.
#[derive(Drop)]
pub struct ViewRefused<S: Store + Drop> {
    /// Why it gives none.
    pub fault: ReadFault,
    /// The source, whose counts tell the cause of its faults.
    pub source: Source<S>,
}

/// An entry of the directory, and how many of those before it are chosen.
#[derive(Clone, Copy)]
pub(crate) struct EntryPlace {
    pub(crate) number: usize,
    pub(crate) stream: u64,
}

/// Goes to any of the chosen entries of a file and gives the records of its stream. It reads no name:
/// the names of its walker have a limit of 0 bytes, so that of each only the length is fetched.
#[derive(Drop)]
pub(crate) struct EntryWalk<S: Store + Drop, A: Allocator + Copy> {
    walker: Walker<S, A>,
    place: EntryPlace,
    /// The entry that was begun last.
    begun: Entry,
}

impl<S: Store + Drop, A: Allocator + Copy> Model for EntryWalk<S, A> {
    ghost use Rattle.mdmp_lister.specs.Format.Kind.{kind_of};
    ghost use Rattle.mdmp_dump.specs.EntryWalk.{WalkState};
    ghost use Rattle.mdmp_dump.specs.Walking.{IsStanding, state_of};

    ghost Value = { WalkState };

    ghost view = { λ w. state_of w.walker };

    ghost invariant = { λ w. IsStanding w.walker w.place };
}

impl<S: Store + Drop, A: Allocator + Copy> EntryWalk<S, A> {
    /// Opens a file within the budget, and lifts that: what the walk may fetch then is bounded by what the file
    /// holds and by what it is asked. Memory is taken for the directory and the window, if a copy has room for
    /// twice as much.
    pub(crate) fn open(
        alloc: A,
        source: Source<S>,
        limits: Limits,
        choice: Choice,
    ) -> Result<Self, ViewRefused<S>>
        ensures opened { IfOk result (IsOpenedWalk source limits.window choice) }
        ensures kept { IfOk result (λ walk. KeepsTo limits.budget walk.fetched) }
        ensures memory { IfOk result (λ walk. is_within limits.memory (copy_held limits.window walk.header.number_of_streams) ≡ true) }
        ensures of_file { (file : List ℕ) → source.store.content ≡ Some file
            → MatchResult result (λ _. directory_refusal file ≡ None)
            (λ refused. (names : ℕ) → (IsWanting refused.fault → ⊥) → view_refusal file choice names ≡ Some refused.fault) }
        ensures short { source.size < 32 → MatchResult result (λ _. ⊥) (λ refused. refused.fault ≡ ReadFault.Opening (OpenFault.TooShort source.size)) }
        ensures refused { IfErr result (λ refused. RefusesView limits choice source refused.fault) }
        ensures handed_back { IfErr result (λ refused. HandsSourceBack limits choice source refused.fault refused.source) }
    {
        // The proof learns here that the size has 64 bits.
        let _size = source.size();
        match Walker::open(alloc, source, nameless(limits), choice) {
            Ok(mut walker) => {
                // The proof learns here that what was fetched is within the budget.
                let _counts = walker.counts();
                walker.lift_budget();
                Ok(EntryWalk {
                    walker,
                    place: EntryPlace {
                        number: 0,
                        stream: 0,
                    },
                    begun: Entry {
                        stream_type: 0,
                        location: nowhere(),
                    },
                })
            },
            Err(refused) => Err(ViewRefused {
                fault: copy_refusal(refused.fault),
                source: refused.source,
            }),
        }
    }

    /// The header of the file.
    pub(crate) fn header(&self) -> Header
        ensures { result ≡ self.now.header }
    {
        self.walker.header()
    }

    /// How many bytes the file has.
    pub(crate) fn size(&self) -> u64
        ensures value { result ≡ self.now.source.size }
        ensures content { IsSizeOf self.now.source.store.content result }
        ensures bytes { IsOfBytes self.now.source.store.content }
    {
        self.walker.size()
    }

    /// How many streams there are: the entries that are chosen.
    pub(crate) fn streams(&self) -> u64
        ensures { result ≡ length self.now.chosen }
    {
        let entries = self.walker.header().number_of_streams as usize;
        let mut streams = 0;
        for number in 0..entries {
            if self.walker.is_chosen(number) {
                streams += 1;
            }
        }
        streams
    }

    /// The entry of a stream.
    pub(crate) fn entry(&mut self, stream: u64) -> Entry
        requires { stream < length self.old.chosen }
        ensures value { result ≡ (chosen_entry self.old stream).entry }
        ensures same { self.new ≡ self.old }
    {
        self.place = place_of(&self.walker, self.place, stream);
        self.walker.entry(self.place.number)
    }

    /// Begins a stream, and tells how many records it has.
    pub(crate) fn begin(&mut self, stream: u64) -> Result<u32, ReadFault>
        requires { stream < length self.old.chosen }
        ensures { Begins self.old stream result self.new }
    {
        self.place = place_of(&self.walker, self.place, stream);
        let number = self.place.number;
        self.begun = self.walker.entry(number);
        begin_entry(&mut self.walker, number)
    }

    /// The next record of the stream that was begun, in a file whose names may have at most `limit`
    /// bytes, or why it is refused.
    pub(crate) fn next_record(&mut self, limit: u32) -> Result<FoundRecord, ReadFault>
        requires { 0 < self.old.left }
        ensures { GivesNext self.old limit result self.new }
    {
        found_next(&mut self.walker, self.begun, limit)
    }

    /// Passes over the next record of the stream that was begun, a memory region: it has no name and no
    /// parts, and is not decoded.
    pub(crate) fn pass_region(&mut self) -> Result<(), ReadFault>
        requires left { 0 < self.old.left }
        requires regions { kind_of self.old.current.entry.stream_type ≡ Some MemoryInfo }
        ensures { PassesNext self.old result self.new }
    {
        pass_next(&mut self.walker)
    }

    /// Reads bytes of the file beside the walk.
    pub(crate) fn read_part(&mut self, at: u64, out: &mut [u8]) -> Result<(), SourceFault>
        requires { IsInside at (length out.old) self.old.source.size }
        ensures bytes { (file : List ℕ) → self.old.source.store.content ≡ Some file → OnOk result (out.new ≡ bytes_at file at (length out.new)) }
        ensures reads { WalkReadsAside (length out.new) self.old result self.new }
    {
        self.walker.read_part(at, out)
    }

    /// How many bytes were fetched since it was opened.
    pub(crate) fn fetched(&self) -> u128
        ensures value { result ≡ raised self.now.fetched self.now.aside }
        ensures most { result ≤ self.now.fetched + self.now.aside }
        ensures allowed { self.now.names + 1 < 2 ^ 128 → self.now.fetched ≤ self.now.allowed }
    {
        let counts = self.walker.counts();
        counts.fetched.saturating_add(counts.aside)
    }

    /// How many bytes its lists take.
    pub(crate) fn held(&self) -> u128
        ensures { result ≡ self.now.held }
    {
        self.walker.counts().held
    }

    /// Hands the source back, which counted what was fetched since it was opened.
    pub(crate) fn into_source(self) -> Source<S>
        ensures value { result ≡ self.source }
        ensures booked { result.fetched ≡ raised self.start (self.fetched + self.aside) }
    {
        self.walker.into_source()
    }
}

/// The limits of a walk that reads no names. A copy holds twice what the walk does: a view keeps 12 bytes
/// for each entry beside the walk's 12, and what writes it has a buffer of the window's size.
fn nameless(limits: Limits) -> Limits
    ensures { IsNameless limits result }
{
    Limits {
        window: limits.window,
        name: 0,
        budget: limits.budget,
        memory: match limits.memory {
            Some(most) => Some(most / 2),
            None => None,
        },
        aside: None,
    }
}

/// Why a file gives no view. Of memory it is told how much a copy would hold.
fn copy_refusal(fault: OpenFault) -> ReadFault
    ensures { result ≡ refusal_of (copy_fault fault) }
{
    match fault {
        OpenFault::MemoryLimit { held } => ReadFault::Opening(OpenFault::MemoryLimit {
            held: held.saturating_add(held),
        }),
        fault => refusal(fault),
    }
}

/// The place of the entry of a stream, found from one that is known.
fn place_of<S: Store + Drop, A: Allocator + Copy>(
    walker: &Walker<S, A>,
    from: EntryPlace,
    stream: u64,
) -> EntryPlace
    requires place { IsPlace walker.now.list from }
    requires some { stream < length (chosen_of walker.now.list) }
    ensures { IsPlaceOf walker.now.list stream result }
{
    let mut place = if stream < from.stream {
        EntryPlace {
            number: 0,
            stream: 0,
        }
    } else {
        from
    };
    let entries = walker.header().number_of_streams as usize;
    while place.number < entries {
        if walker.is_chosen(place.number) {
            if place.stream == stream {
                return place;
            }
            place.stream += 1;
        }
        place.number += 1;
    }
    // There is such a stream.
    place
}

/// Goes to an entry, chosen or not, and tells how many records it has.
fn begin_entry<S: Store + Drop, A: Allocator + Copy>(
    walker: &mut Walker<S, A>,
    number: usize,
) -> Result<u32, ReadFault>
    requires number { number < length walker.old.list.entries }
    requires of_file { (file : List ℕ) (e : Entry) → walker.old.list.source.store.content ≡ Some file → slice_get walker.old.list.entries number ≡ Some e → e ≡ entry_of file number }
    requires kept { IsKept walker.old }
    ensures begins { (stream : ℕ) (e : Entry) → slice_get walker.old.list.entries number ≡ Some e
        → chosen_entry (state_of walker.old) stream ≡ record { number = number; entry = e } → Begins (state_of walker.old) stream result (state_of walker.new) }
    ensures kept { IsKept walker.new }
    ensures same { IsSameLister walker.old.list walker.new.list }
{
    walker.seek_entry(number);
    match walker.next_step() {
        Ok(_) => {}
        Err(fault) => return Err(ReadFault::List(fault)),
    }
    match walker.records() {
        Ok(count) => Ok(count as u32),
        Err(fault) => Err(ReadFault::List(fault)),
    }
}

/// The next record of the entry that was begun last.
fn found_next<S: Store + Drop, A: Allocator + Copy>(
    walker: &mut Walker<S, A>,
    begun: Entry,
    limit: u32,
) -> Result<FoundRecord, ReadFault>
    requires left { 0 < records_to_give walker.old.list }
    requires kept { IsKept walker.old }
    ensures gives { GivesNext (state_of walker.old) limit result (state_of walker.new) }
    ensures kept { IsKept walker.new }
    ensures same { IsSameLister walker.old.list walker.new.list }
{
    let size = walker.size();
    match walker.next_step() {
        Ok(Some(Step::Record(read))) => found_record(&read, begun.location.rva, limit, size),
        // Records are left.
        Ok(Some(Step::Stream(_))) => unreachable!(),
        Ok(None) => unreachable!(),
        Err(fault) => Err(ReadFault::List(fault)),
    }
}

/// Passes over the next record of the entry that was begun last, a memory region.
fn pass_next<S: Store + Drop, A: Allocator + Copy>(
    walker: &mut Walker<S, A>,
) -> Result<(), ReadFault>
    requires left { 0 < records_to_give walker.old.list }
    requires kept { IsKept walker.old }
    requires regions { kind_of walker.old.list.current.stream_type ≡ Some MemoryInfo }
    ensures passes { PassesNext (state_of walker.old) result (state_of walker.new) }
    ensures kept { IsKept walker.new }
    ensures same { IsSameLister walker.old.list walker.new.list }
{
    // The proof learns here that the size has 64 bits, and that known content is one of bytes.
    let _size = walker.size();
    match walker.pass_step() {
        // Records are left, so there was one.
        Ok(_) => Ok(()),
        Err(fault) => Err(ReadFault::List(fault)),
    }
}
