//! The walk over the entries of a file, without its public face.
ghost use Rattle.std.specs.Prelude.{◌≡◌, ◌+◌, ◌*◌, ◌^◌, ◌≤◌, ◌<◌, ◌-◌, ℕ, List, None, Some, IfOk, IfErr, IfSome, MatchOption, MatchResult, length, vec_len};
ghost use Rattle.mdmp_lister.specs.Calls.{TellsListsLacking};
ghost use Rattle.mdmp_lister.specs.Format.Kind.{HasNoNames, kind_of};
ghost use Rattle.mdmp_lister.specs.HeldStep.{AnswerHasItsBytes, HasItsBytes, answer_told, given_told, read_told, step_told};
ghost use Rattle.mdmp_lister.specs.Meter.{IsBooked, IsMetered, KeepsTo, counts_of};
ghost use Rattle.mdmp_lister.specs.NextFetch.{TellsNextOpening};
ghost use Rattle.mdmp_lister.specs.Opening.{IsRefused, KeepsToBudget};
ghost use Rattle.mdmp_lister.specs.Stage.{IsUnended, StaysUnchanged, fault_stage, records_left_in};
ghost use Rattle.mdmp_lister.specs.Walk.Owing.{ranges_ahead};

use crate::calls::{AskedAllocator, WalkLists};
use crate::choice::Choice;
use crate::counting::count_ranges;
use crate::counts::{Counts, listed_bytes};
use crate::fault::{Fault, FetchFault, ListFault, OpenFault};
use crate::held_step::{HeldStep, bytes_behind};
use crate::item::StreamItem;
use crate::kind::StreamKind;
use crate::limits::Limits;
use crate::meter::Meter;
use crate::name_buffer::NameBuffer;
use crate::opening::{OpenRefused, next_chosen, read_directory, read_header};
use crate::record_reading::read_item;
use crate::shape::{Shape, location_fault, record_at};
use crate::stage::Stage;
use crate::stream_head::begin_stream;
use mdmp_source::{Location, Source, SourceFault, Store, Window};
use mdmp_wire::{Entry, Header, Record};
use std::alloc::{AllocError, Allocator};

/// Stands in the place of the current entry before the first one.
const NO_ENTRY: Entry = Entry {
    stream_type: 0,
    location: Location { size: 0, rva: 0 },
};

/// The state of a listing.
#[derive(Drop)]
pub(crate) struct Walk<S: Store + Drop, A: Allocator + Copy> {
    pub(crate) meter: Meter<S>,
    pub(crate) header: Header,
    pub(crate) entries: Vec<Entry, A>,
    pub(crate) choice: Choice,
    /// The bytes of the chosen entries that are listed.
    pub(crate) listed: u128,
    /// Through it the directory is read, and then the head and the records of each stream.
    pub(crate) window: Window<A>,
    /// At its front the units of the last name stand. It has room for the limit of names.
    pub(crate) name: NameBuffer<A>,
    /// The number of the first entry behind the current one.
    pub(crate) next: usize,
    pub(crate) current: Entry,
    pub(crate) stage: Stage,
}

impl<S: Store + Drop, A: Allocator + Copy> Walk<S, A> {
    ghost use Rattle.mdmp_lister.specs.Walk.Requests.{Answered, HeadCounted, EntrySkipped, EntryTaken, HasChanged, HeadRead, RecordsCounted, StepTaken};
    ghost use Rattle.mdmp_lister.specs.Walk.Checking.{EntryBegun, NoneLeft, RecordWasRead, RecordTaken};
    ghost use Rattle.mdmp_lister.specs.Memory.{IsWalkRefusal, TellsWalkMemory, walk_fault};
    ghost use Rattle.mdmp_lister.specs.Walk.Telling.{numbers_of_walk};
    ghost use Rattle.mdmp_lister.specs.Walk.{CountsRanges, IsListing, IsNewWalk, IsPastHead, IsSound, IsThrough};

    /// Reads the header and the directory of a file, and takes all the memory that a walk needs.
    pub(crate) fn open(
        alloc: A,
        source: Source<S>,
        limits: Limits,
        choice: Choice,
    ) -> Result<Self, OpenRefused<S>>
    where
        A: AskedAllocator,
        ensures new { IfOk result (IsNewWalk source choice limits) }
        ensures refused { IfErr result (λ refused. IsRefused source refused.fault refused.source) }
        ensures kept { IfErr result (λ refused. KeepsToBudget limits source refused.fault refused.source) }
        ensures next { IfErr result (λ refused. TellsNextOpening None limits source refused.fault refused.source) }
        ensures within { (file : List ℕ) → source.store.content ≡ Some file → MatchResult result (λ _. walk_fault limits file ≡ None) (λ refused. IsWalkRefusal limits file refused.fault) }
        ensures over { IfErr result (λ refused. TellsWalkMemory limits source refused.fault refused.source) }
        ensures lacks { IfErr result (λ refused. TellsListsLacking A.may_lack alloc limits choice source.store.content refused.fault) }
    {
        let mut meter = Meter::new(source, limits.budget);
        let header = match read_header(&mut meter) {
            Ok(header) => header,
            Err(fault) => return Err(refused(fault, meter)),
        };
        let held = limits.held(header.number_of_streams, 0);
        if !limits.holds(held) {
            return Err(refused(OpenFault::MemoryLimit { held }, meter));
        }
        let WalkLists {
            mut entries,
            mut window,
            name,
        } = match alloc.ask_lists(limits, header.number_of_streams) {
            Ok(lists) => lists,
            Err(AllocError) => return Err(refused(OpenFault::Memory, meter)),
        };
        if let Err(fault) = read_directory(&mut meter, &mut window, header, &mut entries) {
            return Err(refused(OpenFault::from(fault), meter));
        }
        let listed = listed_bytes(&entries, &choice, meter.size());
        Ok(Walk {
            meter,
            header,
            entries,
            choice,
            listed,
            window,
            name,
            next: 0,
            current: NO_ENTRY,
            stage: Stage::Between,
        })
    }

    /// How many ranges the chosen memory lists have, by their heads.
    pub(crate) fn count_ranges(&mut self) -> Result<u128, FetchFault>
        requires sound { IsSound self.old }
        requires fresh { self.old.stage ≡ Stage.Between }
        ensures { CountsRanges self.old result self.new }
    {
        count_ranges(&mut self.meter, &self.entries, &self.choice)
    }

    /// Gives the next step, or the fault that is next.
    pub(crate) fn advance(&mut self) -> Result<Option<HeldStep>, ListFault>
        requires { IsSound self.old }
        ensures answered { Answered self.old (answer_told self.new.window.held result) self.new }
        ensures whole { AnswerHasItsBytes self.new.window.held result }
        ensures unchanged { StaysUnchanged self.old.stage → StaysUnchanged self.new.stage }
        ensures nameless { HasNoNames (kind_of self.old.current.stream_type) → self.new.meter.names ≡ self.old.meter.names }
    {
        match self.stage {
            Stage::Head => {
                self.read_head()?;
                self.go_on()
            }
            _ => self.go_on(),
        }
    }

    /// The same where the head of the current entry was read, or has a fault.
    #[inline(always)]
    pub(crate) fn go_on(&mut self) -> Result<Option<HeldStep>, ListFault>
        requires sound { IsSound self.old }
        requires headed { IsPastHead self.old.stage }
        ensures taken { StepTaken self.old (answer_told self.new.window.held result) self.new }
        ensures whole { AnswerHasItsBytes self.new.window.held result }
    {
        match self.stage {
            Stage::Bad(fault) | Stage::Failed(fault) => Err(fault),
            Stage::Ended => Ok(None),
            Stage::Head | Stage::Between | Stage::Records { .. } => self.step(),
        }
    }

    /// Drops what is left of the current entry.
    pub(crate) fn skip_entry(&mut self)
        requires { IsSound self.old }
        ensures { EntrySkipped self.old self.new }
    {
        match self.stage {
            Stage::Failed(_) | Stage::Ended => {}
            _ => self.stage = Stage::Between,
        }
    }

    /// Gives the next record, or the next Stream item.
    #[inline(always)]
    fn step(&mut self) -> Result<Option<HeldStep>, ListFault>
        requires sound { IsSound self.old }
        requires stage { IsListing self.old.stage }
        ensures taken { StepTaken self.old (answer_told self.new.window.held result) self.new }
        ensures whole { AnswerHasItsBytes self.new.window.held result }
    {
        let taken = self.next_record();
        if let Ok(None) = taken {
            return Ok(self.next_stream());
        }
        taken
    }

    /// Reads where the records of the current entry stand.
    pub(crate) fn read_head(&mut self) -> Result<(), ListFault>
        requires sound { IsSound self.old }
        requires head { self.old.stage ≡ Stage.Head }
        ensures read { MatchResult result (λ _. HeadRead self.old self.new) (λ fault. Answered self.old (Err fault) self.new) }
        ensures counted { HeadCounted self.old self.new }
    {
        let number = (self.next - 1) as u32;
        if let Some(fault) = location_fault(self.current, self.meter.size()) {
            return self.stop_at(ListFault::of_entry(number, None, fault));
        }
        let Some(kind) = StreamKind::of_type(self.current.stream_type) else {
            self.stage = Stage::Between;
            return Ok(());
        };
        match begin_stream(
            &mut self.meter,
            &mut self.window,
            self.current.location,
            kind,
        ) {
            Ok(head) => {
                self.stage = Stage::Records {
                    kind,
                    shape: head.shape,
                    index: 0,
                    offset: u128::from(head.base),
                };
                Ok(())
            }
            Err(fault) => self.stop_at(ListFault::of_entry(number, None, fault)),
        }
    }

    /// How many records of the current entry are left, once its head was read.
    pub(crate) fn records_left(&self) -> u64
        requires { IsSound self.now }
        ensures { result ≡ records_left_in self.now.stage }
    {
        match self.stage {
            Stage::Records { shape, index, .. } => shape.count - index,
            _ => 0,
        }
    }

    /// How many records the current entry has, whose head may not be read yet, and of whose records none
    /// was given.
    pub(crate) fn count_records(&mut self) -> Result<u64, ListFault>
        requires sound { IsSound self.old }
        requires begun { IsUnended self.old.stage }
        ensures { RecordsCounted self.old result self.new }
    {
        match self.stage {
            Stage::Head => {
                self.read_head()?;
                Ok(self.records_left())
            }
            Stage::Bad(fault) | Stage::Failed(fault) => Err(fault),
            Stage::Between | Stage::Records { .. } | Stage::Ended => Ok(self.records_left()),
        }
    }

    /// How many ranges those records tell.
    pub(crate) fn ranges_ahead(&self) -> u64
        requires { IsSound self.now }
        ensures { result ≡ ranges_ahead self.now.stage }
    {
        match self.stage {
            Stage::Records {
                kind,
                shape,
                index,
                ..
            } => kind.ranges_by(shape.count - index),
            _ => 0,
        }
    }

    /// Stays at the fault that the store has changed, for good, since the head of the current entry's
    /// stream does not agree with what was read of it before.
    pub(crate) fn stop_changed<T: Drop>(&mut self) -> Result<T, ListFault>
        requires sound { IsSound self.old }
        requires begun { 0 < self.old.next }
        ensures { HasChanged self.old result self.new }
    {
        let number = (self.next - 1) as u32;
        let at = u64::from(self.current.location.rva);
        let changed = Fault::from(SourceFault::Changed { at });
        self.stop_at(ListFault::of_entry(number, None, changed))
    }

    /// Gives the next record of the current entry, whose head was read, or none behind the last one.
    #[inline(always)]
    pub(crate) fn next_record(&mut self) -> Result<Option<HeldStep>, ListFault>
        requires sound { IsSound self.old }
        requires stage { IsListing self.old.stage }
        ensures taken { RecordTaken self.old (answer_told self.new.window.held result) self.new }
        ensures whole { AnswerHasItsBytes self.new.window.held result }
    {
        match self.stage {
            Stage::Records {
                kind,
                shape,
                index,
                offset,
            } if index < shape.count => match self.read_record(kind, shape, index, offset) {
                Ok(step) => Ok(Some(step)),
                Err(fault) => Err(fault),
            },
            _ => Ok(None),
        }
    }

    /// Gives a record that is left.
    #[inline(always)]
    fn read_record(
        &mut self,
        kind: StreamKind,
        shape: Shape,
        index: u64,
        offset: u128,
    ) -> Result<HeldStep, ListFault>
        requires sound { IsSound self.old }
        requires stage { self.old.stage ≡ Stage.Records kind shape index offset }
        requires left { index < shape.count }
        ensures read { RecordWasRead self.old (read_told self.new.window.held result) self.new }
        ensures whole { IfOk result (HasItsBytes self.new.window.held) }
    {
        let number = (self.next - 1) as u32;
        let at = record_at(self.current.location, kind, shape, index, self.meter.size());
        match read_item(
            &mut self.meter,
            &mut self.window,
            &mut self.name,
            kind,
            number,
            index,
            at,
            offset,
        ) {
            Ok(held) => {
                let size = bytes_behind(&held, self.window.bytes());
                self.stage.pass_record(size);
                Ok(held)
            }
            Err(fault) => self.stop_at(ListFault::of_entry(number, Some(index), fault)),
        }
    }

    /// Gives the Stream item of the next chosen entry.
    pub(crate) fn next_stream(&mut self) -> Option<HeldStep>
        requires sound { IsSound self.old }
        requires through { IsThrough self.old.stage }
        ensures taken { StepTaken self.old (Ok (given_told self.new.window.held result)) self.new }
        ensures whole { IfSome result (HasItsBytes self.new.window.held) }
        ensures begins { MatchOption result (NoneLeft self.old self.new) (λ step. EntryBegun self.old self.new) }
    {
        let Some(at) = next_chosen(&self.entries, self.next, &self.choice) else {
            self.next = self.entries.len();
            self.stage = Stage::Ended;
            return None;
        };
        Some(self.begin_entry(at))
    }

    /// Gives the Stream item of an entry, chosen or not.
    pub(crate) fn begin_entry(&mut self, at: usize) -> HeldStep
        requires sound { IsSound self.old }
        requires within { at < vec_len self.old.entries }
        ensures taken { EntryTaken at self.old (step_told self.new.window.held result) self.new }
        ensures whole { HasItsBytes self.new.window.held result }
    {
        let entry = self.entries[at];
        self.next = at + 1;
        self.current = entry;
        self.stage = Stage::Head;
        HeldStep::Stream(StreamItem {
            entry: at as u32,
            stream_type: entry.stream_type,
            location: entry.location,
        })
    }

    /// The numbers that bound what it holds beside a map with room for so many ranges, and what it has
    /// fetched. It sums nothing.
    pub(crate) fn counts(&self, ranges: u128) -> Counts
        requires sound { IsSound self.now }
        requires few { ranges < 2 ^ 65 }
        ensures value { result ≡ numbers_of_walk ranges self.now }
        ensures listed { result.n ≤ 2 ^ 32 * length self.now.entries.items }
        ensures booked { IsBooked self.now.meter.source (counts_of self.now.meter) }
        ensures kept { IsMetered self.now.meter.budget self.now.meter.fetched self.now.meter.asked }
    {
        let entries = self.entries.len() as u128;
        let directory = Entry::SIZE as u128 * entries;
        let counted = self.meter.counts();
        Counts {
            s: entries,
            r: ranges,
            n: self.listed,
            m: counted.names,
            held: self.window.room() as u128 + directory + 24 * ranges + self.name.limit() as u128,
            fetched: counted.fetched,
            calls: counted.calls,
            aside: counted.aside.bytes,
        }
    }

    /// Stays at a fault.
    fn stop_at<T: Drop>(&mut self, fault: ListFault) -> Result<T, ListFault>
        ensures { (result ≡ Err fault) × (self.new ≡ record self.old { stage = fault_stage fault }) }
    {
        self.stage = if fault.kind.is_unobtained() {
            Stage::Failed(fault)
        } else {
            Stage::Bad(fault)
        };
        Err(fault)
    }
}

/// A file is refused, and its source handed back.
pub(crate) fn refused<S: Store + Drop>(fault: OpenFault, meter: Meter<S>) -> OpenRefused<S>
    ensures made { result ≡ record { fault = fault; source = meter.source } }
    ensures booked { IsBooked meter.source (counts_of meter) }
    ensures kept { KeepsTo meter.budget meter.fetched }
{
    OpenRefused {
        fault,
        source: meter.into_source(),
    }
}
