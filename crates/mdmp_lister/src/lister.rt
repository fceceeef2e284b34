//! The lister.
ghost use Rattle.std.specs.Prelude.{◌≡◌, ◌≤◌, ◌<◌, ◌+◌, ◌++◌, ◌-◌, ℕ, List, None, Some, All, IfOk, IfErr, IsOk, IsTrue, OnOk, length, false, MatchResult};
ghost use Rattle.std.specs.Borrow.{sem};
ghost use Rattle.std.specs.Io.BufRead.{Rests};
ghost use Rattle.mdmp_source.specs.Range.{IsInside, bytes_at};
ghost use Rattle.mdmp_source.specs.Store.{IsGood, IsSizeOf};
ghost use Rattle.mdmp_wire.specs.CodeView.{codeview_of};
ghost use Rattle.mdmp_lister.specs.CodeView.{AreFetched, ReadsRecordAside, codeview_head, codeview_told, codeview_head_of};
ghost use Rattle.mdmp_lister.specs.Calls.{TellsLacking};
ghost use Rattle.mdmp_lister.specs.Opening.{IsRefusalOf};
ghost use Rattle.mdmp_lister.specs.Refused.{IsRefusedLister};
ghost use Rattle.mdmp_lister.specs.Format.Refusal.{opening_fault};
ghost use Rattle.mdmp_map.specs.Ranges.{IsWithin};
ghost use Rattle.mdmp_source.specs.Source.{FetchesSome, IsToldAmong};
ghost use Rattle.mdmp_lister.specs.Addressing.{FetchesStretches, LooksUpAtMost, ReadsCells};
ghost use Rattle.mdmp_lister.specs.Meter.{IsBooked};
ghost use Rattle.mdmp_lister.specs.Counts.{AreHeld, AreOfFile, AreSpent, numbers_of};
ghost use Rattle.mdmp_lister.specs.Format.Listing.{Run};
ghost use Rattle.mdmp_lister.specs.Format.Numbers.{range_count};
ghost use Rattle.mdmp_lister.specs.Format.Ranges.{ranges_of};
ghost use Rattle.mdmp_lister.specs.Fault.{IsOfStore, IsToldIn, IsUnobtained};
ghost use Rattle.mdmp_lister.specs.Stage.{stop_after, stop_after_run};

use crate::addressing::read_addresses;
use crate::calls::AskedAllocator;
use crate::checking::check_entries;
use crate::choice::Choice;
use crate::codeview::CodeViewBytes;
use crate::counts::Counts;
use crate::fault::{ListFault, OpenFault};
use crate::item::Item;
use crate::limits::Limits;
use crate::opening::OpenRefused;
use crate::ranging::advance_mapped;
use crate::sink::{RunFault, Sink, Stopped, Unseen, VerdictSink};
use crate::stage::Stage;
use crate::walk::{Walk, refused};
use mdmp_map::{AddressMap, Steps};
use mdmp_source::{Location, Source, SourceFault, Store};
use mdmp_wire::Header;
use std::alloc::{AllocError, Allocator};
use std::marker::{Brand, Model};
use std::sync::ledger::{Blank, Ledger};

/// Lists a file, one item at a time.
///
/// It holds a window, the directory, a name and a map of the ranges of memory that it gave, and takes
/// no memory once it is opened. Its items are those of the listing, in order, up to the first fault.
#[derive(Drop)]
pub struct Lister<S: Store + Drop, A: Allocator + Copy> {
    pub(crate) walk: Walk<S, A>,
    pub(crate) map: AddressMap<A>,
}

/// The most ranges that a lister takes.
const MOST_RANGES: u128 = 1 << 28;

impl<S: Store + Drop, A: Allocator + Copy> Model for Lister<S, A> {
    ghost use Rattle.std.specs.Option.{option_map};
    ghost use Rattle.std.specs.Prelude.{vec_capacity, vec_len};
    ghost use Rattle.mdmp_lister.specs.Walk.Paying.{unread_bytes};
    ghost use Rattle.mdmp_lister.specs.Lister.{ListerState};
    ghost use Rattle.mdmp_lister.specs.Meter.{counts_of};
    ghost use Rattle.mdmp_lister.specs.Stage.{records_left_in, standing_of, stop_of};
    ghost use Rattle.mdmp_lister.specs.Walk.Mapping.{IsMapped};
    ghost use Rattle.mdmp_lister.specs.Walk.{held_beside, left_of, work_of};

    ghost Value = { ListerState };

    // Each part is named, so that a list of any other one would be counted too.
    ghost view = { λ record { walk = walk; map = map }. record {
      source = walk.meter.source;
      counts = counts_of walk.meter;
      header = walk.header;
      entries = walk.entries.items;
      choice = walk.choice;
      limit = walk.name.limit;
      rooms = record { entries = vec_capacity walk.entries; window = walk.window.room; ranges = map.room; held = held_beside map.room walk };
      passed = walk.next;
      current = walk.current;
      ranges = map.ranges;
      left = option_map (left_of walk) walk.meter.source.store.content;
      stop = stop_of walk.stage;
      unread = unread_bytes walk;
      standing = standing_of walk.stage;
      records = records_left_in walk.stage;
      work = work_of walk;
    } };

    ghost invariant = { λ l. IsMapped l.walk l.map };
}

impl<S: Store + Drop, A: Allocator + Copy> Lister<S, A> {
    ghost use Rattle.mdmp_lister.specs.contracts.lister.Lister.{the_row};
    ghost use Rattle.mdmp_lister.specs.Check.{CheckLeaves};
    ghost use Rattle.mdmp_lister.specs.Memory.{IsRefusalWithin, opening_fault_within};
    ghost use Rattle.mdmp_lister.specs.Sink.{RangesFollow, RunLeaves, WorkFalls};
    ghost use Rattle.mdmp_lister.specs.Lister.{Gives, IsNewLister, IsRecordsLeft, IsRefusedIn, IsSameLister, KeepsGiven, ListerLeaves, ReadsAside, SkipsEntry, is_for_good, is_fresh};

    /// Opens a file. Its header is read; memory is taken for the directory, the window and a name; the
    /// directory is read, and the ranges of the chosen memory lists are counted by their heads; then
    /// memory is taken for the map of ranges. No later call takes any. Of an entry that is not chosen,
    /// lists no memory, lies outside the file or is too short for its head nothing is fetched.
    ///
    /// A refusal hands the source back: the fault of the header or of the place of the directory, too
    /// many ranges, want of memory, that the store failed, behind which nothing more is fetched, or that
    /// a fetch would have passed the budget, which is not made. What was fetched by then is within the
    /// budget.
    ///
    /// If the limits have a limit of memory, it is tested before the first memory is taken, without the
    /// map, and again before the map's is: `MemoryLimit` tells how much would be held.
    pub fn open(
        alloc: A,
        source: Source<S>,
        limits: Limits,
        choice: Choice,
    ) -> Result<Lister<S, A>, OpenRefused<S>>
    where
        A: AskedAllocator,
        ensures opens { (file : List ℕ) → source.store.content ≡ Some file
            → MatchResult result (λ _. opening_fault file choice ≡ None) (λ refused. IsRefusalOf file choice refused.fault) }
        ensures within { (file : List ℕ) → source.store.content ≡ Some file
            → MatchResult result (λ _. opening_fault_within limits file choice ≡ None) (λ refused. IsRefusalWithin limits file choice refused.fault) }
        ensures short { source.size < 32 → MatchResult result (λ _. ⊥) (λ refused. refused.fault ≡ OpenFault.TooShort source.size) }
        ensures new { IfOk result (IsNewLister source choice limits) }
        ensures refused { IfErr result (λ refused. IsRefusedLister choice limits source refused.fault refused.source) }
        ensures lacks { IfErr result (λ refused. TellsLacking A.may_lack alloc limits choice source.store.content refused.fault) }
    {
        let mut walk = Walk::open(alloc, source, limits, choice)?;
        let count = match walk.count_ranges() {
            Ok(count) => count,
            Err(fault) => return Err(refused(OpenFault::from(fault), walk.meter)),
        };
        if count > MOST_RANGES {
            return Err(refused(OpenFault::TooManyRanges { count }, walk.meter));
        }
        let held = limits.held(walk.header.number_of_streams, count as u64);
        if !limits.holds(held) {
            return Err(refused(OpenFault::MemoryLimit { held }, walk.meter));
        }
        // The proof learns here that what was fetched is within the budget.
        let _counts = walk.meter.counts();
        match alloc.ask_map(limits, walk.header.number_of_streams, count as u64) {
            Ok(map) => Ok(Lister { walk, map }),
            Err(AllocError) => Err(refused(OpenFault::Memory, walk.meter)),
        }
    }

    /// The header of the file.
    pub fn header(&self) -> Header
        ensures { result ≡ self.now.header }
    {
        self.walk.header
    }

    /// The longest name that is read, in bytes, also that of a CodeView record.
    pub fn name_limit(&self) -> usize
        ensures { result ≡ self.now.limit }
    {
        self.walk.name.limit()
    }

    /// The number of bytes in the file, as its source tells it. [`Lister::read_part`] reads any that
    /// end there or before.
    pub fn size(&self) -> u64
        ensures value { result ≡ self.now.source.size }
        ensures content { IsSizeOf self.now.source.store.content result }
    {
        self.walk.meter.size()
    }

    /// The numbers that bound what it holds, what it has fetched, and in how many calls. It takes nothing
    /// and changes nothing.
    pub fn counts(&self) -> Counts
        ensures value { result ≡ numbers_of self.now }
        ensures of_file { (file : List ℕ) → self.now.source.store.content ≡ Some file → AreOfFile file self.now.choice result }
        ensures ranges { (file : List ℕ) → self.now.source.store.content ≡ Some file → result.r ≡ range_count file self.now.choice }
        ensures held { AreHeld self.now result }
        ensures spent { AreSpent self.now result }
    {
        self.walk
            .counts(self.map.len() as u128 + self.map.free() as u128)
    }

    /// The next item, whose name is lent until the next call, or none behind the last one. A fault
    /// of the file is answered again until its entry is skipped, a fault of the store or of the budget
    /// for good. A range that lies inside the file is put into the map. A store has changed where the
    /// head of a memory list, read again, counts more ranges than the map has room left.
    ///
    /// The head and the records of a stream pass through the window: where it does not hold all of what
    /// comes next, it is filled with the bytes behind those that it holds, as far as it has room and the
    /// stream goes. The name of an item is fetched beside it, of one over the limit its length alone.
    #[inline(never)]
    pub fn next(&mut self) -> Result<Option<Item<'_>>, ListFault>
        ensures gives { (left : _) → self.old.left ≡ Some left → Gives left result }
        ensures* leaves { sem 𝓛 (Rests (the_row S.row A.row S.Store A.Allocator) self.entry (ListerLeaves self.old result)) }
        ensures repeats { (stop : _) → self.old.stop ≡ Some stop → stop_after result ≡ Some stop }
        ensures good { (file : List ℕ) → IsGood self.old.source.store file → IfErr result (λ fault. IsOfStore fault.kind → ⊥) }
    {
        self.next_inlined()
    }

    /// The same as [`next`](Lister::next), compiled into the caller's loop: for a loop that takes each item apart at once.
    #[inline(always)]
    pub fn next_inlined(&mut self) -> Result<Option<Item<'_>>, ListFault>
        ensures gives { (left : _) → self.old.left ≡ Some left → Gives left result }
        ensures* leaves { sem 𝓛 (Rests (the_row S.row A.row S.Store A.Allocator) self.entry (ListerLeaves self.old result)) }
        ensures repeats { (stop : _) → self.old.stop ≡ Some stop → stop_after result ≡ Some stop }
        ensures good { (file : List ℕ) → IsGood self.old.source.store file → IfErr result (λ fault. IsOfStore fault.kind → ⊥) }
    {
        match advance_mapped(&mut self.walk, &mut self.map) {
            Ok(Some(held)) => Ok(Some(self.walk.item(&held))),
            Ok(None) => Ok(None),
            Err(fault) => Err(fault),
        }
    }

    /// How many records of the current entry are still to come, by the head of its stream: fewer come
    /// where a name has a fault. It is 0 before the first of them was given, since the head is not
    /// read before that, behind the last one, behind a fault and where the entry was skipped.
    pub fn records_left(&self) -> u64
        ensures { IsRecordsLeft self.now result }
    {
        self.walk.records_left()
    }

    /// Whether no item, verdict or fault was given yet, nor the end. Calls aside don't change it.
    pub fn is_fresh(&self) -> bool
        ensures { result ≡ is_fresh self.now }
    {
        match self.walk.stage {
            Stage::Between => self.walk.next == 0,
            Stage::Head | Stage::Records { .. } | Stage::Bad(_) | Stage::Failed(_) | Stage::Ended =>
                false,
        }
    }

    /// Drops what is left of the entry whose Stream item was given last. Before the first one, behind
    /// the end and after a fault of the store or of the budget it changes nothing.
    pub fn skip_entry(&mut self)
        ensures skips { is_for_good self.old.stop ≡ false → SkipsEntry self.old self.new }
        ensures stays { IsTrue (is_for_good self.old.stop) → self.new ≡ self.old }
        ensures unbegun { self.old.passed ≡ 0 → self.new ≡ self.old }
        ensures keeps { KeepsGiven self.old self.new }
    {
        self.walk.skip_entry();
    }

    /// Hands all that is left to a sink, one item after the other: Ok behind the last one. A fault
    /// ends the run, and so does a sink that wants no more; the item that it was handed then counts
    /// as given.
    pub fn list_into<K: Sink>(&mut self, sink: &mut K) -> Result<(), RunFault>
        ensures runs { RunLeaves K.step self.old sink.old result self.new sink.new }
        ensures stop { self.new.stop ≡ stop_after_run result }
        ensures repeats { (stop : _) → self.old.stop ≡ Some stop
            → (self.new ≡ self.old) × ((stop_after_run result ≡ Some stop) × (sink.new ≡ sink.old)) }
        ensures work { WorkFalls result self.old self.new }
        ensures same { IsSameLister self.old self.new }
        ensures told { self.old.stop ≡ None
            → IfErr result (λ r. (fault : _) → r ≡ RunFault.At fault
            → IsToldIn self.new.current fault self.old.source self.new.source × (fault.entry + 1 ≡ self.new.passed)) }
        ensures good { (file : List ℕ) → IsGood self.old.source.store file
            → IfErr result (λ r. (fault : _) → r ≡ RunFault.At fault → IsOfStore fault.kind → ⊥) }
        ensures refused { IfErr result (λ r. (fault : _) → r ≡ RunFault.At fault → IsRefusedIn fault self.new) }
    {
        loop {
            match self.next() {
                Ok(Some(item)) => match sink.take(&item) {
                    Ok(()) => {}
                    Err(Stopped) => return Err(RunFault::Stopped),
                },
                Ok(None) => return Ok(()),
                Err(fault) => return Err(RunFault::At(fault)),
            }
        }
    }

    /// Lists all that is left for its ranges alone, which are put into the map, up to the first fault.
    pub fn list_ranges(&mut self) -> Result<(), ListFault>
        requires going { self.old.stop ≡ None }
        ensures lists { (left : Run) → self.old.left ≡ Some left → MatchResult result
            (λ _. (left.fault ≡ None) × (self.new.ranges ≡ self.old.ranges ++ ranges_of left.items))
            (λ fault. (IsUnobtained fault.kind → ⊥) → left.fault ≡ Some fault) }
        ensures good { (file : List ℕ) → IsGood self.old.source.store file → IfErr result (λ fault. IsOfStore fault.kind → ⊥) }
        ensures told { IfErr result (λ fault. IsToldIn self.new.current fault self.old.source self.new.source) }
        ensures refused { IfErr result (λ fault. IsRefusedIn fault self.new) }
        ensures follows { RangesFollow self.old result self.new }
        ensures fetches { FetchesSome self.old.source self.new.source }
        ensures same { IsSameLister self.old self.new }
    {
        match self.list_into(&mut Unseen) {
            Ok(()) => Ok(()),
            Err(RunFault::At(fault)) => Err(fault),
            // This sink never stops.
            Err(RunFault::Stopped) => Ok(()),
        }
    }

    /// Hands a sink the verdict on each chosen entry, in the order of the directory: its first fault,
    /// or none. Each entry is read to its end or its fault, and its ranges that lie inside the file are
    /// put into the map; behind a bad entry the next one is read. A fault of the store or of the budget
    /// ends the check, which gives no verdict on that entry, and so does a sink that wants no more; the
    /// verdict that it was handed then counts as given, and the next item is the entry behind it.
    ///
    /// No item, verdict or fault was given before: see [`Lister::is_fresh`].
    pub fn check_into<K: VerdictSink>(&mut self, sink: &mut K) -> Result<(), RunFault>
        requires { IsTrue (is_fresh self.old) }
        ensures checks { CheckLeaves K.step self.old sink.old result self.new sink.new }
        ensures told { IfErr result (λ r. (fault : _) → r ≡ RunFault.At fault
            → IsUnobtained fault.kind × IsToldIn self.new.current fault self.old.source self.new.source) }
        ensures good { (file : List ℕ) → IsGood self.old.source.store file
            → IfErr result (λ r. (fault : _) → r ≡ RunFault.At fault → IsOfStore fault.kind → ⊥) }
        ensures refused { IfErr result (λ r. (fault : _) → r ≡ RunFault.At fault → IsRefusedIn fault self.new) }
        ensures rests { self.new.work ≤ self.old.work }
    {
        check_entries(&mut self.walk, &mut self.map, sink)
    }

    /// The ranges of memory inside the file that were given so far, in order.
    pub fn map(&self) -> &AddressMap<A>
        ensures map { result.now ≡ record { ranges = self.now.ranges; room = self.now.rooms.ranges } }
        ensures within { All (IsWithin self.now.source.size) self.now.ranges }
    {
        &self.map
    }

    /// Reads the memory of the dumped process from an address on, as far as the ranges that were given
    /// so far hold it. Where one holds an address, its byte is put into `out`, and `known` is true
    /// there; else both are 0 and false. After a fault of the store they may hold anything, and what
    /// is listed stays as it was. It makes at most one fetch for each stretch of addresses that one range
    /// is the first to hold. If the ranges are not sorted, it makes at most one more for each block of
    /// 32768 addresses behind the first. The searches are those of `read_address_counted`.
    pub fn read_address(
        &mut self,
        address: u64,
        out: &mut [u8],
        known: &mut [bool],
    ) -> Result<(), SourceFault>
        requires { length out.old ≡ length known.old }
        ensures cells { OnOk result (ReadsCells self.old.source.store.content self.old.ranges address out.new known.new) }
        ensures reads { ReadsAside (length out.new) (length out.new) result self.old self.new }
        ensures stretches { FetchesStretches self.old.ranges address (length out.new) self.old.source self.new.source self.old.counts self.new.counts }
    {
        self.read_address_under::<Brand>(address, out, known, Blank::new(1))
    }

    /// Reads what `read_address` does, and counts a step for each range that it looks at. While the
    /// ranges are sorted one search by halves finds the addresses that stand together from one on, so
    /// there are at most as many searches as `out` has bytes; else each range is looked at once for each
    /// 32768 of them.
    #[tactic(auto, using(crate::proofs::Fetches::told_caused, crate::proofs::Fetches::good_caused))]
    pub fn read_address_counted<G: Ledger>(
        &mut self,
        address: u64,
        out: &mut [u8],
        known: &mut [bool],
        steps: &mut Steps<G>,
    ) -> Result<(), SourceFault>
        requires { length out.old ≡ length known.old }
        ensures cells { OnOk result (ReadsCells self.old.source.store.content self.old.ranges address out.new known.new) }
        ensures reads { ReadsAside (length out.new) (length out.new) result self.old self.new }
        ensures stretches { FetchesStretches self.old.ranges address (length out.new) self.old.source self.new.source self.old.counts self.new.counts }
        ensures looks { LooksUpAtMost self.old.ranges (length out.new) steps.old steps.new }
    {
        read_addresses(&mut self.walk.meter, &self.map, address, out, known, steps)
    }

    /// Reads memory under the ledger that the blank opens.
    fn read_address_under<G: Ledger>(
        &mut self,
        address: u64,
        out: &mut [u8],
        known: &mut [bool],
        blank: Blank,
    ) -> Result<(), SourceFault>
        requires same { length out.old ≡ length known.old }
        requires name { blank.name ≡ G.name }
        requires parts { blank.parts ≡ G.parts }
        requires some { 0 < blank.parts }
        ensures cells { OnOk result (ReadsCells self.old.source.store.content self.old.ranges address out.new known.new) }
        ensures reads { ReadsAside (length out.new) (length out.new) result self.old self.new }
        ensures stretches { FetchesStretches self.old.ranges address (length out.new) self.old.source self.new.source self.old.counts self.new.counts }
    {
        self.read_address_counted(address, out, known, &mut Steps::<G>::new(blank))
    }

    /// Fills `out` with the bytes of the file from the offset `at` on, which lie inside it (see
    /// [`Lister::size`]). After a fault of the store `out` may hold anything, and what is listed stays
    /// as it was.
    #[tactic(auto, using(crate::proofs::Fetches::told_caused, crate::proofs::Fetches::good_caused))]
    pub fn read_part(&mut self, at: u64, out: &mut [u8]) -> Result<(), SourceFault>
        requires { IsInside at (length out.old) self.old.source.size }
        ensures bytes { (file : List ℕ) → self.old.source.store.content ≡ Some file → OnOk result (out.new ≡ bytes_at file at (length out.new)) }
        ensures reads { ReadsAside 1 (length out.new) result self.old self.new }
        ensures told { IfErr result (λ fault. IsToldAmong at (length out.new) fault self.old.source self.new.source) }
    {
        self.walk.read_part(at, out)
    }

    /// Fetches the CodeView record of a module, which its `CvRecord` locates and which lies inside the
    /// file: [`CodeViewBytes::read`] says what it tells. At most 24 bytes are fetched and, of a record of
    /// the kind RSDS, as many of those behind them as the limit on names, by a second call if there are any:
    /// they are lent until the next call. After a fault of the store what is listed stays as it was.
    pub fn codeview(&mut self, location: Location) -> Result<CodeViewBytes<'_>, SourceFault>
        requires { IsInside location.rva location.size self.old.source.size }
        ensures value { (file : List ℕ) → self.old.source.store.content ≡ Some file → IfOk result (λ bytes. codeview_told bytes ≡ codeview_of file location self.old.limit) }
        ensures head { (file : List ℕ) → self.old.source.store.content ≡ Some file → IfOk result (λ bytes. codeview_head bytes ≡ codeview_head_of file location) }
        ensures fetched { IfOk result (λ bytes. AreFetched location self.old.limit bytes.head (length bytes.rest.now) bytes.size) }
        ensures* reads { sem 𝓛 (Rests (the_row S.row A.row S.Store A.Allocator) self.entry (ReadsRecordAside location self.old.limit result self.old)) }
        ensures good { (file : List ℕ) → IsGood self.old.source.store file → IsOk result }
    {
        let read = self.walk.fetch_codeview(location)?;
        Ok(self.walk.codeview(read))
    }

    /// Hands the source back.
    pub fn into_source(self) -> Source<S>
        ensures value { result ≡ self.source }
        ensures booked { IsBooked result self.counts }
    {
        let Lister { walk, map: _ } = self;
        walk.meter.into_source()
    }
}
