//! A dump in a file, given a record at a time.
ghost use Rattle.std.specs.Prelude.{◌≡◌, ◌≤◌, ◌<◌, ◌+◌, ℕ, List, None, Some, IfErr, IfOk, MatchResult};
ghost use Rattle.mdmp_dump.specs.FileView.{HasMoved, IsView, file_cursor, file_shape};
ghost use Rattle.mdmp_dump.specs.Reading.{IsWanting};

use crate::entry_walk::{EntryWalk, ViewRefused};
use crate::fault::ReadFault;
use crate::pass::{Pass, begin_pass, changed, cost_of, kind_of, records_size, take_record};
use crate::stream_walk::{Kept, walk_all};
use crate::view::{DumpView, Fields, HeaderFields, Kind, ViewFault};
use mdmp_lister::{Choice, Limits, OpenFault};
use mdmp_source::{LetGo, Source, Store};
use std::alloc::Allocator;

/// The dump that a file lays out, given a record at a time: its names and parts are fetched when they are
/// asked for.
///
/// It holds a window, the directory, and 12 bytes for each entry of it, however long the file is. Its limit
/// of memory is that of a copy: it counts the buffer of the window's size, too, that what writes the view has.
#[derive(Drop)]
pub struct FileView<S: Store + Drop, A: Allocator + Copy> {
    walk: EntryWalk<S, A>,
    limit: u32,
    counts: Vec<u32, A>,
    rooms: Vec<u64, A>,
    pass: Option<Pass>,
    passed: u128,
    asked: u128,
    /// The fault of the last call that fetched, or none.
    last: Option<ViewFault>,
    /// How many bytes a copy of all that it gives may fetch, with those of its opening.
    needed: u128,
    ghost sound: { IsView A limit walk counts.items rooms.items pass passed asked last },
}

impl<S: Store + Drop, A: Allocator + Copy> FileView<S, A> {
    ghost use Rattle.mdmp_dump.specs.FileRefusal.{view_refusal};
    ghost use Rattle.mdmp_source.specs.Count.{raised};
    ghost use Rattle.mdmp_dump.specs.Dropped.{DropsSource};
    ghost use Rattle.mdmp_dump.specs.Opened.{CostsOpening, HandsSourceBack, RefusesView, ShowsFile};
    ghost use Rattle.mdmp_dump.specs.Opening.{IsNewView, fetched_by, held_by, needed_by, opened_by, source_in, spent_by, started_by};
    ghost use Rattle.mdmp_dump.specs.Reading.{Settles};

    /// Opens a view of the chosen entries of a file. Every fault of its listing, every part that lies
    /// outside and every name over the limit is told here, the first of them in the order of the listing.
    ///
    /// If there is a budget, no more is fetched here: a stream is begun only if the budget has room for all
    /// of it, and else `OpenFault::Budget` names it. Once the view is open, the budget is lifted. If there is
    /// a limit of memory, a copy keeps to it: the view and a buffer of the window's size, so 24 bytes for
    /// each entry of the directory and two windows. Else `OpenFault::MemoryLimit` tells how much that is.
    pub fn open(
        alloc: A,
        source: Source<S>,
        limits: Limits,
        choice: Choice,
    ) -> Result<Self, ReadFault>
    where
        Source<S>: LetGo,
        ensures views { IfOk result (λ view. ShowsFile A source choice (⟦<FileView<S, A> as DumpView>⟧.shape view)) }
        ensures refuses { (file : List ℕ) → source.store.content ≡ Some file → Settles (view_refusal file choice limits.name) result (λ _. None) }
        ensures short { source.size < 32 → MatchResult result (λ _. ⊥) (λ fault. fault ≡ ReadFault.Opening (OpenFault.TooShort source.size)) }
        ensures new { IfOk result (IsNewView source limits.window limits.memory choice) }
        ensures costs { IfOk result (CostsOpening source limits choice) }
        ensures refused { IfErr result (RefusesView limits choice source) }
        // The source is dropped as `open_source` hands it back.
        ensures dropped { IfErr result (DropsSource ⟦<Source<S> as LetGo>⟧.may_go limits choice source) }
    {
        match FileView::open_source(alloc, source, limits, choice) {
            Ok(view) => Ok(view),
            Err(ViewRefused { fault, source }) => {
                source.let_go();
                Err(fault)
            }
        }
    }

    /// Does what `open` does, and hands the source of a refusal back.
    pub fn open_source(
        alloc: A,
        source: Source<S>,
        limits: Limits,
        choice: Choice,
    ) -> Result<Self, ViewRefused<S>>
        ensures views { IfOk result (λ view. ShowsFile A source choice (⟦<FileView<S, A> as DumpView>⟧.shape view)) }
        ensures refuses { (file : List ℕ) → source.store.content ≡ Some file
            → MatchResult result (λ _. view_refusal file choice limits.name ≡ None) (λ refused. (IsWanting refused.fault → ⊥) → view_refusal file choice limits.name ≡ Some refused.fault) }
        ensures short { source.size < 32 → MatchResult result (λ _. ⊥) (λ refused. refused.fault ≡ ReadFault.Opening (OpenFault.TooShort source.size)) }
        ensures new { IfOk result (IsNewView source limits.window limits.memory choice) }
        ensures costs { IfOk result (CostsOpening source limits choice) }
        ensures refused { IfErr result (λ refused. RefusesView limits choice source refused.fault) }
        ensures handed_back { IfErr result (λ refused. HandsSourceBack limits choice source refused.fault refused.source) }
    {
        let mut walk = EntryWalk::open(alloc, source, limits, choice)?;
        // The proof learns here that the size is that of the content, that this is one of bytes, and that
        // the number of entries has 32 bits.
        let _size = walk.size();
        let _entries = walk.header().number_of_streams;
        match walk_all(alloc, &mut walk, limits.name, limits.budget) {
            Ok(
                Kept {
                    counts,
                    rooms,
                    costs,
                    asks,
                },
            ) => {
                // The proof learns here that what was fetched is within the budget.
                let _spent = walk.fetched();
                let opened = 32 + 12 * u128::from(walk.header().number_of_streams);
                Ok(FileView {
                    walk,
                    limit: limits.name,
                    counts,
                    rooms,
                    pass: None,
                    passed: 0,
                    asked: 0,
                    last: None,
                    needed: (opened + 3 * costs).saturating_add(asks),
                })
            }
            Err(fault) => {
                // The proof learns here how much that is at most.
                let _fetched = walk.fetched();
                Err(ViewRefused {
                    fault,
                    source: walk.into_source(),
                })
            }
        }
    }

    /// How many bytes its lists take at most: a window, and 24 for each entry of the directory.
    pub fn held(&self) -> u128
        ensures value { result ≡ held_by self.now }
    {
        let entries = u128::from(self.walk.header().number_of_streams);
        self.walk.held() + 12 * entries
    }

    /// How many bytes a copy of all that it gives may fetch, with those of its opening: 32 for the header,
    /// 12 for each entry, what three passes over each stream cost, and the bytes of all names, parts and
    /// streams whose records are not known, as they were when it was opened; 2^128 - 1 if they are more.
    pub fn needed(&self) -> u128
        ensures { result ≡ needed_by self.now }
    {
        self.needed
    }

    /// How many bytes were fetched since it was opened.
    pub fn fetched(&self) -> u128
        ensures value { result ≡ fetched_by self.now }
        ensures bound { result ≤ opened_by self.now + (⟦<FileView<S, A> as DumpView>⟧.spent self.now).passed + (⟦<FileView<S, A> as DumpView>⟧.spent self.now).asked }
    {
        self.walk.fetched()
    }

    /// Hands the source back, which counted what was fetched since it was opened.
    pub fn into_source(self) -> Source<S>
        ensures value { result ≡ source_in self }
        ensures booked { result.fetched ≡ raised (started_by self) (spent_by self) }
        ensures spent { result.fetched ≤ started_by self + (opened_by self + (⟦<FileView<S, A> as DumpView>⟧.spent self).passed + (⟦<FileView<S, A> as DumpView>⟧.spent self).asked) }
    {
        // The proof learns here how much that is at most.
        let _fetched = self.fetched();
        let FileView { walk, .. } = self;
        walk.into_source()
    }
}

impl<S: Store + Drop, A: Allocator + Copy> DumpView for FileView<S, A> {
    ghost use Rattle.mdmp_dump.specs.FileViewLaws.{view_follows, view_kinds, view_sound, view_stays, view_stray};

    type Memory = A;

    ghost shape = { λ v. file_shape A v.walk v.counts.items v.rooms.items };

    ghost cursor = { λ v. file_cursor A v.walk v.pass };

    ghost spent = { λ v. record { passed = v.passed; asked = v.asked; fetches = v.walk.source.calls; fault = v.last } };

    ghost Moves = { λ u v. HasMoved u.walk u.last v.walk v.last };

    ghost sound = { λ v. view_sound A v.walk v.counts.items v.rooms.items };

    ghost kinds = { λ v. view_kinds A v.walk v.counts.items v.rooms.items };

    ghost stray = { λ v. view_stray A v.walk v.counts.items v.rooms.items v.sound.bare };

    ghost stays = { λ v. view_stays v.walk v.last };

    ghost follows = { λ u v w. view_follows u.walk u.last v.walk v.last w.walk w.last };

    fn streams(&mut self) -> u64 {
        self.counts.len() as u64
    }

    fn header(&mut self) -> HeaderFields {
        let header = self.walk.header();
        HeaderFields {
            version_high: (header.version >> 16) as u16,
            checksum: header.checksum,
            time: header.time_date_stamp,
            flags: header.flags,
        }
    }

    fn kind(&mut self, stream: u64) -> Kind {
        kind_of(self.walk.entry(stream).stream_type)
    }

    fn body_size(&mut self, stream: u64) -> u64 {
        let entry = self.walk.entry(stream);
        let count = self.counts[stream as usize];
        match kind_of(entry.stream_type) {
            Kind::Unused => 0,
            Kind::Known(stream_type) => records_size(stream_type, count),
            Kind::Raw(_) => u64::from(entry.location.size),
        }
    }

    fn parts_size(&mut self, stream: u64) -> u64 {
        self.rooms[stream as usize]
    }

    fn rewind(&mut self, stream: u64) -> Result<(), ViewFault> {
        let count = self.counts[stream as usize];
        let room = self.rooms[stream as usize];
        let cost = cost_of(self.walk.entry(stream), count);
        self.pass = None;
        self.passed = self.passed.saturating_add(u128::from(cost));
        match begin_pass(&mut self.walk, stream, count, room) {
            Ok(pass) => {
                self.pass = Some(pass);
                self.last = None;
                Ok(())
            }
            Err(fault) => {
                self.last = Some(fault);
                Err(fault)
            }
        }
    }

    fn next_record(&mut self) -> Result<Fields, ViewFault> {
        let Some(pass) = self.pass else {
            return Err(changed(0));
        };
        self.pass = None;
        match take_record(&mut self.walk, self.limit, pass) {
            Ok((fields, next)) => {
                self.pass = Some(next);
                self.last = None;
                Ok(fields)
            }
            Err(fault) => {
                self.last = Some(fault);
                Err(fault)
            }
        }
    }

    fn part(&mut self, which: usize, at: u64, out: &mut [u8]) -> Result<(), ViewFault> {
        let count = out.len();
        self.asked = self.asked.saturating_add(count as u128);
        if count == 0 {
            return Ok(());
        }
        // The proof learns here that the size has 64 bits.
        let _size = self.walk.size();
        let Some(pass) = self.pass else {
            return Err(changed(0));
        };
        match self.walk.read_part(pass.parts[which].at + at, out) {
            Ok(()) => {
                self.last = None;
                Ok(())
            }
            Err(fault) => {
                self.last = Some(ViewFault::Source(fault));
                Err(ViewFault::Source(fault))
            }
        }
    }

    fn passed(&mut self) -> u128 {
        self.passed
    }

    fn asked(&mut self) -> u128 {
        self.asked
    }
}
