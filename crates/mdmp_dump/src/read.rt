//! Reading a file into a value.
ghost use Rattle.std.specs.Prelude.{◌≡◌, ◌<◌, ℕ, List, [], MatchResult, None, Some, Err, IfErr, IfOk};
ghost use Rattle.mdmp_source.specs.Store.{IsGood};
ghost use Rattle.mdmp_lister.specs.Counts.{AreSpent, numbers_of};
ghost use Rattle.mdmp_lister.specs.Format.Listing.{Numbered, nothing};
ghost use Rattle.mdmp_lister.specs.Meter.{IsBooked, KeepsTo};
ghost use Rattle.mdmp_dump.specs.Dropped.{IsReadAndDropped};
ghost use Rattle.mdmp_dump.specs.ItemsRead.{ReadsInTurn, steps_left};
ghost use Rattle.mdmp_dump.specs.Keeping.{KeepsStep, KeepsReading};
ghost use Rattle.mdmp_dump.specs.LaysOut.{AreStreams, LaysOut};
ghost use Rattle.mdmp_dump.specs.Left.{is_item_of, left_from, run_of};
ghost use Rattle.mdmp_dump.specs.Reading.{Fetches, IsEntryRead, IsGoing, IsOfType, IsOneStream, IsRaw, IsReadRefusal, IsWithoutBudget, OpensWithin, Settles, TellsLimit, TellsOf, owed, read_within, steps_of, store_fault};
ghost use Rattle.mdmp_dump.specs.Refusal.{inside_steps, read_refusal, refusal_of, stream_steps};

use crate::dump::{Dump, Stream};
use crate::exception::Exception;
use crate::fault::ReadFault;
use crate::memory::MemoryRange;
use crate::memory64::Memory64Range;
use crate::module::Module;
use crate::reader::Reader;
use crate::records::Records;
use crate::row::RecordPlace;
use crate::system::System;
use crate::thread::Thread;
use crate::thread_name::ThreadName;
use crate::unloaded::Unloaded;
use mdmp_lister::{Choice, FaultKind, Limits, Lister, OpenFault, StreamItem};
use mdmp_source::{LetGo, Source, Store, inside};
use mdmp_wire::MemoryInfoRecord;
use std::alloc::Allocator;

/// What reading a file answered, and the source that was read.
#[derive(Drop)]
pub struct ReadAnswered<S: Store + Drop, A: Allocator> {
    /// The dump, or why there is none.
    pub answer: Result<Dump<A>, ReadFault>,
    /// The source, whose counts tell the cause of its faults.
    pub source: Source<S>,
}

/// Reads the chosen entries of a file into a value. The parts of its records, and the streams whose
/// records are not known, may have at most `parts` bytes in all; a name may have as many as the
/// limits say.
///
/// It answers the first reason in the order of the listing why the file gives no dump, or want of
/// memory, which is told as [`ReadFault::Memory`] wherever it comes behind the header and the place of
/// the directory, or the fault of the store, or that the budget of the limits was reached. The limit of
/// memory is that of its lister: the dump itself is not counted.
pub fn read_dump<S: Store + Drop, A: Allocator + Copy>(
    alloc: A,
    source: Source<S>,
    limits: Limits,
    choice: Choice,
    parts: u64,
) -> Result<Dump<A>, ReadFault>
where
    Source<S>: LetGo,
    ensures lays_out { (file : List ℕ) → source.store.content ≡ Some file → IfOk result (LaysOut file choice) }
    ensures refuses { (file : List ℕ) → source.store.content ≡ Some file → Settles (read_refusal file choice limits.name parts) result (λ _. None) }
    ensures good { (file : List ℕ) → IsGood source.store file → IfErr result (λ fault. store_fault fault ≡ None) }
    ensures refusal { IfErr result (IsReadRefusal source.size) }
    ensures short { source.size < 32 → result ≡ Err (ReadFault.Opening (OpenFault.TooShort source.size)) }
    ensures tells { IfErr result (TellsOf source.store.content) }
    ensures limited { MatchResult result (λ _. OpensWithin limits choice source.store.content) (TellsLimit limits choice source.store.content) }
    ensures within { IsReadAndDropped ⟦<Source<S> as LetGo>⟧.may_go choice limits parts result source }
{
    let ReadAnswered {
        answer,
        source: left,
    } = read_source(alloc, source, limits, choice, parts);
    left.let_go();
    answer
}

/// Does what `read_dump` does, and hands the source back, whose counts tell the cause of its faults.
pub fn read_source<S: Store + Drop, A: Allocator + Copy>(
    alloc: A,
    source: Source<S>,
    limits: Limits,
    choice: Choice,
    parts: u64,
) -> ReadAnswered<S, A>
    ensures lays_out { (file : List ℕ) → source.store.content ≡ Some file → IfOk result.answer (LaysOut file choice) }
    ensures refuses { (file : List ℕ) → source.store.content ≡ Some file → Settles (read_refusal file choice limits.name parts) result.answer (λ _. None) }
    ensures cause { Fetches result.answer source result.source }
    ensures short { source.size < 32 → result.answer ≡ Err (ReadFault.Opening (OpenFault.TooShort source.size)) }
    ensures tells { IfErr result.answer (TellsOf source.store.content) }
    ensures limited { MatchResult result.answer (λ _. OpensWithin limits choice source.store.content) (TellsLimit limits choice source.store.content) }
    ensures keeps { KeepsReading choice limits parts result.answer source result.source }
    ensures unbudgeted { limits.budget ≡ None → IfErr result.answer IsWithoutBudget }
{
    // The proof learns here that the size is that of the content.
    let _size = source.size();
    let all = matches!(&choice, Choice::All);
    let lister = match Lister::open(alloc, source, limits, choice) {
        Ok(lister) => lister,
        Err(refused) => {
            return ReadAnswered {
                answer: Err(refusal(refused.fault)),
                source: refused.source,
            };
        }
    };
    let header = lister.header();
    let mut reader = Reader {
        lister,
        alloc,
        left: parts,
    };
    // How many entries some types choose is not known before they are listed.
    let room = if all {
        header.number_of_streams as usize
    } else {
        0
    };
    match read_streams(&mut reader, room) {
        Ok(streams) => ReadAnswered {
            answer: Ok(Dump {
                version_high: (header.version >> 16) as u16,
                checksum: header.checksum,
                time: header.time_date_stamp,
                flags: header.flags,
                streams,
            }),
            source: source_of(reader),
        },
        Err(fault) => ReadAnswered {
            answer: Err(told_within(limits.budget, fault)),
            source: source_of(reader),
        },
    }
}

/// The source of a reading that has ended.
fn source_of<S: Store + Drop, A: Allocator + Copy>(reader: Reader<S, A>) -> Source<S>
    ensures value { result ≡ reader.lister.source }
    ensures spent { AreSpent reader.lister (numbers_of reader.lister) }
    ensures booked { IsBooked result reader.lister.counts }
    ensures kept { KeepsTo reader.lister.counts.budget reader.lister.counts.fetched }
{
    // The proof learns here that what was fetched is within the budget.
    let _counts = reader.lister.counts();
    reader.lister.into_source()
}

/// Why a file that was opened gives no dump. Without a budget no listing ends by it, and none by the limit of
/// memory, which the clauses of the reader do not tell: the arms that answer want of memory are never reached.
fn told_within(budget: Option<u64>, fault: ReadFault) -> ReadFault
    ensures { result ≡ read_within budget fault }
{
    if matches!(&fault, ReadFault::Opening(OpenFault::MemoryLimit { .. })) {
        return ReadFault::Memory;
    }
    if budget.is_some() {
        return fault;
    }
    match fault {
        ReadFault::Opening(OpenFault::Budget { .. }) => ReadFault::Memory,
        ReadFault::List(listed) => match listed.kind {
            FaultKind::Budget => ReadFault::Memory,
            _ => ReadFault::List(listed),
        },
        fault => fault,
    }
}

/// A file that can't be listed gives no dump.
pub(crate) fn refusal(fault: OpenFault) -> ReadFault
    ensures { result ≡ refusal_of fault }
{
    match fault {
        OpenFault::Memory => ReadFault::Memory,
        fault => ReadFault::Opening(fault),
    }
}

/// The streams of all chosen entries, in a list that has room for so many at first.
fn read_streams<S: Store + Drop, A: Allocator + Copy>(
    reader: &mut Reader<S, A>,
    room: usize,
) -> Result<Records<Stream<A>, A>, ReadFault>
    requires { reader.old.lister.stop ≡ None }
    ensures fetches { Fetches result reader.old.lister.source reader.new.lister.source }
    ensures keeps { KeepsStep [] result reader.old reader.new }
    ensures reads { ReadsInTurn [] result [] reader.old.lister reader.new.lister }
    ensures whole { (file : List ℕ) (limit : ℕ) (xs : List Numbered) → reader.old.lister.source.store.content ≡ Some file
        → reader.old.lister.left ≡ Some (run_of file limit xs) → IfOk result (λ _. reader.new.lister.left ≡ Some nothing) }
    ensures of_file { (file : List ℕ) (limit : ℕ) (xs : List Numbered) → reader.old.lister.source.store.content ≡ Some file
        → reader.old.lister.left ≡ Some (run_of file limit xs)
        → IfOk result (AreStreams file xs) × Settles (owed file reader.old.left None reader.old.lister.left) result (λ _. None) }
{
    let Ok(mut streams) = Vec::with_capacity(reader.alloc, room) else {
        return Err(ReadFault::Memory);
    };
    let mut next = reader.behind()?;
    while let Some(item) = next {
        let (stream, behind) = read_stream(reader, item)?;
        if let Some(stream) = stream {
            match streams.push(stream) {
                Ok(()) => {}
                Err(_) => return Err(ReadFault::Memory),
            }
        }
        next = behind;
    }
    Ok(Records::new(streams))
}

/// The stream of an entry whose Stream item was given, and what stands behind it.
fn read_stream<S: Store + Drop, A: Allocator + Copy>(
    reader: &mut Reader<S, A>,
    item: StreamItem,
) -> Result<(Option<Stream<A>>, Option<StreamItem>), ReadFault>
    requires { reader.old.lister.stop ≡ None }
    ensures fetches { Fetches result reader.old.lister.source reader.new.lister.source }
    ensures keeps { KeepsStep (stream_steps reader.old.lister.source.size item.entry item.stream_type item.location) result reader.old reader.new }
    ensures reads { ReadsInTurn (stream_steps reader.old.lister.source.size item.entry item.stream_type item.location) result (steps_left (λ r. steps_of reader.old.lister.source.size r.1) result) reader.old.lister reader.new.lister }
    ensures going { IfOk result (λ r. IsGoing reader.old.lister r.1 reader.new.lister) }
    ensures of_file { (file : List ℕ) (limit : ℕ) (x : Numbered) (xs : List Numbered) → reader.old.lister.source.store.content ≡ Some file
        → reader.old.lister.left ≡ Some (left_from file limit x 0 xs) → item ≡ is_item_of x → IsOfType reader.old.lister item.stream_type
        → IsEntryRead file limit xs (IsOneStream file x.entry) (owed file reader.old.left (Some item) reader.old.lister.left) result reader.new }
{
    match item.stream_type {
        0 => {
            let next = reader.behind()?;
            Ok((Some(Stream::Unused), next))
        }
        3 => {
            let (threads, next) = reader.rows::<Thread<A>>()?;
            Ok((Some(Stream::Threads(threads)), next))
        }
        4 => {
            let (modules, next) = reader.rows::<Module<A>>()?;
            Ok((Some(Stream::Modules(modules)), next))
        }
        5 => {
            let (ranges, next) = reader.rows::<MemoryRange<A>>()?;
            Ok((Some(Stream::Memory(ranges)), next))
        }
        6 => {
            let (exception, next) = reader.single::<Exception<A>>()?;
            Ok((exception.map(|x| Stream::Exception(x)), next))
        }
        7 => {
            let (system, next) = reader.single::<System<A>>()?;
            Ok((system.map(|x| Stream::System(x)), next))
        }
        9 => {
            let (ranges, next) = reader.rows::<Memory64Range<A>>()?;
            Ok((Some(Stream::Memory64(ranges)), next))
        }
        14 => {
            let (modules, next) = reader.rows::<Unloaded<A>>()?;
            Ok((Some(Stream::Unloaded(modules)), next))
        }
        16 => {
            let (regions, next) = reader.rows::<MemoryInfoRecord>()?;
            Ok((Some(Stream::MemoryInfo(regions)), next))
        }
        24 => {
            let (threads, next) = reader.rows::<ThreadName<A>>()?;
            Ok((Some(Stream::ThreadNames(threads)), next))
        }
        _ => read_raw(reader, item),
    }
}

/// The bytes of a stream whose records are not known, and what stands behind it. Outside the file it
/// has none, and is the fault that the listing has next.
fn read_raw<S: Store + Drop, A: Allocator + Copy>(
    reader: &mut Reader<S, A>,
    item: StreamItem,
) -> Result<(Option<Stream<A>>, Option<StreamItem>), ReadFault>
    requires { reader.old.lister.stop ≡ None }
    ensures fetches { Fetches result reader.old.lister.source reader.new.lister.source }
    ensures keeps { KeepsStep (inside_steps reader.old.lister.source.size item.entry item.location) result reader.old reader.new }
    ensures reads { ReadsInTurn (inside_steps reader.old.lister.source.size item.entry item.location) result (steps_left (λ r. steps_of reader.old.lister.source.size r.1) result) reader.old.lister reader.new.lister }
    ensures going { IfOk result (λ r. IsGoing reader.old.lister r.1 reader.new.lister) }
    ensures of_file { (file : List ℕ) (limit : ℕ) (x : Numbered) (xs : List Numbered) → reader.old.lister.source.store.content ≡ Some file
        → reader.old.lister.left ≡ Some (left_from file limit x 0 xs) → item ≡ is_item_of x → IsRaw x.entry.stream_type
        → IsEntryRead file limit xs (IsOneStream file x.entry) (owed file reader.old.left (Some item) reader.old.lister.left) result reader.new }
{
    let place = RecordPlace {
        entry: item.entry,
        index: 0,
    };
    let at = u64::from(item.location.rva);
    let size = u64::from(item.location.size);
    let stream = if inside(at, size, reader.lister.size()) {
        Some(Stream::Raw(item.stream_type, reader.bytes(place, at, size)?))
    } else {
        None
    };
    Ok((stream, reader.behind()?))
}
