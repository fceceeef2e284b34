//! A dump in memory, given a record at a time.
ghost use Rattle.std.specs.Prelude.{◌≡◌, ◌<◌, ◌≤◌, ◌+◌, ◌*◌, [], length, take, drop, get_or};
ghost use Rattle.mdmp_dump.specs.declared.dump.Stream.TheVariants.{Unused};
ghost use Rattle.mdmp_dump.specs.View.{kind_in, raw_in, records_seen, stream_seen};
ghost use Rattle.mdmp_dump.specs.Shape.{body_of, parts_at, parts_in, seen_record, shape_seen, told, unspent, value_cursor, value_shape};
ghost use Rattle.mdmp_dump.specs.ShapeLaws.{value_kinds, value_sound, value_stray};

use crate::body::rows_size;
use crate::dump::{Dump, Stream, by_records};
use crate::given::{Given, all_taken, fields_at, one_taken, part_at};
use crate::view::{DumpView, Fields, HeaderFields, Kind, PartSize, ViewFault};
use mdmp_lister::StreamKind;
use mdmp_wire::{AnyRecord, Descriptor64};
use std::alloc::Allocator;

/// What a stream is, by the types of `MINIDUMP_STREAM_TYPE`.
fn stream_kind<A: Allocator>(stream: &Stream<A>) -> Kind
    ensures { result ≡ kind_in stream.now }
{
    by_records!(
        stream, kind,
        list _records => Kind::Known(kind.stream_type()),
        single _record => Kind::Known(kind.stream_type()),
        Stream::Unused => Kind::Unused,
        Stream::Raw(stream_type, _) => Kind::Raw(*stream_type),
    )
}

/// The bytes of a stream that has no records; none of any other.
fn raw_bytes<A: Allocator>(stream: &Stream<A>) -> &[u8]
    ensures { result.now ≡ raw_in stream.now }
{
    match stream {
        Stream::Raw(_, bytes) => bytes.as_slice(),
        _ => &[],
    }
}

/// How many records a stream has.
fn record_count<A: Allocator>(stream: &Stream<A>) -> usize
    ensures { result ≡ length (records_seen stream.now) }
{
    by_records!(
        stream, _kind,
        list records => records.len(),
        single _record => 1,
        Stream::Unused | Stream::Raw(_, _) => 0,
    )
}

/// How many bytes the body of a stream has: those of its list's head and records, or its raw bytes.
fn body_size<A: Allocator>(stream: &Stream<A>) -> u64
    ensures { result ≡ told (body_of (shape_seen (stream_seen stream.now))) }
{
    match stream_kind(stream) {
        Kind::Unused => 0,
        Kind::Known(stream_type) => {
            let size = rows_size(stream_type, record_count(stream) as u64);
            size.min(u128::from(u64::MAX)) as u64
        },
        Kind::Raw(_) => raw_bytes(stream).len() as u64,
    }
}

/// What the names and parts of a stream take behind its body; of 64-bit memory its bytes.
#[tactic(auto, unfolding(crate::specs::Shape::rooms))]
fn parts_size<A: Allocator>(stream: &Stream<A>) -> u64
    ensures { result ≡ told (parts_in (kind_in stream.now) (records_seen stream.now)) }
{
    by_records!(
        stream, kind,
        list records => all_taken(records, kind.is_memory64()),
        single record => one_taken(record, kind.is_memory64()),
        Stream::Unused | Stream::Raw(_, _) => 0,
    )
}

/// The fields of one record of a stream.
fn record_fields<A: Allocator>(stream: &Stream<A>, index: usize) -> Fields
    requires { index < length (records_seen stream.now) }
    ensures { result ≡ (seen_record stream.now index).fields }
{
    by_records!(
        stream, _kind,
        list records => fields_at(records, index),
        single record => record.fields(),
        Stream::Unused | Stream::Raw(_, _) => Fields {
            wire: AnyRecord::Memory64(Descriptor64 {
                start_of_memory_range: 0,
                data_size: 0,
            }),
            parts: [PartSize::NoPart, PartSize::NoPart, PartSize::NoPart],
        },
    )
}

/// A part of one record of a stream.
fn record_part<A: Allocator>(stream: &Stream<A>, index: usize, which: usize) -> &[u8]
    requires { index < length (records_seen stream.now) }
    ensures { result.now ≡ get_or (seen_record stream.now index).parts which [] }
{
    by_records!(
        stream, _kind,
        list records => part_at(records, index, which),
        single record => record.part(which),
        Stream::Unused | Stream::Raw(_, _) => &[],
    )
}

/// A part of the record that was given last, where so many were given; where none was, the raw bytes
/// as part 0.
fn stream_part<A: Allocator>(stream: &Stream<A>, given: usize, which: usize) -> &[u8]
    requires { given ≤ length (records_seen stream.now) }
    ensures { result.now ≡ get_or (parts_at stream.now given) which [] }
{
    if given > 0 {
        record_part(stream, given - 1, which)
    } else if which == 0 {
        raw_bytes(stream)
    } else {
        &[]
    }
}

/// One of some streams.
fn stream_of<A: Allocator>(streams: &[Stream<A>], index: usize) -> &Stream<A>
    requires { index < length streams.now }
    ensures { result.now ≡ get_or streams.now index Unused }
{
    &streams[index]
}

/// The next record of one of some streams, and how many are given then.
fn next_fields<A: Allocator>(streams: &[Stream<A>], stream: usize, given: usize) -> (Fields, usize)
    requires { given < length (records_seen (get_or streams.now stream Unused)) }
    ensures fields { result.0 ≡ (seen_record (get_or streams.now stream Unused) given).fields }
    ensures next { result.1 ≡ given + 1 }
{
    let chosen = stream_of(streams, stream);
    // So many fit, and `given` is less.
    let _count = record_count(chosen);
    (record_fields(chosen, given), given + 1)
}

/// What `stream_part` gives of one of some streams; nothing behind the last.
fn part_of<A: Allocator>(streams: &[Stream<A>], stream: usize, given: usize, which: usize) -> &[u8]
    requires { given ≤ length (records_seen (get_or streams.now stream Unused)) }
    ensures { result.now ≡ get_or (parts_at (get_or streams.now stream Unused) given) which [] }
{
    if stream < streams.len() {
        stream_part(stream_of(streams, stream), given, which)
    } else {
        &[]
    }
}

/// Copies some bytes from a place on.
fn copy_part(bytes: &[u8], at: u64, out: &mut [u8])
    requires { at + length out.old ≤ length bytes.now }
    ensures { out.new ≡ take (length out.old) (drop at bytes.now) }
{
    let at = at as usize;
    out.copy_from_slice(&bytes[at..at + out.len()]);
}

/// A dump in memory, given a record at a time: its records as the structures that they are in a file,
/// and its names and parts as their bytes. No call of it answers a fault.
#[derive(Drop)]
pub struct ValueView<'a, A: Allocator> {
    dump: &'a Dump<A>,
    stream: usize,
    given: usize,
    ghost within: { given ≤ length (records_seen (get_or dump.now.streams stream Unused)) },
}

impl<A: Allocator> Dump<A> {
    /// A view of this dump, which stands before the records of its first stream. `rewind` begins a
    /// stream.
    pub fn view<'a>(&'a self) -> ValueView<'a, A>
        ensures shape { ⟦<ValueView<'a, A> as DumpView>⟧.shape result ≡ value_shape self.now }
        ensures cursor { ⟦<ValueView<'a, A> as DumpView>⟧.cursor result ≡ value_cursor (get_or self.now.streams 0 Unused) 0 }
        ensures spent { ⟦<ValueView<'a, A> as DumpView>⟧.spent result ≡ unspent }
    {
        ValueView {
            dump: self,
            stream: 0,
            given: 0,
        }
    }
}

impl<'a, A: Allocator> DumpView for ValueView<'a, A> {
    type Memory = A;

    ghost shape = { λ v. value_shape v.dump.now };

    ghost cursor = { λ v. value_cursor (get_or v.dump.now.streams v.stream Unused) v.given };

    ghost spent = { λ v. unspent };

    ghost Moves = { λ u v. Unit {0} };

    ghost sound = { λ v. value_sound v.dump.now };

    ghost kinds = { λ v. value_kinds v.dump.now };

    ghost stray = { λ v. value_stray v.dump.now };

    ghost stays = { λ v. tt };

    ghost follows = { λ u v w p q. tt };

    fn streams(&mut self) -> u64 {
        self.dump.streams.as_slice().len() as u64
    }

    fn header(&mut self) -> HeaderFields {
        HeaderFields {
            version_high: self.dump.version_high,
            checksum: self.dump.checksum,
            time: self.dump.time,
            flags: self.dump.flags,
        }
    }

    fn kind(&mut self, stream: u64) -> Kind {
        stream_kind(stream_of(self.dump.streams.as_slice(), stream as usize))
    }

    fn body_size(&mut self, stream: u64) -> u64 {
        body_size(stream_of(self.dump.streams.as_slice(), stream as usize))
    }

    fn parts_size(&mut self, stream: u64) -> u64 {
        parts_size(stream_of(self.dump.streams.as_slice(), stream as usize))
    }

    fn rewind(&mut self, stream: u64) -> Result<(), ViewFault> {
        self.given = 0;
        self.stream = stream as usize;
        Ok(())
    }

    fn next_record(&mut self) -> Result<Fields, ViewFault> {
        let streams = self.dump.streams.as_slice();
        let (fields, next) = next_fields(streams, self.stream, self.given);
        self.given = next;
        Ok(fields)
    }

    fn part(&mut self, which: usize, at: u64, out: &mut [u8]) -> Result<(), ViewFault> {
        let streams = self.dump.streams.as_slice();
        let bytes = part_of(streams, self.stream, self.given, which);
        copy_part(bytes, at, out);
        Ok(())
    }

    fn passed(&mut self) -> u128 {
        0
    }

    fn asked(&mut self) -> u128 {
        0
    }
}
