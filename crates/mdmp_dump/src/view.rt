//! A dump given a record at a time.
use mdmp_source::SourceFault;
use mdmp_wire::AnyRecord;
use std::alloc::Allocator;

/// A part of a record, or a name, without its bytes.
#[derive(Clone, Copy, Debug, PartialEq, Eq)]
pub enum PartSize {
    /// The record has no such part, or no name.
    NoPart,
    /// So many bytes; of a name those of its units.
    Size(u64),
    /// No bytes, of this size.
    Absent(u32),
}

/// A record, and what it names, in the order in which that is written: its name if records of its
/// kind have one, and then its parts in the order of its fields.
#[derive(Clone, Copy, Debug, PartialEq, Eq)]
pub struct Fields {
    /// The record, with 0 for its locations and for the RVA of its name.
    pub wire: AnyRecord,
    /// The sizes of its name and parts.
    pub parts: [PartSize; 3],
}

/// A call of a view answered nothing: its file's bytes were not obtained, or the file has changed.
#[derive(Clone, Copy, Debug, PartialEq, Eq)]
pub enum ViewFault {
    /// The fault of the source, and where.
    Source(SourceFault),
}

/// The numbers of a header that belong to a dump's producer: those of a `MINIDUMP_HEADER` that do not
/// follow from the streams.
#[derive(Clone, Copy, Debug, PartialEq, Eq)]
pub struct HeaderFields {
    /// The high half of `Version`.
    pub version_high: u16,
    /// `CheckSum`.
    pub checksum: u32,
    /// `TimeDateStamp`, in seconds since 1970.
    pub time: u32,
    /// `Flags`.
    pub flags: u64,
}

/// What a stream is.
#[derive(Clone, Copy, Debug, PartialEq, Eq)]
pub enum Kind {
    /// `UnusedStream`: an entry of the directory that names nothing.
    Unused,
    /// Records, of the kind that this type has.
    Known(u32),
    /// Bytes, under this type.
    Raw(u32),
}

/// A dump given a record at a time, so that what takes it need not hold it.
///
/// A view has a shape, which stays: how many streams it has, of each how many records and bytes, and
/// what these are where that is known. It has a cursor, which says what is still to be given of the
/// stream that was begun last. After a fault nothing is said of the cursor, so `next_record` and
/// `part` want a new `rewind` first. And it counts what is spent of it: what the passes over its
/// streams cost, and how many bytes it is asked for.
///
/// If a file has changed, a view of it tells so at the RVA of the stream that was begun last, or that was to be
/// begun.
// No condition of a call is stated by what the view gives: of a view of a file that may be unknown.
pub trait DumpView {
    ghost use Rattle.std.specs.Prelude.{◌≡◌, ◌<◌, ◌≤◌, ◌+◌, ℕ, List, [], Some, length, take, drop, get_or, IfErr, IfOk, IsTrue, OnOk};
    ghost use Rattle.mdmp_dump.specs.Shape.{AreOfTheirKinds, AsksOnce, begun, body_of, cost_at, place_at, StreamCursor, GivesRecord, HaveNoStrayParts, IsShapeOfSeen, IsToldAt, ViewShape, Spent, stream_at, told};
    ghost use Rattle.mdmp_dump.specs.View.{DumpSeen};

    /// The memory of a value that this may be a view of.
    type Memory: Allocator;

    // What stays.
    ghost shape: { Self → ViewShape };

    // What moves.
    ghost cursor: { Self → StreamCursor };

    // What was spent of it.
    ghost spent: { Self → Spent };

    // A relation by which each of its calls moves it.
    ghost Moves: { Self → Self → Type 0 };

    /// How many streams it has.
    fn streams(&mut self) -> u64
        ensures count { result ≡ length (shape self.old).streams }
        ensures shape { shape self.new ≡ shape self.old }
        ensures cursor { cursor self.new ≡ cursor self.old }
        ensures spent { spent self.new ≡ spent self.old }
        ensures moves { Moves self.old self.new };

    /// The numbers of its header.
    fn header(&mut self) -> HeaderFields
        ensures header { (x : DumpSeen) → (shape self.old).seen ≡ Some x → result ≡ x.header }
        ensures told { result ≡ (shape self.old).header }
        ensures shape { shape self.new ≡ shape self.old }
        ensures cursor { cursor self.new ≡ cursor self.old }
        ensures spent { spent self.new ≡ spent self.old }
        ensures moves { Moves self.old self.new };

    /// What a stream is.
    fn kind(&mut self, stream: u64) -> Kind
        requires { stream < length (shape self.old).streams }
        ensures kind { result ≡ (stream_at (shape self.old) stream).kind }
        ensures shape { shape self.new ≡ shape self.old }
        ensures cursor { cursor self.new ≡ cursor self.old }
        ensures spent { spent self.new ≡ spent self.old }
        ensures moves { Moves self.old self.new };

    /// How many bytes its body has as it is written: its records and what stands before them, or its
    /// raw bytes; 2^64 - 1 where they are more.
    fn body_size(&mut self, stream: u64) -> u64
        requires { stream < length (shape self.old).streams }
        ensures size { result ≡ told (body_of (stream_at (shape self.old) stream)) }
        ensures shape { shape self.new ≡ shape self.old }
        ensures cursor { cursor self.new ≡ cursor self.old }
        ensures spent { spent self.new ≡ spent self.old }
        ensures moves { Moves self.old self.new };

    /// How many bytes its names and parts take behind its body, each padded to a multiple of 4; of
    /// 64-bit memory how many bytes it has. 2^64 - 1 where they are more.
    fn parts_size(&mut self, stream: u64) -> u64
        requires { stream < length (shape self.old).streams }
        ensures size { result ≡ told (stream_at (shape self.old) stream).parts }
        ensures shape { shape self.new ≡ shape self.old }
        ensures cursor { cursor self.new ≡ cursor self.old }
        ensures spent { spent self.new ≡ spent self.old }
        ensures moves { Moves self.old self.new };

    /// Begins a stream. Its raw bytes can be asked for as part 0.
    fn rewind(&mut self, stream: u64) -> Result<(), ViewFault>
        requires { stream < length (shape self.old).streams }
        ensures shape { shape self.new ≡ shape self.old }
        ensures begins { OnOk result (cursor self.new ≡ begun (shape self.old) stream) }
        ensures passed { (spent self.new).passed ≤ (spent self.old).passed + cost_at (shape self.old) stream }
        ensures asked { (spent self.new).asked ≤ (spent self.old).asked }
        ensures told { IfErr result (IsToldAt (place_at (shape self.old) stream) (spent self.new)) }
        ensures moves { Moves self.old self.new }
        ensures reliable { IsTrue (shape self.old).is_reliable → IfErr result (λ _. ⊥) };

    /// The next record of the stream that was begun. Its name and parts can then be asked for.
    fn next_record(&mut self) -> Result<Fields, ViewFault>
        requires { 0 < (cursor self.old).records }
        ensures shape { shape self.new ≡ shape self.old }
        ensures gives { IfOk result (λ f. GivesRecord (cursor self.old) f (cursor self.new)) }
        ensures passed { (spent self.new).passed ≤ (spent self.old).passed }
        ensures asked { (spent self.new).asked ≤ (spent self.old).asked }
        ensures told { IfErr result (IsToldAt (cursor self.old).at (spent self.new)) }
        ensures moves { Moves self.old self.new }
        ensures reliable { IsTrue (shape self.old).is_reliable → IfErr result (λ _. ⊥) };

    /// The bytes of a part from a place on, as many as fit `out`: of the record given last the part of
    /// this index among its `parts`, a name's being its units; of a stream of raw bytes that was just
    /// begun these, as part 0. A file is asked for all of them by one fetch.
    fn part(&mut self, which: usize, at: u64, out: &mut [u8]) -> Result<(), ViewFault>
        requires { at + length out.old ≤ (cursor self.old).sizes which }
        ensures shape { shape self.new ≡ shape self.old }
        ensures cursor { OnOk result (cursor self.new ≡ cursor self.old) }
        ensures bytes { OnOk result ((parts : List (List ℕ)) → (cursor self.old).parts ≡ Some parts
            → out.new ≡ take (length out.old) (drop at (get_or parts which []))) }
        ensures spends { AsksOnce (length out.old) (spent self.old) (spent self.new) }
        ensures told { IfErr result (IsToldAt (cursor self.old).at (spent self.new)) }
        ensures moves { Moves self.old self.new }
        ensures reliable { IsTrue (shape self.old).is_reliable → IfErr result (λ _. ⊥) };

    /// The costs of all passes that `rewind` began, in bytes. A pass over a stream costs what it may
    /// fetch of a file: the bytes of the stream if its records are known, and 4 for each that may have
    /// a name; of a value nothing.
    fn passed(&mut self) -> u128
        ensures value { result ≡ (spent self.old).passed }
        ensures shape { shape self.new ≡ shape self.old }
        ensures cursor { cursor self.new ≡ cursor self.old }
        ensures spent { spent self.new ≡ spent self.old }
        ensures moves { Moves self.old self.new };

    /// How many bytes of names, parts and raw streams `part` was asked for; of a value none are
    /// counted.
    fn asked(&mut self) -> u128
        ensures value { result ≡ (spent self.old).asked }
        ensures shape { shape self.new ≡ shape self.old }
        ensures cursor { cursor self.new ≡ cursor self.old }
        ensures spent { spent self.new ≡ spent self.old }
        ensures moves { Moves self.old self.new };

    // What it gives, where that is known, has its shape.
    ghost sound: { (v : Self) → IsShapeOfSeen (shape v) };

    // Its records, where they are known, are of their streams' kinds, and their parts have the sizes
    // that they tell.
    ghost kinds: { (v : Self) → AreOfTheirKinds (shape v) };

    // A stream of which no record is given has no names and parts.
    ghost stray: { (v : Self) → HaveNoStrayParts (shape v) };

    // It is moved so by no call, and by calls one behind the other.
    ghost stays: { (v : Self) → Moves v v };

    ghost follows: { (u v w : Self) → Moves u v → Moves v w → Moves u w };
}
