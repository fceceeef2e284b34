//! The head of a stream, and what it says.
ghost use Rattle.std.specs.Prelude.{◌≡◌, ◌≤◌, ◌+◌, ℕ, List, length, IfErr, IfOk};
ghost use Rattle.mdmp_source.specs.Range.{bytes_at};
ghost use Rattle.mdmp_wire.specs.Number.{number_at};
ghost use Rattle.mdmp_lister.specs.Fetching.{IsHeadOf, shape_told};
ghost use Rattle.mdmp_lister.specs.Following.{IsSomeHead};
ghost use Rattle.mdmp_lister.specs.Format.Kind.{form_of, record_size};
ghost use Rattle.mdmp_lister.specs.Format.Numbers.{maybe_name};
ghost use Rattle.mdmp_lister.specs.StreamHead.{IsShort};
ghost use Rattle.mdmp_lister.specs.Format.Shape.{IsListIn, IsRangeListIn, counted, head_cost, head_size, ranges64, shape_of, single, sized};
ghost use Rattle.mdmp_lister.specs.Fault.{Answers};

use crate::fault::{Fault, FaultKind, faulted};
use crate::fetching::first_of;
use crate::form::Form;
use crate::kind::StreamKind;
use crate::shape::Shape;
use mdmp_source::Location;
use mdmp_wire::{Memory64List, MemoryInfoList, Record, UnloadedList};

/// What the head of a stream says.
#[derive(Clone, Copy)]
pub(crate) struct Head {
    /// Where its records stand.
    pub shape: Shape,
    /// Where the bytes of the first range of a 64-bit memory list stand, an offset from the start of
    /// the file; of any other stream 0.
    pub base: u64,
}

/// The shape of a list of so many records behind their count.
fn counted(at: Location, record_size: u32, count: u32) -> Result<Shape, Fault>
    ensures shape { result ≡ counted at.rva at.size record_size count }
    ensures list { IfOk result (IsListIn at.size 4 record_size) }
{
    let size = u128::from(at.size);
    let records = u128::from(count) * u128::from(record_size);
    if size < 4 + records {
        return faulted(FaultKind::BadCount, u64::from(at.rva), u64::from(count));
    }
    let first = if size == 8 + records { 8 } else { 4 };
    Ok(Shape {
        first,
        stride: u64::from(record_size),
        count: u64::from(count),
    })
}

/// The shape of a stream that is one record.
fn single(record_size: u32) -> Shape
    ensures { single record_size ≡ Ok result }
{
    Shape {
        first: 0,
        stride: u64::from(record_size),
        count: 1,
    }
}

/// The shape of a 64-bit memory list with this head.
fn ranges64(at: Location, record_size: u32, head: Memory64List) -> Result<Shape, Fault>
    ensures shape { result ≡ ranges64 at.rva at.size record_size head.number_of_memory_ranges }
    ensures list { IfOk result (IsRangeListIn at.size record_size) }
{
    let first = Memory64List::SIZE as u64;
    let count = head.number_of_memory_ranges;
    if u128::from(at.size) < u128::from(first) + u128::from(count) * u128::from(record_size) {
        return faulted(FaultKind::BadCount, u64::from(at.rva), count);
    }
    Ok(Shape {
        first,
        stride: u64::from(record_size),
        count,
    })
}

/// The head of a list that counts its records in 32 bits, as one that counts them in 64.
fn widened(head: UnloadedList) -> MemoryInfoList
    ensures { result ≡ record { size_of_header = head.size_of_header; size_of_entry = head.size_of_entry; number_of_entries = head.number_of_entries } }
{
    MemoryInfoList {
        size_of_header: head.size_of_header,
        size_of_entry: head.size_of_entry,
        number_of_entries: u64::from(head.number_of_entries),
    }
}

/// The shape of a list whose head, of at least `head_size` bytes, says its own size, that of an entry,
/// and how many there are.
fn sized(
    at: Location,
    head_size: u32,
    record_size: u32,
    head: MemoryInfoList,
) -> Result<Shape, Fault>
    ensures shape { result ≡ sized at.rva at.size head_size record_size head.size_of_header head.size_of_entry head.number_of_entries }
    ensures list { IfOk result (IsListIn at.size head_size record_size) }
{
    let start = u64::from(at.rva);
    let header_size = head.size_of_header;
    let entry_size = head.size_of_entry;
    let count = head.number_of_entries;
    if header_size < head_size || at.size < header_size {
        return faulted(FaultKind::BadHeaderSize, start, u64::from(header_size));
    }
    if 0 < count && entry_size < record_size {
        return faulted(FaultKind::BadEntrySize, start + 4, u64::from(entry_size));
    }
    if u128::from(at.size) < u128::from(header_size) + u128::from(count) * u128::from(entry_size) {
        return faulted(FaultKind::BadCount, start + 8, count);
    }
    Ok(Shape {
        first: u64::from(header_size),
        stride: u64::from(entry_size),
        count,
    })
}

/// A stream that is too short for its head, or for its one record, has that fault.
pub(crate) fn check_head(at: Location, kind: StreamKind) -> Result<(), Fault>
    ensures room { IfOk result (λ _. head_size (form_of kind) (record_size kind) ≤ at.size) }
    ensures short { IfErr result (IsShort at kind) }
{
    if at.size < kind.form().head_size(kind.record_size()) {
        let start = u64::from(at.rva);
        return faulted(FaultKind::ShortStream, start, u64::from(at.size));
    }
    Ok(())
}

/// What the head of a stream says, by its bytes, or the fault that it shows: a bad header size, a bad
/// entry size, a bad count.
#[tactic(auto, using(crate::proofs::Paying::few_records), unfolding(crate::specs::Format::Shape::shape_of, crate::specs::Following::IsSomeHead))]
pub(crate) fn head_of(bytes: &[u8], at: Location, kind: StreamKind) -> Result<Head, Fault>
    requires bytes { length bytes.now ≡ head_cost (form_of kind) }
    requires room { head_size (form_of kind) (record_size kind) ≤ at.size }
    ensures shape { (file : List ℕ) → bytes.now ≡ bytes_at file at.rva (length bytes.now)
        → Answers (shape_of file at.rva at.size kind) (λ head. head.shape) result }
    ensures base { (file : List ℕ) → bytes.now ≡ bytes_at file at.rva (length bytes.now)
        → kind ≡ StreamKind.Memory64 → IfOk result (λ head. head.base ≡ number_at file (at.rva + 8) 8) }
    ensures head { IfOk result (IsHeadOf at.size kind) }
    // A fault is neither one of the store nor one of a name.
    ensures fault { IfErr result (λ fault. maybe_name fault.kind ≡ 0) }
    ensures some { IsSomeHead at.rva at.size (record_size kind) (form_of kind) (shape_told result) }
{
    let form = kind.form();
    let size = kind.record_size();
    match form {
        Form::Counted => {
            let shape = counted(at, size, first_of(bytes))?;
            Ok(Head { shape, base: 0 })
        }
        Form::Single => {
            let shape = single(size);
            Ok(Head { shape, base: 0 })
        }
        Form::Ranges64 => {
            let head: Memory64List = first_of(bytes);
            let shape = ranges64(at, size, head)?;
            let base = head.base_rva;
            Ok(Head { shape, base })
        }
        Form::Sized32 => {
            let head = widened(first_of(bytes));
            let shape = sized(at, form.head_cost(), size, head)?;
            Ok(Head { shape, base: 0 })
        }
        Form::Sized64 => {
            let head = first_of(bytes);
            let shape = sized(at, form.head_cost(), size, head)?;
            Ok(Head { shape, base: 0 })
        }
    }
}
