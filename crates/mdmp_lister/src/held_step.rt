//! An item that was read and is not decoded yet: the bytes of its record stand at the front of a window, and
//! its name at the front of a buffer.
//!
//! A record of any kind is as large as an exception. So what is handed up has its kind alone, and the record
//! is decoded once, where the item or the step of it is made.
ghost use Rattle.std.specs.Prelude.{◌≡◌, ◌≤◌, length};
ghost use Rattle.mdmp_wire.specs.AnyRecord.{name_rva};
ghost use Rattle.mdmp_lister.specs.Format.Item.{record_at};
ghost use Rattle.mdmp_lister.specs.Format.Kind.{record_size};
ghost use Rattle.mdmp_lister.specs.Format.Name.{plain_name};
ghost use Rattle.mdmp_lister.specs.HeldStep.{HasItsBytes, TellsRange, step_told};
ghost use Rattle.mdmp_lister.specs.ItemRead.{IsLentOf};
ghost use Rattle.mdmp_lister.specs.Step.{IsHeld, IsItemOf, IsNameHeld, bytes_behind, name_read};

use crate::fetching::NameRead;
use crate::item::{
    ExceptionItem, Item, MemoryInfoItem, ModuleItem, RangeItem, StreamItem, SystemItem, ThreadItem,
    ThreadNameItem, UnloadedItem,
};
use crate::kind::StreamKind;
use crate::name::Name;
use crate::step::{ItemRead, RecordRead, Step};
use mdmp_wire::{AnyRecord, Descriptor64, ModuleRecord, UnitsRef, get_at};

/// A record whose bytes stand at the front of a window.
#[derive(Clone, Copy)]
pub(crate) struct HeldRecord {
    /// The number of the entry in the directory.
    pub(crate) entry: u32,
    /// The index of the record in its stream.
    pub(crate) index: u64,
    /// Its kind.
    pub(crate) kind: StreamKind,
    /// Where the bytes of a range of a 64-bit memory list stand.
    pub(crate) offset: u128,
    /// Its name; none of a kind without names.
    pub(crate) name: NameRead,
}

/// An item that was read.
#[derive(Clone, Copy)]
pub(crate) enum HeldStep {
    Stream(StreamItem),
    Record(HeldRecord),
}

/// The record of the first of these bytes, of a stream of this kind.
fn record_of(kind: StreamKind, bytes: &[u8]) -> AnyRecord
    requires { record_size kind ≤ length bytes.now }
    ensures { result ≡ record_at kind bytes.now 0 }
{
    match kind {
        StreamKind::Threads => AnyRecord::Thread(get_at(bytes, 0)),
        StreamKind::Modules => AnyRecord::Module(get_at(bytes, 0)),
        StreamKind::Memory => AnyRecord::Memory(get_at(bytes, 0)),
        StreamKind::Exception => AnyRecord::Exception(get_at(bytes, 0)),
        StreamKind::System => AnyRecord::System(get_at(bytes, 0)),
        StreamKind::Memory64 => AnyRecord::Memory64(get_at(bytes, 0)),
        StreamKind::Unloaded => AnyRecord::Unloaded(get_at(bytes, 0)),
        StreamKind::MemoryInfo => AnyRecord::MemoryInfo(get_at(bytes, 0)),
        StreamKind::ThreadNames => AnyRecord::ThreadName(get_at(bytes, 0)),
    }
}

/// Where the name of the record of the first of these bytes stands, if records of its kind have one.
#[inline(always)]
#[tactic(auto, using(crate::specs::Format::KindLaws::field_within, crate::specs::Format::KindLaws::named_by_field))]
pub(crate) fn held_name_rva(kind: StreamKind, bytes: &[u8]) -> Option<u64>
    requires { record_size kind ≤ length bytes.now }
    ensures { result ≡ name_rva (record_at kind bytes.now 0) }
{
    match kind.name_field() {
        Some(field) => Some(field.rva(bytes)),
        None => None,
    }
}

/// How many bytes the range has that is held in these bytes, of a 64-bit memory list; 0 of another item.
#[inline(always)]
pub(crate) fn bytes_behind(held: &HeldStep, bytes: &[u8]) -> u64
    requires { HasItsBytes bytes.now held.now }
    ensures { result ≡ bytes_behind (step_told bytes.now held.now) }
{
    match held {
        HeldStep::Record(record) => match record.kind {
            StreamKind::Memory64 => {
                let range: Descriptor64 = get_at(bytes, 0);
                range.data_size
            }
            _ => 0,
        },
        HeldStep::Stream(_) => 0,
    }
}

/// The step that is held in these bytes.
pub(crate) fn step_of(held: &HeldStep, bytes: &[u8]) -> Step
    requires { HasItsBytes bytes.now held.now }
    ensures { result ≡ step_told bytes.now held.now }
{
    match held {
        HeldStep::Stream(stream) => Step::Stream(*stream),
        HeldStep::Record(record) => Step::Record(record_read(record, bytes)),
    }
}

/// The record that is held in these bytes.
fn record_read(held: &HeldRecord, bytes: &[u8]) -> RecordRead
    requires { record_size held.now.kind ≤ length bytes.now }
    ensures { Step.Record result ≡ step_told bytes.now (HeldStep.Record held.now) }
{
    RecordRead {
        entry: held.entry,
        index: held.index,
        fields: record_of(held.kind, bytes),
        offset: held.offset,
        name: held.name,
    }
}

/// The item that is held in these bytes, as it was read, its name lent from the buffer.
pub(crate) fn item_read<'a>(held: &HeldStep, bytes: &[u8], buffer: &'a [u8]) -> ItemRead<'a>
    requires whole { HasItsBytes bytes.now held.now }
    requires name { IsNameHeld (length buffer.now) (step_told bytes.now held.now) }
    ensures { IsLentOf buffer.now (step_told bytes.now held.now) result }
{
    match held {
        HeldStep::Stream(stream) => ItemRead::Stream(*stream),
        HeldStep::Record(record) => {
            let name = lent_name(buffer, record.name);
            ItemRead::Record(record_read(record, bytes), name)
        }
    }
}

/// A name whose units stand at the front of a buffer.
fn lent_name(buffer: &[u8], name: NameRead) -> Name<'_>
    requires { IsHeld (length buffer.now) name }
    ensures { plain_name result ≡ name_read buffer.now name }
{
    match name {
        NameRead::None => Name::None,
        NameRead::Units(bytes) => Name::Units(UnitsRef::over(&buffer[..bytes as usize])),
        NameRead::Long(bytes) => Name::Long(bytes),
    }
}

/// The item of a record that is held in these bytes, its name lent from the buffer, in a file of `size` bytes.
#[inline(always)]
pub(crate) fn record_item<'a>(
    held: &HeldRecord,
    bytes: &[u8],
    buffer: &'a [u8],
    size: u64,
) -> Item<'a>
    requires whole { record_size held.now.kind ≤ length bytes.now }
    requires name { IsHeld (length buffer.now) held.now.name }
    ensures { IsItemOf size buffer.now (step_told bytes.now (HeldStep.Record held.now)) result }
{
    let (entry, index) = (held.entry, held.index);
    match held.kind {
        StreamKind::Threads => Item::Thread(ThreadItem::new(entry, index, get_at(bytes, 0), size)),
        StreamKind::Modules => {
            let fields: ModuleRecord = get_at(bytes, 0);
            Item::Module(ModuleItem {
                entry,
                index,
                fields,
                codeview: fields.cv_record.classify(size),
                misc: fields.misc_record.classify(size),
                name: lent_name(buffer, held.name),
            })
        }
        StreamKind::Memory => Item::Range(RangeItem::new(entry, index, get_at(bytes, 0), size)),
        StreamKind::Exception => Item::Exception(ExceptionItem::new(
            entry,
            index,
            get_at(bytes, 0),
            size,
        )),
        StreamKind::System => Item::System(SystemItem {
            entry,
            index,
            fields: get_at(bytes, 0),
            name: lent_name(buffer, held.name),
        }),
        StreamKind::Memory64 => Item::Range(RangeItem::at(
            entry,
            index,
            get_at(bytes, 0),
            held.offset,
            size,
        )),
        StreamKind::Unloaded => Item::Unloaded(UnloadedItem {
            entry,
            index,
            fields: get_at(bytes, 0),
            name: lent_name(buffer, held.name),
        }),
        StreamKind::MemoryInfo => Item::MemoryInfo(MemoryInfoItem {
            entry,
            index,
            fields: get_at(bytes, 0),
        }),
        StreamKind::ThreadNames => Item::ThreadName(ThreadNameItem {
            entry,
            index,
            fields: get_at(bytes, 0),
            name: lent_name(buffer, held.name),
        }),
    }
}

/// The range that is held in these bytes, where it is one, in a file of `size` bytes.
pub(crate) fn held_range(held: &HeldStep, bytes: &[u8], size: u64) -> Option<RangeItem>
    requires { HasItsBytes bytes.now held.now }
    ensures { TellsRange size (step_told bytes.now held.now) result }
{
    match held {
        HeldStep::Record(record) => match record.kind {
            StreamKind::Memory => Some(RangeItem::new(
                record.entry,
                record.index,
                get_at(bytes, 0),
                size,
            )),
            StreamKind::Memory64 => Some(RangeItem::at(
                record.entry,
                record.index,
                get_at(bytes, 0),
                record.offset,
                size,
            )),
            _ => None,
        },
        HeldStep::Stream(_) => None,
    }
}
