//! What a listing gives.
ghost use Rattle.std.specs.Prelude.{◌≡◌};
ghost use Rattle.mdmp_lister.specs.Format.Item.{range_extent_of};

use crate::name::Name;
use mdmp_source::{Extent, Location};
use mdmp_wire::{
    Descriptor, Descriptor64, ExceptionRecord, MemoryInfoRecord, ModuleRecord, SystemRecord,
    ThreadNameRecord, ThreadRecord, UnloadedRecord,
};

/// An entry of the directory, `MINIDUMP_DIRECTORY`: the items of its stream follow this one.
#[derive(Clone, Copy, Debug, PartialEq, Eq)]
pub struct StreamItem {
    /// The number of the entry in the directory, from 0.
    pub entry: u32,
    /// `StreamType`, 0 where the entry is unused.
    pub stream_type: u32,
    /// `Location`, of the whole stream. Of an unused entry it is what stands there, and says nothing.
    pub location: Location,
}

/// A thread, `MINIDUMP_THREAD`.
#[derive(Clone, Copy, Debug, PartialEq, Eq)]
pub struct ThreadItem {
    /// The number of the entry in the directory, from 0.
    pub entry: u32,
    /// The index of the record in its stream, from 0.
    pub index: u64,
    /// The record as it stands in the file.
    pub fields: ThreadRecord,
    /// What the location of its `Stack` names.
    pub stack: Extent,
    /// What its `ThreadContext` names.
    pub context: Extent,
}

impl ThreadItem {
    ghost use Rattle.std.specs.Prelude.{◌≡◌};
    ghost use Rattle.mdmp_lister.specs.Format.Item.{thread_item};

    /// The item of a record, in a file of `size` bytes.
    pub(crate) fn new(entry: u32, index: u64, fields: ThreadRecord, size: u64) -> Self
        ensures { result ≡ thread_item size entry index fields }
    {
        ThreadItem {
            entry,
            index,
            fields,
            stack: fields.stack.memory.classify(size),
            context: fields.thread_context.classify(size),
        }
    }
}

/// A module, `MINIDUMP_MODULE`.
#[derive(Debug, Drop, PartialEq, Eq)]
pub struct ModuleItem<'a> {
    /// The number of the entry in the directory, from 0.
    pub entry: u32,
    /// The index of the record in its stream, from 0.
    pub index: u64,
    /// The record as it stands in the file.
    pub fields: ModuleRecord,
    /// What its `CvRecord` names.
    pub codeview: Extent,
    /// What its `MiscRecord` names.
    pub misc: Extent,
    /// The name at its `ModuleNameRva`.
    pub name: Name<'a>,
}

/// A module that was unloaded, `MINIDUMP_UNLOADED_MODULE`.
#[derive(Debug, Drop, PartialEq, Eq)]
pub struct UnloadedItem<'a> {
    /// The number of the entry in the directory, from 0.
    pub entry: u32,
    /// The index of the record in its stream, from 0.
    pub index: u64,
    /// The record as it stands in the file.
    pub fields: UnloadedRecord,
    /// The name at its `ModuleNameRva`.
    pub name: Name<'a>,
}

/// The exception, `MINIDUMP_EXCEPTION_STREAM`.
#[derive(Clone, Copy, Debug, PartialEq, Eq)]
pub struct ExceptionItem {
    /// The number of the entry in the directory, from 0.
    pub entry: u32,
    /// The index of the record in its stream: 0.
    pub index: u64,
    /// The record as it stands in the file.
    pub fields: ExceptionRecord,
    /// What its `ThreadContext` names.
    pub context: Extent,
}

impl ExceptionItem {
    ghost use Rattle.std.specs.Prelude.{◌≡◌};
    ghost use Rattle.mdmp_lister.specs.Format.Item.{exception_item};

    /// The item of a record, in a file of `size` bytes.
    pub(crate) fn new(entry: u32, index: u64, fields: ExceptionRecord, size: u64) -> Self
        ensures { result ≡ exception_item size entry index fields }
    {
        ExceptionItem {
            entry,
            index,
            fields,
            context: fields.thread_context.classify(size),
        }
    }
}

/// The system, `MINIDUMP_SYSTEM_INFO`.
#[derive(Debug, Drop, PartialEq, Eq)]
pub struct SystemItem<'a> {
    /// The number of the entry in the directory, from 0.
    pub entry: u32,
    /// The index of the record in its stream: 0.
    pub index: u64,
    /// The record as it stands in the file.
    pub fields: SystemRecord,
    /// The name at its `CSDVersionRva`, of the service pack.
    pub name: Name<'a>,
}

/// A region of memory, `MINIDUMP_MEMORY_INFO`.
#[derive(Clone, Copy, Debug, PartialEq, Eq)]
pub struct MemoryInfoItem {
    /// The number of the entry in the directory, from 0.
    pub entry: u32,
    /// The index of the record in its stream, from 0.
    pub index: u64,
    /// The record as it stands in the file.
    pub fields: MemoryInfoRecord,
}

/// The name of a thread, `MINIDUMP_THREAD_NAME`.
#[derive(Debug, Drop, PartialEq, Eq)]
pub struct ThreadNameItem<'a> {
    /// The number of the entry in the directory, from 0.
    pub entry: u32,
    /// The index of the record in its stream, from 0.
    pub index: u64,
    /// The record as it stands in the file.
    pub fields: ThreadNameRecord,
    /// The name at its `RvaOfThreadName`.
    pub name: Name<'a>,
}

/// A range of memory, of a `MINIDUMP_MEMORY_LIST` or a `MINIDUMP_MEMORY64_LIST`.
#[derive(Clone, Copy, Debug, PartialEq, Eq)]
pub struct RangeItem {
    /// The number of the entry in the directory, from 0.
    pub entry: u32,
    /// The index of the descriptor in its stream, from 0.
    pub index: u64,
    /// `StartOfMemoryRange`, an address of the dumped process.
    pub start: u64,
    /// How many bytes it has.
    pub size: u64,
    /// What its bytes are in the file. A range of a `MINIDUMP_MEMORY64_LIST` is never absent.
    pub extent: Extent,
    /// Where its bytes stand, an offset from the start of the file. Those of a
    /// `MINIDUMP_MEMORY64_LIST` stand behind the bytes of the ranges before it, so that the offset
    /// may be greater than any file is long.
    pub offset: u128,
}

impl RangeItem {
    ghost use Rattle.std.specs.Prelude.{◌≡◌};
    ghost use Rattle.mdmp_lister.specs.Format.Item.{range64_item, range_item};
    ghost use Rattle.mdmp_lister.specs.Format.Ranges.{IsRangeItem};

    /// The item of a range that says where its bytes stand, in a file of `size` bytes.
    pub(crate) fn new(entry: u32, index: u64, fields: Descriptor, size: u64) -> Self
        ensures { IsRangeItem size (range_item size entry index fields) result }
    {
        RangeItem {
            entry,
            index,
            start: fields.start_of_memory_range,
            size: u64::from(fields.memory.size),
            extent: fields.memory.classify(size),
            offset: u128::from(fields.memory.rva),
        }
    }

    /// The item of a range whose bytes stand at an offset, in a file of `size` bytes.
    pub(crate) fn at(entry: u32, index: u64, fields: Descriptor64, offset: u128, size: u64) -> Self
        ensures { IsRangeItem size (range64_item size entry index fields offset) result }
    {
        RangeItem {
            entry,
            index,
            start: fields.start_of_memory_range,
            size: fields.data_size,
            extent: range_extent(offset, fields.data_size, size),
            offset,
        }
    }
}

/// What `len` bytes at an offset are in a file of `size` bytes. They are never absent.
pub fn range_extent(offset: u128, len: u64, size: u64) -> Extent
    ensures { result ≡ range_extent_of offset len size }
{
    if len == 0 {
        Extent::Empty
    } else if offset <= u128::from(size) && u128::from(len) <= u128::from(size) - offset {
        Extent::Inside
    } else {
        Extent::Outside
    }
}

/// What a listing gives, one at a time: an entry of the directory, and then its records.
#[derive(Debug, Drop, PartialEq, Eq)]
pub enum Item<'a> {
    /// An entry of the directory.
    Stream(StreamItem),
    /// A thread.
    Thread(ThreadItem),
    /// A module.
    Module(ModuleItem<'a>),
    /// A module that was unloaded.
    Unloaded(UnloadedItem<'a>),
    /// The exception.
    Exception(ExceptionItem),
    /// The system.
    System(SystemItem<'a>),
    /// A region of memory.
    MemoryInfo(MemoryInfoItem),
    /// The name of a thread.
    ThreadName(ThreadNameItem<'a>),
    /// A range of memory.
    Range(RangeItem),
}

/// The name of an item of a kind without names.
static NO_NAME: Name<'static> = Name::None;

/// What is asked of an item whatever its kind.
#[derive(Drop)]
struct ItemHead<'i, 'a> {
    entry: u32,
    index: u64,
    name: &'i Name<'a>,
}

impl<'a> Item<'a> {
    ghost use Rattle.std.specs.Prelude.{◌≡◌};
    ghost use Rattle.mdmp_lister.specs.Format.Summary.{summary_of};

    /// The number of its entry in the directory, from 0.
    pub fn entry(&self) -> u32
        ensures { result ≡ (summary_of self.now).entry }
    {
        self.head().entry
    }

    /// The index of its record in the stream, from 0; that of an entry of the directory is 0.
    pub fn index(&self) -> u64
        ensures { result ≡ (summary_of self.now).index }
    {
        self.head().index
    }

    /// Its name; that of a kind without names is `Name::None`.
    pub fn name(&self) -> &Name<'a>
        ensures { result.now ≡ (summary_of self.now).name }
    {
        self.head().name
    }

    fn head(&self) -> ItemHead<'_, 'a>
        ensures entry { result.entry ≡ (summary_of self.now).entry }
        ensures index { result.index ≡ (summary_of self.now).index }
        ensures name { result.name.now ≡ (summary_of self.now).name }
    {
        let (entry, index, name) = match self {
            Item::Stream(x) => (x.entry, 0, &NO_NAME),
            Item::Thread(x) => (x.entry, x.index, &NO_NAME),
            Item::Module(x) => (x.entry, x.index, &x.name),
            Item::Unloaded(x) => (x.entry, x.index, &x.name),
            Item::Exception(x) => (x.entry, x.index, &NO_NAME),
            Item::System(x) => (x.entry, x.index, &x.name),
            Item::MemoryInfo(x) => (x.entry, x.index, &NO_NAME),
            Item::ThreadName(x) => (x.entry, x.index, &x.name),
            Item::Range(x) => (x.entry, x.index, &NO_NAME),
        };
        ItemHead { entry, index, name }
    }
}
