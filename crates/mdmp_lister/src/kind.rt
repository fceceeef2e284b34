//! Which streams have records here: the type, the form and the records of each.
ghost use Rattle.std.specs.Prelude.{◌≡◌, ◌≤◌, ◌<◌};
ghost use Rattle.mdmp_lister.specs.Format.Kind.{form_of, greatest_record, has_names, is_memory64, kind_of, kind_row, name_field, lists_ranges, record_size, type_of_kind};
ghost use Rattle.mdmp_lister.specs.Walk.Owing.{ranges_by};

use crate::form::Form;
use crate::name_field::NameField;
use mdmp_wire::{
    Descriptor, Descriptor64, ExceptionRecord, MemoryInfoRecord, ModuleRecord, Record,
    SystemRecord, ThreadNameRecord, ThreadRecord, UnloadedRecord,
};

/// The streams whose records are listed, with their `MINIDUMP_STREAM_TYPE`. Of an entry of another
/// type its location alone is listed: such a stream is opaque, and `UnusedStream`, 0, is none.
#[derive(Clone, Copy, Debug, PartialEq, Eq)]
pub enum StreamKind {
    /// `ThreadListStream`, 3.
    Threads,
    /// `ModuleListStream`, 4.
    Modules,
    /// `MemoryListStream`, 5.
    Memory,
    /// `ExceptionStream`, 6.
    Exception,
    /// `SystemInfoStream`, 7.
    System,
    /// `Memory64ListStream`, 9.
    Memory64,
    /// `UnloadedModuleListStream`, 14.
    Unloaded,
    /// `MemoryInfoListStream`, 16.
    MemoryInfo,
    /// `ThreadNamesStream`, 24.
    ThreadNames,
}

/// What the table of kinds has of one.
#[derive(Clone, Copy)]
pub(crate) struct KindRow {
    /// The type of its streams: `StreamType` of their entries.
    pub(crate) stream_type: u32,
    /// What stands before its records.
    pub(crate) form: Form,
    /// How many bytes a record has.
    pub(crate) record_size: u32,
    /// The field of a record that says where its name stands, if records of its kind have names.
    pub(crate) name: Option<NameField>,
    /// Whether its records are ranges of memory.
    pub(crate) lists_ranges: bool,
}

impl StreamKind {
    /// Its row of the table.
    fn row(self) -> KindRow
        ensures { result ≡ kind_row self }
    {
        match self {
            StreamKind::Threads => KindRow {
                stream_type: 3,
                form: Form::Counted,
                record_size: ThreadRecord::SIZE as u32,
                name: None,
                lists_ranges: false,
            },
            StreamKind::Modules => KindRow {
                stream_type: 4,
                form: Form::Counted,
                record_size: ModuleRecord::SIZE as u32,
                name: Some(NameField::Rva(20)),
                lists_ranges: false,
            },
            StreamKind::Memory => KindRow {
                stream_type: 5,
                form: Form::Counted,
                record_size: Descriptor::SIZE as u32,
                name: None,
                lists_ranges: true,
            },
            StreamKind::Exception => KindRow {
                stream_type: 6,
                form: Form::Single,
                record_size: ExceptionRecord::SIZE as u32,
                name: None,
                lists_ranges: false,
            },
            StreamKind::System => KindRow {
                stream_type: 7,
                form: Form::Single,
                record_size: SystemRecord::SIZE as u32,
                name: Some(NameField::Rva(24)),
                lists_ranges: false,
            },
            StreamKind::Memory64 => KindRow {
                stream_type: 9,
                form: Form::Ranges64,
                record_size: Descriptor64::SIZE as u32,
                name: None,
                lists_ranges: true,
            },
            StreamKind::Unloaded => KindRow {
                stream_type: 14,
                form: Form::Sized32,
                record_size: UnloadedRecord::SIZE as u32,
                name: Some(NameField::Rva(20)),
                lists_ranges: false,
            },
            StreamKind::MemoryInfo => KindRow {
                stream_type: 16,
                form: Form::Sized64,
                record_size: MemoryInfoRecord::SIZE as u32,
                name: None,
                lists_ranges: false,
            },
            StreamKind::ThreadNames => KindRow {
                stream_type: 24,
                form: Form::Counted,
                record_size: ThreadNameRecord::SIZE as u32,
                name: Some(NameField::Rva64(4)),
                lists_ranges: false,
            },
        }
    }

    /// The kind of a stream type, or none where the type is opaque or `UnusedStream`, 0.
    pub fn of_type(stream_type: u32) -> Option<StreamKind>
        ensures { result ≡ kind_of stream_type }
    {
        match stream_type {
            3 => Some(StreamKind::Threads),
            4 => Some(StreamKind::Modules),
            5 => Some(StreamKind::Memory),
            6 => Some(StreamKind::Exception),
            7 => Some(StreamKind::System),
            9 => Some(StreamKind::Memory64),
            14 => Some(StreamKind::Unloaded),
            16 => Some(StreamKind::MemoryInfo),
            24 => Some(StreamKind::ThreadNames),
            _ => None,
        }
    }

    /// The type of its streams: `StreamType` of their entries.
    pub fn stream_type(self) -> u32
        ensures { result ≡ type_of_kind self }
    {
        self.row().stream_type
    }

    /// What stands before its records.
    pub fn form(self) -> Form
        ensures { result ≡ form_of self }
    {
        self.row().form
    }

    /// How many bytes a record has.
    #[tactic(auto, using(crate::specs::Format::KindLaws::least_record, crate::specs::Format::KindLaws::most_record))]
    pub fn record_size(self) -> u32
        ensures value { result ≡ record_size self }
        ensures some { 0 < result }
        ensures bound { result ≤ greatest_record }
    {
        self.row().record_size
    }

    /// Whether its records have names.
    pub fn has_names(self) -> bool
        ensures { result ≡ has_names self }
    {
        self.row().name.is_some()
    }

    /// The field of its records that says where their names stand.
    #[inline(always)]
    pub(crate) fn name_field(self) -> Option<NameField>
        ensures { result ≡ name_field self }
    {
        self.row().name
    }

    /// Whether the bytes of its ranges follow one another, and no record says where its own stand.
    pub fn is_memory64(self) -> bool
        ensures { result ≡ is_memory64 self }
    {
        matches!(self, StreamKind::Memory64)
    }

    /// Whether its records are ranges of memory.
    pub(crate) fn lists_ranges(self) -> bool
        ensures { result ≡ lists_ranges self }
    {
        self.row().lists_ranges
    }

    /// How many of `count` records tell a range: all or none.
    pub(crate) fn ranges_by(self, count: u64) -> u64
        ensures { result ≡ ranges_by self count }
    {
        if self.lists_ranges() { count } else { 0 }
    }
}
