//! A dump, and its streams.

use crate::bytes::Bytes;
use crate::exception::Exception;
use crate::memory::MemoryRange;
use crate::memory64::Memory64Range;
use crate::module::Module;
use crate::records::Records;
use crate::system::System;
use crate::thread::Thread;
use crate::thread_name::ThreadName;
use crate::unloaded::Unloaded;
use mdmp_lister::StreamKind;
use mdmp_wire::MemoryInfoRecord;
use std::alloc::Allocator;

/// A stream of a dump. The number is that of its type, the `StreamType` of a file's directory.
#[derive(Drop)]
#[derive_where(Debug, PartialEq, Eq)]
pub enum Stream<A: Allocator> {
    /// `UnusedStream`, 0: an entry of the directory that names nothing.
    Unused,
    /// `ThreadListStream`, 3.
    Threads(Records<Thread<A>, A>),
    /// `ModuleListStream`, 4.
    Modules(Records<Module<A>, A>),
    /// `MemoryListStream`, 5.
    Memory(Records<MemoryRange<A>, A>),
    /// `ExceptionStream`, 6.
    Exception(Exception<A>),
    /// `SystemInfoStream`, 7.
    System(System<A>),
    /// `Memory64ListStream`, 9.
    Memory64(Records<Memory64Range<A>, A>),
    /// `UnloadedModuleListStream`, 14.
    Unloaded(Records<Unloaded<A>, A>),
    /// `MemoryInfoListStream`, 16.
    MemoryInfo(Records<MemoryInfoRecord, A>),
    /// `ThreadNamesStream`, 24.
    ThreadNames(Records<ThreadName<A>, A>),
    /// A stream of another type, which comes first, and its bytes.
    Raw(u32, Bytes<A>),
}

// By the records of a stream, whose kinds stand here once: those of a list, as a slice, and a single
// record. Their types differ, so that no function can hand them out.
macro_rules! by_records {
    (
        $stream:expr, $kind:ident,
        list $records:ident => $of_list:expr,
        single $record:ident => $of_single:expr,
        $($others:tt)*
    ) => {
        by_records!(
            @kinds [Threads, Modules, Memory, Memory64, Unloaded, MemoryInfo, ThreadNames]
            [Exception, System]
            $stream, $kind, $records => $of_list, $record => $of_single, $($others)*
        )
    };
    (
        @kinds [$($list:ident),*] [$($single:ident),*]
        $stream:expr, $kind:ident, $records:ident => $of_list:expr, $record:ident => $of_single:expr,
        $($others:tt)*
    ) => {
        match $stream {
            $(Stream::$list(list) => {
                let $kind = StreamKind::$list;
                let $records = list.as_slice();
                $of_list
            })*
            $(Stream::$single($record) => {
                let $kind = StreamKind::$single;
                $of_single
            })*
            $($others)*
        }
    };
}

pub(crate) use by_records;

/// A minidump as a value.
#[derive(Drop)]
#[derive_where(Debug, PartialEq, Eq)]
pub struct Dump<A: Allocator> {
    /// The high half of the header's `Version`, which belongs to the producer.
    pub version_high: u16,
    /// The header's `CheckSum`.
    pub checksum: u32,
    /// The header's `TimeDateStamp`, in seconds since 1970.
    pub time: u32,
    /// The header's `Flags`.
    pub flags: u64,
    /// The streams, in the order of the directory.
    pub streams: Records<Stream<A>, A>,
}
