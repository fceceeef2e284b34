//! What a summary is.

use crate::bad_entries::BadEntries;
use crate::context::Registers;
use crate::gathering::ItemCounts;
use crate::part::PartsOutside;
use crate::reach::Reached;
use mdmp_lister::{ExceptionItem, ListFault, OpenFault};
use mdmp_source::SourceFault;
use mdmp_wire::{Header, ModuleRecord, SystemRecord, ThreadNameRecord};

/// A module, and an address at its base or above it.
#[derive(Clone, Copy, Debug, PartialEq, Eq)]
pub struct PlaceInModule {
    /// The record of the module.
    pub fields: ModuleRecord,
    /// How many bytes the address is above `BaseOfImage`.
    pub offset: u64,
}

/// The crash of a dump: the first exception record that is one.
#[derive(Clone, Copy, Debug, PartialEq, Eq)]
pub struct Crash {
    /// The record, and the extent of its `ThreadContext`.
    pub exception: ExceptionItem,
    /// The registers of the thread. There are none if its context lies outside the file, or if its layout is
    /// not known.
    pub registers: Option<Registers>,
    /// The address that ran: on Windows `ExceptionAddress`, on other systems the instruction pointer, or
    /// `ExceptionAddress` if there are no registers.
    pub address: u64,
    /// The address that the thread tried to reach, if the code tells it.
    pub reached: Option<Reached>,
    /// The first module that holds the address that ran.
    pub holder: Option<PlaceInModule>,
    /// If no module holds the address that ran: the module with the greatest base at or below it.
    pub near: Option<PlaceInModule>,
    /// The first name of the thread.
    pub thread_name: Option<ThreadNameRecord>,
}

/// What a dump tells of a crash and of itself. A name is an RVA here: mdmp_lister reads it.
///
/// It covers all entries, each up to its own error.
#[derive(Clone, Copy, Debug, PartialEq, Eq)]
pub struct FileSummary {
    /// The header of the file.
    pub header: Header,
    /// The first system record.
    pub system: Option<SystemRecord>,
    /// The first module: the program.
    pub program: Option<ModuleRecord>,
    /// The crash, if there is one.
    pub crash: Option<Crash>,
    /// How many items of each kind there are.
    pub counts: ItemCounts,
    /// The parts of records that lie outside the file.
    pub outside: PartsOutside,
    /// The entries with an error, which are those that `check` calls bad.
    pub bad: BadEntries,
}

/// Why there is no summary.
#[derive(Clone, Copy, Debug, PartialEq, Eq)]
pub enum SummaryFault {
    /// The file can't be listed at all.
    Opening(OpenFault),
    /// Bytes that an entry needs were not read: the store failed, or the read limit was reached.
    List(ListFault),
    /// The store failed while the registers were read.
    Source(SourceFault),
}
