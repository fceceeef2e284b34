//! The listing of a minidump: which records a file has, and where its first bad location is.
//!
//! A listing gives an [`Item`] for each chosen entry of the directory, in the order of the
//! directory, and behind it one for each record of that entry's stream. It ends behind the last
//! chosen entry, or at the first [`ListFault`], which names the entry, the item and the bytes that
//! are bad.
//! The definitions in `specs/Format` say exactly which items those are: `Listing.antt` first, and
//! under it `Kind` and `Shape` (which streams have records, and where those stand), `Item` (what a
//! record gives), `Name` and `Refusal` (which files can't be listed at all).
//!
//! [`Lister`] lists a file through a window, one item at a time or all of them into a [`Sink`], or hands
//! the verdict on each entry, its first fault or none, to a [`VerdictSink`]; [`Choice`] says which
//! entries are listed, [`Limits`] how long the window and a name may be. The ranges of memory that were
//! given are kept in a map: [`Lister::read_address`] reads memory by it.
//! [`Lister::read_part`] reads any bytes of the file, beside the listing. A [`Walker`] keeps no such map, and
//! goes to any entry.
//! [`name_at`] and [`shape_of`] read a name and where the records of a stream stand, of a file that is
//! wholly in memory.
//!
//! ```text
//! let source = Source::new(FileStore::open(rt, "crash.dmp")?);
//! let mut lister = match Lister::open(alloc, source, Limits::default(), Choice::All) {
//!     Ok(lister) => lister,
//!     Err(refused) => return Err(refused.fault),
//! };
//! while let Some(item) = lister.next()? {
//!     if let Item::Module(module) = item { .. }
//! }
//! ```
//!
//! `crates/mdmp_lister_tests` lists files so.
#![tactic(auto)]

mod addressing;
mod calls;
mod checking;
mod choice;
mod codeview;
mod counting;
mod counts;
mod fault;
mod fetching;
mod form;
mod head;
mod held_step;
mod holding;
mod item;
mod kind;
mod last_read;
mod laws;
mod limits;
mod lister;
mod meter;
mod name;
mod name_buffer;
mod name_field;
mod next_read;
mod opening;
mod position;
mod range_map;
mod ranging;
mod record_reading;
mod shape;
mod sink;
mod stage;
mod step;
mod stop_at;
mod stream_head;
mod verdict;
mod walk;
mod walker;

pub use crate::choice::{Choice, TypeSet};
pub use crate::codeview::CodeViewBytes;
pub use crate::counts::Counts;
pub use crate::fault::{Fault, FaultKind, ListFault, OpenFault};
pub use crate::fetching::NameRead;
pub use crate::form::Form;
pub use crate::item::{
    ExceptionItem, Item, MemoryInfoItem, ModuleItem, RangeItem, StreamItem, SystemItem, ThreadItem,
    ThreadNameItem, UnloadedItem, range_extent,
};
pub use crate::kind::StreamKind;
pub use crate::laws::{listing_ends_at_the_first_bad_verdict, listing_of_a_choice};
pub use crate::limits::Limits;
pub use crate::lister::Lister;
pub use crate::name::{Name, name_at};
pub use crate::opening::{OpenRefused, header_of};
pub use crate::shape::{Shape, shape_of};
pub use crate::sink::{RunFault, Sink, Stopped, VerdictSink};
pub use crate::step::{ItemRead, RecordRead, Step};
pub use crate::stop_at::StopAt;
pub use crate::verdict::Verdict;
pub use crate::walker::Walker;
