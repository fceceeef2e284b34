//! What a minidump tells of a crash, in one call.
//!
//! [`summarize`] reads a file in two passes and gives its [`FileSummary`]: the crash, with its thread, the
//! registers and the module at the address that ran; the system; how much the file has; the entries with
//! an error; and the parts that lie outside the file. `specs/Summary.antt` defines it.
//! [`summarize_listing`] does the same with a [`Walker`](mdmp_lister::Walker) that is open.
//!
//! A pass goes over all entries, each up to its own error, as `check` does. So an entry with an error hides
//! nothing of the entries after it.
//!
//! [`registers_in`] reads three registers of a CPU context. [`CodeId`], [`BuildId`], [`Pdb20`] and
//! [`DebugIdentifier`] are the ids by which a symbol server knows a module.
//!
//! ```text
//! let source = Source::new(FileStore::open(rt, "crash.dmp")?);
//! let summary = summarize(alloc, source, Limits::default())?;
//! if let Some(crash) = summary.crash { .. }
//! ```
#![tactic(auto)]

mod bad_entries;
mod check_row;
mod checking;
mod codeview_reading;
mod context;
mod context_reading;
mod crash;
mod gathering;
mod identity;
mod keeping;
mod lost_parts;
mod part;
mod passes;
mod reach;
mod row_maker;
mod search;
mod summary;
mod summing;
mod visiting;
mod walking;

pub use crate::bad_entries::BadEntries;
pub use crate::check_row::{CheckRow, CheckRowSink, EntryRow};
pub use crate::checking::check_parts_into;
pub use crate::codeview_reading::{SymbolsRead, read_symbols};
pub use crate::context::{Registers, first_bytes_suffice, registers_in};
pub use crate::context_reading::read_registers;
pub use crate::crash::Platform;
pub use crate::gathering::ItemCounts;
pub use crate::identity::{BuildId, CodeId, DebugIdentifier, Pdb20};
pub use crate::lost_parts::LostParts;
pub use crate::part::{PartOutside, PartsOutside};
pub use crate::reach::{AccessKind, Reached};
pub use crate::summary::{Crash, FileSummary, PlaceInModule, SummaryFault};
pub use crate::summing::{summarize, summarize_listing};
pub use crate::visiting::{VisitEnd, VisitFault, Visitor};
pub use crate::walking::visit_all;
