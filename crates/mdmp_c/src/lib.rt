//! The calls of `mdmp` for programs in other languages: `include/mdmp.h` declares them for C.
//!
//! Each call reads a file that is in the caller's memory, and writes its result into memory of the
//! caller: a text, an array of plain structures, or bytes. No call keeps anything, so any number of calls
//! may run at once over the same file. Before a call returns, it frees what it allocated.
//!
//! A call returns a status: 0 if all is good, 1 for an error in the file, 2 for a bad argument, 3 if memory ran out, 4 if the
//! buffer is too short, 5 if a limit was reached. [`PlainFault`] says what is wrong, and at which bytes.
//! [`PlainLimits`] limit what is read at a time, what is read in all, and memory. If a limit is reached, the call gives what
//! it read before, or nothing. `specs/Limits.antt` says when a call may say so.
//!
//! The contracts of these calls use the definitions of the Rust crates: those of mdmp_engines for a text, the listing of
//! mdmp_lister for a record. `specs/Giving.antt` says how a result reaches the caller.
#![tactic(auto)]

ghost use Rattle.std.specs.Prelude.{◌≡◌};

mod addressing;
mod collecting;
mod copy;
mod directory;
mod fault;
mod fault_text;
mod given_rows;
mod giving;
mod header_rows;
mod ids;
mod index;
mod kinds;
mod limits;
mod list_part;
mod memory;
mod name;
mod naming;
mod parts;
mod parts_outside;
mod ranging;
mod records;
mod rows;
mod summary;
mod summary_modules;
mod summary_rows;
mod symbols;
mod table;
mod text_part;
mod texts;
mod told_fault;
mod tool_fault;
mod verdicts;
mod wording;

pub use crate::copy::mdmp_copy_;
pub use crate::directory::{mdmp_header_, mdmp_streams_};
pub use crate::fault::{NO_FAULT, PlainFault};
pub use crate::fault_text::mdmp_fault_text_;
pub use crate::header_rows::{HeaderRow, StreamRow};
pub use crate::ids::{ModuleIds, mdmp_ids_};
pub use crate::index::{NO_OWNER, mdmp_index_, mdmp_index_modules_, mdmp_read_index_, mdmp_where_};
pub use crate::limits::PlainLimits;
pub use crate::list_part::mdmp_list_part_;
pub use crate::memory::{mdmp_memory_, mdmp_read_};
pub use crate::name::mdmp_name_;
pub use crate::parts::{NamePlace, PartPlace};
pub use crate::parts_outside::mdmp_parts_outside_;
pub use crate::records::{
    mdmp_exceptions_, mdmp_modules_, mdmp_ranges_, mdmp_regions_, mdmp_systems_,
    mdmp_thread_names_, mdmp_threads_, mdmp_unloaded_,
};
pub use crate::rows::{
    ExceptionRow, ModuleRow, RangeRow, RegionRow, SystemRow, ThreadNameRow, ThreadRow, UnloadedRow,
};
pub use crate::summary::mdmp_summary_;
pub use crate::summary_modules::{PlaceInModuleRow, SummaryModuleRow, SummarySystemRow};
pub use crate::summary_rows::{CountsRow, CrashRow, RegistersRow, SummaryRow};
pub use crate::symbols::{Symbols, mdmp_symbols_};
pub use crate::texts::{mdmp_check_, mdmp_check_json_, mdmp_list_, mdmp_list_json_};
pub use crate::verdicts::mdmp_verdicts_;
pub use mdmp_index::IndexSlot;

/// The number of the C interface, which the header has as `MDMP_ABI`. Until the first release it stays, even if a call
/// changes.
pub const ABI: u32 = 2;

/// The version of the library, 0.1.0: major, minor and patch, a byte each.
pub const VERSION: u32 = 0x000100;

/// Returns [`ABI`], which a caller compares with that of its header.
#[unsafe(no_mangle)]
pub extern "C" fn mdmp_abi() -> u32
    ensures { result ≡ 2 }
{
    ABI
}

/// Returns [`VERSION`].
#[unsafe(no_mangle)]
pub extern "C" fn mdmp_version() -> u32
    ensures { result ≡ 256 }
{
    VERSION
}
