//! The structures of a minidump as they stand in a file, read and written.
//!
//! A [`Record`] is a structure of fixed size. The doc of each names the structure of minidumpapiset.h that
//! it is, and its fields have that structure's order; `read` and `write` are two tables of the same
//! offsets. The fields of a
//! record are records too, down to the numbers, which stand with their lowest byte first.
//!
//! Names are UTF-16: [`UnitsRef`] lends their units from the bytes of a file and [`Units`] owns
//! them. [`CodeView`] is what a module tells of its debug information. [`hex_digits`],
//! [`UnitsRef::escape_at`] and [`UnitsRef::escape_into`] are for printing; only the last needs an
//! output.
//!
//! ```text
//! let header = Header::check(&head)?;
//! let entry = Entry::read(&directory[..Entry::SIZE]);
//! let name = UnitsRef::over(&units).to_utf8(alloc)?;
//! ```
//!
//! `crates/mdmp_base_tests` makes these calls, and `crates/mdmp_example_modules` prints names.
#![tactic(auto)]

mod any_record;
mod codeview;
mod descriptor;
mod descriptor64;
mod digits;
mod entry;
mod escape;
mod exception;
mod header;
mod header_fault;
mod location;
mod memory64_list;
mod memory_info;
mod memory_info_list;
mod module;
mod number;
mod plain_run;
mod record;
mod slot;
mod system;
mod thread;
mod thread_name;
mod units;
mod units_ref;
mod unloaded;
mod unloaded_list;
mod version;

pub use crate::any_record::AnyRecord;
pub use crate::codeview::CodeView;
pub use crate::descriptor::Descriptor;
pub use crate::descriptor64::Descriptor64;
pub use crate::digits::hex_digits;
pub use crate::entry::Entry;
pub use crate::exception::ExceptionRecord;
pub use crate::header::Header;
pub use crate::header_fault::HeaderFault;
pub use crate::memory_info::MemoryInfoRecord;
pub use crate::memory_info_list::MemoryInfoList;
pub use crate::memory64_list::Memory64List;
pub use crate::module::ModuleRecord;
pub use crate::record::{Record, get_at, put_at};
pub use crate::slot::{PartName, Slot};
pub use crate::system::SystemRecord;
pub use crate::thread::ThreadRecord;
pub use crate::thread_name::ThreadNameRecord;
pub use crate::units::{Units, text_survives_utf16};
pub use crate::units_ref::UnitsRef;
pub use crate::unloaded::UnloadedRecord;
pub use crate::unloaded_list::UnloadedList;
pub use crate::version::VersionInfo;
