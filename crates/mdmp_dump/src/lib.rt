//! A minidump as a value.
//!
//! A [`Dump`] has the header's own numbers and its streams, in the order of the directory. A
//! [`Stream`] whose records are known has them as values, one type for each kind ([`Thread`],
//! [`Module`] ..); any other has its bytes. A record of a dump has the fields of the structure that
//! it is in a file, but where that says where a name or a part stands, it has the name's units or
//! the part itself, a [`Part`]. [`Bytes`] and [`Records`] are lists in memory of their own.
//!
//! [`read_dump`] reads a file into a dump; [`ReadFault`] says why a file gives none. [`read_source`]
//! also hands the source back. A limit on parts bounds their bytes, and not how many records or names
//! a dump has: a file may name one list many times.
//!
//! ```text
//! for stream in &dump.streams {
//!     if let Stream::Modules(modules) = stream {
//!         for module in modules {
//!             println!(rt; "{:#x} {:?}", module.base_of_image, module.name)?;
//!         }
//!     }
//! }
//! ```
//!
//! `crates/mdmp_example_modules` is the whole of it, and is run.
//!
//! A [`DumpView`] is a dump given a record at a time, so that what takes one, as a writer does, need
//! not hold it: of each stream the records, with 0 for their locations, and behind each the bytes of
//! its name and its parts. [`Dump::view`] is that of a value, a [`ValueView`], which never answers a
//! fault. [`FileView::open`] opens that of a file, a [`FileView`], which holds a window and 24 bytes for
//! each entry of the directory; where it can't be opened, [`ViewRefused`] has the source too. What a
//! view gives of a dump is defined in `specs/View.antt`.
//!
//! The definitions in `specs/LaysOut.antt` say when a file lays out a dump, those in
//! `specs/Refusal.antt` why it gives none, and those in `specs/FileRefusal.antt` why it gives no view.
//! Six laws are functions that do nothing: [`a_file_lays_out_one_dump`], [`a_choice_lays_out_a_part`],
//! [`a_dump_within_limits_is_read`], [`the_numbers_of_a_dump_fit`], [`a_file_that_is_read_is_viewed`]
//! and [`a_file_that_is_viewed_lays_out_a_dump`].
#![tactic(auto)]

mod body;
mod bytes;
mod dump;
mod entry_walk;
mod exception;
mod fault;
mod file_view;
mod found_record;
mod given;
mod laws;
mod memory;
mod memory64;
mod memory_info;
mod module;
mod part;
mod pass;
mod placed;
mod proof_hints;
mod read;
mod reader;
mod record_parts;
mod records;
mod row;
mod stream_walk;
mod system;
mod thread;
mod thread_name;
mod unloaded;
mod value_view;
mod view;

pub use crate::bytes::Bytes;
pub use crate::dump::{Dump, Stream};
pub use crate::entry_walk::ViewRefused;
pub use crate::exception::Exception;
pub use crate::fault::{PartName, ReadFault};
pub use crate::file_view::FileView;
pub use crate::laws::{
    a_choice_lays_out_a_part, a_dump_within_limits_is_read, a_file_lays_out_one_dump,
    a_file_that_is_read_is_viewed, a_file_that_is_viewed_lays_out_a_dump,
    the_numbers_of_a_dump_fit,
};
pub use crate::memory::MemoryRange;
pub use crate::memory64::Memory64Range;
pub use crate::module::Module;
pub use crate::part::{Part, PositiveSize};
pub use crate::read::{ReadAnswered, read_dump, read_source};
pub use crate::records::Records;
pub use crate::system::System;
pub use crate::thread::Thread;
pub use crate::thread_name::ThreadName;
pub use crate::unloaded::Unloaded;
pub use crate::value_view::ValueView;
pub use crate::view::{DumpView, Fields, HeaderFields, Kind, PartSize, ViewFault};
