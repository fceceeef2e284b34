//! The commands of `mdmp` over stores and outputs: what they print, and the faults that end them.
//!
//! There is one engine for each command. [`run_list`] writes of a good store the text
//! of `specs/Text.antt`, whole or up to the first bad location, and of one that fails the first part
//! of it. [`run_check`] writes the text of `specs/CheckText.antt`, a line for each entry, and answers
//! how many are bad. [`run_check_parts`] writes the text of `specs/CheckParts.antt`, which has a line for each part
//! outside the file too. [`run_hex`] writes the text of `specs/HexText.antt` of mdmp_print, or nothing where the store
//! fails or the file's memory lists have a bad location. [`run_copy`] writes the dump of the streams of some
//! types as a file of its own, a first part of it where the output refuses or the store fails, or
//! nothing. [`list_source`], [`check_source`], [`check_parts_source`], [`hex_source`] and [`copy_source`] do the same
//! over a source, and hand it back. A command that prints is an [`Engine`]; [`run_in_blocks`] runs any of them by few writes.
//! A [`LineForm`] says whether the lines of `list` and `check` are words or objects of JSON
//! (`specs/JsonLines.antt` of mdmp_print); all else is the same. [`objects_are_json_texts`] is the law that of any
//! file these objects are JSON Lines: each is a line of UTF-8 that reads back as it.
//! [`summary_source`] prints the summary of a dump, by `specs/SummaryText.antt` of mdmp_summary_lines. If a read fails, it
//! prints nothing. [`summary_json_source`] prints it as an object, by `specs/SummaryObject.antt`, through blocks.
//! A [`ToolFault`] has the exit status of [`status`] and the line of [`fault_line`]; [`report`] writes the line, and
//! [`report_summary`] with the name of the file in front.
//!
//! It reads no command line and opens no file.
#![tactic(auto)]

mod check;
mod check_engine;
mod check_parts;
mod copy;
mod engine;
mod fault;
mod fault_lines;
mod fault_words;
mod hex;
mod json_law;
mod kept_name;
mod kept_units;
mod list;
mod module_objects;
mod object_passes;
mod outcome;
mod reporting;
mod summary;
mod summary_json;
mod thread_objects;

pub use crate::check::{EntryRows, check_source, run_check};
pub use crate::check_engine::{CheckEngine, CheckedRows, RowLines};
pub use crate::check_parts::{PartRows, bad_in, check_parts_source, run_check_parts};
pub use crate::copy::{copied, copy_source, first_not_copied, run_copy};
pub use crate::engine::{Engine, run_in_blocks};
pub use crate::fault::{ToolFault, status};
pub use crate::fault_lines::fault_line;
pub use crate::hex::{HexEngine, hex_source, run_hex};
pub use crate::json_law::objects_are_json_texts;
pub use crate::list::{ListEngine, list_next, list_source, run_list};
pub use crate::outcome::Outcome;
pub use crate::reporting::{report, report_summary};
pub use crate::summary::summary_source;
pub use crate::summary_json::summary_json_source;
pub use mdmp_dump::{PartName, ReadFault};
pub use mdmp_lister::{FaultKind, Limits, ListFault, OpenFault, TypeSet};
pub use mdmp_print::{LINE_ROOM, LineForm, LineOut, Printer, print_dump};
pub use mdmp_writer::LayoutFault;
