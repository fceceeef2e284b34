//! The command `mdmp`: a command line, run over a disk.
//!
//! [`run_words`] reads the words behind the program's name, by [`invocation_of`] of `mdmp_words`, and runs
//! the command that they ask for. Under it stands a core over a source and two outputs,
//! [`print_and_report`], [`summarize_and_report`] and [`copy_and_report`], whose contract says what is
//! written and told, and the exit status. Under that stand the engines of mdmp_engines, one for each command,
//! which this crate gives out again: [`run_list`], [`run_check`], [`run_check_parts`], [`run_hex`] and [`run_copy`].
#![tactic(auto)]

mod bad_words;
mod printing;
mod program;
mod running;
mod shown;
mod standard_input;
mod standing;
mod summaries;
mod words;

pub use crate::program::{run_args, run_program};
pub use crate::running::{copy_and_report, print_and_report, summarize_and_report};
pub use crate::standing::what_is_copied_stands;
pub use crate::words::{run_on_disk, run_words};
pub use mdmp_engines::{
    CheckEngine, Engine, EntryRows, FaultKind, HexEngine, LINE_ROOM, LayoutFault, Limits, LineForm,
    LineOut, ListEngine, ListFault, OpenFault, Outcome, PartName, PartRows, Printer, ReadFault,
    ToolFault, TypeSet, check_parts_source, check_source, copied, copy_source, fault_line,
    first_not_copied, hex_source, list_next, list_source, objects_are_json_texts, print_dump,
    report, report_summary, run_check, run_check_parts, run_copy, run_hex, run_in_blocks, run_list,
    status, summary_source,
};
pub use mdmp_words::{Command, Invocation, Span, invocation_of};
