//! The summary of a dump, in lines for people or as an object of JSON.
//!
//! [`print_summary`] prints at most ten lines: what crashed and where, what the thread tried to reach, its
//! registers, the program, the system, when the dump was written, how much it has, and whether the file is
//! good. `specs/SummaryText.antt` defines them. [`SummaryNames`] are the names that they tell, which the
//! caller reads from the file.
//!
//! ```text
//! crashpad-one.dmp: SIGSEGV at cpad+0x14d8, thread 22570 "cpad"
//!   code 0x0000000b flags 0x00000001 SEGV_MAPERR
//! ```
//!
//! The object is printed in parts, so that its modules and threads need no memory: [`print_summary_head`]; for each
//! module [`print_module_front`] and [`print_module_ids`]; [`print_threads_front`]; for each thread
//! [`print_thread_object`]; and [`print_summary_end`]. `specs/JsonHead.antt`, `JsonModules`, `JsonIds`, `JsonThreads`
//! and `JsonEnd` define them.
#![tactic(auto)]

mod counts;
mod crash_lines;
mod file_name;
mod health;
mod json_crash;
mod json_end;
mod json_head;
mod json_ids;
mod json_modules;
mod json_system;
mod json_text;
mod json_threads;
mod names;
mod number_name;
mod number_words;
mod printing;
mod system_line;
mod thread_name;

pub use crate::json_end::print_summary_end;
pub use crate::json_head::print_summary_head;
pub use crate::json_ids::print_module_ids;
pub use crate::json_modules::print_module_front;
pub use crate::json_threads::{print_thread_object, print_threads_front};
pub use crate::names::SummaryNames;
pub use crate::printing::print_summary;
