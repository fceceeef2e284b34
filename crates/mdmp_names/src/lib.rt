//! Names of the numbers of a dump, as headers have them.
//!
//! [`exception_name`] and [`flags_name`] name the code and the flags of an exception, [`platform_words`] and
//! [`architecture_words`] say what a system and its processor are called, [`stream_name`] names the type of a
//! stream. A number that has no name here is printed as it is. The tables are made of bindings/names.toml by
//! `bindings/generate`, each as a static and as a list in the definitions that the contracts cite.
//!
//! ```text
//! exception_name(0x8201, 11) // Some("SIGSEGV")
//! flags_name(0x8201, 9, 11, 1) // Some("SEGV_MAPERR")
//! platform_words(2) // Some("Windows")
//! stream_name(3) // Some("ThreadListStream")
//! ```
#![tactic(auto)]

mod architectures;
mod exceptions;
mod linux_codes;
mod linux_signals;
mod mach_arm_codes;
mod mach_codes;
mod mach_exceptions;
mod mach_x86_codes;
mod platforms;
mod si_codes;
mod stream_types;
mod table;
mod windows_exceptions;

pub use crate::architectures::architecture_words;
pub use crate::exceptions::{exception_name, flags_name};
pub use crate::platforms::platform_words;
pub use crate::stream_types::stream_name;
