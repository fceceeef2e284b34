//! Minidumps, written.
//!
//! [`write_dump`] writes the dump of a view to an output, from front to back: the header, the directory,
//! each stream with its names and parts behind it, and behind all streams the bytes of 64-bit memory.
//! It gathers what it writes in the caller's buffer, takes no memory, and refuses a dump that can't be
//! written before any byte goes out. [`written_size`] tells beforehand how many bytes a dump has, or why
//! it can't be written ([`LayoutFault`]).
//!
//! ```text
//! let mut out = WriteOut::new(fs::create(&rt, "copy.dmp")?);
//! let mut buffer = [0; 4096];
//! let size = write_dump(&mut dump.view(), &mut out, &mut buffer)?;
//! ```
//!
//! `crates/mdmp_example_rewrite` is the whole of it, and is run.
//!
//! [`to_memory`] gives a dump's bytes in memory, and [`write_and_read`] reads them back: what comes back is
//! the dump. A stream whose records are not known is written as its bytes, and offsets in them are not
//! moved.
//!
//! The definitions in `specs/Layout.antt` say where what is written stands and why a dump can't be
//! written, those in `specs/Written.antt` which bytes it has. That a file with those bytes lays out the
//! dump is a law, a function that does nothing: [`what_is_written_is_laid_out`].
#![tactic(auto)]

mod block_out;
mod body_out;
mod dump_out;
mod far_out;
mod fault;
mod gather;
mod head_out;
mod laws;
mod layout;
mod parts_out;
mod pieces;
mod place;
mod record_bytes;
mod record_texts;
mod round_trip;
mod sizes;
mod streams_out;

pub use crate::dump_out::write_dump;
pub use crate::fault::{LayoutFault, WriteFault};
pub use crate::laws::what_is_written_is_laid_out;
pub use crate::layout::written_size;
pub use crate::round_trip::{RoundTripFault, ToMemoryFault, to_memory, write_and_read};
