//! Files as bytes that may fail to come, and texts as bytes that may fail to go.
//!
//! A [`Store`] gives the bytes of a file, a few at a time, and a [`Source`] makes whole fetches of
//! it and counts them. A [`Window`] slides over a stretch of a file, so that many small pieces that
//! stand one behind the other take few fetches. An [`Out`] takes the bytes of a text or a dump. The
//! stores are [`MemoryStore`], [`FileStore`] and, for tests, [`PatchyStore`] and [`TwoFaces`]; the
//! outputs are [`WriteOut`] over any writer of std and, for tests, [`PatchyOut`].
//!
//! Beside them stand the tests of place that every layer above makes: [`inside`], and the class of
//! a [`Location`].
//!
//! ```text
//! let mut source = Source::new(MemoryStore::new(b"MDMP"));
//! let mut signature = [0; 4];
//! source.fetch(0, &mut signature)?;
//! ```
//!
//! `crates/mdmp_base_tests` fetches so, and `crates/mdmp_example_modules` opens a file of the system.
#![tactic(auto)]

mod blocked_file;
mod calls;
mod fault;
mod file_block;
mod file_store;
mod let_go;
mod location;
mod memory_store;
mod output;
mod patchy_out;
mod patchy_store;
mod placed_file;
mod proof_hints;
mod range;
mod source;
mod store;
mod two_faces;
mod window;
mod write_out;

pub use crate::fault::SourceFault;
pub use crate::file_store::FileStore;
pub use crate::let_go::LetGo;
pub use crate::location::{Extent, Location};
pub use crate::memory_store::MemoryStore;
pub use crate::output::{Out, OutFailed, send, write_all};
pub use crate::patchy_out::PatchyOut;
pub use crate::patchy_store::PatchyStore;
pub use crate::range::inside;
pub use crate::source::Source;
pub use crate::store::{Store, StoreCounts, StoreFailed};
pub use crate::two_faces::TwoFaces;
pub use crate::window::Window;
pub use crate::write_out::WriteOut;
