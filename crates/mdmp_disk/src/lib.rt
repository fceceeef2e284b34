//! Files by their names: which are opened, and which are made; and standard input.
//!
//! A [`Disk`] opens files for reading, makes files where there are none, and reads standard input. It has no
//! other call, so code that is given a disk alone can neither write over a file nor remove one, and its contract
//! can say which files it read and made. [`SystemDisk`] is the system's, of whose files no contract knows
//! anything; a [`MemoryDisk`] has files in memory.
#![tactic(auto)]

mod disk;
mod input;
mod memory_disk;
mod system_disk;

pub use crate::disk::{Disk, DiskRefused, Requests};
pub use crate::input::InputRefused;
pub use crate::memory_disk::{GivenFile, GivenInput, MemoryDisk};
pub use crate::system_disk::{NewFile, SystemDisk};
