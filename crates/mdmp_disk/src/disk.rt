//! What opens and makes files by their names, and reads standard input.

use crate::input::InputRefused;
use mdmp_source::{Out, Store};
use std::alloc::Allocator;

/// A file could not be opened, or not be made.
#[derive(Clone, Copy, Debug, PartialEq, Eq)]
pub struct DiskRefused;

/// How many files a disk opened and made, how often it read standard input, and how often it refused. A count
/// that has reached its greatest value stays there.
#[derive(Clone, Copy, Debug, PartialEq, Eq)]
pub struct Requests {
    /// Files that were opened.
    pub opened: u128,
    /// Files that were made.
    pub made: u128,
    /// How often standard input was read to its end.
    pub inputs: u128,
    /// Calls that answered an error.
    pub refused: u128,
}

impl Requests {
    ghost use Rattle.std.specs.Prelude.{◌≡◌};
    ghost use Rattle.mdmp_disk.specs.Disk.{open_counted, make_counted, read_counted};
    ghost use Rattle.mdmp_disk.specs.System.{no_requests};

    /// No calls yet.
    pub fn new() -> Self
        ensures { result ≡ no_requests }
    {
        Requests {
            opened: 0,
            made: 0,
            inputs: 0,
            refused: 0,
        }
    }

    /// Counts a call of `open` with this answer.
    pub fn count_open(&mut self, is_opened: bool)
        ensures { self.new ≡ open_counted is_opened self.old }
    {
        if is_opened {
            self.opened = self.opened.saturating_add(1);
        } else {
            self.refused = self.refused.saturating_add(1);
        }
    }

    /// Counts a call of `create_new` with this answer.
    pub fn count_make(&mut self, is_made: bool)
        ensures { self.new ≡ make_counted is_made self.old }
    {
        if is_made {
            self.made = self.made.saturating_add(1);
        } else {
            self.refused = self.refused.saturating_add(1);
        }
    }

    /// Counts a call of `read_input` with this answer.
    pub fn count_read(&mut self, is_read: bool)
        ensures { self.new ≡ read_counted is_read self.old }
    {
        if is_read {
            self.inputs = self.inputs.saturating_add(1);
        } else {
            self.refused = self.refused.saturating_add(1);
        }
    }
}

/// Files by their names, of which some can be read, and others made, and standard input.
///
/// No call changes a file that is there, and none removes one. Of the system's files nothing is
/// known; a disk in memory knows all of its own. A program that is proved over every disk is proved
/// over those in memory, so it opens and makes the files that it was told to, of the system too.
// `std::rt::Files` can remove, rename and write over files, so no clause over it could say what is left.
pub trait Disk {
    ghost use Rattle.std.specs.Prelude.{◌≡◌, IfErr, IfOk, IsOk, IsTrue, OnErr, is_ok};
    ghost use Rattle.mdmp_disk.specs.Disk.{DiskState, FileState, IsClosed, IsMade, IsOpenedFile, after_open, after_reading, present, open_refused};
    ghost use Rattle.mdmp_disk.specs.Input.{IsInput, MayRefuseInput};

    /// A file that was opened.
    type File: Store + Drop;

    /// A file that was made, and takes bytes. It can't be dropped: it is closed.
    type Made: Out;

    /// What is known of each name and of standard input, and the calls so far.
    ghost state: { Self → DiskState };

    /// Opens the file of this name, to be read from its start. No file is changed.
    fn open(&mut self, name: &str) -> Result<Self::File, DiskRefused>
        ensures opened { IfOk result (λ file. IsOpenedFile ((state self.old).files name.now) (Self.File.state file)) }
        ensures gives { (file : FileState) → (state self.old).files name.now ≡ present file → IsTrue file.is_reliable → IsOk result }
        ensures state { state self.new ≡ after_open (is_ok result) (state self.old) };

    /// Makes a file of this name, where there is none. Where it is refused no file is changed.
    fn create_new(&mut self, name: &str) -> Result<Self::Made, DiskRefused>
        ensures made { IfOk result (λ made. IsMade (state self.old) name.now (Self.Made.state made) (state self.new)) }
        ensures refused { OnErr result (state self.new ≡ open_refused (state self.old)) };

    /// Closes a file that was made under this name: what it took is its bytes.
    fn close(&mut self, name: &str, made: Self::Made)
        requires { IsTrue ((state self.old).is_making name.now) }
        ensures { IsClosed (state self.old) name.now (Self.Made.state made) (state self.new) };

    /// Reads standard input into memory, to its end. Nothing is left for the next call, which finds no bytes. No file
    /// is changed.
    // The bytes are owned, and no store: a `MemoryStore` over them is one whose content is known.
    fn read_input<A: Allocator>(&mut self, alloc: A, most: u64) -> Result<Vec<u8, A>, InputRefused>
        ensures read { IfOk result (λ bytes. IsInput (state self.old).input most bytes.items) }
        ensures refused { IfErr result (MayRefuseInput (state self.old).input most) }
        ensures state { state self.new ≡ after_reading (is_ok result) (state self.old) };
}
