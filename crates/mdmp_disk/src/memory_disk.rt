//! A disk in memory: for tests, and for programs that have their files there.
ghost use Rattle.std.specs.Prelude.{◌≡◌, IfErr, IfOk};
ghost use Rattle.mdmp_disk.specs.Input.{IsInput, MayRefuseInput};
ghost use Rattle.mdmp_disk.specs.Memory.{given_at, given_input, known_of};

use crate::disk::{Disk, DiskRefused, Requests};
use crate::input::InputRefused;
use mdmp_source::{PatchyStore, WriteOut};
use std::alloc::Allocator;

/// How many bytes a read gives at most: all that are asked for.
const ALL: [usize; 1] = [usize::MAX];

/// A file that is given to a disk in memory.
#[derive(Clone, Copy)]
pub struct GivenFile<'a> {
    pub name: &'a str,
    pub bytes: &'a [u8],
    /// The number of the read that fails once the file was opened, counted from 0, or none.
    pub fail_at: Option<u64>,
}

/// What standard input gives to a disk in memory.
#[derive(Clone, Copy)]
pub struct GivenInput<'a> {
    pub bytes: &'a [u8],
    /// Behind how many bytes reading fails, or none.
    pub fail_at: Option<u64>,
}

impl GivenInput<'_> {
    /// Reads all bytes, of which at most so many are wanted.
    fn read<A: Allocator>(self, alloc: A, most: u64) -> Result<Vec<u8, A>, InputRefused>
        ensures read { IfOk result (λ bytes. IsInput (given_input self.entry) most bytes.items) }
        ensures refused { IfErr result (MayRefuseInput (given_input self.entry) most) }
    {
        let size = self.bytes.len() as u64;
        match self.fail_at {
            Some(at) if at <= size.min(most) => Err(InputRefused::Failed { at }),
            _ if size > most => Err(InputRefused::TooLong),
            _ => Vec::from_slice(alloc, self.bytes).map_err(|_| InputRefused::Memory),
        }
    }
}

/// A disk in memory: files that it borrows, which it opens without fail, at most one file that is made, and
/// standard input. A second file is not made: that is refused.
#[derive(Drop)]
pub struct MemoryDisk<'a, A: Allocator> {
    alloc: A,
    given: &'a [GivenFile<'a>],
    input: GivenInput<'a>,
    /// Whether a file was made, or is being made.
    has_made: bool,
    made_name: Vec<u8, A>,
    made_bytes: Vec<u8, A>,
    requests: Requests,
}

impl<'a, A: Allocator + Copy> MemoryDisk<'a, A> {
    ghost use Rattle.std.specs.Prelude.{◌≡◌, false, List, [], ℕ, Some, IfSome};
    ghost use Rattle.mdmp_disk.specs.Disk.{absent, bytes_of_file};
    ghost use Rattle.mdmp_disk.specs.Memory.{IsShown, given_at, given_input, memory_state, no_input};
    ghost use Rattle.mdmp_disk.specs.System.{no_requests};

    /// The disk of these files. Standard input has no bytes.
    pub fn new(alloc: A, given: &'a [GivenFile<'a>]) -> Self
        ensures { ⟦<MemoryDisk<'a, A> as Disk>⟧.state result ≡ memory_state given.now no_input false [] [] no_requests }
    {
        let input = GivenInput {
            bytes: b"",
            fail_at: None,
        };
        Self::with_input(alloc, given, input)
    }

    /// The disk of these files and this standard input.
    pub fn with_input(alloc: A, given: &'a [GivenFile<'a>], input: GivenInput<'a>) -> Self
        ensures { ⟦<MemoryDisk<'a, A> as Disk>⟧.state result ≡ memory_state given.now (given_input input.entry) false [] [] no_requests }
    {
        MemoryDisk {
            alloc,
            given,
            input,
            has_made: false,
            made_name: Vec::new(alloc),
            made_bytes: Vec::new(alloc),
            requests: Requests::new(),
        }
    }

    /// The bytes of the file of this name, as they stand.
    pub fn bytes(&self, name: &str) -> Option<&[u8]>
        ensures { IsShown result (bytes_of_file ((⟦<MemoryDisk<'a, A> as Disk>⟧.state self.now).files name.now)) }
    {
        if self.has_made && self.made_name.as_slice() == name.as_bytes() {
            return Some(&self.made_bytes);
        }
        match find_given(self.given, name) {
            Some(file) => Some(file.bytes),
            None => None,
        }
    }

    /// How many files were opened and made so far, and how often it refused.
    pub fn requests(&self) -> Requests
        ensures { result ≡ (⟦<MemoryDisk<'a, A> as Disk>⟧.state self.now).requests }
    {
        self.requests
    }

    /// The name of a file that can be made, kept.
    fn vacant(&self, name: &str) -> Option<Vec<u8, A>>
        ensures kept { IfSome result (λ kept. kept.items ≡ name.now) }
        ensures none { IfSome result (λ _. self.now.has_made ≡ false) }
        ensures absent { IfSome result (λ _. given_at self.now.given.now name.now ≡ absent) }
    {
        if self.has_made {
            return None;
        }
        match find_given(self.given, name) {
            Some(_) => None,
            None => Vec::from_slice(self.alloc, name.as_bytes()).ok(),
        }
    }
}

/// The first file of this name.
fn find_given<'a>(files: &'a [GivenFile<'a>], name: &str) -> Option<GivenFile<'a>>
    ensures { given_at files.now name.now ≡ known_of result }
{
    for file in files {
        if file.name == name {
            return Some(*file);
        }
    }
    None
}

impl<'a, A: Allocator + Copy> Disk for MemoryDisk<'a, A> {
    ghost use Rattle.std.specs.Prelude.{◌≡◌, IfOk, IsOk, IsTrue, is_ok};
    ghost use Rattle.mdmp_source.specs.Patchy.{patchy_state};
    ghost use Rattle.mdmp_disk.specs.Disk.{FileState, IsOpenedFile, after_open, present};
    ghost use Rattle.mdmp_disk.specs.Memory.{FailsAsGiven, given_input, memory_files, memory_state};

    type File = PatchyStore<'a>;

    type Made = WriteOut<Vec<u8, A>>;

    ghost state = { λ d. memory_state d.given.now (given_input d.input) d.has_made d.made_name.items d.made_bytes.items d.requests };

    /// The file that was made is not opened. The store over another one fails in the read that was given with it.
    fn open(&mut self, name: &str) -> Result<PatchyStore<'a>, DiskRefused>
        ensures opened { IfOk result (λ file. IsOpenedFile (memory_files self.old.given.now self.old.has_made self.old.made_name.items self.old.made_bytes.items name.now) (patchy_state file)) }
        ensures gives { (file : FileState) → memory_files self.old.given.now self.old.has_made self.old.made_name.items self.old.made_bytes.items name.now ≡ present file
            → IsTrue file.is_reliable → IsOk result }
        ensures state { memory_state self.new.given.now (given_input self.new.input) self.new.has_made self.new.made_name.items self.new.made_bytes.items self.new.requests
            ≡ after_open (is_ok result)
            (memory_state self.old.given.now (given_input self.old.input) self.old.has_made self.old.made_name.items self.old.made_bytes.items self.old.requests) }
        // What this disk says beside any other.
        ensures fails { IfOk result (λ file. FailsAsGiven (memory_files self.old.given.now self.old.has_made self.old.made_name.items self.old.made_bytes.items name.now) file.fail_at) }
    {
        let is_made = self.has_made && self.made_name.as_slice() == name.as_bytes();
        if is_made {
            self.requests.count_open(false);
            return Err(DiskRefused);
        }
        match find_given(self.given, name) {
            Some(file) => {
                self.requests.count_open(true);
                Ok(PatchyStore::new(file.bytes, &ALL, file.fail_at))
            }
            None => {
                self.requests.count_open(false);
                Err(DiskRefused)
            }
        }
    }

    fn create_new(&mut self, name: &str) -> Result<Self::Made, DiskRefused> {
        let Some(kept) = self.vacant(name) else {
            self.requests.count_make(false);
            return Err(DiskRefused);
        };
        self.has_made = true;
        self.made_name = kept;
        self.made_bytes = Vec::new(self.alloc);
        self.requests.count_make(true);
        Ok(WriteOut::new(Vec::new(self.alloc)))
    }

    fn close(&mut self, _name: &str, made: Self::Made) {
        self.made_bytes = made.into_inner();
    }

    fn read_input<B: Allocator>(
        &mut self,
        alloc: B,
        most: u64,
    ) -> Result<Vec<u8, B>, InputRefused> {
        let answer = self.input.read(alloc, most);
        self.input.bytes = b"";
        self.requests.count_read(answer.is_ok());
        answer
    }
}
