//! The disk of the system.
ghost use Rattle.std.specs.Prelude.{IfOk, None, false};
ghost use Rattle.mdmp_source.specs.Store.{IsNew};

use crate::disk::{Disk, DiskRefused, Requests};
use crate::input::{InputRefused, read_all};
use mdmp_source::{FileStore, Out, OutFailed, Store, WriteOut};
use std::alloc::{Alloc, Allocator};
use std::fs::{self, Metadata, OpenOptions};
use std::io::Read;
use std::os::unix::fs::FileTypeExt;
use std::rt::Files;

/// The files of the system, and standard input. No contract knows any of them.
#[derive(Drop)]
pub struct SystemDisk<'a, R> {
    rt: &'a R,
    /// Whether standard input was read, to its end or not.
    has_read: bool,
    requests: Requests,
}

impl<'a, R: Files + Input + Alloc> SystemDisk<'a, R> {
    ghost use Rattle.std.specs.Prelude.{◌≡◌};
    ghost use Rattle.mdmp_disk.specs.System.{no_requests, system};

    /// The files that this runtime reaches. Each that is opened takes its block from the runtime's memory.
    pub fn new(rt: &'a R) -> Self
        ensures { ⟦<SystemDisk<'a, R> as Disk>⟧.state result ≡ system no_requests }
    {
        SystemDisk {
            rt,
            has_read: false,
            requests: Requests::new(),
        }
    }
}

impl<R: Files + Input + Alloc> Disk for SystemDisk<'_, R> {
    ghost use Rattle.mdmp_disk.specs.System.{system};

    type File = FileStore<R::File, R::A>;

    type Made = NewFile<WriteOut<R::File>>;

    ghost state = { λ d. system d.requests };

    /// A folder, a pipe and a socket are refused, and so is a regular file that has bytes although its size is 0, as
    /// those of `/proc` do.
    fn open(&mut self, name: &str) -> Result<Self::File, DiskRefused> {
        let answer = open_dump(self.rt, name);
        self.requests.count_open(answer.is_ok());
        answer
    }

    fn create_new(&mut self, name: &str) -> Result<Self::Made, DiskRefused> {
        let made = OpenOptions::new()
            .write(true)
            .create_new(true)
            .open(self.rt, name);
        match made {
            Ok(file) => {
                self.requests.count_make(true);
                Ok(NewFile {
                    out: WriteOut::new(file),
                })
            }
            Err(_) => {
                self.requests.count_make(false);
                Err(DiskRefused)
            }
        }
    }

    /// The file is closed where it is dropped.
    fn close(&mut self, _name: &str, _made: Self::Made) {}

    /// A pipe and a terminal are read as well as a file, once: later calls find no bytes.
    fn read_input<A: Allocator>(
        &mut self,
        alloc: A,
        most: u64,
    ) -> Result<Vec<u8, A>, InputRefused> {
        let answer = if self.has_read {
            Ok(Vec::new(alloc))
        } else {
            read_all(self.rt.reader(), alloc, most)
        };
        self.has_read = true;
        self.requests.count_read(answer.is_ok());
        answer
    }
}

/// Opens the file of this name, if it can be a dump.
// A pipe is told by its name, before it is opened: to open it would wait for somebody who writes to it.
fn open_dump<R: Files + Alloc>(rt: &R, name: &str) -> Result<FileStore<R::File, R::A>, DiskRefused>
    ensures { IfOk result (λ store. IsNew (⟦<FileStore<R::File, R::A> as Store>⟧.state store) None false) }
{
    let metadata = fs::metadata(rt, name).map_err(|_| DiskRefused)?;
    if !has_bytes_in_place(&metadata) || has_hidden_bytes(rt, name, &metadata)? {
        return Err(DiskRefused);
    }
    FileStore::open(rt, name).map_err(|_| DiskRefused)
}

/// Whether what has this metadata is read at places of its own: no folder, pipe or socket is.
fn has_bytes_in_place(metadata: &Metadata) -> bool {
    let kind = metadata.file_type();
    !kind.is_dir() && !kind.is_fifo() && !kind.is_socket()
}

/// Whether a regular file gives a byte although its size is 0.
fn has_hidden_bytes<R: Files>(
    rt: &R,
    name: &str,
    metadata: &Metadata,
) -> Result<bool, DiskRefused> {
    if !metadata.is_file() || metadata.len() > 0 {
        return Ok(false);
    }
    let mut file = fs::open(rt, name).map_err(|_| DiskRefused)?;
    let count = file.read(&mut [0]).map_err(|_| DiskRefused)?;
    Ok(count > 0)
}

/// A file of the system that was made. No contract knows its bytes. It hands on what it is given to the output below it.
#[derive(Drop)]
pub struct NewFile<O> {
    out: O,
}

impl<O: Out> Out for NewFile<O> {
    ghost use Rattle.std.specs.Prelude.{◌≡◌, ◌≤◌, ◌||◌, IfOk, None, OnErr, is_err, length, take};
    ghost use Rattle.mdmp_source.specs.Output.{Keeps, OutState, Takes, refused_if};
    ghost use Rattle.mdmp_source.specs.Store.{is_empty_answer};

    ghost state = { λ f. record { taken = None; failures = (O.state f.out).failures } };

    fn write(&mut self, bytes: &[u8]) -> Result<usize, OutFailed>
        ensures bound { IfOk result (λ k. k ≤ length bytes.now) }
        // The output below it took the first of these bytes, or none.
        ensures took { IfOk result (λ k. Takes (O.state self.old.out).taken (take k bytes.now) (O.state self.new.out).taken) }
        ensures none { OnErr result (Keeps (O.state self.old.out).taken (O.state self.new.out).taken) }
        ensures failures { (O.state self.new.out).failures
            ≡ refused_if (is_err result || is_empty_answer result (length bytes.now)) (O.state self.old.out).failures }
    {
        self.out.write(bytes)
    }
}
