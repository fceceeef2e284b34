//! A runtime that stands before another one, whose call of the system with one number alone fails.
use std::alloc::{Alloc, Allocator};
use std::cell::Cell;
use std::fs::{Metadata, OpenFile, OpenOptions};
use std::io;
use std::io::{ErrorKind, Lines, Read, Seek, SeekFrom, Write};
use std::rt::Files;

/// The calls of files of a runtime.
#[derive(Drop)]
pub struct FileCalls {
    /// How many calls there were.
    pub made: Cell<u64>,
    /// How many bytes the reads among them asked for.
    pub asked: Cell<u64>,
}

/// No call of the system fails.
pub const NONE_FAILS: u64 = u64::MAX;

/// Counts a call, and fails with the one that has to.
fn count(calls: &FileCalls, fail_at: u64) -> io::Result<()> {
    let call = calls.made.get();
    calls.made.set(call.wrapping_add(1));
    if call == fail_at {
        return Err(io::Error::from(ErrorKind::OutOfMemory));
    }
    Ok(())
}

/// The files of a runtime, of which a call fails. What looks up, opens, asks for the size, seeks, reads and writes is
/// counted, from 0 on.
#[derive(Drop)]
pub struct FailingSystem<'r, 'a, R> {
    pub rt: &'r R,
    pub calls: &'a FileCalls,
    /// Which of the calls fails.
    pub fail_at: u64,
}

/// A file that was opened.
#[derive(Drop)]
pub struct FailingFile<'a, F> {
    file: F,
    calls: &'a FileCalls,
    fail_at: u64,
}

impl<R: Alloc> Alloc for FailingSystem<'_, '_, R> {
    type A = R::A;

    fn alloc(&self) -> R::A {
        self.rt.alloc()
    }
}

/// Standard input is that of the runtime, and does not fail.
impl<R: Input> Input for FailingSystem<'_, '_, R> {
    type Reader = R::Reader;

    fn read_line<A: Allocator + Clone>(&self, buf: &mut String<A>) -> io::Result<usize> {
        self.rt.read_line(buf)
    }

    fn lines<A: Allocator>(&self, alloc: A) -> Lines<R::Reader, A> {
        self.rt.lines(alloc)
    }

    fn reader(&self) -> R::Reader {
        self.rt.reader()
    }
}

impl<'a, R: Files> Files for FailingSystem<'_, 'a, R> {
    type File = FailingFile<'a, R::File>;

    type Dir = R::Dir;

    fn open_file(&self, how: &OpenOptions, path: &str) -> io::Result<FailingFile<'a, R::File>> {
        count(self.calls, self.fail_at)?;
        let file = self.rt.open_file(how, path)?;
        Ok(FailingFile {
            file,
            calls: self.calls,
            fail_at: self.fail_at,
        })
    }

    fn open_dir(&self, path: &str) -> io::Result<R::Dir> {
        self.rt.open_dir(path)
    }

    fn metadata(&self, path: &str) -> io::Result<Metadata> {
        count(self.calls, self.fail_at)?;
        self.rt.metadata(path)
    }

    fn symlink_metadata(&self, path: &str) -> io::Result<Metadata> {
        self.rt.symlink_metadata(path)
    }

    fn copy(&self, from: &str, to: &str) -> io::Result<u64> {
        self.rt.copy(from, to)
    }

    fn rename(&self, from: &str, to: &str) -> io::Result<()> {
        self.rt.rename(from, to)
    }

    fn remove_file(&self, path: &str) -> io::Result<()> {
        self.rt.remove_file(path)
    }

    fn create_dir(&self, path: &str) -> io::Result<()> {
        self.rt.create_dir(path)
    }

    fn remove_dir(&self, path: &str) -> io::Result<()> {
        self.rt.remove_dir(path)
    }

    fn remove_dir_all<B: Allocator>(&self, alloc: B, path: &str) -> io::Result<()> {
        self.rt.remove_dir_all(alloc, path)
    }
}

impl<F: OpenFile> OpenFile for FailingFile<'_, F> {
    fn metadata(&self) -> io::Result<Metadata> {
        count(self.calls, self.fail_at)?;
        self.file.metadata()
    }

    fn set_len(&self, size: u64) -> io::Result<()> {
        self.file.set_len(size)
    }

    fn sync_all(&self) -> io::Result<()> {
        self.file.sync_all()
    }

    fn sync_data(&self) -> io::Result<()> {
        self.file.sync_data()
    }
}

impl<F: Read> Read for FailingFile<'_, F> {
    fn read(&mut self, buf: &mut [u8]) -> io::Result<usize> {
        count(self.calls, self.fail_at)?;
        let asked = self.calls.asked.get();
        self.calls.asked.set(asked.wrapping_add(buf.len() as u64));
        self.file.read(buf)
    }
}

impl<F: Write> Write for FailingFile<'_, F> {
    fn write(&mut self, buf: &[u8]) -> io::Result<usize> {
        count(self.calls, self.fail_at)?;
        self.file.write(buf)
    }

    fn flush(&mut self) -> io::Result<()> {
        self.file.flush()
    }
}

impl<F: Seek> Seek for FailingFile<'_, F> {
    fn seek(&mut self, to: SeekFrom) -> io::Result<u64> {
        count(self.calls, self.fail_at)?;
        self.file.seek(to)
    }
}
